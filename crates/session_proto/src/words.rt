ghost use Rattle.std.specs.Prelude.{◌≡◌, [], ◌∷◌, MatchOption};
ghost use Rattle.session_proto.specs.Request.{words_of};

/// The first word of a line, and what follows the space behind it, if there is one.
pub fn split_word(line: &[u8]) -> (&[u8], Option<&[u8]>)
    ensures { MatchOption result.1 (words_of line.now ≡ result.0.now ∷ [])
        (λ rest. words_of line.now ≡ result.0.now ∷ words_of rest.now) }
{
    for (i, c) in line.iter().enumerate() {
        if *c == b' ' {
            return (&line[..i], Some(&line[i + 1..]));
        }
    }
    (line, None)
}
