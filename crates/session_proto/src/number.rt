ghost use Rattle.std.specs.Prelude.{◌≡◌};
ghost use Rattle.session_proto.specs.Request.{number_of, has_own_form};

use decimal_digits::decimal;

/// The number that a word of a request writes.
#[tactic(auto, unfolding(crate::specs::Request::number_of))]
pub fn number(word: &[u8]) -> Option<u64>
    ensures { result ≡ number_of word.now }
{
    if has_own_form(word) {
        decimal(word)
    } else {
        None
    }
}

// Whether the word isn't empty and has no leading zero.
fn has_own_form(word: &[u8]) -> bool
    ensures { result ≡ has_own_form word.now }
{
    match word {
        [] => false,
        [_] => true,
        [first, ..] => *first != b'0',
    }
}
