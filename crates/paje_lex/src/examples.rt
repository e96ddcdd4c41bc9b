//! What the definitions give on texts whose answers are known.

ghost use Rattle.std.specs.Prelude.{◌≡◌, [], ◌∷◌, ◌++◌, map, codes, replicate, true, false, Ok, Err};
ghost use Rattle.paje_lex.specs.DateReading.{date_of};
ghost use Rattle.paje_lex.specs.LineKinds.{is_skipped_line, is_definition_line};
ghost use Rattle.paje_lex.specs.LineGrammar.{Lexes, token};

use crate::date_fault::DateFault;
use crate::lex_fault::LexFault;

/// Dates and their nanoseconds.
#[tactic(auto, unfolding(crate::specs::DateReading::parts_of, crate::specs::DateReading::exponent_of))]
pub fn date_examples()
    ensures values { map date_of (codes "1e-05" ∷ codes "0.0000000019" ∷ codes ".5" ∷ codes "5."
        ∷ codes "-0.0" ∷ codes "+2" ∷ codes "4611686018.427387904" ∷ codes "0e30" ∷ [])
        ≡ Ok 10000 ∷ Ok 1 ∷ Ok 500000000 ∷ Ok 5000000000 ∷ Ok 0 ∷ Ok 2000000000 ∷ Ok 4611686018427387904
        ∷ Ok 0 ∷ [] }
    ensures big { map date_of (codes "4611686018.4273879040000000001" ∷ codes "4611686018.427387905"
        ∷ codes "1e30" ∷ [])
        ≡ replicate 3 (Err DateFault.Big) }
    ensures negative { map date_of (codes "-1" ∷ codes "-1e-30" ∷ [])
        ≡ replicate 2 (Err DateFault.Negative) }
    ensures shape { map date_of (codes "1e31" ∷ codes "1e12345" ∷ codes "." ∷ [] ∷ codes "+" ∷ codes "1e"
        ∷ codes "1.2.3" ∷ codes "0x1" ∷ codes " 1" ∷ codes "1\r" ∷ codes "-1x" ∷ [])
        ≡ replicate 11 (Err DateFault.Shape) }
    ensures long { date_of (replicate 1000 48 ++ codes "1") ≡ Ok 1000000000 }
{}

/// Lines and where their tokens stand.
pub fn token_examples()
    ensures spaced { Lexes (codes "4 0.1\tS  p0 ") (Ok (token 0 1 ∷ token 2 5 ∷ token 6 7 ∷ token 9 11
        ∷ [])) }
    ensures definition { Lexes (codes " \t%EventDef X 4") (Ok (token 3 11 ∷ token 12 13 ∷ token 14 15
        ∷ [])) }
    ensures field { Lexes (codes "% Time date") (Ok (token 2 6 ∷ token 7 11 ∷ [])) }
    ensures none { Lexes (codes "%") (Ok []) }
    ensures percent { Lexes (codes "5 %a") (Ok (token 0 1 ∷ token 2 4 ∷ [])) }
    ensures quoted { Lexes (codes "2 \"rank 0\" x") (Ok (token 0 1 ∷ token 3 9 ∷ token 11 12 ∷ [])) }
    ensures empty { Lexes (codes "\"\"\"\"") (Ok (token 1 1 ∷ token 3 3 ∷ [])) }
    ensures joined { Lexes (codes "\"a\"b\"c\"") (Ok (token 1 2 ∷ token 3 7 ∷ [])) }
    ensures inside { Lexes (codes "a\"b c") (Ok (token 0 3 ∷ token 4 5 ∷ [])) }
    ensures return_ { Lexes (codes "a\r b") (Ok (token 0 2 ∷ token 3 4 ∷ [])) }
    ensures open_ { Lexes (codes "a \"b") (Err (LexFault.OpenQuote 2)) }
    ensures open_later { Lexes (codes "\"a\"\" b") (Err (LexFault.OpenQuote 3)) }
    ensures open_definition { Lexes (codes "%\"") (Err (LexFault.OpenQuote 1)) }
    ensures text { Lexes (97 ∷ 195 ∷ 169 ∷ []) (Ok (token 0 3 ∷ [])) }
    ensures not_text { Lexes (97 ∷ 255 ∷ 34 ∷ []) (Err (LexFault.NotText 1)) }
    ensures text_cut { Lexes (195 ∷ 169 ∷ 195 ∷ []) (Err (LexFault.NotText 2)) }
{}

/// Which lines are skipped, and which define something.
pub fn line_examples()
    ensures skipped { map is_skipped_line ([] ∷ codes " \t" ∷ codes "\t# a" ∷ codes "a #" ∷ codes "%" ∷ [])
        ≡ true ∷ true ∷ true ∷ false ∷ false ∷ [] }
    ensures definitions { map is_definition_line ([] ∷ codes " \t" ∷ codes " \t%a" ∷ codes "a %" ∷ codes "# %"
        ∷ [])
        ≡ false ∷ false ∷ true ∷ false ∷ false ∷ [] }
{}
