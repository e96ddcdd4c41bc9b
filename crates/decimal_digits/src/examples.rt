//! The definition of a word's number, computed on words whose numbers are known.

ghost use Rattle.std.specs.Prelude.{◌≡◌, [], ◌∷◌, ◌++◌, codes, map, replicate, None, Some};
ghost use Rattle.decimal_digits.specs.Decimal.{decimal_of};

/// Words and their numbers.
pub fn decimal_examples()
    ensures numbers { map decimal_of (codes "0" ∷ codes "7" ∷ codes "0012" ∷ codes "18446744073709551615"
        ∷ [])
        ≡ Some 0 ∷ Some 7 ∷ Some 12 ∷ Some 18446744073709551615 ∷ [] }
    ensures long { decimal_of (replicate 100 48 ++ codes "9") ≡ Some 9 }
    ensures large { map decimal_of (codes "18446744073709551616" ∷ codes "99999999999999999999" ∷ [])
        ≡ replicate 2 None }
    ensures none { map decimal_of ([] ∷ codes "+1" ∷ codes "-1" ∷ codes " 1" ∷ codes "1 " ∷ codes "1a"
        ∷ codes "0x1" ∷ codes "1_0" ∷ codes "1.0" ∷ [])
        ≡ replicate 9 None }
{}
