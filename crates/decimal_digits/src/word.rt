ghost use Rattle.std.specs.Prelude.{◌≡◌};
ghost use Rattle.decimal_digits.specs.Decimal.{decimal_of};

use crate::digits::Digits;

/// The number of a word of one or more ASCII digits, where it is below 2^64; `None` for any other word. Zeros
/// may stand in front, and no sign may.
pub fn decimal(word: &[u8]) -> Option<u64>
    ensures { result ≡ decimal_of word.now }
{
    let (digits, count) = Digits::new().read(word);
    if word.is_empty() || count < word.len() {
        return None;
    }
    digits.value()
}
