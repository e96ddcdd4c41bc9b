ghost use Rattle.std.specs.Prelude.{◌≡◌, ℕ, ◌+◌, ◌*◌, ◌^◌, ◌<◌, ◌≤◌, ◌↔◌, ◌⊎◌, List, [], ◌∷◌, ◌++◌};
ghost use Rattle.std.specs.Prelude.{length, take, IsTrue, MatchOption};
ghost use Rattle.std.specs.List.{prefix_len};
ghost use Rattle.std.specs.Char.{is_ascii_digit};
ghost use Rattle.std.specs.Str.Parse.{digits_value};
ghost use Rattle.decimal_digits.specs.Decimal.{below_64_bits};

/// The number that any count of decimal digits writes: exact where it is below 2^64; else its first digits,
/// and what is known of those that follow.
#[derive(Clone, Copy, Debug, PartialEq, Eq)]
pub struct Digits {
    /// The number of the first digits, as many of them as are below 2^64 together.
    pub head: u64,
    /// How many digits follow those. It is 0 exactly where the number of all is below 2^64.
    pub more: usize,
    /// Whether one that follows isn't 0.
    pub tail: bool,
}

impl Digits {
    ghost use Rattle.decimal_digits.specs.Held.{Holds};

    /// No digits, which is the number 0.
    pub fn new() -> Digits
        ensures number { Holds result [] }
        ensures none { result.more ≡ 0 }
    {
        Digits {
            head: 0,
            more: 0,
            tail: false,
        }
    }

    /// Whether the number is 0.
    pub fn is_zero(self) -> bool
        ensures { (digits : List ℕ) → Holds self digits → IsTrue result ↔ (digits_value 10 digits ≡ 0) }
    {
        self.head == 0
    }

    /// The number, where it is below 2^64.
    pub fn value(self) -> Option<u64>
        ensures { (digits : List ℕ) → Holds self digits → result ≡ below_64_bits (digits_value 10 digits) }
    {
        if self.more == 0 {
            Some(self.head)
        } else {
            None
        }
    }

    /// The head with one more digit, where none was left out and that is below 2^64.
    fn longer_head(self, digit: u64) -> Option<u64>
        ensures { MatchOption result ((0 < self.more) ⊎ (2 ^ 64 ≤ 10 * self.head + digit))
            (λ head. (self.more ≡ 0) × (head ≡ 10 * self.head + digit)) }
    {
        if self.more > 0 {
            return None;
        }
        self.head.checked_mul(10)?.checked_add(digit)
    }

    /// The number with one more digit behind it.
    fn with(self, byte: u8) -> Digits
        requires digit { IsTrue (is_ascii_digit byte) }
        requires room { self.more + 1 < 2 ^ 64 }
        ensures number { (digits : List ℕ) → Holds self digits → Holds result (digits ++ byte ∷ []) }
        ensures more { result.more ≤ self.more + 1 }
    {
        let digit = u64::from(byte - b'0');
        if let Some(head) = self.longer_head(digit) {
            return Digits {
                head,
                more: 0,
                tail: false,
            };
        }
        Digits {
            head: self.head,
            more: self.more + 1,
            tail: self.tail || digit != 0,
        }
    }

    /// Adds the digits at the front of the text, and says how many they are.
    pub fn read(self, text: &[u8]) -> (Digits, usize)
        requires { self.more + length text.now < 2 ^ 64 }
        ensures len { result.1 ≡ prefix_len is_ascii_digit text.now }
        ensures within { result.1 ≤ length text.now }
        ensures number { (digits : List ℕ) → Holds self digits
            → Holds result.0 (digits ++ take result.1 text.now) }
        ensures more { result.0.more ≤ self.more + result.1 }
    {
        let mut digits = self;
        for (at, byte) in text.iter().enumerate() {
            if !byte.is_ascii_digit() {
                return (digits, at);
            }
            digits = digits.with(*byte);
        }
        (digits, text.len())
    }
}
