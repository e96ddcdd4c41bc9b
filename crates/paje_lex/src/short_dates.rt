//! Dates as most traces have them: digits, a point, and digits up to the nanosecond.

ghost use Rattle.std.specs.Prelude.{◌≡◌, ℕ, ◌+◌, ◌-◌, ◌*◌, ◌^◌, ◌<◌, ◌≤◌, List, ◌++◌, length, take};
ghost use Rattle.std.specs.Prelude.{IfSome, MatchOption, Ok};
ghost use Rattle.std.specs.List.{prefix_len};
ghost use Rattle.std.specs.Char.{is_ascii_digit};
ghost use Rattle.std.specs.Str.Parse.{digits_value};
ghost use Rattle.paje_lex.specs.DateReading.{date_of};

use trace_base::MAX_TIME;

/// The most bytes of a short date. As many digits are a number below 2^64.
const SHORT_DATE: usize = 19;

/// The most digits behind the point of a short date: those of a nanosecond.
const SHORT_PLACES: usize = 9;

/// The number with the digits at the front of a text behind its own, and how many those are.
fn with_digits(number: u64, text: &[u8]) -> (u64, usize)
    requires room { (number + 1) * 10 ^ length text.now ≤ 10 ^ SHORT_DATE }
    ensures len { result.1 ≡ prefix_len is_ascii_digit text.now }
    ensures within { result.1 ≤ length text.now }
    ensures number { (digits : List ℕ) → number ≡ digits_value 10 digits
        → result.0 ≡ digits_value 10 (digits ++ take result.1 text.now) }
    ensures room { (result.0 + 1) * 10 ^ (length text.now - result.1) ≤ 10 ^ SHORT_DATE }
{
    let mut longer = number;
    for (at, byte) in text.iter().enumerate() {
        if !byte.is_ascii_digit() {
            return (longer, at);
        }
        longer = 10 * longer + u64::from(*byte - b'0');
    }
    (longer, text.len())
}

/// The nanoseconds of a number of seconds, of whose digits some stand behind the point; `None` where they are
/// above the greatest time.
fn nanoseconds(number: u64, places: usize) -> Option<u64>
    requires { places ≤ SHORT_PLACES }
    ensures { MatchOption result (MAX_TIME < number * 10 ^ (SHORT_PLACES - places))
        (λ time. (time ≡ number * 10 ^ (SHORT_PLACES - places)) × (time ≤ MAX_TIME)) }
{
    let time = number.checked_mul(10u64.pow((SHORT_PLACES - places) as u32))?;
    if time > MAX_TIME {
        return None;
    }
    Some(time)
}

/// The time of a text that is a short date: it has up to 19 bytes, all digits but for one point, with some
/// before it and up to nine behind it. `None` where it isn't one, or where its time is too great.
pub fn short_date(text: &[u8]) -> Option<u64>
    ensures { IfSome result (λ time. date_of text.now ≡ Ok time) }
{
    if text.len() > SHORT_DATE {
        return None;
    }
    let (whole, count) = with_digits(0, text);
    if count == 0 || count == text.len() || text[count] != b'.' {
        return None;
    }
    let behind = &text[count + 1..];
    let (number, places) = with_digits(whole, behind);
    if places < behind.len() || places > SHORT_PLACES {
        return None;
    }
    nanoseconds(number, places)
}
