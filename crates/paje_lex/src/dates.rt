ghost use Rattle.std.specs.Prelude.{◌≡◌, ℕ, ◌+◌, ◌*◌, ◌/◌, ◌^◌, ◌<◌, ◌≤◌, ◌==◌, ◌↔◌, ◌⊎◌, ◌++◌, length, drop};
ghost use Rattle.std.specs.Prelude.{take, IsTrue, IfOk, IfSome, Option, Some, None, Err, if◌then◌else◌};
ghost use Rattle.std.specs.Str.Parse.{digits_value};
ghost use Rattle.decimal_digits.specs.Held.{Holds};
ghost use Rattle.paje_lex.specs.DateGrammar.{Date, IsDate, date_text, is_minus, tens_of, meaning};
ghost use Rattle.paje_lex.specs.DateGrammar.{numerator, denominator};
ghost use Rattle.paje_lex.specs.DateReading.{date_of, sign_len, exponent_of, exponent_behind};
ghost use Rattle.paje_lex.specs.DateReading.{IsRead, are_exponent_digits, digits_at, places_at};
ghost use Rattle.paje_lex.specs.DateReading.{behind_digits};
ghost use Rattle.std.specs.Option.{option_map};

use crate::date_fault::DateFault;
use crate::powers::scaled;
use crate::short_dates::short_date;
use decimal_digits::{Digits, decimal};

/// The most digits of an exponent.
const EXPONENT_DIGITS: usize = 4;

/// The greatest number of an exponent.
const MAX_EXPONENT: u64 = 30;

/// The length of the sign at the front.
fn sign_length(text: &[u8]) -> usize
    ensures { result ≡ sign_len text.now }
{
    match text {
        [b'+' | b'-', ..] => 1,
        _ => 0,
    }
}

/// The powers of ten that an exponent multiplies and divides by.
#[derive(Clone, Copy)]
struct Tens {
    up: usize,
    down: usize,
}

/// The digits of a date without its point, and the text behind them.
#[derive(Drop)]
struct Mantissa<'a> {
    digits: Digits,
    /// How many they are.
    count: usize,
    /// How many of them stand behind the point.
    places: usize,
    rest: &'a [u8],
}

/// Whether the sign at the front is a minus.
fn is_negative(text: &[u8]) -> bool
    ensures { result ≡ is_minus (take (sign_len text.now) text.now) }
{
    match text {
        [b'-', ..] => true,
        _ => false,
    }
}

/// The digits at the front of a text, with a point or none, and what is behind them.
fn read_digits(body: &[u8]) -> Mantissa<'_>
    ensures number { Holds result.digits (digits_at body.now) }
    ensures count { result.count ≡ length (digits_at body.now) }
    ensures places { result.places ≡ places_at body.now }
    ensures rest { result.rest.now ≡ behind_digits body.now }
    ensures more { result.digits.more ≤ length body.now }
{
    let (whole, count) = Digits::new().read(body);
    match &body[count..] {
        [b'.', after @ ..] => {
            let (digits, places) = whole.read(after);
            Mantissa {
                digits,
                count: count + places,
                places,
                rest: &after[places..],
            }
        }
        rest => Mantissa {
            digits: whole,
            count,
            places: 0,
            rest,
        },
    }
}

/// The digits of a date behind its sign.
fn read_mantissa(text: &[u8]) -> Mantissa<'_>
    ensures read { IsRead text.now result }
    ensures more { result.digits.more ≤ length text.now }
{
    read_digits(&text[sign_length(text)..])
}

/// The number of an exponent's digits.
fn exponent_size(text: &[u8]) -> Option<usize>
    ensures size { result ≡ (if are_exponent_digits text.now then Some (digits_value 10 text.now) else None) }
    ensures small { IfSome result (λ n. n ≤ MAX_EXPONENT) }
{
    if text.len() > EXPONENT_DIGITS {
        return None;
    }
    match decimal(text) {
        Some(size) if size <= MAX_EXPONENT => Some(size as usize),
        _ => None,
    }
}

/// The sign and the digits behind an exponent's letter.
fn signed_size(text: &[u8]) -> Option<Tens>
    ensures tens { option_map {U = ℕ × ℕ} (λ t. (t.up, t.down)) result
        ≡ option_map (λ e. tens_of (Some e)) (exponent_behind 101 text.now) }
    ensures small { IfSome result (λ t. (t.up ≤ 30) × (t.down ≤ MAX_EXPONENT)) }
{
    let Some(size) = exponent_size(&text[sign_length(text)..]) else {
        return None;
    };
    if is_negative(text) {
        return Some(Tens { up: 0, down: size });
    }
    Some(Tens { up: size, down: 0 })
}

/// The exponent that a whole text is, which may be empty.
fn read_exponent(text: &[u8]) -> Option<Tens>
    ensures tens { option_map {U = ℕ × ℕ} (λ t. (t.up, t.down)) result
        ≡ option_map tens_of (exponent_of text.now) }
    ensures small { IfSome result (λ t. (t.up ≤ 30) × (t.down ≤ MAX_EXPONENT)) }
{
    if text.is_empty() {
        return Some(Tens { up: 0, down: 0 });
    }
    if text[0] != b'e' && text[0] != b'E' {
        return None;
    }
    signed_size(&text[1..])
}

/// What any text means as a date.
fn general_date(text: &[u8]) -> Result<u64, DateFault>
    ensures { result ≡ date_of text.now }
{
    let mantissa = read_mantissa(text);
    let Some(tens) = read_exponent(mantissa.rest) else {
        return Err(DateFault::Shape);
    };
    if mantissa.count == 0 {
        return Err(DateFault::Shape);
    }
    if is_negative(text) && !mantissa.digits.is_zero() {
        return Err(DateFault::Negative);
    }
    scaled(mantissa.digits, 9 + tens.up, mantissa.places + tens.down)
}

/// What a text means as a date, by a short way where there is one.
fn read_date(text: &[u8]) -> Result<u64, DateFault>
    ensures { result ≡ date_of text.now }
{
    match short_date(text) {
        Some(time) => Ok(time),
        None => general_date(text),
    }
}

/// The whole nanoseconds that a date of a trace line means.
///
/// A date is a sign or none, decimal digits with at most one point among them, and maybe an exponent: `e` or
/// `E`, a sign or none, and one to four digits of a number up to 30. Its number counts seconds; what is
/// behind the last whole nanosecond is dropped. The digits may be of any count. It takes no memory.
///
/// # Errors
///
/// `Shape` where the text is no date; else `Negative` where the exact number is below 0; else `Big` where
/// the exact number, with what would be dropped, is above 2^62 nanoseconds.
pub fn date(text: &[u8]) -> Result<u64, DateFault>
    // A text that isn't refused for its shape is a date.
    ensures found { (result ≡ Err DateFault.Shape) ⊎ ((d : Date) × IsDate d × (text.now ≡ date_text d)) }
    // A date has its meaning, whichever parts it is read as.
    ensures only { (d : Date) → IsDate d → text.now ≡ date_text d → result ≡ meaning d }
    ensures shape { result ≡ Err DateFault.Shape → (d : Date) → IsDate d → text.now ≡ date_text d → ⊥ }
    // The nanoseconds are the last whole ones that aren't above the exact number.
    ensures value { IfOk result (λ ns. (d : Date) → IsDate d → text.now ≡ date_text d
        → (ns * denominator d ≤ numerator d) × (numerator d < (ns + 1) * denominator d)) }
    ensures exact { result ≡ date_of text.now }
{
    read_date(text)
}
