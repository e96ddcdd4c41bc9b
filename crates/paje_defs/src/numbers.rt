ghost use Rattle.std.specs.Prelude.{◌≡◌};
ghost use Rattle.paje_defs.specs.Numbers.{event_number_of, plain_size, short_decimal, size_of};

use decimal_digits::decimal;

/// The most digits of an event's number.
const EVENT_NUMBER_DIGITS: usize = 10;

/// The most digits of a size.
const SIZE_DIGITS: usize = 19;

/// The number of a text of decimal digits, of which it has one at least and `most` at most.
fn short_decimal(text: &[u8], most: usize) -> Option<u64>
    ensures { result ≡ short_decimal most text.now }
{
    if text.len() > most {
        None
    } else {
        decimal(text)
    }
}

/// The number of a definition: one to ten digits, below 2^32.
pub fn event_number(text: &[u8]) -> Option<u32>
    ensures { result ≡ event_number_of text.now }
{
    match short_decimal(text, EVENT_NUMBER_DIGITS) {
        Some(number) if number < 4_294_967_296 => Some(number as u32),
        _ => None,
    }
}

/// A size without a sign.
fn unsigned_size(text: &[u8]) -> u64
    ensures { result ≡ plain_size text.now }
{
    match short_decimal(text, SIZE_DIGITS) {
        Some(number) if number < 9_223_372_036_854_775_808 => number,
        _ => 0,
    }
}

/// The size of a message, 0 where the text is no number from 0 to 2^63 - 1.
pub fn size(text: &[u8]) -> u64
    ensures { result ≡ size_of text.now }
{
    if text.is_empty() {
        return 0;
    }
    if text[0] == b'+' {
        return unsigned_size(&text[1..]);
    }
    unsigned_size(text)
}
