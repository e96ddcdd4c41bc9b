ghost use Rattle.std.specs.Prelude.{◌≡◌, ℕ, ◌+◌, ◌*◌, ◌/◌, ◌^◌, ◌<◌, ◌≤◌, ◌⊎◌, List, true, false};
ghost use Rattle.std.specs.Prelude.{IfOk, IfErr, MatchOption};
ghost use Rattle.std.specs.Str.Parse.{digits_value};
ghost use Rattle.decimal_digits.specs.Held.{Holds};
ghost use Rattle.paje_lex.specs.DateGrammar.{whole_nanoseconds};

use crate::date_fault::DateFault;
use decimal_digits::Digits;
use trace_base::MAX_TIME;

/// The number times 10 to the power of `up` and divided by 10 to the power of `down`, what is behind the
/// point dropped, unless the exact value is above the greatest time.
pub fn scaled(digits: Digits, up: usize, down: usize) -> Result<u64, DateFault>
    requires { digits.more + up < 2 ^ 64 }
    ensures { (bytes : List ℕ) → Holds digits bytes
        → result ≡ whole_nanoseconds (digits_value 10 bytes * 10 ^ up) (10 ^ down) }
{
    let Digits { head, more, tail } = digits;
    if more + up < down {
        return Ok(lowered(head, down - (more + up)));
    }
    match raised(head, more + up - down) {
        Some(time) => capped(time, tail),
        None => Err(DateFault::Big),
    }
}

/// A time with something behind it or not, unless both are above the greatest time.
fn capped(time: u64, tail: bool) -> Result<u64, DateFault>
    ensures ok { IfOk result (λ t. (t ≡ time)
        × ((time < MAX_TIME) ⊎ ((time ≡ MAX_TIME) × (tail ≡ false)))) }
    ensures err { IfErr result (λ e. (e ≡ DateFault.Big)
        × ((MAX_TIME < time) ⊎ ((time ≡ MAX_TIME) × (tail ≡ true)))) }
{
    if time < MAX_TIME {
        return Ok(time);
    }
    if time > MAX_TIME || tail {
        return Err(DateFault::Big);
    }
    Ok(time)
}

/// A number without its last digits.
fn lowered(head: u64, places: usize) -> u64
    ensures { result ≡ head / 10 ^ places }
{
    if places < 20 {
        head / 10u64.pow(places as u32)
    } else {
        0
    }
}

/// The number with zeros behind it, where that is below 2^64.
fn raised(head: u64, places: usize) -> Option<u64>
    ensures { MatchOption result (2 ^ 64 ≤ head * 10 ^ places) (λ time. time ≡ head * 10 ^ places) }
{
    if head == 0 {
        Some(0)
    } else if places > 19 {
        None
    } else {
        head.checked_mul(10u64.pow(places as u32))
    }
}
