//! Parts of a line, added at the end of a text.
ghost use Rattle.std.specs.Prelude.{◌≡◌, ◌++◌, ◌≤◌, ◌<◌, ◌-◌, ◌^◌, OnOk, decimal, length, replicate};
ghost use Rattle.paje_print.specs.WrittenNumbers.{container_alias, seconds_text, zero_padded};

use itoa::Buffer;
use trace_base::Memory;

/// The nanoseconds of a second.
const SECOND: u64 = 1_000_000_000;

/// Adds bytes.
pub fn add(out: &mut Vec<u8>, bytes: &[u8]) -> Result<(), Memory>
    ensures { OnOk result (out.new.items ≡ out.old.items ++ bytes.now) }
{
    match out.extend_from_slice(bytes) {
        Ok(()) => Ok(()),
        Err(_) => Err(Memory),
    }
}

/// Adds a number in decimal digits.
pub fn add_number(out: &mut Vec<u8>, n: u64) -> Result<(), Memory>
    ensures { OnOk result (out.new.items ≡ out.old.items ++ decimal n) }
{
    let mut buffer = Buffer::new();
    add(out, buffer.format(n).as_bytes())
}

/// Adds up to nine zeros.
#[tactic(auto, using(crate::proofs::NineDigits::nine_zeros))]
fn add_zeros(out: &mut Vec<u8>, count: usize) -> Result<(), Memory>
    requires { count ≤ 9 }
    ensures { OnOk result (out.new.items ≡ out.old.items ++ replicate count 48) }
{
    add(out, &b"000000000".as_slice()[..count])
}

/// Adds digits, with zeros before them up to nine.
fn add_padded(out: &mut Vec<u8>, digits: &[u8]) -> Result<(), Memory>
    requires { length digits.now ≤ 9 }
    ensures { OnOk result (out.new.items ≡ out.old.items ++ (replicate (9 - length digits.now) 48
        ++ digits.now)) }
{
    add_zeros(out, 9 - digits.len())?;
    add(out, digits)
}

/// Adds a number below a second's nanoseconds in nine digits.
#[tactic(auto, using(crate::proofs::NineDigits::nine_digits))]
fn add_nine_digits(out: &mut Vec<u8>, n: u64) -> Result<(), Memory>
    requires { n < 10 ^ 9 }
    ensures { OnOk result (out.new.items ≡ out.old.items ++ zero_padded 9 n) }
{
    let mut buffer = Buffer::new();
    add_padded(out, buffer.format(n).as_bytes())
}

/// Adds a time in nanoseconds, written in seconds.
pub fn add_seconds(out: &mut Vec<u8>, time: u64) -> Result<(), Memory>
    ensures { OnOk result (out.new.items ≡ out.old.items ++ seconds_text time) }
{
    add_number(out, time / SECOND)?;
    add(out, b".")?;
    add_nine_digits(out, time % SECOND)
}

/// Adds the alias of a container.
pub fn add_container(out: &mut Vec<u8>, container: u32) -> Result<(), Memory>
    ensures { OnOk result (out.new.items ≡ out.old.items ++ container_alias container) }
{
    if container == 0 {
        return add(out, b"0");
    }
    add(out, b"c")?;
    add_number(out, u64::from(container))
}
