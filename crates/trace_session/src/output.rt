ghost use Rattle.std.specs.Prelude.{◌≡◌, ◌≤◌, ◌++◌, List, ℕ, OnOk, OnErr};
ghost use Rattle.trace_base.specs.Outside.{Rose, Told};
ghost use Rattle.trace_session.specs.Output.{WritesFront};

use trace_base::{Sink, WriteAnswer};

/// The sink failed.
#[derive(Clone, Copy, Debug, PartialEq, Eq)]
pub struct WriteFailed;

/// Writes all the bytes, in as many calls as it takes. Where the sink fails, only the first ones are written.
pub fn write_all<O: Sink>(output: &mut O, bytes: &[u8]) -> Result<(), WriteFailed>
    ensures ok { OnOk result (Told (O.held output.old) (O.held output.new) (λ was now. now ≡ was
        ++ bytes.now)) }
    ensures err { OnErr result (Told (O.held output.old) (O.held output.new) (WritesFront bytes.now)) }
    ensures later { O.faults output.old ≤ O.faults output.new }
    ensures cause { OnErr result (Rose (O.faults output.old) (O.faults output.new)) }
{
    let mut rest = bytes;
    while !rest.is_empty() {
        match output.write(rest) {
            WriteAnswer::Took(n) => rest = &rest[n..],
            WriteAnswer::Failed => return Err(WriteFailed),
        }
    }
    Ok(())
}
