ghost use Rattle.std.specs.Prelude.{◌≡◌, ◌≤◌, ◌⊎◌, vec_capacity};
ghost use Rattle.trace_base.specs.Outside.{Rose};
ghost use Rattle.session_proto.specs.declared.write.TheConstants.{SHORT_REPLY};
ghost use Rattle.trace_session.specs.Run.{TellsLeft, status_of};
ghost use Rattle.trace_session.specs.declared.sessions.End.TheVariants.{ReadFault, WriteFault};

use crate::left::left_into;
use crate::output::{WriteFailed, write_all};
use crate::sessions::End;
use hall_history::Left;
use trace_base::Sink;

/// The status where the source or the sink failed.
pub const FAULT: u8 = 3;

/// The status where the input ended inside a request.
const CUT: u8 = 6;

/// Tells what is left of the loads behind a session, unless its sink failed, and answers the exit status. The
/// buffer is for the line.
pub fn tell_left<O: Sink>(output: &mut O, left: Left, end: End, text: &mut Vec<u8>) -> u8
    requires { SHORT_REPLY ≤ vec_capacity text.old }
    ensures told { TellsLeft end left (record { held = O.held output.old; faults = O.faults output.old })
        (record { held = O.held output.new; faults = O.faults output.new }) result }
    ensures later { O.faults output.old ≤ O.faults output.new }
    ensures cause { result ≡ 3 → (end ≡ ReadFault) ⊎ (end ≡ WriteFault)
        ⊎ Rose (O.faults output.old) (O.faults output.new) }
    ensures status { (result ≡ 3) ⊎ (result ≡ status_of end) }
{
    match end {
        End::WriteFault => FAULT,
        End::Quit | End::Eof | End::Cut | End::ReadFault => {
            left_into(left, text);
            match write_all(output, text.as_slice()) {
                Ok(()) => status(end),
                Err(WriteFailed) => FAULT,
            }
        }
    }
}

// The exit status for the end of a session.
fn status(end: End) -> u8
    ensures { result ≡ status_of end }
{
    match end {
        End::Quit | End::Eof => 0,
        End::Cut => CUT,
        End::WriteFault | End::ReadFault => FAULT,
    }
}
