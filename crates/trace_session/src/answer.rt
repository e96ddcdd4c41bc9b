ghost use Rattle.std.specs.Prelude.{◌≡◌, ◌≤◌, ℕ, List, Option, Some};
ghost use Rattle.trace_base.specs.Outside.{Rose};
ghost use Rattle.hall_history.specs.Seat.{IsAtRest};
ghost use Rattle.request_reader.specs.Incoming.{Is, ComesWithinLimits};
ghost use Rattle.request_reader.specs.Requests.{WholeRequest};
ghost use Rattle.trace_session.specs.Step.{AnswersOne, EndsWith};
ghost use Rattle.trace_session.specs.declared.sessions.End.TheVariants.{WriteFault};

use crate::buffer::SessionBuf;
use crate::output::{WriteFailed, write_all};
use crate::serve::serve;
use crate::sessions::End;
use crate::text::reply_into;
use hall_trait::Hall;
use request_reader::Incoming;
use session_proto::Request;
use std::alloc::Global;
use std::sync::Wait;
use trace_base::Sink;

/// Serves a request that came, and writes its reply. The session goes on where that gives no end.
pub fn answer<R: Wait, H: Hall, O: Sink>(
    rt: &R,
    alloc: Global,
    hall: &mut H,
    incoming: Incoming,
    output: &mut O,
    buf: &mut SessionBuf,
) -> Option<End>
    requires rest { IsAtRest (H.view hall.old).seat }
    requires limits { ComesWithinLimits incoming buf.old.input.text.items }
    ensures answers { (request : WholeRequest) → Is incoming buf.old.input.text.items request
        → (left : Option (List ℕ)) → AnswersOne
        (record { hall = H.view hall.old; left = left; held = O.held output.old })
        (record { hall = H.view hall.new; left = left; held = O.held output.new }) request result }
    ensures input { buf.new.input ≡ buf.old.input }
    ensures writes { O.faults output.old ≤ O.faults output.new }
    ensures write_fault { result ≡ Some WriteFault → Rose (O.faults output.old) (O.faults output.new) }
{
    let reply = serve(rt, alloc, hall, incoming, buf.input.text.as_slice());
    reply_into(&reply, &mut buf.reply);
    match write_all(output, buf.reply.as_slice()) {
        Ok(()) => end_of(incoming),
        Err(WriteFailed) => Some(End::WriteFault),
    }
}

// The end of the session behind a request, if it is the last.
fn end_of(incoming: Incoming) -> Option<End>
    ensures { EndsWith incoming result }
{
    if incoming == Incoming::Line(Request::Quit) {
        Some(End::Quit)
    } else {
        None
    }
}
