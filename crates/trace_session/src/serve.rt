ghost use Rattle.std.specs.Prelude.{◌≡◌, None};
ghost use Rattle.hall_history.specs.Seat.{IsAtRest};
ghost use Rattle.session_proto.specs.Request.{text_length, IsWithinLimits};
ghost use Rattle.request_reader.specs.Incoming.{Is, ComesWithinLimits};
ghost use Rattle.request_reader.specs.Requests.{WholeRequest, Line};
ghost use Rattle.trace_session.specs.Serving.{Serves};

use crate::load::serve_load;
use crate::profile::serve_flat;
use hall_trait::Hall;
use request_reader::Incoming;
use session_proto::{No, Reply, Request, Sel};
use std::alloc::Global;
use std::sync::Wait;

/// Serves what came. The text is that of a load.
#[tactic(auto, using(crate::proofs::Plain::serves_line, crate::proofs::Plain::serves_load, crate::proofs::Plain::serves_unreadable, crate::proofs::Plain::serves_dropped, crate::proofs::Plain::serves_large))]
pub fn serve<R: Wait, H: Hall>(
    rt: &R,
    alloc: Global,
    hall: &mut H,
    incoming: Incoming,
    text: &[u8],
) -> Reply
    requires rest { IsAtRest (H.view hall.old).seat }
    requires limits { ComesWithinLimits incoming text.now }
    ensures { (request : WholeRequest) → Is incoming text.now request → Serves (H.view hall.old) (H.view hall.new) request result }
{
    match incoming {
        Incoming::Line(request) => serve_line(rt, alloc, hall, request),
        Incoming::Load => serve_load(rt, alloc, hall, text),
        Incoming::Dropped => Reply::No(No::Memory),
        Incoming::Large => Reply::No(No::Large),
        Incoming::Unreadable => Reply::No(No::Grammar),
    }
}

// Serves a request line that no text follows.
#[tactic(auto, using(crate::proofs::Plain::serves_quit))]
fn serve_line<R: Wait, H: Hall>(rt: &R, alloc: Global, hall: &mut H, request: Request) -> Reply
    requires rest { IsAtRest (H.view hall.old).seat }
    requires no_text { text_length request ≡ None }
    requires limits { IsWithinLimits request }
    ensures { Serves (H.view hall.old) (H.view hall.new) (Line request) result }
{
    match request {
        Request::Put(_) => unreachable!(),
        Request::Flat {
            id,
            sel: Sel::All,
            a,
            b,
        } => serve_flat(rt, alloc, hall, id, a, b),
        Request::Quit => Reply::Quit,
    }
}
