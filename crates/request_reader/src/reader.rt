ghost use Rattle.std.specs.Prelude.{◌≡◌, ◌≤◌, [], Err, IfOk, OnErr, IsSome};
ghost use Rattle.trace_base.specs.Outside.{Rose};
ghost use Rattle.request_reader.specs.Incoming.{Comes, ComesWithinLimits, left_to_read};
ghost use Rattle.request_reader.specs.Requests.{first_request};
ghost use Rattle.request_reader.specs.declared.incoming.InputEnd.TheVariants.{Failed};

use crate::buffer::InputBuf;
use crate::incoming::{Incoming, InputEnd};
use crate::read_line::{LineEnd, read_line};
use crate::read_text::{TextEnd, read_text};
use session_proto::parse_request;
use std::sync::Wait;
use trace_base::Source;

/// Reads the next request whole, or tells how the input ended. What the source gave behind a request waits in
/// `buf.pending`. It may wait for input; the source isn't asked where a whole request waits.
///
/// A line of more than `MAX_REQUEST_LINE` bytes is read to its end and is `Unreadable`. The bytes of a PUT,
/// at most `MAX_TEXT`, are in `buf.text` then; where no memory is found for them they are read all the same,
/// and the answer is `Dropped`. Where there are more they are read and not kept: `Large`. On `Cut` and
/// `Failed` the bytes of the request that was begun are lost.
pub fn next_request<R: Wait, I: Source>(
    rt: &R,
    input: &mut I,
    buf: &mut InputBuf,
) -> Result<Incoming, InputEnd>
    ensures comes { Comes (left_to_read buf.old.pending (I.left input.old))
        (left_to_read buf.new.pending (I.left input.new))
        buf.new.text.items result }
    ensures empties { OnErr result (buf.new.pending ≡ []) }
    ensures limits { IfOk result (λ i. ComesWithinLimits i buf.new.text.items) }
    ensures unasked { IsSome (first_request buf.old.pending) → input.new ≡ input.old }
    ensures later { I.faults input.old ≤ I.faults input.new }
    ensures cause { result ≡ Err Failed → Rose (I.faults input.old) (I.faults input.new) }
{
    match read_line(rt, input, &mut buf.pending, &mut buf.line) {
        LineEnd::Whole => {}
        LineEnd::Long => return Ok(Incoming::Unreadable),
        LineEnd::Nothing => return Err(InputEnd::End),
        LineEnd::Cut => return Err(InputEnd::Cut),
        LineEnd::Failed => return Err(InputEnd::Failed),
    }
    let Some(request) = parse_request(buf.line.as_slice()) else {
        return Ok(Incoming::Unreadable);
    };
    let Some(len) = request.text_len() else {
        return Ok(Incoming::Line(request));
    };
    match read_text(input, &mut buf.pending, &mut buf.text, len) {
        TextEnd::Whole => Ok(Incoming::Load),
        TextEnd::Dropped => Ok(Incoming::Dropped),
        TextEnd::Large => Ok(Incoming::Large),
        TextEnd::Cut => Err(InputEnd::Cut),
        TextEnd::Failed => Err(InputEnd::Failed),
    }
}
