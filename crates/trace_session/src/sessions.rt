ghost use Rattle.std.specs.Prelude.{◌≡◌, ◌≤◌, ℕ, Some, IsSome};
ghost use Rattle.trace_base.specs.Outside.{Rose};
ghost use Rattle.hall_history.specs.Seat.{IsAtRest};
ghost use Rattle.request_reader.specs.Incoming.{left_to_read};
ghost use Rattle.request_reader.specs.Requests.{first_request};
ghost use Rattle.trace_session.specs.Session.{IsSession};
ghost use Rattle.trace_session.specs.Step.{Steps, end_at};
ghost use Rattle.trace_session.specs.declared.sessions.End.TheVariants.{ReadFault, WriteFault};

use crate::answer::answer;
use crate::buffer::SessionBuf;
use hall_trait::Hall;
use request_reader::{InputEnd, next_request};
use std::alloc::Global;
use std::sync::Wait;
use trace_base::{Sink, Source};

/// How a session ended.
#[derive(Clone, Copy, Debug, PartialEq, Eq)]
pub enum End {
    /// The last request was QUIT. Each request has its reply.
    Quit,
    /// Nothing is left to read, and no request was begun. Each request has its reply.
    Eof,
    /// Nothing is left to read, and a request was begun. Each request before it has its reply.
    Cut,
    /// The source failed. Each request that was whole by then has its reply.
    ReadFault,
    /// The sink failed. Each request but the last that was read has its reply.
    WriteFault,
}

/// Serves the requests of a source over a seat of a hall, one after the other: each is read, answered, and
/// its reply written. The session ends behind QUIT, where nothing is left to read, or where the source or the
/// sink fails. It may wait for input.
pub fn session<R: Wait, H: Hall, I: Source, O: Sink>(
    rt: &R,
    alloc: Global,
    hall: &mut H,
    input: &mut I,
    output: &mut O,
    buf: &mut SessionBuf,
) -> End
    requires { IsAtRest (H.view hall.old).seat }
    ensures session { IsSession
        (record { hall = H.view hall.old; left = I.left input.old; held = O.held output.old })
        (record { hall = H.view hall.new; left = I.left input.new; held = O.held output.new }) result }
    ensures later { O.faults output.old ≤ O.faults output.new }
    ensures read_fault { result ≡ ReadFault → Rose (I.faults input.old) (I.faults input.new) }
    ensures write_fault { result ≡ WriteFault → Rose (O.faults output.old) (O.faults output.new) }
{
    buf.input.clear();
    'requests: for _ in rt.forever() {
        if let Some(end) = step(rt, alloc, hall, input, output, buf) {
            return end;
        }
    }
    unreachable!()
}

// Reads the next request and answers it. The session goes on where that gives no end. The source isn't asked
// where a whole request waits.
fn step<R: Wait, H: Hall, I: Source, O: Sink>(
    rt: &R,
    alloc: Global,
    hall: &mut H,
    input: &mut I,
    output: &mut O,
    buf: &mut SessionBuf,
) -> Option<End>
    requires { IsAtRest (H.view hall.old).seat }
    ensures steps { Steps
        (record {
          hall = H.view hall.old;
          left = left_to_read buf.old.input.pending (I.left input.old);
          held = O.held output.old;
        })
        (record {
          hall = H.view hall.new;
          left = left_to_read buf.new.input.pending (I.left input.new);
          held = O.held output.new;
        })
        buf.new.input.pending result }
    ensures unasked { IsSome (first_request buf.old.input.pending) → input.new ≡ input.old }
    ensures reads { I.faults input.old ≤ I.faults input.new }
    ensures writes { O.faults output.old ≤ O.faults output.new }
    ensures read_fault { result ≡ Some ReadFault → Rose (I.faults input.old) (I.faults input.new) }
    ensures write_fault { result ≡ Some WriteFault → Rose (O.faults output.old) (O.faults output.new) }
{
    match next_request(rt, input, &mut buf.input) {
        Ok(incoming) => answer(rt, alloc, hall, incoming, output, buf),
        Err(end) => Some(end_at(end)),
    }
}

// The end of the session at the end of its input.
fn end_at(end: InputEnd) -> End
    ensures { result ≡ end_at end }
{
    match end {
        InputEnd::End => End::Eof,
        InputEnd::Cut => End::Cut,
        InputEnd::Failed => End::ReadFault,
    }
}
