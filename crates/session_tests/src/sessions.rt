//! Sessions over sources and sinks in memory, which fail, or give or take few bytes a call. The expected texts
//! are worked by hand. Sessions of the whole program stand in .ci/sessions.py.
ghost use Rattle.std.specs.Prelude.{◌≤◌};

use hall_history::Left;
use node_key::MAX_NUMBERS;
use plain_hall::PlainHall;
use std::alloc::Global;
use std::process::Abort;
use std::slice;
use std::sync::Wait;
use std::test::Fail;
use trace_base::{Faults, MemSink, MemSource, Memory, ReadAnswer, Seq, Sink, Source};
use trace_session::{End, SessionBuf, run, session};

/// The definitions and types with which both texts begin: 593 bytes.
const HEAD: &[u8] =
    b"%EventDef PajeDefineContainerType 0\n% Alias string\n% Type string\n% Name string\n%EndEventDef\n%EventDef PajeDefineStateType 1\n% Alias string\n% Type string\n% Name string\n%EndEventDef\n%EventDef PajeCreateContainer 2\n% Time date\n% Alias string\n% Type string\n% Container string\n% Name string\n%EndEventDef\n%EventDef PajeDestroyContainer 3\n% Time date\n% Type string\n% Name string\n%EndEventDef\n%EventDef PajePushState 4\n% Time date\n% Type string\n% Container string\n% Value string\n%EndEventDef\n%EventDef PajePopState 5\n% Time date\n% Type string\n% Container string\n%EndEventDef\n0 P 0 Process\n1 S P State\n";

/// What follows them in the first: main runs for half a second, and calls f twice. Behind it a profile is asked
/// for, and QUIT.
const CALLS: &[u8] =
    b"2 0 p0 P 0 \"rank 0\"\n4 0 S p0 main\n4 0.1 S p0 f\n5 0.2 S p0\n4 0.3 S p0 f\n5 0.4 S p0\n5 0.5 S p0\n3 0.5 P p0\nFLAT 1 * 0 500000000\nQUIT\n";

/// What the first session writes.
pub(crate) const REPLIES: &[u8] =
    b"OK PUT 1 1 2 0 @3\nOK FLAT 2 1 0 @4\n1 1 500000000 300000000 main\n2 2 200000000 200000000 f\nOK QUIT\n";

// The bytes with the definitions between them.
fn text_of(alloc: Global, before: &[u8], behind: &[u8]) -> Result<Vec<u8>, Memory> {
    let mut text = Vec::from_slice(alloc, before)?;
    text.extend_from_slice(HEAD)?;
    text.extend_from_slice(behind)?;
    Ok(text)
}

// The first session: a small trace, a profile, QUIT.
pub(crate) fn first_session(alloc: Global) -> Result<Vec<u8>, Memory> {
    text_of(alloc, b"PUT 697\n", CALLS)
}

// How a session over a new hall ends.
fn end_of<I: Source, O: Sink>(
    rt: &impl Wait,
    alloc: Global,
    input: &mut I,
    output: &mut O,
) -> Result<End, Fail> {
    let mut buf = SessionBuf::new(alloc)?;
    let mut hall = PlainHall::new(alloc)?;
    Ok(session(rt, alloc, &mut hall, input, output, &mut buf))
}

// Asserts that the first session ended so, and that so many bytes of its replies were written.
fn assert_told(rt: &impl Abort, at: usize, end: End, written: &[u8], want: (End, usize)) {
    assert_eq!(rt; (at, (end, written.len())), (at, want));
    assert!(rt; REPLIES.starts_with(written));
}

// Asserts how the session of these bytes ends, and how many bytes of the first session's replies it writes,
// where a call of the sink takes up to so many bytes. `fails` lists the calls of the sink that fail.
fn assert_serves(
    rt: &(impl Wait + Abort),
    alloc: Global,
    given: &[u8],
    step: usize,
    fails: &[u64],
    want: (End, usize),
) -> Result<(), Fail>
    requires { 1 ≤ step }
{
    let mut input = MemSource::new(Seq::from_slice(alloc, given)?, Seq::new(alloc));
    let mut output = MemSink::new(alloc, step, Seq::from_slice(alloc, fails)?);
    let end = end_of(rt, alloc, &mut input, &mut output)?;
    assert_told(rt, given.len(), end, output.written(), want);
    Ok(())
}

#[test]
fn the_first_session(rt: HostRuntime) -> Result<(), Fail> {
    let text = first_session(rt.alloc())?;
    for step in [1, 7, 4096] {
        assert_serves(&rt, rt.alloc(), text.as_slice(), step, &[], (End::Quit, 98))?;
    }
    Ok(())
}

// The input cut behind so many bytes: what ends the session, and how many bytes of the replies are written.
fn end_of_cut(cut: usize) -> (End, usize) {
    if cut == 0 {
        (End::Eof, 0)
    } else if cut < 705 {
        (End::Cut, 0)
    } else if cut == 705 {
        (End::Eof, 18)
    } else if cut < 726 {
        (End::Cut, 18)
    } else if cut == 726 {
        (End::Eof, 90)
    } else if cut < 731 {
        (End::Cut, 90)
    } else {
        (End::Quit, 98)
    }
}

#[test]
fn input_cut_at_every_byte(rt: HostRuntime) -> Result<(), Fail> {
    let text = first_session(rt.alloc())?;
    let bytes = text.as_slice();
    assert!(rt; bytes.len() == 731);
    for cut in 0..732usize {
        assert_serves(&rt, rt.alloc(), &bytes[..cut], 100, &[], end_of_cut(cut))?;
    }
    Ok(())
}

// A call of the sink takes up to 50 bytes. The replies have 18, 72 and 8, so there are four calls.
#[test]
fn a_failing_sink_holds_what_it_took(rt: HostRuntime) -> Result<(), Fail> {
    let text = first_session(rt.alloc())?;
    for (call, count) in [(0, 0), (1, 18), (2, 68), (3, 90)] {
        let want = (End::WriteFault, count);
        assert_serves(&rt, rt.alloc(), text.as_slice(), 50, &[call], want)?;
    }
    Ok(())
}

// A source that gives one byte a call, fails at one call, numbered from 0, and doesn't tell what it has left.
#[derive(Drop)]
struct OneByteSource {
    bytes: Seq<u8>,
    given: usize,
    fails_at: usize,
    faults: u64,
}

impl Faults for OneByteSource {
    ghost faults = { λ s. s.faults };

    fn faults(&self) -> u64 {
        self.faults
    }
}

impl Source for OneByteSource {
    ghost use Rattle.std.specs.Prelude.{None};

    ghost left = { λ _. None };

    fn read(&mut self, into: &mut [u8]) -> ReadAnswer {
        if self.given == self.fails_at {
            self.faults = self.faults.saturating_add(1);
            return ReadAnswer::Failed;
        }
        match self.bytes.as_slice().get(self.given) {
            None => ReadAnswer::End,
            Some(byte) => {
                into[0] = *byte;
                self.given = self.given.saturating_add(1);
                ReadAnswer::Got(1)
            }
        }
    }
}

// Asserts how the session of these bytes ends, and how many bytes of the first session's replies it writes,
// where each call gives one byte and this call fails.
fn assert_serves_by_bytes(
    rt: &(impl Wait + Abort),
    alloc: Global,
    given: &[u8],
    fails_at: usize,
    want: (End, usize),
) -> Result<(), Fail> {
    let mut input = OneByteSource {
        bytes: Seq::from_slice(alloc, given)?,
        given: 0,
        fails_at,
        faults: 0,
    };
    let mut output = MemSink::new(alloc, 1, Seq::new(alloc));
    let end = end_of(rt, alloc, &mut input, &mut output)?;
    assert_told(rt, fails_at, end, output.written(), want);
    Ok(())
}

// 731 bytes are read by the calls 0 to 730. The PUT is whole behind 705 of them, the FLAT behind 726.
#[test]
fn one_byte_a_call(rt: HostRuntime) -> Result<(), Fail> {
    let text = first_session(rt.alloc())?;
    assert_serves_by_bytes(&rt, rt.alloc(), text.as_slice(), 731, (End::Quit, 98))?;
    let rows = [
        (0, 0),
        (1, 0),
        (2, 0),
        (3, 0),
        (704, 0),
        (705, 18),
        (726, 90),
        (730, 90),
    ];
    for (call, count) in rows {
        let want = (End::ReadFault, count);
        assert_serves_by_bytes(&rt, rt.alloc(), text.as_slice(), call, want)?;
    }
    Ok(())
}

// The status of `batch`.
fn status_of(
    rt: &impl Wait,
    alloc: Global,
    input: &mut MemSource,
    output: &mut MemSink,
) -> Result<u8, Fail> {
    let word = String::from_str(alloc, "batch")?;
    Ok(run(rt, alloc, slice::from_ref(&word), input, output))
}

// Asserts the status of `batch` for this input, and what it writes. The lists have the calls of the source and
// of the sink that fail.
fn assert_runs(
    rt: &(impl Wait + Abort),
    alloc: Global,
    text: &[u8],
    source_fails: &[u64],
    sink_fails: &[u64],
    want: (u8, &[u8]),
) -> Result<(), Fail> {
    let mut input = MemSource::new(
        Seq::from_slice(alloc, text)?,
        Seq::from_slice(alloc, source_fails)?,
    );
    let mut output = MemSink::new(alloc, 100, Seq::from_slice(alloc, sink_fails)?);
    let status = status_of(rt, alloc, &mut input, &mut output)?;
    assert_eq!(rt; (text, status, output.written()), (text, want.0, want.1));
    Ok(())
}

// Where the sink fails, nothing more is written: not the line that tells what is left either.
#[test]
fn batch_tells_what_is_left_and_has_the_status_of_its_end(rt: HostRuntime) -> Result<(), Fail> {
    let rows: [(&[u8], &[u64], &[u64], (u8, &[u8])); 10] = [
        (b"", &[], &[], (0, b"LEFT 0 0\n")),
        (b"QUIT\n", &[], &[], (0, b"OK QUIT\nLEFT 0 0\n")),
        (b"LIST\n", &[], &[], (0, b"NO 10\nLEFT 0 0\n")),
        (b"PUT 0\n", &[], &[], (0, b"OK PUT 1 0 0 0 @2\nLEFT 1 0\n")),
        (b"LIS", &[], &[], (6, b"LEFT 0 0\n")),
        (b"", &[0], &[], (3, b"LEFT 0 0\n")),
        (b"QUIT\n", &[], &[0], (3, b"")),
        (b"QUIT\n", &[], &[1], (3, b"OK QUIT\n")),
        (b"LIS", &[], &[0], (3, b"")),
        (b"", &[0], &[0], (3, b"")),
    ];
    for (text, source_fails, sink_fails, want) in rows {
        assert_runs(&rt, rt.alloc(), text, source_fails, sink_fails, want)?;
    }
    Ok(())
}

/// What follows them in the second: 17 calls in one another. Behind them a profile is asked for.
const DEEP_CALLS: &[u8] =
    b"2 0 p0 P 0 \"rank 0\"\n4 0 S p0 f\n4 0 S p0 f\n4 0 S p0 f\n4 0 S p0 f\n4 0 S p0 f\n4 0 S p0 f\n4 0 S p0 f\n4 0 S p0 f\n4 0 S p0 f\n4 0 S p0 f\n4 0 S p0 f\n4 0 S p0 f\n4 0 S p0 f\n4 0 S p0 f\n4 0 S p0 f\n4 0 S p0 f\n4 0 S p0 f\nFLAT 2 * 0 1\n";

// How a session over a new hall ends, and what is left then, where each of the 16 rooms of its store has one
// number left.
fn end_with_few_numbers(
    rt: &impl Wait,
    alloc: Global,
    input: &mut MemSource,
    output: &mut MemSink,
) -> Result<(End, Left), Fail> {
    let mut buf = SessionBuf::new(alloc)?;
    let mut hall = PlainHall::starting_at(alloc, MAX_NUMBERS - 1)?;
    let end = session(rt, alloc, &mut hall, input, output, &mut buf);
    Ok((end, hall.left()))
}

// The second trace, of 800 bytes, has 18 different subtrees: 17 calls in one another, and the root. So its load
// is given up on the way. The trace before it stays.
#[test]
fn a_load_that_uses_up_the_numbers(rt: HostRuntime) -> Result<(), Fail> {
    let text = text_of(rt.alloc(), b"PUT 0\nPUT 800\n", DEEP_CALLS)?;
    let mut input = MemSource::new(Seq::from_vec(text), Seq::new(rt.alloc()));
    let mut output = MemSink::new(rt.alloc(), 100, Seq::new(rt.alloc()));
    let (end, left) = end_with_few_numbers(&rt, rt.alloc(), &mut input, &mut output)?;
    assert!(rt; end == End::Eof && left.traces == 1 && left.nodes == 0);
    let want = b"OK PUT 1 0 0 0 @2\nNO 40 1099511627776\nNO 30 2 @5\n".as_slice();
    assert!(rt; output.written() == want);
    Ok(())
}
