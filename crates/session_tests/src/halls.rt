//! The first session over halls that count their calls, and over halls in which a chosen call finds no memory.
//! The expected texts and counts are worked by hand.
ghost use Rattle.hall_history.specs.Seat.{IsAtRest};
ghost use Rattle.plain_hall.specs.PlainHall.{seat_of};

use crate::sessions::{REPLIES, first_session};
use hall_history::Left;
use hall_trait::Hall;
use plain_hall::PlainHall;
use std::alloc::Global;
use std::process::Abort;
use std::sync::Wait;
use std::test::Fail;
use test_halls::{CallCounts, CountingHall, RefusingHall};
use trace_base::{MemSink, MemSource, Seq};
use trace_session::{End, SessionBuf, session};

// The calls of the first session. Its trace has four nodes, two of them one: each is interned when its call is
// left. The profile ends where the track and main do, so both are read; the two calls of f lie within it, and
// are one node, which is looked up once, read and filled in.
const COUNTS: CallCounts = CallCounts {
    intern: 4,
    read: 3,
    release: 0,
    admit: 1,
    publish: 1,
    seal: 1,
    abandon: 0,
    ask: 1,
    published: 1,
    info: 1,
    same: 0,
    same_names: 0,
    unpin: 1,
    close: 0,
    list: 0,
    memo_look: 1,
    memo_fill: 1,
};

#[test]
fn the_first_session_makes_each_call_as_often_as_it_needs(rt: HostRuntime) -> Result<(), Fail> {
    let alloc = rt.alloc();
    let mut input = MemSource::new(Seq::from_vec(first_session(alloc)?), Seq::new(alloc));
    let mut output = MemSink::new(alloc, 4096, Seq::new(alloc));
    let mut buf = SessionBuf::new(alloc)?;
    let mut hall = CountingHall::over(PlainHall::new(alloc)?);
    let end = session(&rt, alloc, &mut hall, &mut input, &mut output, &mut buf);
    assert!(rt; end == End::Quit && output.written() == REPLIES);
    assert_eq!(rt; hall.counts, COUNTS);
    Ok(())
}

// What the session writes where so many calls that may want memory come before the one that finds none: where
// the trace isn't opened, where its load is given up, where the profile has no names, and where all find it.
fn replies_after(before: u64) -> &'static [u8] {
    match before {
        0 => b"NO 41\nNO 30 1 @1\nOK QUIT\n",
        1..=4 => b"NO 41\nNO 30 1 @3\nOK QUIT\n",
        5 => b"OK PUT 1 1 2 0 @3\nNO 41\nOK QUIT\n",
        _ => REPLIES,
    }
}

// Asserts what the session writes and leaves there.
fn assert_refused(rt: &(impl Wait + Abort), alloc: Global, before: u64) -> Result<(), Fail> {
    let mut input = MemSource::new(Seq::from_vec(first_session(alloc)?), Seq::new(alloc));
    let mut output = MemSink::new(alloc, 4096, Seq::new(alloc));
    let mut buf = SessionBuf::new(alloc)?;
    let mut hall = RefusingHall::over(PlainHall::new(alloc)?, before);
    let end = session(rt, alloc, &mut hall, &mut input, &mut output, &mut buf);
    assert_eq!(rt; (before, end), (before, End::Quit));
    assert_eq!(rt; output.written(), replies_after(before));
    let left = hall.inner.left();
    let (traces, nodes) = if before < 5 { (0, 0) } else { (1, 3) };
    assert_eq!(rt; (left.traces, left.nodes), (traces, nodes));
    Ok(())
}

#[test]
fn each_call_that_finds_no_memory_is_told_and_leaves_nothing(rt: HostRuntime) -> Result<(), Fail> {
    for before in 0..7u64 {
        assert_refused(&rt, rt.alloc(), before)?;
    }
    Ok(())
}
