ghost use Rattle.std.specs.Prelude.{IfOk};
ghost use Rattle.trace_base.specs.Stream.{IsLegal};

use crate::told_work::WorkTellingHall;
use builders::build_track;
use std::alloc::Global;
use std::process::Abort;
use std::sync::Wait;
use std::test::Fail;
use trace_base::{Event, Memory, Seq, TrackStream};

const MAIN_AND_NINE_CALLS: [Event; 20] = [
    Event::Enter(1, 0),
    Event::Enter(2, 0),
    Event::Leave(10),
    Event::Enter(2, 10),
    Event::Leave(20),
    Event::Enter(2, 20),
    Event::Leave(30),
    Event::Enter(2, 30),
    Event::Leave(40),
    Event::Enter(2, 40),
    Event::Leave(50),
    Event::Enter(2, 50),
    Event::Leave(60),
    Event::Enter(2, 60),
    Event::Leave(70),
    Event::Enter(2, 70),
    Event::Leave(80),
    Event::Enter(2, 80),
    Event::Leave(90),
    Event::Leave(90),
];

/// A stream that is legal: main calls f nine times in a row.
fn nine_calls(alloc: Global) -> Result<TrackStream, Memory>
    ensures { IfOk result (λ s. IsLegal s) }
{
    let events = Seq::from_slice(alloc, &MAIN_AND_NINE_CALLS)?;
    Ok(TrackStream {
        start: 0,
        end: 90,
        events,
    })
}

// Builds the track twice: the root, main, the group of the first eight calls of f, and nine times f are
// twelve nodes, and the hall has them all when they are interned again.
fn build_twice<R: Abort + Wait>(
    hall: &mut WorkTellingHall,
    rt: &R,
    alloc: Global,
    s: &TrackStream,
) -> Result<(), Fail>
    requires { IsLegal s.now }
{
    let root = build_track(rt, alloc, hall, s)?;
    assert_eq!(rt; hall.interned, 12);
    let again = build_track(rt, alloc, hall, s)?;
    assert_eq!(rt; again, root);
    assert_eq!(rt; hall.interned, 24);
    Ok(())
}

#[test]
fn nodes_are_interned_as_often_as_they_stand_in_a_tree(rt: HostRuntime) -> Result<(), Fail> {
    let s = nine_calls(rt.alloc())?;
    let mut hall = WorkTellingHall::new(rt.alloc())?;
    build_twice(&mut hall, &rt, rt.alloc(), &s)
}
