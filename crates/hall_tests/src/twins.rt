ghost use Rattle.std.specs.Prelude.{IfOk, OnOk};
ghost use Rattle.std.specs.Arc.{arc_value};
ghost use Rattle.trace_base.specs.Info.{IsLegalInfo};
ghost use Rattle.hall_history.specs.Seat.{IsAtRest};
ghost use Rattle.hall_tests.specs.OneTrack.{HasTwoTracks};
ghost use Rattle.plain_hall.specs.PlainHall.{seat_of};

use crate::comparing::{root_of, same_tells};
use crate::samples::{
    add_track, build, close_tells, end_load, info_of, is_left, no_names, push_name,
};
use hall_history::AskIds;
use hall_trait::{AskAnswer, CloseAnswer, Hall};
use plain_hall::PlainHall;
use std::alloc::Global;
use std::process::Abort;
use std::sync::{Arc, Wait};
use std::test::Fail;
use trace_base::{Memory, TraceInfo, Track};

// A trace with two tracks of half a second.
fn two_tracks(alloc: Global) -> Result<Arc<TraceInfo, Global>, Memory>
    ensures legal { IfOk result (λ info. IsLegalInfo (arc_value info)) }
    ensures two { IfOk result (λ info. HasTwoTracks (arc_value info)) }
{
    let mut names = no_names(alloc);
    add_track(alloc, &mut names)?;
    push_name(alloc, &mut names.kinds, b"other")?;
    names.tracks.push(Track {
        container: 0,
        kind: 1,
    })?;
    info_of(alloc, names)
}

// Loads the trace, on both tracks of which main calls f twice.
fn load_twins<R: Abort + Wait>(hall: &mut PlainHall, rt: &R, alloc: Global) -> Result<(), Fail>
    requires { IsAtRest (seat_of hall.old) }
    ensures { OnOk result (IsAtRest (seat_of hall.new)) }
{
    let mut pass = hall.admit(rt, two_tracks(alloc)?)?;
    assert_eq!(rt; (pass.id(), pass.place()), (1, 1));
    let first = build(hall, rt);
    assert_eq!(rt; hall.publish(rt, &mut pass, 0, first), 2);
    let second = build(hall, rt);
    assert_eq!(rt; (first, second), (4, 4));
    end_load(hall, rt, pass, second, (3, 4), true);
    Ok(())
}

// A pin sees one tree under both tracks.
fn see_twins<R: Abort + Wait>(hall: &mut PlainHall, rt: &R)
    requires { IsAtRest (seat_of hall.old) }
    ensures { IsAtRest (seat_of hall.new) }
{
    match hall.ask(rt, AskIds::One(1)) {
        AskAnswer::Pinned(pin) => {
            assert_eq!(rt; pin.place(), 5);
            let brief = pin.brief(0);
            assert_eq!(rt; brief.tracks, 2);
            let first = root_of(hall, rt, &pin, 0, 0);
            let second = root_of(hall, rt, &pin, 0, 1);
            assert_eq!(rt; (first, second), (4, 4));
            same_tells(hall, rt, &pin, first, second, true);
            hall.unpin(rt, pin);
        }
        _ => panic!(rt; "not pinned"),
    }
}

// The nodes of the tree go when the trace is closed.
fn load_and_close_twins<R: Abort + Wait>(
    hall: &mut PlainHall,
    rt: &R,
    alloc: Global,
) -> Result<(), Fail>
    requires { IsAtRest (seat_of hall.old) }
{
    load_twins(hall, rt, alloc)?;
    see_twins(hall, rt);
    is_left(hall, rt, 1, 3);
    close_tells(hall, rt, 1, CloseAnswer::Closed(6));
    is_left(hall, rt, 0, 0);
    Ok(())
}

#[test]
fn one_tree_under_two_tracks_goes_with_the_trace(rt: HostRuntime) -> Result<(), Fail> {
    let mut hall = PlainHall::new(rt.alloc())?;
    load_and_close_twins(&mut hall, &rt, rt.alloc())
}
