ghost use Rattle.std.specs.Prelude.{◌<◌, [], Contains};
ghost use Rattle.hall_history.specs.Seat.{IsAtRest};
ghost use Rattle.plain_hall.specs.PlainHall.{seat_of};

use crate::samples::{bare, close_tells, is_left, load, see_pin, see_root};
use hall_history::AskIds;
use hall_trait::{AskAnswer, CloseAnswer, Hall};
use plain_hall::PlainHall;
use std::alloc::Global;
use std::process::Abort;
use std::sync::Wait;
use std::test::Fail;

// A trace is loaded, and closed twice.
fn close_twice<R: Abort + Wait>(hall: &mut PlainHall, rt: &R, alloc: Global) -> Result<(), Fail>
    requires { IsAtRest (seat_of hall.old) }
{
    load(hall, rt, alloc, 1, (1, 2, 3), true)?;
    close_tells(hall, rt, 1, CloseAnswer::Closed(4));
    is_left(hall, rt, 0, 0);
    close_tells(hall, rt, 1, CloseAnswer::Unknown { next: 2, place: 5 });
    close_tells(hall, rt, 2, CloseAnswer::Unknown { next: 2, place: 6 });
    Ok(())
}

#[test]
fn a_closed_trace_is_unknown(rt: HostRuntime) -> Result<(), Fail> {
    let mut hall = PlainHall::new(rt.alloc())?;
    close_twice(&mut hall, &rt, rt.alloc())
}

// A trace is closed before its load ends, and after it was given up.
fn close_early<R: Abort + Wait>(hall: &mut PlainHall, rt: &R, alloc: Global) -> Result<(), Fail>
    requires { IsAtRest (seat_of hall.old) }
{
    let pass = hall.admit(rt, bare(alloc)?)?;
    close_tells(hall, rt, 1, CloseAnswer::Loading(2));
    is_left(hall, rt, 1, 0);
    assert_eq!(rt; hall.abandon(rt, pass), 3);
    close_tells(hall, rt, 1, CloseAnswer::Unknown { next: 2, place: 4 });
    is_left(hall, rt, 0, 0);
    Ok(())
}

#[test]
fn a_loading_trace_stays(rt: HostRuntime) -> Result<(), Fail> {
    let mut hall = PlainHall::new(rt.alloc())?;
    close_early(&mut hall, &rt, rt.alloc())
}

// Two traces of the same tree are loaded; one is closed after the other, and the nodes go with the last.
fn close_the_last<R: Abort + Wait>(hall: &mut PlainHall, rt: &R, alloc: Global) -> Result<(), Fail>
    requires { IsAtRest (seat_of hall.old) }
{
    load(hall, rt, alloc, 1, (1, 2, 3), true)?;
    load(hall, rt, alloc, 2, (4, 5, 6), true)?;
    close_tells(hall, rt, 1, CloseAnswer::Closed(7));
    is_left(hall, rt, 1, 3);
    close_tells(hall, rt, 2, CloseAnswer::Closed(8));
    is_left(hall, rt, 0, 0);
    Ok(())
}

#[test]
fn the_last_open_trace_is_closed(rt: HostRuntime) -> Result<(), Fail> {
    let mut hall = PlainHall::new(rt.alloc())?;
    close_the_last(&mut hall, &rt, rt.alloc())
}

// A trace is closed while a pin is on it, which sees its track still.
fn close_under_pin<R: Abort + Wait>(hall: &mut PlainHall, rt: &R)
    requires { IsAtRest (seat_of hall.old) }
    ensures { IsAtRest (seat_of hall.new) }
{
    match hall.ask(rt, AskIds::Two(1, 1)) {
        AskAnswer::Pinned(pin) => {
            see_pin(rt, &pin, (1, 1), 4);
            close_tells(hall, rt, 1, CloseAnswer::Closed(5));
            is_left(hall, rt, 0, 3);
            see_root(hall, rt, &pin, 4);
            hall.unpin(rt, pin);
        }
        _ => panic!(rt; "not pinned"),
    }
}

// The nodes of a closed trace go when its pin is given back.
fn close_and_unpin<R: Abort + Wait>(hall: &mut PlainHall, rt: &R, alloc: Global) -> Result<(), Fail>
    requires { IsAtRest (seat_of hall.old) }
{
    load(hall, rt, alloc, 1, (1, 2, 3), true)?;
    close_under_pin(hall, rt);
    is_left(hall, rt, 0, 0);
    Ok(())
}

#[test]
fn a_pin_sees_what_is_closed(rt: HostRuntime) -> Result<(), Fail> {
    let mut hall = PlainHall::new(rt.alloc())?;
    close_and_unpin(&mut hall, &rt, rt.alloc())
}
