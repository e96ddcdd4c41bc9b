ghost use Rattle.hall_history.specs.History.{Asked};
ghost use Rattle.hall_history.specs.Seat.{IsAtRest};
ghost use Rattle.hall_trait.specs.Answers.{MakesOwnEntry};
ghost use Rattle.plain_hall.specs.PlainHall.{seat_of};

use crate::samples::{close_tells, load, one_track};
use hall_history::ListRow;
use hall_trait::{CloseAnswer, Hall, HallFault};
use plain_hall::PlainHall;
use std::alloc::Global;
use std::process::Abort;
use std::sync::Wait;
use std::test::Fail;
use test_halls::RefusingHall;

/// The row of the trace 1, once its one track is published and it is sealed.
const SEALED: ListRow = ListRow {
    id: 1,
    tracks: 1,
    published: 1,
    loading: false,
};

/// The row of the trace 2 with one track, of which none is published.
const LOADING: ListRow = ListRow {
    id: 2,
    tracks: 1,
    published: 0,
    loading: true,
};

// The rows are these, as of this place.
fn list_tells<R: Abort + Wait, H: Hall>(hall: &mut H, rt: &R, place: u64, rows: &[ListRow])
    ensures { MakesOwnEntry (H.view hall.old).alone (H.view hall.old).seat (H.view hall.new).seat Asked
        place }
{
    match hall.list(rt) {
        Ok(listing) => {
            assert_eq!(rt; listing.place, place);
            assert!(rt; listing.rows.as_slice() == rows);
        }
        Err(_) => panic!(rt; "refused"),
    }
}

// No trace, one that is open, one more that is loading, and that one alone.
fn list_all<R: Abort + Wait>(hall: &mut PlainHall, rt: &R, alloc: Global) -> Result<(), Fail>
    requires { IsAtRest (seat_of hall.old) }
{
    list_tells(hall, rt, 1, &[]);
    load(hall, rt, alloc, 1, (2, 3, 4), true)?;
    list_tells(hall, rt, 5, &[SEALED]);
    let pass = hall.admit(rt, one_track(alloc)?)?;
    list_tells(hall, rt, 7, &[SEALED, LOADING]);
    close_tells(hall, rt, 1, CloseAnswer::Closed(8));
    list_tells(hall, rt, 9, &[LOADING]);
    assert_eq!(rt; hall.abandon(rt, pass), 10);
    list_tells(hall, rt, 11, &[]);
    Ok(())
}

#[test]
fn open_and_loading_traces_are_listed(rt: HostRuntime) -> Result<(), Fail> {
    let mut hall = PlainHall::new(rt.alloc())?;
    list_all(&mut hall, &rt, rt.alloc())
}

// Without memory for a listing, all stays as it was: the next one gets the place that this one didn't.
fn list_in_vain<R: Abort + Wait, H: Hall>(hall: &mut H, rt: &R, place: u64, rows: &[ListRow])
    ensures { MakesOwnEntry (H.view hall.old).alone (H.view hall.old).seat (H.view hall.new).seat Asked
        place }
{
    match hall.list(rt) {
        Ok(_) => panic!(rt; "listed"),
        Err(fault) => assert_eq!(rt; fault, HallFault::Memory),
    }
    list_tells(hall, rt, place, rows);
}

#[test]
fn a_listing_without_memory_changes_nothing(rt: HostRuntime) -> Result<(), Fail> {
    let mut hall = RefusingHall::over(PlainHall::new(rt.alloc())?, 0);
    list_in_vain(&mut hall, &rt, 1, &[]);
    Ok(())
}

// An open trace and a loading one, of which the first listing finds no memory.
fn list_open_in_vain<R: Abort + Wait>(hall: PlainHall, rt: &R, alloc: Global) -> Result<(), Fail>
    requires { IsAtRest (seat_of hall) }
{
    let mut hall = hall;
    load(&mut hall, rt, alloc, 1, (1, 2, 3), true)?;
    let pass = hall.admit(rt, one_track(alloc)?)?;
    let mut refusing = RefusingHall::over(hall, 0);
    list_in_vain(&mut refusing, rt, 5, &[SEALED, LOADING]);
    assert_eq!(rt; refusing.abandon(rt, pass), 6);
    Ok(())
}

#[test]
fn a_listing_of_open_traces_without_memory_changes_nothing(rt: HostRuntime) -> Result<(), Fail> {
    list_open_in_vain(PlainHall::new(rt.alloc())?, &rt, rt.alloc())
}
