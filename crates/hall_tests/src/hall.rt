ghost use Rattle.std.specs.Prelude.{◌≡◌, [], Contains};
ghost use Rattle.std.specs.Arc.{arc_value};
ghost use Rattle.trace_base.specs.Info.{IsLegalInfo};
ghost use Rattle.hall_history.specs.Seat.{IsAtRest};
ghost use Rattle.hall_trait.specs.Pin.{pin_view};
ghost use Rattle.plain_hall.specs.PlainHall.{seat_of};

use crate::samples::{
    bare, is_left, load, open_and_drop, open_and_seal, see_pin, see_root, stake_f, stake_main,
};
use hall_history::{AskIds, ListRow};
use hall_trait::{AskAnswer, Hall, HallFault, Pin};
use node_key::MAX_NUMBERS;
use plain_hall::PlainHall;
use std::alloc::Global;
use std::process::Abort;
use std::sync::{Arc, Wait};
use std::test::Fail;
use test_keys::key_of_f;
use trace_base::TraceInfo;

// Its second trace lasts half a second.
fn see_end<R: Abort + Wait>(hall: &mut PlainHall, rt: &R, pin: &Pin)
    requires { Contains (seat_of hall.old).pins (pin_view pin.now) }
    ensures { seat_of hall.new ≡ seat_of hall.old }
{
    match hall.info(rt, pin, 1) {
        Ok(info) => assert_eq!(rt; info.names.end, 500_000_000),
        Err(_) => panic!(rt; "no info"),
    }
}

// Asks for two traces, of which the first has one track, and reads that track and the names of the second.
fn ask_for<R: Abort + Wait>(hall: &mut PlainHall, rt: &R, ids: (u64, u64), place: u64, root: u64)
    requires { IsAtRest (seat_of hall.old) }
    ensures { IsAtRest (seat_of hall.new) }
{
    match hall.ask(rt, AskIds::Two(ids.0, ids.1)) {
        AskAnswer::Pinned(pin) => {
            see_pin(rt, &pin, ids, place);
            see_root(hall, rt, &pin, root);
            see_end(hall, rt, &pin);
            hall.unpin(rt, pin);
        }
        _ => panic!(rt; "not pinned"),
    }
}

// Asks for a trace that isn't open.
fn ask_in_vain<R: Abort + Wait>(hall: &mut PlainHall, rt: &R, id: u64, next: u64, place: u64)
    requires { IsAtRest (seat_of hall.old) }
    ensures { IsAtRest (seat_of hall.new) }
{
    match hall.ask(rt, AskIds::Two(1, id)) {
        AskAnswer::Unknown {
            id: told,
            next: after,
            place: at,
        } => assert_eq!(rt; (told, after, at), (id, next, place)),
        _ => panic!(rt; "not unknown"),
    }
}

// Main and the calls of f below it are counted, and a call of f besides, which outlives them.
fn count_keys<R: Abort + Wait>(hall: &mut PlainHall, rt: &R)
    requires { (seat_of hall.old).stakes ≡ [] }
    ensures { (seat_of hall.new).stakes ≡ [] }
{
    let (f, new) = stake_f(hall, rt);
    assert_eq!(rt; (f, new), (0, true));
    let (again, new) = stake_f(hall, rt);
    assert_eq!(rt; (again, new), (0, false));
    let (main, new) = stake_main(hall, rt, f, again);
    assert_eq!(rt; (main, new), (12, true));
    let (besides, new) = stake_f(hall, rt);
    assert_eq!(rt; (besides, new), (0, false));
    hall.release(rt, main);
    let (still, new) = stake_f(hall, rt);
    assert_eq!(rt; (still, new), (0, false));
    hall.release(rt, besides);
    hall.release(rt, still);
}

// f is new, gets this number, and goes.
fn count_once<R: Abort + Wait>(hall: &mut PlainHall, rt: &R, number: u64)
    requires { (seat_of hall.old).stakes ≡ [] }
    ensures { (seat_of hall.new).stakes ≡ [] }
{
    let (f, new) = stake_f(hall, rt);
    assert_eq!(rt; (f, new), (number, true));
    hall.release(rt, f);
}

#[test]
fn equal_keys_are_one_node(rt: HostRuntime) -> Result<(), Fail> {
    let mut hall = PlainHall::new(rt.alloc())?;
    count_keys(&mut hall, &rt);
    is_left(&hall, &rt, 0, 0);
    count_once(&mut hall, &rt, 16);
    is_left(&hall, &rt, 0, 0);
    Ok(())
}

#[test]
fn the_last_number_is_given_once(rt: HostRuntime) -> Result<(), Fail> {
    let mut hall = PlainHall::starting_at(rt.alloc(), MAX_NUMBERS - 1)?;
    count_once(&mut hall, &rt, 17_592_186_044_400);
    match hall.intern(&rt, key_of_f()) {
        Ok(_) => panic!(rt; "not spent"),
        Err(fault) => assert_eq!(rt; fault, HallFault::Spent(1_099_511_627_776)),
    }
    Ok(())
}

// The most traces that may be open are listed.
fn see_all<R: Abort + Wait>(hall: &mut PlainHall, rt: &R) {
    match hall.list(rt) {
        Ok(listing) => {
            let rows = listing.rows.as_slice();
            assert_eq!(rt; (listing.place, rows.len()), (2_049, 1_024));
            assert_eq!(rt; rows.first(), Some(&row_of(1)));
            assert_eq!(rt; rows.last(), Some(&row_of(1_024)));
        }
        Err(_) => panic!(rt; "refused"),
    }
}

// The row of an open trace without tracks.
fn row_of(id: u64) -> ListRow {
    ListRow {
        id,
        tracks: 0,
        published: 0,
        loading: false,
    }
}

// The most traces are opened and listed, and one more isn't opened.
fn open_all<R: Abort + Wait>(
    hall: &mut PlainHall,
    rt: &R,
    info: Arc<TraceInfo, Global>,
) -> Result<(), Fail>
    requires { IsLegalInfo (arc_value info) }
{
    for id in 1..1025 {
        open_and_seal(hall, rt, info.clone()?, id, 2 * id)?;
    }
    see_all(hall, rt);
    match hall.admit(rt, info) {
        Ok(pass) => {
            hall.abandon(rt, pass);
            panic!(rt; "admitted");
        }
        Err(fault) => assert_eq!(rt; fault, HallFault::Full(2_050)),
    }
    Ok(())
}

#[test]
fn the_open_traces_are_few(rt: HostRuntime) -> Result<(), Fail> {
    let info = bare(rt.alloc())?;
    let mut hall = PlainHall::new(rt.alloc())?;
    open_all(&mut hall, &rt, info)
}

// Loads, questions and loads that are given up, from an empty hall on.
fn load_and_ask<R: Abort + Wait>(hall: &mut PlainHall, rt: &R, alloc: Global) -> Result<(), Fail>
    requires { IsAtRest (seat_of hall.old) }
{
    load(hall, rt, alloc, 1, (1, 2, 3), true)?;
    is_left(hall, rt, 1, 3);
    ask_for(hall, rt, (1, 1), 4, 4);
    ask_in_vain(hall, rt, 2, 2, 5);
    open_and_drop(hall, rt, alloc, 2, 6, 7)?;
    ask_in_vain(hall, rt, 2, 3, 8);
    load(hall, rt, alloc, 3, (9, 10, 11), false)?;
    is_left(hall, rt, 1, 3);
    load(hall, rt, alloc, 4, (12, 13, 14), true)?;
    is_left(hall, rt, 2, 3);
    ask_for(hall, rt, (4, 1), 15, 4);
    Ok(())
}

#[test]
fn traces_are_loaded_and_asked_for(rt: HostRuntime) -> Result<(), Fail> {
    let mut hall = PlainHall::new(rt.alloc())?;
    load_and_ask(&mut hall, &rt, rt.alloc())
}

// A load is given up in an empty hall.
fn give_up<R: Abort + Wait>(hall: &mut PlainHall, rt: &R, alloc: Global) -> Result<(), Fail>
    requires { IsAtRest (seat_of hall.old) }
{
    load(hall, rt, alloc, 1, (1, 2, 3), false)?;
    is_left(hall, rt, 0, 0);
    Ok(())
}

#[test]
fn nothing_is_left_of_a_load_that_is_given_up(rt: HostRuntime) -> Result<(), Fail> {
    let mut hall = PlainHall::new(rt.alloc())?;
    give_up(&mut hall, &rt, rt.alloc())
}
