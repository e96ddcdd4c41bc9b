ghost use Rattle.std.specs.Prelude.{◌≡◌, ℕ, ◌<◌, Contains, IfOk, take};
ghost use Rattle.std.specs.Arc.{arc_value};
ghost use Rattle.trace_base.specs.Info.{IsLegalInfo};
ghost use Rattle.hall_history.specs.History.{tracks_of};
ghost use Rattle.hall_history.specs.Seat.{IsAtRest};
ghost use Rattle.hall_tests.specs.Sees.{Sees};
ghost use Rattle.hall_trait.specs.Pin.{pin_view};
ghost use Rattle.hall_history.specs.Asks.{id_at};
ghost use Rattle.plain_hall.specs.PlainHall.{reached_in, seat_of};

use crate::samples::{info_of, load, load_lone, no_names, open_and_seal, push_name, see_pin};
use hall_history::{AskIds, Published};
use hall_trait::{AskAnswer, Hall, Pin};
use plain_hall::PlainHall;
use std::alloc::Global;
use std::process::Abort;
use std::sync::{Arc, Wait};
use std::test::Fail;
use trace_base::{Memory, TraceInfo};

/// The root of a track of a pinned trace.
pub(crate) fn root_of<R: Abort + Wait>(
    hall: &mut PlainHall,
    rt: &R,
    pin: &Pin,
    which: u8,
    track: u32,
) -> u64
    requires has { Contains (seat_of hall.old).pins (pin_view pin.now) }
    requires which { which < 2 }
    requires within { track < tracks_of (take pin.now.place (seat_of hall.old).seen)
        (id_at pin.now.ids which) }
    ensures seat { seat_of hall.new ≡ seat_of hall.old }
    ensures root { Sees (reached_in hall.new) (pin_view pin.now) result }
    ensures still { (n : ℕ) → Sees (reached_in hall.old) (pin_view pin.now) n
        → Sees (reached_in hall.new) (pin_view pin.now) n }
{
    match hall.published(rt, pin, which, track) {
        Published::Root { start: _, root } => root,
        Published::NotYet => panic!(rt; "not yet"),
    }
}

// The number of the first kid of a node.
fn first_kid<R: Abort + Wait>(hall: &mut PlainHall, rt: &R, pin: &Pin, n: u64) -> u64
    requires has { Contains (seat_of hall.old).pins (pin_view pin.now) }
    requires seen { Sees (reached_in hall.old) (pin_view pin.now) n }
    ensures seat { seat_of hall.new ≡ seat_of hall.old }
    ensures kid { Sees (reached_in hall.new) (pin_view pin.now) result }
    ensures still { (m : ℕ) → Sees (reached_in hall.old) (pin_view pin.now) m
        → Sees (reached_in hall.new) (pin_view pin.now) m }
{
    let key = hall.read(rt, n);
    if key.len == 0 {
        panic!(rt; "a leaf")
    }
    key.kids[0].node
}

/// Whether the trees of two numbers are the same.
pub(crate) fn same_tells<R: Abort + Wait>(
    hall: &mut PlainHall,
    rt: &R,
    pin: &Pin,
    a: u64,
    b: u64,
    told: bool,
)
    requires has { Contains (seat_of hall.old).pins (pin_view pin.now) }
    requires first { Sees (reached_in hall.old) (pin_view pin.now) a }
    requires second { Sees (reached_in hall.old) (pin_view pin.now) b }
    ensures seat { seat_of hall.new ≡ seat_of hall.old }
    ensures still { (n : ℕ) → Sees (reached_in hall.old) (pin_view pin.now) n
        → Sees (reached_in hall.new) (pin_view pin.now) n }
{
    assert_eq!(rt; hall.same(rt, pin, a, b), told);
}

// A track, main and f are three trees.
fn compare_below<R: Abort + Wait>(hall: &mut PlainHall, rt: &R, pin: &Pin, root: u64)
    requires has { Contains (seat_of hall.old).pins (pin_view pin.now) }
    requires seen { Sees (reached_in hall.old) (pin_view pin.now) root }
    ensures { seat_of hall.new ≡ seat_of hall.old }
{
    let main = first_kid(hall, rt, pin, root);
    let f = first_kid(hall, rt, pin, main);
    assert_eq!(rt; (main, f), (12, 0));
    same_tells(hall, rt, pin, root, main, false);
    same_tells(hall, rt, pin, root, f, false);
    same_tells(hall, rt, pin, f, main, false);
    same_tells(hall, rt, pin, f, f, true);
}

// A pin of two traces, and the roots of their first tracks.
struct PinnedRoots {
    pin: Pin,
    root: u64,
    other: u64,
}

// Pins the traces 1 and 2, each of which has one track.
fn pin_roots<R: Abort + Wait>(hall: &mut PlainHall, rt: &R) -> PinnedRoots
    requires { IsAtRest (seat_of hall.old) }
    ensures has { Contains (seat_of hall.new).pins (pin_view result.pin) }
    ensures root { Sees (reached_in hall.new) (pin_view result.pin) result.root }
    ensures other { Sees (reached_in hall.new) (pin_view result.pin) result.other }
{
    match hall.ask(rt, AskIds::Two(1, 2)) {
        AskAnswer::Pinned(pin) => {
            see_pin(rt, &pin, (1, 2), 7);
            let root = root_of(hall, rt, &pin, 0, 0);
            let other = root_of(hall, rt, &pin, 1, 0);
            PinnedRoots { pin, root, other }
        }
        _ => panic!(rt; "not pinned"),
    }
}

// The tracks of two traces have the same tree, which has one number.
fn compare_tracks<R: Abort + Wait>(hall: &mut PlainHall, rt: &R)
    requires { IsAtRest (seat_of hall.old) }
{
    let PinnedRoots { pin, root, other } = pin_roots(hall, rt);
    assert_eq!(rt; (root, other), (4, 4));
    same_tells(hall, rt, &pin, root, other, true);
    compare_below(hall, rt, &pin, root);
    hall.unpin(rt, pin);
}

// Two traces of the same tree are loaded, and their trees compared.
fn load_and_compare<R: Abort + Wait>(
    hall: &mut PlainHall,
    rt: &R,
    alloc: Global,
) -> Result<(), Fail>
    requires { IsAtRest (seat_of hall.old) }
{
    load(hall, rt, alloc, 1, (1, 2, 3), true)?;
    load(hall, rt, alloc, 2, (4, 5, 6), true)?;
    compare_tracks(hall, rt);
    Ok(())
}

#[test]
fn equal_trees_are_the_same(rt: HostRuntime) -> Result<(), Fail> {
    let mut hall = PlainHall::new(rt.alloc())?;
    load_and_compare(&mut hall, &rt, rt.alloc())
}

// The tree of this number lasts half a second.
fn lasts_half<R: Abort + Wait>(hall: &mut PlainHall, rt: &R, pin: &Pin, n: u64)
    requires has { Contains (seat_of hall.old).pins (pin_view pin.now) }
    requires seen { Sees (reached_in hall.old) (pin_view pin.now) n }
    ensures seat { seat_of hall.new ≡ seat_of hall.old }
    ensures still { (m : ℕ) → Sees (reached_in hall.old) (pin_view pin.now) m
        → Sees (reached_in hall.new) (pin_view pin.now) m }
{
    assert_eq!(rt; hall.read(rt, n).dur, 500_000_000);
}

// The trees of two numbers last half a second each, and aren't the same.
fn compare_unlike<R: Abort + Wait>(hall: &mut PlainHall, rt: &R, pin: &Pin, a: u64, b: u64)
    requires has { Contains (seat_of hall.old).pins (pin_view pin.now) }
    requires first { Sees (reached_in hall.old) (pin_view pin.now) a }
    requires second { Sees (reached_in hall.old) (pin_view pin.now) b }
    ensures seat { seat_of hall.new ≡ seat_of hall.old }
    ensures still { (m : ℕ) → Sees (reached_in hall.old) (pin_view pin.now) m
        → Sees (reached_in hall.new) (pin_view pin.now) m }
{
    lasts_half(hall, rt, pin, a);
    lasts_half(hall, rt, pin, b);
    same_tells(hall, rt, pin, a, b, false);
    same_tells(hall, rt, pin, b, a, false);
    same_tells(hall, rt, pin, a, a, true);
    same_tells(hall, rt, pin, b, b, true);
}

// Two tracks of one duration, and their mains, are different trees.
fn compare_durations<R: Abort + Wait>(hall: &mut PlainHall, rt: &R)
    requires { IsAtRest (seat_of hall.old) }
{
    let PinnedRoots { pin, root, other } = pin_roots(hall, rt);
    assert_eq!(rt; (root, other), (4, 28));
    compare_unlike(hall, rt, &pin, root, other);
    let main = first_kid(hall, rt, &pin, root);
    let lone = first_kid(hall, rt, &pin, other);
    assert_eq!(rt; (main, lone), (12, 7));
    compare_unlike(hall, rt, &pin, main, lone);
    hall.unpin(rt, pin);
}

// Two traces of different trees that last as long are loaded, and their trees compared.
fn load_unlike<R: Abort + Wait>(hall: &mut PlainHall, rt: &R, alloc: Global) -> Result<(), Fail>
    requires { IsAtRest (seat_of hall.old) }
{
    load(hall, rt, alloc, 1, (1, 2, 3), true)?;
    load_lone(hall, rt, alloc, 2, (4, 5, 6))?;
    compare_durations(hall, rt);
    Ok(())
}

#[test]
fn different_trees_of_one_duration_are_not_the_same(rt: HostRuntime) -> Result<(), Fail> {
    let mut hall = PlainHall::new(rt.alloc())?;
    load_unlike(&mut hall, &rt, rt.alloc())
}

// A trace without tracks whose functions are main and this one.
fn named(alloc: Global, function: &[u8]) -> Result<Arc<TraceInfo, Global>, Memory>
    ensures { IfOk result (λ info. IsLegalInfo (arc_value info)) }
{
    let mut names = no_names(alloc);
    push_name(alloc, &mut names.functions, b"main")?;
    push_name(alloc, &mut names.functions, function)?;
    info_of(alloc, names)
}

// Whether two traces have the same names.
fn names_tell<R: Abort + Wait>(hall: &mut PlainHall, rt: &R, ids: (u64, u64), told: bool)
    requires { IsAtRest (seat_of hall.old) }
    ensures { IsAtRest (seat_of hall.new) }
{
    match hall.ask(rt, AskIds::Two(ids.0, ids.1)) {
        AskAnswer::Pinned(pin) => {
            assert_eq!(rt; hall.same_names(rt, &pin), told);
            hall.unpin(rt, pin);
        }
        _ => panic!(rt; "not pinned"),
    }
}

// Two traces with the same names, and one with as many others.
fn compare_names<R: Abort + Wait>(hall: &mut PlainHall, rt: &R, alloc: Global) -> Result<(), Fail>
    requires { IsAtRest (seat_of hall.old) }
{
    open_and_seal(hall, rt, named(alloc, b"f")?, 1, 2)?;
    open_and_seal(hall, rt, named(alloc, b"f")?, 2, 4)?;
    open_and_seal(hall, rt, named(alloc, b"g")?, 3, 6)?;
    names_tell(hall, rt, (1, 1), true);
    names_tell(hall, rt, (1, 2), true);
    names_tell(hall, rt, (1, 3), false);
    Ok(())
}

#[test]
fn names_are_compared(rt: HostRuntime) -> Result<(), Fail> {
    let mut hall = PlainHall::new(rt.alloc())?;
    compare_names(&mut hall, &rt, rt.alloc())
}
