ghost use Rattle.std.specs.Prelude.{◌≡◌, ◌≢◌, ◌<◌, ◌++◌, [], false, IsTrue, None, Some, length};
ghost use Rattle.std.specs.Prelude.{slice_get, slice_set};
ghost use Rattle.hall_core.specs.Allowed.{Allows};
ghost use Rattle.hall_core.specs.Steps.{IsStep};
ghost use Rattle.hall_core.specs.World.{IsGood};
ghost use Rattle.hall_core.specs.declared.events.HallEvent.TheVariants as event;
ghost use Rattle.hall_core.specs.declared.world.SeatView.{SeatView as Seat};

use crate::events::StepAnswer;
use crate::world::{SeatView, World};
use std::alloc::Global;
use std::mem;
use trace_base::Seq;

/// The seat makes another one, which has seen as much.
pub(crate) fn split(alloc: Global, w: &mut World, actor: usize) -> StepAnswer
    requires { Allows w.old actor (event.Split None) }
    ensures { IsStep w.old actor (event.Split None) result w.new }
{
    let seen = match w.seats.get(actor) {
        Some(seat) => seat.seen,
        None => unreachable!(),
    };
    match w.seats.push(SeatView::new(alloc, seen)) {
        Ok(()) => StepAnswer::Split,
        Err(_) => StepAnswer::Memory,
    }
}

// Moves all stakes of one seat to another. On `Memory` each keeps its own.
fn move_stakes(alloc: Global, seats: &mut Vec<SeatView>, from: usize, to: usize) -> bool
    requires apart { from ≢ to }
    requires there { (from < length seats.old.items) × (to < length seats.old.items) }
    ensures moved { (a b : Seat) → slice_get seats.old.items from ≡ Some a
        → slice_get seats.old.items to ≡ Some b → IsTrue result
        → seats.new.items ≡ slice_set (slice_set seats.old.items from (record a { stakes = [] })) to
        (record b { stakes = b.stakes ++ a.stakes }) }
    ensures same { result ≡ false → seats.new.items ≡ seats.old.items }
{
    let mut moved = mem::replace(&mut seats[from].stakes, Seq::new(alloc)).into_vec();
    let mut list = mem::replace(&mut seats[to].stakes, Seq::new(alloc)).into_vec();
    let done = list.append(&mut moved).is_ok();
    seats[to].stakes = Seq::from_vec(list);
    seats[from].stakes = Seq::from_vec(moved);
    done
}

/// The seat ends another one, and takes over its stakes. In a good world seats have neither seen entries nor
/// made any.
pub(crate) fn join(alloc: Global, w: &mut World, actor: usize, other: usize) -> StepAnswer
    requires good { IsGood w.old }
    requires allowed { Allows w.old actor (event.Join other) }
    ensures { IsStep w.old actor (event.Join other) result w.new }
{
    let mut seats = mem::replace(&mut w.seats, Seq::new(alloc)).into_vec();
    let answer = if move_stakes(alloc, &mut seats, other, actor) {
        seats[other].ended = true;
        StepAnswer::Joined
    } else {
        StepAnswer::Memory
    };
    w.seats = Seq::from_vec(seats);
    answer
}
