ghost use Rattle.std.specs.Prelude.{◌≡◌, ◌↔◌, IsTrue, IfSome, IfNone};
ghost use Rattle.hall_core.specs.Allowed.{Allows, IsActive, MayEnd};
ghost use Rattle.hall_core.specs.World.{IsGood};
ghost use Rattle.hall_core.specs.declared.world.SeatView.{SeatView as Seat};

use crate::events::{HallEvent, ReadOf};
use crate::reach::is_reached;
use crate::stakes::{has_stake_on, is_staked};
use crate::world::{SeatView, World};

// The seat of an index, if it hasn't ended.
fn active(w: &World, at: usize) -> Option<&SeatView>
    ensures some { IfSome result (λ seat. IsActive w.now at seat.now) }
    ensures none { IfNone result ((seat : Seat) → ¬ IsActive w.now at seat) }
{
    let seat = w.seats.get(at)?;
    if seat.ended { None } else { Some(seat) }
}

// Whether another seat may be joined to this one.
fn may_end(w: &World, actor: usize, other: usize) -> bool
    ensures { IsTrue result ↔ MayEnd w.now actor other }
{
    match active(w, other) {
        Some(seat) => other != actor && seat.pins.is_empty() && seat.passes.is_empty(),
        None => false,
    }
}

/// Whether the seat of this index may make the event. It takes no memory.
pub fn allows(w: &World, actor: usize, e: &HallEvent) -> bool
    requires { IsGood w.now }
    ensures { IsTrue result ↔ Allows w.now actor e.now }
{
    let Some(seat) = active(w, actor) else {
        return false;
    };
    let stakes = seat.stakes.as_slice();
    match e {
        HallEvent::Intern(key) => is_staked(stakes, key),
        HallEvent::Read(ReadOf::Node(n)) => is_reached(w.state.shards.as_slice(), stakes, *n),
        HallEvent::Drop(n) => has_stake_on(stakes, *n),
        HallEvent::Split(part) => part.is_none(),
        HallEvent::Join(other) => may_end(w, actor, *other),
    }
}
