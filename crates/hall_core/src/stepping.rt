ghost use Rattle.hall_core.specs.Allowed.{Allows};
ghost use Rattle.hall_core.specs.Steps.{IsStep};
ghost use Rattle.hall_core.specs.World.{IsGood};

use crate::events::{HallEvent, ReadOf, StepAnswer};
use crate::nodes::{give_back, intern};
use crate::rooms::node;
use crate::seats::{join, split};
use crate::world::World;
use std::alloc::Global;

/// The seat of an index makes an event, which it may, in a good world. The answer is that of the event's
/// room; `Memory`, where none was found, changes nothing.
pub fn step(alloc: Global, w: &mut World, actor: usize, e: &HallEvent) -> StepAnswer
    requires good { IsGood w.old }
    requires allowed { Allows w.old actor e.now }
    ensures step { IsStep w.old actor e.now result w.new }
    ensures good { IsGood w.new }
{
    match *e {
        HallEvent::Intern(key) => intern(alloc, w, actor, key),
        HallEvent::Read(ReadOf::Node(n)) => StepAnswer::Node(node(w.state.shards.as_slice(), n)),
        HallEvent::Drop(n) => give_back(alloc, w, actor, n),
        HallEvent::Split(None) => split(alloc, w, actor),
        HallEvent::Split(Some(_)) => unreachable!(),
        HallEvent::Join(other) => join(alloc, w, actor, other),
    }
}
