ghost use Rattle.hall_core.specs.Runs.{RunsIn};
ghost use Rattle.hall_core.specs.World.{IsGood};

use crate::allowed::allows;
use crate::events::{HallEvent, RunFault, StepAnswer};
use crate::stepping::step;
use crate::world::World;
use std::alloc::Global;
use trace_base::Seq;

/// Makes the events one after the other, each by the seat of its index, from a good world on, and answers
/// what each was answered.
///
/// Errors: `NotAllowed` with the least index of an event that its seat may not make, counted from 0; `Memory`
/// with the index of the event for which no memory was found. The events before it are done, and no other.
pub fn run_events(
    alloc: Global,
    w: &mut World,
    list: &[(usize, HallEvent)],
) -> Result<Seq<StepAnswer>, RunFault>
    requires { IsGood w.old }
    ensures run { RunsIn w.old list.now result w.new }
    ensures good { IsGood w.new }
{
    let Ok(mut answers) = Vec::with_capacity(alloc, list.len()) else {
        return Err(RunFault::Memory(0));
    };
    for i in 0..list.len() {
        let (actor, e) = list[i];
        if !allows(w, actor, &e) {
            return Err(RunFault::NotAllowed(i));
        }
        match step(alloc, w, actor, &e) {
            StepAnswer::Memory => return Err(RunFault::Memory(i)),
            answer => answers.push_reserved(answer),
        }
    }
    Ok(Seq::from_vec(answers))
}
