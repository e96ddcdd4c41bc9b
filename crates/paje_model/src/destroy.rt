//! Lines that destroy containers.
ghost use Rattle.std.specs.Prelude.{◌≡◌, List};
ghost use Rattle.paje_defs.specs.declared.event_name.EventName.TheVariants.{DestroyContainer};
ghost use Rattle.paje_lines.specs.EventLine.{EventLine, line_of};
ghost use Rattle.paje_lines.specs.Effects.{effect};
ghost use Rattle.paje_lines.specs.Reasons.{destroy_reason};
ghost use Rattle.paje_model.specs.ContainerTable.{stay_reason};
ghost use Rattle.paje_model.specs.Finds.{Finds};

use crate::container_table::Existing;
use crate::known::Known;
use paje_defs::{Fields, Role};
use paje_lex::Unread;
use paje_lines::{Effect, ModelFault};

/// The container at a place may be destroyed at this time; the root, which is at 0, may not.
fn may_end(place: u32, existing: &Existing, time: u64) -> Result<(), ModelFault>
    ensures { Finds (stay_reason place existing.now time) (λ _. Unit {0}) result }
{
    if place == 0 {
        return Err(ModelFault::WrongKind(Role::Name));
    }
    match existing.destruction {
        Some(destruction) => Err(ModelFault::AfterDestroy(destruction.line)),
        None => {
            if time < existing.latest {
                return Err(ModelFault::TimeBack(existing.latest));
            }
            Ok(())
        }
    }
}

impl Known {
    ghost use Rattle.paje_model.specs.Known.{IsKnown, IsOfLines};
    ghost use Rattle.paje_model.specs.Steps.{Takes};

    /// The end of a container.
    pub fn destroy(&mut self, n: u32, fields: &Fields<'_>) -> Result<Effect, Unread<ModelFault>>
        requires known { IsOfLines self.old }
        requires event { (line_of n fields.now).event ≡ DestroyContainer }
        ensures { (before : List EventLine) → IsKnown before self.old → Takes (record {
          before = before;
          line = line_of n fields.now;
          reason = destroy_reason before (line_of n fields.now);
          effect = effect before (line_of n fields.now);
        }) self.new result }
    {
        let place = self.container(fields, Role::Name)?;
        let existing = self.containers.at(place as usize);
        may_end(place, existing, fields.time())?;
        let left = self.tracks.open_calls(existing.tracks.as_slice());
        self.containers.destroy(place as usize, n, fields.time());
        Ok(Effect::Left(left))
    }
}
