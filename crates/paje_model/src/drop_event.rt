//! Lines that are dropped.
ghost use Rattle.std.specs.Prelude.{◌≡◌, List, None, true};
ghost use Rattle.paje_lines.specs.declared.effect.Effect.TheVariants.{Dropped};
ghost use Rattle.paje_lines.specs.EventLine.{EventLine, is_dropped, line_of};

use crate::known::Known;
use paje_defs::Fields;
use paje_lex::Unread;
use paje_lines::{Effect, ModelFault};

impl Known {
    ghost use Rattle.paje_model.specs.Known.{IsKnown, IsOfLines};
    ghost use Rattle.paje_model.specs.Steps.{Takes};

    /// A punctual event, or a value of a variable.
    pub fn drop_event(&mut self, n: u32, fields: &Fields<'_>) -> Result<Effect, Unread<ModelFault>>
        requires known { IsOfLines self.old }
        requires event { is_dropped (line_of n fields.now).event ≡ true }
        ensures { (before : List EventLine) → IsKnown before self.old → Takes (record {
          before = before;
          line = line_of n fields.now;
          reason = None;
          effect = Dropped;
        }) self.new result }
    {
        Ok(Effect::Dropped)
    }
}
