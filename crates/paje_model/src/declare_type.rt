//! Lines that declare types.
ghost use Rattle.std.specs.Prelude.{◌≡◌, List, true};
ghost use Rattle.paje_defs.specs.declared.event_name.EventName.TheVariants.{DefineLinkType};
ghost use Rattle.paje_lines.specs.declared.effect.Effect.TheVariants.{Declared};
ghost use Rattle.paje_lines.specs.EventLine.{EventLine, is_plain_type, line_of};
ghost use Rattle.paje_lines.specs.Reasons.{define_reason, define_link_reason};

use crate::known::Known;
use paje_defs::{Fields, Role};
use paje_lex::Unread;
use paje_lines::{Effect, ModelFault};

impl Known {
    ghost use Rattle.paje_model.specs.Known.{IsKnown, IsOfLines};
    ghost use Rattle.paje_model.specs.Steps.{Takes};

    /// A type of containers, of states, of punctual events or of variables.
    pub fn define(&mut self, n: u32, fields: &Fields<'_>) -> Result<Effect, Unread<ModelFault>>
        requires known { IsOfLines self.old }
        requires event { is_plain_type (line_of n fields.now).event ≡ true }
        ensures { (before : List EventLine) → IsKnown before self.old → Takes (record {
          before = before;
          line = line_of n fields.now;
          reason = define_reason before (line_of n fields.now);
          effect = Declared;
        }) self.new result }
    {
        self.container_type(fields, Role::Kind)?;
        self.declare_type(n, fields)
    }

    /// A link type.
    pub fn define_link(&mut self, n: u32, fields: &Fields<'_>) -> Result<Effect, Unread<ModelFault>>
        requires known { IsOfLines self.old }
        requires event { (line_of n fields.now).event ≡ DefineLinkType }
        ensures { (before : List EventLine) → IsKnown before self.old → Takes (record {
          before = before;
          line = line_of n fields.now;
          reason = define_link_reason before (line_of n fields.now);
          effect = Declared;
        }) self.new result }
    {
        self.container_type(fields, Role::Kind)?;
        self.container_type(fields, Role::FromKind)?;
        self.container_type(fields, Role::ToKind)?;
        self.declare_type(n, fields)
    }
}
