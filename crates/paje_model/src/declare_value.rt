//! Lines that declare values.
ghost use Rattle.std.specs.Prelude.{◌≡◌, ℕ, List, Some};
ghost use Rattle.paje_defs.specs.declared.event_name.EventName.TheVariants.{DefineEntityValue};
ghost use Rattle.paje_lines.specs.EventLine.{EventLine, line_of, text_of};
ghost use Rattle.paje_lines.specs.Types.{kind_named};
ghost use Rattle.paje_defs.specs.declared.role.Role.TheVariants.{Kind};
ghost use Rattle.paje_lines.specs.Effects.{effect};
ghost use Rattle.paje_lines.specs.Reasons.{new_value_reason, value_reason};
ghost use Rattle.paje_model.specs.Finds.{Finds};

use crate::found::{alias_of, text_of};
use crate::known::Known;
use crate::room::may_declare;
use paje_defs::{Fields, Role};
use paje_lex::Unread;
use paje_lines::{Effect, ModelFault, What};

impl Known {
    ghost use Rattle.paje_model.specs.Known.{IsKnown, IsOfLines};
    ghost use Rattle.paje_model.specs.Steps.{Takes};

    /// The alias of the line is new among the values of its state type, and there is room for one more.
    fn is_new_value(&self, fields: &Fields<'_>, kind: u32) -> Result<(), ModelFault>
        requires { IsOfLines self.now }
        ensures { (n : ℕ) (before : List EventLine) → IsKnown before self.now
            → kind_named before (text_of (line_of n fields.now) Kind) ≡ Some kind
            → Finds (new_value_reason before (line_of n fields.now) kind) (λ _. Unit {0}) result }
    {
        let taken = self.values.line(kind as usize, alias_of(fields));
        may_declare(taken, What::Values, self.values.len() as usize)
    }

    /// A value of a type; one of another type than a state type is dropped.
    pub fn define_value(
        &mut self,
        n: u32,
        fields: &Fields<'_>,
    ) -> Result<Effect, Unread<ModelFault>>
        requires known { IsOfLines self.old }
        requires event { (line_of n fields.now).event ≡ DefineEntityValue }
        ensures { (before : List EventLine) → IsKnown before self.old → Takes (record {
          before = before;
          line = line_of n fields.now;
          reason = value_reason before (line_of n fields.now);
          effect = effect before (line_of n fields.now);
        }) self.new result }
    {
        let Some(kind) = self.value_type(fields)? else {
            return Ok(Effect::Dropped);
        };
        self.is_new_value(fields, kind)?;
        let alias = alias_of(fields);
        self.values
            .add(kind as usize, alias, text_of(fields, Role::Name), n)?;
        Ok(Effect::Declared)
    }
}
