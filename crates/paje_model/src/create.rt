//! Lines that create containers.
ghost use Rattle.std.specs.Prelude.{◌≡◌, List, length};
ghost use Rattle.paje_defs.specs.declared.event_name.EventName.TheVariants.{CreateContainer};
ghost use Rattle.paje_lines.specs.declared.effect.Effect.TheVariants.{Declared};
ghost use Rattle.paje_lines.specs.declared.what.What.TheVariants.{Containers};
ghost use Rattle.paje_lines.specs.Containers.{container_entities, containers_in};
ghost use Rattle.paje_lines.specs.EventLine.{EventLine, line_of};
ghost use Rattle.paje_lines.specs.Found.{rooted};
ghost use Rattle.paje_lines.specs.Reasons.{create_reason, new_reason};
ghost use Rattle.paje_model.specs.Finds.{Finds};

use crate::found::{alias_of, text_of};
use crate::known::Known;
use crate::room::room;
use paje_defs::{Fields, Role};
use paje_lex::Unread;
use paje_lines::{Effect, ModelFault, What};

impl Known {
    ghost use Rattle.paje_model.specs.Known.{IsKnown, IsOfLines};
    ghost use Rattle.paje_model.specs.Steps.{Takes};

    /// There may be one more container, of this alias.
    fn may_create(&self, alias: &[u8]) -> Result<(), ModelFault>
        requires { IsOfLines self.now }
        ensures { (before : List EventLine) → IsKnown before self.now
            → Finds (new_reason Containers (container_entities before) (rooted alias.now)
            (length (containers_in before))) (λ _. Unit {0}) result }
    {
        match self.containers.line(alias) {
            Some(line) => Err(ModelFault::DoubleAlias(line)),
            None => room(What::Containers, self.containers.len()),
        }
    }

    /// A container.
    pub fn create(&mut self, n: u32, fields: &Fields<'_>) -> Result<Effect, Unread<ModelFault>>
        requires known { IsOfLines self.old }
        requires event { (line_of n fields.now).event ≡ CreateContainer }
        ensures { (before : List EventLine) → IsKnown before self.old → Takes (record {
          before = before;
          line = line_of n fields.now;
          reason = create_reason before (line_of n fields.now);
          effect = Declared;
        }) self.new result }
    {
        self.container_type(fields, Role::Kind)?;
        self.container(fields, Role::Holder)?;
        let alias = alias_of(fields);
        self.may_create(alias)?;
        let name = text_of(fields, Role::Name);
        self.containers.add(alias, name, n, fields.time())?;
        Ok(Effect::Declared)
    }
}
