//! Lines of each event.
ghost use Rattle.std.specs.Prelude.{List};
ghost use Rattle.paje_lines.specs.EventLine.{EventLine, line_of};
ghost use Rattle.paje_lines.specs.Effects.{effect};
ghost use Rattle.paje_lines.specs.Reasons.{event_reason};

use crate::known::Known;
use paje_defs::{EventName, Fields};
use paje_lex::Unread;
use paje_lines::{Effect, ModelFault};

impl Known {
    ghost use Rattle.paje_model.specs.Known.{IsKnown, IsOfLines};
    ghost use Rattle.paje_model.specs.Steps.{Takes};

    /// Takes the `n`th line of a text, which has these fields. After `Memory` it may only be dropped.
    pub fn take(&mut self, n: u32, fields: &Fields<'_>) -> Result<Effect, Unread<ModelFault>>
        requires { IsOfLines self.old }
        ensures { (before : List EventLine) → IsKnown before self.old → Takes (record {
          before = before;
          line = line_of n fields.now;
          reason = event_reason before (line_of n fields.now);
          effect = effect before (line_of n fields.now);
        }) self.new result }
    {
        match fields.kind() {
            EventName::DefineContainerType => self.define(n, fields),
            EventName::DefineStateType => self.define(n, fields),
            EventName::DefineEventType => self.define(n, fields),
            EventName::DefineVariableType => self.define(n, fields),
            EventName::DefineLinkType => self.define_link(n, fields),
            EventName::DefineEntityValue => self.define_value(n, fields),
            EventName::CreateContainer => self.create(n, fields),
            EventName::DestroyContainer => self.destroy(n, fields),
            EventName::PushState => self.state_event(n, fields),
            EventName::SetState => self.state_event(n, fields),
            EventName::PopState => self.state_event(n, fields),
            EventName::ResetState => self.state_event(n, fields),
            EventName::StartLink => self.link_event(n, fields),
            EventName::EndLink => self.link_event(n, fields),
            EventName::NewEvent => self.drop_event(n, fields),
            EventName::SetVariable => self.drop_event(n, fields),
            EventName::AddVariable => self.drop_event(n, fields),
            EventName::SubVariable => self.drop_event(n, fields),
        }
    }
}
