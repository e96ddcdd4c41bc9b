//! Lines of the ends of messages.
ghost use Rattle.std.specs.Prelude.{◌≡◌, ℕ, List, true, IfOk, if◌then◌else◌};
ghost use Rattle.paje_lines.specs.declared.effect.Effect.TheVariants.{Linked};
ghost use Rattle.paje_lines.specs.EventLine.{EventLine, end_role, is_link_event, line_of, starts_link};
ghost use Rattle.paje_lines.specs.Reasons.{link_reason, links_in};
ghost use Rattle.paje_model.specs.LinkTold.{link_told};

use crate::found::text_of;
use crate::known::Known;
use crate::room::room;
use paje_defs::{EventName, Fields, Role};
use paje_lex::Unread;
use paje_lines::{Effect, ModelFault, What};
use std::alloc::Global;
use trace_base::{LinkEvent, Memory, Name};

/// The role of the container of a link's end.
fn end_role(event: EventName) -> Role
    ensures { result ≡ end_role event }
{
    match event {
        EventName::StartLink => Role::From,
        _ => Role::To,
    }
}

/// Whether it is the start.
fn starts_link(event: EventName) -> bool
    ensures { result ≡ starts_link event }
{
    match event {
        EventName::StartLink => true,
        _ => false,
    }
}

/// The size of the message, 0 at its end.
fn size_told(fields: &Fields<'_>) -> u64
    ensures { result ≡ (if starts_link fields.now.kind then fields.now.size else 0) }
{
    if starts_link(fields.kind()) {
        fields.size()
    } else {
        0
    }
}

/// The end of a message of a link type, in a container.
fn link_told(
    alloc: Global,
    fields: &Fields<'_>,
    kind: u32,
    container: u32,
) -> Result<LinkEvent, Memory>
    ensures { (n : ℕ) → IfOk result (λ link. link ≡ link_told (line_of n fields.now) kind container) }
{
    Ok(LinkEvent {
        starts: starts_link(fields.kind()),
        kind,
        key: Name::from_bytes(alloc, text_of(fields, Role::Key))?,
        container,
        time: fields.time(),
        size: size_told(fields),
    })
}

impl Known {
    ghost use Rattle.paje_model.specs.Known.{IsKnown, IsOfLines};
    ghost use Rattle.paje_model.specs.Steps.{Takes};

    /// One end of a message.
    pub fn link_event(&mut self, n: u32, fields: &Fields<'_>) -> Result<Effect, Unread<ModelFault>>
        requires known { IsOfLines self.old }
        requires event { is_link_event (line_of n fields.now).event ≡ true }
        ensures { (before : List EventLine) → IsKnown before self.old → Takes (record {
          before = before;
          line = line_of n fields.now;
          reason = link_reason (links_in before) before (line_of n fields.now);
          effect = Linked;
        }) self.new result }
    {
        let kind = self.link_type(fields)?;
        let container = self.container(fields, end_role(fields.kind()))?;
        room(What::LinkEvents, self.links.len())?;
        self.links
            .push(link_told(self.alloc, fields, kind, container)?)?;
        Ok(Effect::Linked)
    }
}
