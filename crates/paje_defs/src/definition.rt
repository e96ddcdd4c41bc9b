ghost use Rattle.std.specs.Prelude.{◌≡◌, ◌+◌, ◌^◌, ◌<◌, IfSome, length, position};
ghost use Rattle.paje_defs.specs.Definition.{is_named, missing, place_of, place_of_name};

use crate::event_name::EventName;
use crate::field::Field;
use crate::field_name::FieldName;
use crate::role::Role;
use trace_base::Seq;

/// What an event line of one number tells.
#[derive(Debug, Drop)]
pub struct Definition {
    /// The line that begins it.
    pub(crate) line: u32,
    pub(crate) event: EventName,
    /// Its fields, in order.
    pub(crate) fields: Seq<Field>,
}

/// Where the first field of a name stands, counted from 0.
fn position(fields: &[Field], name: FieldName) -> Option<usize>
    ensures place { result ≡ position (λ f. is_named name f) fields.now }
    ensures within { IfSome result (λ at. at < length fields.now) }
{
    fields.iter().position(|field| field.name == name)
}

/// Where the field of a role stands in a definition of an event, counted from 0.
pub fn place(event: EventName, fields: &[Field], role: Role) -> Option<usize>
    ensures place { result ≡ place_of event fields.now role }
    ensures within { IfSome result (λ at. at < length fields.now) }
{
    match position(fields, role.first_name()) {
        Some(place) => Some(place),
        None => match role.second_name(event) {
            Some(name) => position(fields, name),
            None => None,
        },
    }
}

impl Definition {
    /// The first role that its event needs and no field has.
    pub(crate) fn missing(&self) -> Option<Role>
        ensures { result ≡ missing self.now.event self.now.fields }
    {
        let event = self.event;
        let fields = self.fields.as_slice();
        Role::needed_by(event)
            .iter()
            .copied()
            .find(|role| place(event, fields, *role).is_none())
    }
}
