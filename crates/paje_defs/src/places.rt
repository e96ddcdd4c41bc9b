ghost use Rattle.std.specs.Prelude.{◌≡◌};
ghost use Rattle.paje_defs.specs.declared.role.Role.{Role};
ghost use Rattle.paje_defs.specs.Definition.{place_of};
ghost use Rattle.paje_defs.specs.Places.{place_by_role};

use crate::definition::place;
use crate::event_name::EventName;
use crate::field::Field;
use crate::role::Role;

/// Where the field of each role stands in a definition, counted from 0.
#[derive(Clone, Copy, Debug)]
pub struct Places {
    pub(crate) time: Option<usize>,
    pub(crate) alias: Option<usize>,
    pub(crate) kind: Option<usize>,
    pub(crate) name: Option<usize>,
    pub(crate) holder: Option<usize>,
    pub(crate) value: Option<usize>,
    pub(crate) key: Option<usize>,
    pub(crate) from_kind: Option<usize>,
    pub(crate) to_kind: Option<usize>,
    pub(crate) from: Option<usize>,
    pub(crate) to: Option<usize>,
    pub(crate) size: Option<usize>,
}

impl Places {
    /// The places in a definition of an event with these fields.
    pub(crate) fn new(event: EventName, fields: &[Field]) -> Places
        ensures { (role : Role) → place_by_role result role ≡ place_of event fields.now role }
    {
        Places {
            time: place(event, fields, Role::Time),
            alias: place(event, fields, Role::Alias),
            kind: place(event, fields, Role::Kind),
            name: place(event, fields, Role::Name),
            holder: place(event, fields, Role::Holder),
            value: place(event, fields, Role::Value),
            key: place(event, fields, Role::Key),
            from_kind: place(event, fields, Role::FromKind),
            to_kind: place(event, fields, Role::ToKind),
            from: place(event, fields, Role::From),
            to: place(event, fields, Role::To),
            size: place(event, fields, Role::Size),
        }
    }

    /// Where the field of a role stands, counted from 0.
    pub(crate) fn get(&self, role: Role) -> Option<usize>
        ensures { result ≡ place_by_role self.now role }
    {
        match role {
            Role::Time => self.time,
            Role::Alias => self.alias,
            Role::Kind => self.kind,
            Role::Name => self.name,
            Role::Holder => self.holder,
            Role::Value => self.value,
            Role::Key => self.key,
            Role::FromKind => self.from_kind,
            Role::ToKind => self.to_kind,
            Role::From => self.from,
            Role::To => self.to,
            Role::Size => self.size,
        }
    }
}
