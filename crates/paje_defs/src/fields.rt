ghost use Rattle.std.specs.Prelude.{◌≡◌};
ghost use Rattle.std.specs.Option.{option_copied};
ghost use Rattle.paje_defs.specs.Texts.{HasNeeded, HasNeeded-prop, text_by_role};

use crate::event_name::EventName;
use crate::role::Role;
use crate::texts::Texts;

/// What an event line tells. Each role that its event needs has a text.
#[derive(Clone, Copy, Debug)]
pub struct Fields<'a> {
    pub(crate) kind: EventName,
    pub(crate) time: u64,
    pub(crate) size: u64,
    pub(crate) texts: Texts<'a>,
    ghost needed: { HasNeeded kind texts } by { HasNeeded-prop kind texts },
}

impl<'a> Fields<'a> {
    /// The event.
    pub fn kind(&self) -> EventName
        ensures { result ≡ self.now.kind }
    {
        self.kind
    }

    /// Its time in nanoseconds, 0 where its definition has no time.
    pub fn time(&self) -> u64
        ensures { result ≡ self.now.time }
    {
        self.time
    }

    /// The size of a message: 0 where the definition isn't one of a link's start with a `Size` of type int,
    /// and where that is no number from 0 to 2^63 - 1.
    pub fn size(&self) -> u64
        ensures { result ≡ self.now.size }
    {
        self.size
    }

    /// The bytes of a role's field in the line, `None` exactly where its definition has no field of the role.
    pub fn text(&self, role: Role) -> Option<&'a [u8]>
        ensures { option_copied result ≡ text_by_role self.now.texts role }
    {
        self.texts.get(role)
    }
}
