ghost use Rattle.std.specs.Prelude.{◌≡◌};
ghost use Rattle.std.specs.Option.{option_copied};
ghost use Rattle.paje_defs.specs.Texts.{text_by_role};

use crate::places::Places;
use crate::role::Role;
use crate::words::Words;

/// The bytes of each role's field of a line, which are cut when they are asked for.
#[derive(Clone, Copy, Debug)]
pub struct Texts<'a> {
    pub(crate) words: Words<'a, 'a>,
    pub(crate) places: &'a Places,
}

impl<'a> Texts<'a> {
    /// The bytes of a role's field, where the definition has one.
    pub(crate) fn get(&self, role: Role) -> Option<&'a [u8]>
        ensures { option_copied result ≡ text_by_role self.now role }
    {
        match self.places.get(role) {
            Some(place) => self.words.field(place),
            None => None,
        }
    }
}
