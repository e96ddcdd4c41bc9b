ghost use Rattle.std.specs.Prelude.{◌≡◌};
ghost use Rattle.whole_profiles.specs.Entry.{entry_rows};

use trace_base::{PathProfile, Profile};

/// What a memo keeps of a node: one of its profiles.
#[derive(Debug, Drop)]
pub enum Entry {
    /// The flat profile.
    Flat(Profile),
    /// The call-tree profile.
    Paths(PathProfile),
}

impl Entry {
    /// How many rows the profile has.
    pub fn rows(&self) -> usize
        ensures { result ≡ entry_rows self.now }
    {
        match self {
            Entry::Flat(profile) => profile.rows.len(),
            Entry::Paths(profile) => profile.rows.len(),
        }
    }
}
