ghost use Rattle.std.specs.Prelude.{◌≡◌, []};
ghost use Rattle.profile_walk.specs.FlatLaws.{flat_laws};
ghost use Rattle.node_key.specs.Whole.{whole_flat};
ghost use Rattle.trace_base.specs.Flat.{flat};
ghost use Rattle.whole_profiles.specs.declared.memo_kind.MemoKind.TheVariants.{Flat};

use crate::node_profile::NodeProfile;
use std::alloc::Global;
use trace_base::{Profile, Seq};
use whole_profiles::{Entry, MemoKind};

impl NodeProfile for Profile {
    ghost profile = { flat };

    ghost whole = { whole_flat };

    ghost bare = { λ time. record { bare = time; rows = [] } };

    ghost memo_kind = { Flat };

    ghost laws = { flat_laws };

    fn kind() -> MemoKind {
        MemoKind::Flat
    }

    fn from_entry(entry: Entry) -> Profile {
        match entry {
            Entry::Flat(profile) => profile,
            Entry::Paths(_) => unreachable!(),
        }
    }

    fn into_entry(self) -> Entry {
        Entry::Flat(self)
    }

    fn empty(alloc: Global) -> Profile {
        Profile {
            bare: 0,
            rows: Seq::new(alloc),
        }
    }

    fn add_bare(&mut self, time: u64) {
        self.bare += u128::from(time);
    }
}
