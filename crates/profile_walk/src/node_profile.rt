ghost use Rattle.std.specs.Prelude.{◌≡◌, ℕ, List, []};
ghost use Rattle.node_key.specs.Tree.{Tree};
ghost use Rattle.trace_base.specs.declared.stream.TrackStream.{TrackStream};
ghost use Rattle.whole_profiles.specs.Whole.{whole_profile};
ghost use Rattle.whole_profiles.specs.declared.memo_kind.MemoKind.{MemoKind};
ghost use Rattle.profile_walk.specs.Laws.{ProfileLaws};

use profile_math::Sums;
use std::alloc::Global;
use whole_profiles::{Entry, MemoKind};

/// A profile of trees of which a memo keeps those of whole trees.
pub trait NodeProfile: Sums + Drop {
    /// The profile of streams over the half-open interval from one time to another, in nanoseconds.
    ghost profile: { List TrackStream → ℕ → ℕ → Self };

    /// The profile of a whole tree.
    ghost whole: { Tree → Self };

    /// The profile of so many nanoseconds in which no call is open.
    ghost bare: { ℕ → Self };

    /// Which entries of a memo are such profiles.
    ghost memo_kind: { MemoKind };

    /// Which entries of a memo are such profiles.
    fn kind() -> MemoKind
        ensures { result ≡ memo_kind };

    /// The profile in an entry of this kind.
    fn from_entry(entry: Entry) -> Self
        requires { (t : Tree) × (entry ≡ whole_profile memo_kind t) }
        ensures { (t : Tree) → entry ≡ whole_profile memo_kind t → result ≡ whole t };

    /// The profile as an entry.
    fn into_entry(self) -> Entry
        ensures { (t : Tree) → self ≡ whole t → result ≡ whole_profile memo_kind t };

    /// The profile of no streams. It takes no memory.
    fn empty(alloc: Global) -> Self
        ensures { (a b : ℕ) → result ≡ profile [] a b };

    /// Adds so many nanoseconds in which no call is open. It takes no memory.
    fn add_bare(&mut self, time: u64)
        requires ordered { Self.is_ordered self.old }
        requires fits { Self.fits (Self.sum self.old (bare time)) }
        ensures { self.new ≡ Self.sum self.old (bare time) };

    /// What the profiles of streams and of trees have to do with one another.
    ghost laws: { ProfileLaws profile whole bare Self.sum Self.closing Self.fits Self.is_ordered };
}
