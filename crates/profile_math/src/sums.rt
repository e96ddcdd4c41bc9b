ghost use Rattle.std.specs.Prelude.{◌≡◌, ℕ, Bool, IfOk, OnOk, OnErr, IsOk};

use std::alloc::Global;
use trace_base::Memory;

/// A profile that another one can be added to, and that can be closed over a call.
///
/// Times and calls of the product's profiles fit their types: a track lasts at most 2^62 nanoseconds and has
/// at most 2^22 calls, and at most 4,096 tracks are summed; so sums of times stay below 2^75, and sums of
/// calls below 2^35. A path has at most as many functions as a track has open calls, 256.
pub trait Sums: Sized {
    /// The rows stand in their order.
    ghost is_ordered: { Self → Type 0 };

    /// The numbers fit their types.
    ghost fits: { Self → Type 0 };

    /// How many rows the profile has.
    ghost count: { Self → ℕ };

    /// The sum of two profiles.
    ghost sum: { Self → Self → Self };

    /// The profile of a call of a function whose content has this profile. The call itself is counted where
    /// it was begun.
    ghost closing: { ℕ → Bool → Self → Self };

    /// Adds the other profile. It takes memory only where the sum has more rows than this one; after `Memory`
    /// the profile is as before.
    fn add(&mut self, other: &Self) -> Result<(), Memory>
        requires ordered { is_ordered self.old }
        requires other_ordered { is_ordered other.now }
        requires fits { fits (sum self.old other.now) }
        ensures ok { OnOk result (self.new ≡ sum self.old other.now) }
        ensures err { OnErr result (self.new ≡ self.old) }
        ensures in_place { count (sum self.old other.now) ≡ count self.old → IsOk result }
        ensures ordered { is_ordered self.new };

    /// Makes the profile that of a call of the function whose content has this profile: from just before it
    /// is entered if it was `begun` in the time of the profile, else from some moment in it. It takes memory
    /// only where a row is new; after `Memory` the profile is as before.
    fn close_over(&mut self, func: u32, begun: bool) -> Result<(), Memory>
        requires ordered { is_ordered self.old }
        requires fits { fits (closing func begun self.old) }
        ensures ok { OnOk result (self.new ≡ closing func begun self.old) }
        ensures err { OnErr result (self.new ≡ self.old) }
        ensures in_place { count (closing func begun self.old) ≡ count self.old → IsOk result }
        ensures ordered { is_ordered self.new };

    /// The same profile once more; `Memory` where none was found for its rows.
    fn copy(&self, alloc: Global) -> Result<Self, Memory>
        ensures { IfOk result (λ p. p ≡ self.now) };
}
