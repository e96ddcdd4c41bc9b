ghost use Rattle.std.specs.Prelude.{◌≡◌, ◌+◌, ◌-◌, ◌≤◌, ◌<◌, ◌^◌, ℕ, List, ◌++◌, ◌∷◌, [], min, max, IfOk, IsTrue};
ghost use Rattle.node_key.specs.Events.{stream_from};
ghost use Rattle.node_key.specs.Tree.{Tree};
ghost use Rattle.node_key.specs.declared.key.Kid.{Kid};
ghost use Rattle.node_key.specs.declared.tree.Branch.{Branch};
ghost use Rattle.profile_laws.specs.Parts.{parts};
ghost use Rattle.profile_laws.specs.Streams.{idle};
ghost use Rattle.node_key.specs.Keys.{IsKeyOf};
ghost use Rattle.profile_walk.specs.Crossing.{crossings_below};
ghost use Rattle.profile_walk.specs.Summed.{CanSum, IsAtKid, IsAtRun, IsInside, IsSummed, first, kid_parts};

use crate::lies::Lies;
use crate::node_profile::NodeProfile;
use crate::place::Place;
use node_key::NodeKey;
use trace_base::Memory;

// How long the time from one moment to another has in common with the half-open interval [a, b).
fn time_within(from: u64, to: u64, a: u64, b: u64) -> u64
    ensures { result ≡ min to b - max from a }
{
    to.min(b).saturating_sub(from.max(a))
}

/// Adds the gap before the next kid; answers the place behind this kid.
pub fn pass_kid<P: NodeProfile>(key: &NodeKey, place: Place, a: u64, b: u64, sum: &mut P) -> Place
    requires at { (t : Tree) × (ns : List ℕ) × (at : ℕ) × (next : Branch)
        × IsAtKid P.profile t ns key.now at a b place next sum.old }
    ensures from { (t : Tree) (ns : List ℕ) (at : ℕ) (next : Branch)
        → IsAtKid P.profile t ns key.now at a b place next sum.old
        → result.from ≡ place.from + next.gap + next.tree.dur }
    ensures sum { (t : Tree) (ns : List ℕ) (at : ℕ) (next : Branch)
        → IsAtKid P.profile t ns key.now at a b place next sum.old
        → sum.new ≡ P.profile (kid_parts at (first place.index t.kids)
        ++ idle place.from (place.from + next.gap) ∷ []) a b }
    ensures index { result.index ≡ place.index + 1 }
{
    let kid = key.kids[place.index as usize];
    let start = place.from + kid.gap;
    sum.add_bare(time_within(place.from, start, a, b));
    Place {
        index: place.index + 1,
        from: start + kid.span,
    }
}

/// Adds the gap before the next kid and what the kid has; answers the place behind it.
pub fn add_kid<P: NodeProfile>(
    key: &NodeKey,
    place: Place,
    a: u64,
    b: u64,
    own: &P,
    sum: &mut P,
) -> Result<Place, Memory>
    requires at { (t : Tree) × (ns : List ℕ) × (at : ℕ) × (next : Branch)
        × IsAtKid P.profile t ns key.now at a b place next sum.old
        × (own.now ≡ P.profile (stream_from next.tree (place.from + next.gap) ∷ []) a b) }
    ensures answer { (t : Tree) (ns : List ℕ) (at : ℕ) (next : Branch)
        → IsAtKid P.profile t ns key.now at a b place next sum.old
        → own.now ≡ P.profile (stream_from next.tree (place.from + next.gap) ∷ []) a b
        → IfOk result (λ behind. IsSummed P.profile t at a b behind sum.new) }
    ensures index { IfOk result (λ behind. behind.index ≡ place.index + 1) }
{
    let behind = pass_kid(key, place, a, b, sum);
    sum.add(own)?;
    Ok(behind)
}

// Whether the next kid has this number, begins within the interval and ends before it does.
fn goes_on(key: &NodeKey, place: Place, node: u64, a: u64, b: u64) -> bool
    requires { place.from + key.now.dur < 2 ^ 64 }
    ensures { IsTrue result → (next : Kid) × IsInside key.now place next a b × (next.node ≡ node) }
{
    if place.index >= key.len {
        return false;
    }
    let kid = key.kids[place.index as usize];
    let start = place.from + kid.gap;
    kid.node == node && matches!(Lies::of(start, start + kid.span, a, b), Lies::Inside)
}

/// Adds the next kid, which is inside, and those right behind it that have the same number and are inside,
/// each with the gap before it; answers the place behind them. All of them have this profile.
pub fn add_run<P: NodeProfile>(
    key: &NodeKey,
    place: Place,
    a: u64,
    b: u64,
    own: &P,
    sum: &mut P,
) -> Result<Place, Memory>
    requires at { (t : Tree) × (ns : List ℕ) × (at : ℕ) × (next : Kid)
        × IsAtRun P.profile P.whole t ns key.now at a b place next own.now sum.old }
    ensures answer { (t : Tree) (ns : List ℕ) (at : ℕ) (next : Kid)
        → IsAtRun P.profile P.whole t ns key.now at a b place next own.now sum.old
        → IfOk result (λ behind. IsSummed P.profile t at a b behind sum.new) }
    ensures across { (t : Tree) (ns : List ℕ) (at : ℕ) (next : Kid)
        → IsAtRun P.profile P.whole t ns key.now at a b place next own.now sum.old
        → IfOk result (λ behind. crossings_below a b at (first behind.index t.kids)
        ≡ crossings_below a b at (first place.index t.kids)) }
    ensures index { IfOk result (λ behind. (place.index < behind.index) × (behind.index ≤ key.now.len)) }
{
    let node = key.kids[place.index as usize].node;
    let mut behind = add_kid(key, place, a, b, own, sum)?;
    'run: while goes_on(key, behind, node, a, b) {
        behind = add_kid(key, behind, a, b, own, sum)?;
    }
    Ok(behind)
}

/// Adds the time behind the last kid of a node that begins at `at`.
pub fn add_end<P: NodeProfile>(key: &NodeKey, place: Place, at: u64, a: u64, b: u64, sum: &mut P)
    requires end { (t : Tree) × (ns : List ℕ) × IsKeyOf t ns key.now × CanSum t
        × IsSummed P.profile t at a b place sum.old }
    requires all { key.now.len ≤ place.index }
    ensures { (t : Tree) (ns : List ℕ) → IsKeyOf t ns key.now → CanSum t
        → IsSummed P.profile t at a b place sum.old
        → sum.new ≡ P.profile (parts t at) a b }
{
    sum.add_bare(time_within(place.from, at + key.dur, a, b));
}
