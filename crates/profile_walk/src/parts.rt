ghost use Rattle.std.specs.Prelude.{◌≡◌, ◌+◌, ◌≤◌, ◌<◌, ℕ, ◌∷◌, [], IfOk, IfSome, OnOk, Some, slice_get, IsTrue};
ghost use Rattle.hall_trait.specs.Reach.{KeepsReach, Source};
ghost use Rattle.node_key.specs.Events.{stream_from};
ghost use Rattle.node_key.specs.Tree.{Tree};
ghost use Rattle.node_key.specs.declared.key.Kid.{Kid};
ghost use Rattle.profile_walk.specs.Crossing.{crossings_below, is_across};
ghost use Rattle.profile_walk.specs.Summed.{CanWalk, IsSummed};
ghost use Rattle.profile_walk.specs.Walks.{FillsBeside, OnlyWalks, ReadsAcross, ReadsBeside, after_look};
ghost use Rattle.trace_base.specs.Flat.{is_within};
ghost use Rattle.trace_base.specs.declared.limits.TheConstants.{MAX_TIME};

use crate::lies::Lies;
use crate::node_profile::NodeProfile;
use crate::place::Place;
use crate::steps::{add_end, add_kid, add_run, pass_kid};
use hall_trait::Hall;
use node_key::NodeKey;
use std::alloc::Global;
use std::sync::Wait;
use trace_base::Memory;

/// The profile of a whole node that the seat reaches, where the memo keeps it.
pub fn look<R: Wait, H: Hall, P: NodeProfile>(
    rt: &R,
    hall: &mut H,
    n: u64,
) -> Result<Option<P>, Memory>
    requires { (by_what : Source) × (t : Tree) × H.reaches hall.old by_what n t }
    ensures answer { (by_what : Source) (t : Tree) → H.reaches hall.old by_what n t
        → IfOk result (λ kept. IfSome kept (λ p. p ≡ P.whole t)) }
    ensures account { (H.view hall.new).account ≡ after_look result (H.view hall.old).account }
    ensures rest { OnlyWalks (H.view hall.old) (H.view hall.new) }
    ensures reach { KeepsReach (H.view hall.new).seat (H.reaches hall.old) (H.reaches hall.new) }
{
    match hall.memo_look(rt, n, P::kind()) {
        Ok(Some(entry)) => Ok(Some(P::from_entry(entry))),
        Ok(None) => Ok(None),
        Err(_) => Err(Memory),
    }
}

// Whether the time is within the half-open interval [a, b).
fn is_in(time: u64, a: u64, b: u64) -> bool
    ensures { result ≡ is_within a b time }
{
    a <= time && time < b
}

// Counts the call of a node of this function, or none for a group, whose function is 0.
fn close_node<P: NodeProfile>(sum: &mut P, func: u32, begun: bool) -> Result<(), Memory>
    requires ordered { P.is_ordered sum.old }
    requires fits { 1 ≤ func → P.fits (P.closing func begun sum.old) }
    ensures group { func ≡ 0 → sum.new ≡ sum.old }
    ensures call { 1 ≤ func → OnOk result (sum.new ≡ P.closing func begun sum.old) }
{
    if func == 0 {
        return Ok(());
    }
    sum.close_over(func, begun)
}

/// The profile of a node that begins at `at` and whose key was read, over the half-open interval [a, b), all
/// in nanoseconds.
#[cycle(walk)]
pub fn profile_of_key<R: Wait, H: Hall, P: NodeProfile>(
    rt: &R,
    alloc: Global,
    hall: &mut H,
    key: &NodeKey,
    at: u64,
    a: u64,
    b: u64,
) -> Result<P, Memory>
    requires walk { (by_what : Source) × (t : Tree)
        × CanWalk (H.view hall.old).seat (H.reaches hall.old) by_what t key.now }
    requires in_time { at + key.now.dur ≤ MAX_TIME }
    ensures answer { (by_what : Source) (t : Tree)
        → CanWalk (H.view hall.old).seat (H.reaches hall.old) by_what t key.now
        → IfOk result (λ p. p ≡ P.profile (stream_from t at ∷ []) a b) }
    ensures reads { (by_what : Source) (t : Tree)
        → CanWalk (H.view hall.old).seat (H.reaches hall.old) by_what t key.now
        → ReadsBeside (H.view hall.old).account (H.view hall.new).account (crossings_below a b at t.kids) }
    ensures fills { IfOk result (λ p. FillsBeside (H.view hall.old).account (H.view hall.new).account 0) }
    ensures rest { OnlyWalks (H.view hall.old) (H.view hall.new) }
    ensures reach { KeepsReach (H.view hall.new).seat (H.reaches hall.old) (H.reaches hall.new) }
{
    let mut sum = P::empty(alloc);
    let mut place = Place { index: 0, from: at };
    'kids: while place.index < key.len {
        place = add_next(rt, alloc, hall, key, place, a, b, &mut sum)?;
    }
    add_end(key, place, at, a, b, &mut sum);
    close_node(&mut sum, key.func, is_in(at, a, b))?;
    Ok(sum)
}

/// One step of a walk over the kids of a node: past a kid that lies outside, over one that lies across an end
/// of the interval, or over those in a row that are inside and have one number. Answers the place behind.
#[cycle(walk)]
fn add_next<R: Wait, H: Hall, P: NodeProfile>(
    rt: &R,
    alloc: Global,
    hall: &mut H,
    key: &NodeKey,
    place: Place,
    a: u64,
    b: u64,
    sum: &mut P,
) -> Result<Place, Memory>
    requires walk { (by_what : Source) × (t : Tree) × (at : ℕ)
        × CanWalk (H.view hall.old).seat (H.reaches hall.old) by_what t key.now
        × IsSummed P.profile t at a b place sum.old }
    requires more { place.index < key.now.len }
    ensures answer { (by_what : Source) (t : Tree) (at : ℕ)
        → CanWalk (H.view hall.old).seat (H.reaches hall.old) by_what t key.now
        → IsSummed P.profile t at a b place sum.old
        → IfOk result (λ behind. IsSummed P.profile t at a b behind sum.new) }
    ensures reads { (by_what : Source) (t : Tree) (at : ℕ)
        → CanWalk (H.view hall.old).seat (H.reaches hall.old) by_what t key.now
        → IsSummed P.profile t at a b place sum.old
        → ReadsAcross (H.view hall.old).account (H.view hall.new).account a b at t place result 0 }
    ensures fills { IfOk result (λ p. FillsBeside (H.view hall.old).account (H.view hall.new).account 0) }
    ensures index { IfOk result (λ behind. (place.index < behind.index) × (behind.index ≤ key.now.len)) }
    ensures rest { OnlyWalks (H.view hall.old) (H.view hall.new) }
    ensures reach { KeepsReach (H.view hall.new).seat (H.reaches hall.old) (H.reaches hall.new) }
{
    let kid = key.kids[place.index as usize];
    let start = place.from + kid.gap;
    match Lies::of(start, start + kid.span, a, b) {
        Lies::Outside => Ok(pass_kid(key, place, a, b, sum)),
        Lies::Across => add_across(rt, alloc, hall, key, place, a, b, sum),
        Lies::Inside => match look(rt, hall, kid.node)? {
            Some(own) => add_run(key, place, a, b, &own, sum),
            None => add_unknown(rt, alloc, hall, key, place, a, b, sum),
        },
    }
}

// Adds the next kid, which lies across an end of the interval: it is read and gone into.
#[cycle(walk)]
fn add_across<R: Wait, H: Hall, P: NodeProfile>(
    rt: &R,
    alloc: Global,
    hall: &mut H,
    key: &NodeKey,
    place: Place,
    a: u64,
    b: u64,
    sum: &mut P,
) -> Result<Place, Memory>
    requires walk { (by_what : Source) × (t : Tree) × (at : ℕ)
        × CanWalk (H.view hall.old).seat (H.reaches hall.old) by_what t key.now
        × IsSummed P.profile t at a b place sum.old }
    requires across { (next : Kid) × (slice_get key.now.kids place.index ≡ Some next)
        × IsTrue (is_across a b (place.from + next.gap) (place.from + next.gap + next.span)) }
    requires more { place.index < key.now.len }
    ensures answer { (by_what : Source) (t : Tree) (at : ℕ)
        → CanWalk (H.view hall.old).seat (H.reaches hall.old) by_what t key.now
        → IsSummed P.profile t at a b place sum.old
        → IfOk result (λ behind. IsSummed P.profile t at a b behind sum.new) }
    ensures reads { (by_what : Source) (t : Tree) (at : ℕ)
        → CanWalk (H.view hall.old).seat (H.reaches hall.old) by_what t key.now
        → IsSummed P.profile t at a b place sum.old
        → ReadsAcross (H.view hall.old).account (H.view hall.new).account a b at t place result 0 }
    ensures fills { IfOk result (λ p. FillsBeside (H.view hall.old).account (H.view hall.new).account 0) }
    ensures index { IfOk result (λ behind. behind.index ≡ place.index + 1) }
    ensures rest { OnlyWalks (H.view hall.old) (H.view hall.new) }
    ensures reach { KeepsReach (H.view hall.new).seat (H.reaches hall.old) (H.reaches hall.new) }
{
    let kid = key.kids[place.index as usize];
    let below = hall.read(rt, kid.node);
    let own = profile_of_key(rt, alloc, hall, &below, place.from + kid.gap, a, b)?;
    add_kid(key, place, a, b, &own, sum)
}

// Adds the next kid, which is inside and of which no profile was found, and those in a row with it. Its
// profile is made and filled in.
#[cycle(walk)]
fn add_unknown<R: Wait, H: Hall, P: NodeProfile>(
    rt: &R,
    alloc: Global,
    hall: &mut H,
    key: &NodeKey,
    place: Place,
    a: u64,
    b: u64,
    sum: &mut P,
) -> Result<Place, Memory>
    requires walk { (by_what : Source) × (t : Tree) × (at : ℕ)
        × CanWalk (H.view hall.old).seat (H.reaches hall.old) by_what t key.now
        × IsSummed P.profile t at a b place sum.old }
    requires inside { (next : Kid) × (slice_get key.now.kids place.index ≡ Some next)
        × (a ≤ place.from + next.gap) × (place.from + next.gap + next.span < b) }
    requires more { place.index < key.now.len }
    ensures answer { (by_what : Source) (t : Tree) (at : ℕ)
        → CanWalk (H.view hall.old).seat (H.reaches hall.old) by_what t key.now
        → IsSummed P.profile t at a b place sum.old
        → IfOk result (λ behind. IsSummed P.profile t at a b behind sum.new) }
    ensures reads { (by_what : Source) (t : Tree) (at : ℕ)
        → CanWalk (H.view hall.old).seat (H.reaches hall.old) by_what t key.now
        → IsSummed P.profile t at a b place sum.old
        → ReadsAcross (H.view hall.old).account (H.view hall.new).account a b at t place result 1 }
    ensures fills { IfOk result (λ p. FillsBeside (H.view hall.old).account (H.view hall.new).account 1) }
    ensures index { IfOk result (λ behind. (place.index < behind.index) × (behind.index ≤ key.now.len)) }
    ensures rest { OnlyWalks (H.view hall.old) (H.view hall.new) }
    ensures reach { KeepsReach (H.view hall.new).seat (H.reaches hall.old) (H.reaches hall.new) }
{
    let kid = key.kids[place.index as usize];
    let below = hall.read(rt, kid.node);
    let own = profile_of_key(rt, alloc, hall, &below, 0, 0, below.dur + 1)?;
    let behind = add_run(key, place, a, b, &own, sum)?;
    hall.memo_fill(rt, kid.node, P::kind(), own.into_entry());
    Ok(behind)
}
