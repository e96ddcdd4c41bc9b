ghost use Rattle.std.specs.Prelude.{◌≡◌, ◌+◌, ◌-◌, ◌≤◌, ◌<◌, ◌^◌, ℕ, List, ◌++◌, ◌∷◌, [], length, take, IfOk, OnOk};
ghost use Rattle.std.specs.Prelude.{Contains};
ghost use Rattle.std.specs.List.{AllByRecursion, filter_map};
ghost use Rattle.hall_history.specs.Asks.{first_id};
ghost use Rattle.hall_history.specs.History.{stream_of, tracks_of};
ghost use Rattle.hall_trait.specs.Pin.{pin_view};
ghost use Rattle.hall_trait.specs.Reach.{KeepsReach, Source};
ghost use Rattle.node_key.specs.Events.{stream_from};
ghost use Rattle.node_key.specs.Tree.{Tree};
ghost use Rattle.profile_walk.specs.Summed.{CanWalk};
ghost use Rattle.profile_walk.specs.Tracks.{CanAdd, levels_from, streams_from, twice_levels};
ghost use Rattle.profile_walk.specs.Walks.{FillsBeside, OnlyWalks, ReadsBeside};
ghost use Rattle.trace_base.specs.Stream.{IsLegal};
ghost use Rattle.trace_base.specs.declared.stream.TrackStream.{TrackStream};

use crate::lies::Lies;
use crate::node_profile::NodeProfile;
use crate::parts::{look, profile_of_key};
use hall_history::Published;
use hall_trait::{Hall, Pin};
use node_key::NodeKey;
use std::alloc::Global;
use std::sync::Wait;
use trace_base::Memory;

/// The profile of some tracks, and how many of them are published.
#[derive(Debug, Drop)]
pub struct ProfileOver<P> {
    pub over: u32,
    pub profile: P,
}

// Adds the profile of a whole node whose key was read, and of which no profile was found. It is filled in.
fn add_whole<R: Wait, H: Hall, P: NodeProfile>(
    rt: &R,
    alloc: Global,
    hall: &mut H,
    n: u64,
    key: &NodeKey,
    sum: &mut P,
) -> Result<(), Memory>
    requires { (by_what : Source) × (t : Tree) × (at : ℕ) × (a : ℕ) × (b : ℕ) × (base : List TrackStream)
        × CanAdd P.profile (H.view hall.old).seat (H.reaches hall.old) by_what n t at a b base sum.old
        × CanWalk (H.view hall.old).seat (H.reaches hall.old) by_what t key.now
        × (a ≤ at) × (at + t.dur < b) }
    ensures answer { (by_what : Source) (t : Tree) (at a b : ℕ) (base : List TrackStream)
        → CanAdd P.profile (H.view hall.old).seat (H.reaches hall.old) by_what n t at a b base sum.old
        → CanWalk (H.view hall.old).seat (H.reaches hall.old) by_what t key.now
        → a ≤ at → at + t.dur < b
        → OnOk result (sum.new ≡ P.profile (base ++ stream_from t at ∷ []) a b) }
    ensures reads { ReadsBeside (H.view hall.old).account (H.view hall.new).account 0 }
    ensures fills { OnOk result (FillsBeside (H.view hall.old).account (H.view hall.new).account 1) }
    ensures rest { OnlyWalks (H.view hall.old) (H.view hall.new) }
    ensures reach { KeepsReach (H.view hall.new).seat (H.reaches hall.old) (H.reaches hall.new) }
{
    let own = profile_of_key(rt, alloc, hall, key, 0, 0, key.dur + 1)?;
    sum.add(&own)?;
    hall.memo_fill(rt, n, P::kind(), own.into_entry());
    Ok(())
}

/// Adds the profile over the half-open interval [a, b) of the tree of the node `n`, which begins at `at`, all
/// in nanoseconds. The seat stays, and reaches the nodes below by the same stake or pin from then on.
pub fn add_tree<R: Wait, H: Hall, P: NodeProfile>(
    rt: &R,
    alloc: Global,
    hall: &mut H,
    n: u64,
    at: u64,
    a: u64,
    b: u64,
    sum: &mut P,
) -> Result<(), Memory>
    requires { (by_what : Source) × (t : Tree) × (base : List TrackStream)
        × CanAdd P.profile (H.view hall.old).seat (H.reaches hall.old) by_what n t at a b base sum.old }
    ensures answer { (by_what : Source) (t : Tree) (base : List TrackStream)
        → CanAdd P.profile (H.view hall.old).seat (H.reaches hall.old) by_what n t at a b base sum.old
        → OnOk result (sum.new ≡ P.profile (base ++ stream_from t at ∷ []) a b) }
    ensures reads { (by_what : Source) (t : Tree) (base : List TrackStream)
        → CanAdd P.profile (H.view hall.old).seat (H.reaches hall.old) by_what n t at a b base sum.old
        → ReadsBeside (H.view hall.old).account (H.view hall.new).account (twice_levels t) }
    ensures fills { OnOk result (FillsBeside (H.view hall.old).account (H.view hall.new).account 0) }
    ensures rest { OnlyWalks (H.view hall.old) (H.view hall.new) }
    ensures reach { KeepsReach (H.view hall.new).seat (H.reaches hall.old) (H.reaches hall.new) }
{
    let key = hall.read(rt, n);
    match Lies::of(at, at + key.dur, a, b) {
        Lies::Outside => Ok(()),
        Lies::Across => {
            let own = profile_of_key(rt, alloc, hall, &key, at, a, b)?;
            sum.add(&own)
        }
        Lies::Inside => match look(rt, hall, n)? {
            Some(own) => sum.add(&own),
            None => add_whole(rt, alloc, hall, n, &key, sum),
        },
    }
}

// Adds the profile of a track, counted from 0, of the pin's first trace, if it is published at the pin's place;
// answers how many tracks that are.
fn add_track<R: Wait, H: Hall, P: NodeProfile>(
    rt: &R,
    alloc: Global,
    hall: &mut H,
    pin: &Pin,
    track: u32,
    a: u64,
    b: u64,
    sum: &mut P,
) -> Result<u32, Memory>
    requires has { Contains (H.view hall.old).seat.pins (pin_view pin.now) }
    requires within { track < tracks_of (take pin.now.place (H.view hall.old).seat.seen)
        (first_id pin.now.ids) }
    requires base { (base : List TrackStream) × AllByRecursion IsLegal base × (length base < 2 ^ 32)
        × (sum.old ≡ P.profile base a b) }
    ensures answer { let streams = streams_from (take pin.now.place (H.view hall.old).seat.seen)
        (first_id pin.now.ids) track 1 in
        (base : List TrackStream) → AllByRecursion IsLegal base → length base < 2 ^ 32
        → sum.old ≡ P.profile base a b
        → OnOk result (sum.new ≡ P.profile (base ++ streams) a b) }
    ensures legal { AllByRecursion IsLegal (streams_from (take pin.now.place (H.view hall.old).seat.seen)
        (first_id pin.now.ids) track 1) }
    ensures over { let streams = streams_from (take pin.now.place (H.view hall.old).seat.seen)
        (first_id pin.now.ids) track 1 in
        IfOk result (λ n. n ≡ length streams) }
    ensures reads { ReadsBeside (H.view hall.old).account (H.view hall.new).account
        (levels_from (take pin.now.place (H.view hall.old).seat.seen) (first_id pin.now.ids) track 1) }
    ensures fills { OnOk result (FillsBeside (H.view hall.old).account (H.view hall.new).account 0) }
    ensures rest { OnlyWalks (H.view hall.old) (H.view hall.new) }
    ensures reach { KeepsReach (H.view hall.new).seat (H.reaches hall.old) (H.reaches hall.new) }
{
    match hall.published(rt, pin, 0, track) {
        Published::NotYet => Ok(0),
        Published::Root { start, root } => {
            add_tree(rt, alloc, hall, root, start, a, b, sum)?;
            Ok(1)
        }
    }
}

/// The profile over the half-open interval [a, b), in nanoseconds, of the tracks from `from` up to, and not
/// including, `to` of the pin's first trace that are published at the pin's place. Tracks are counted from 0.
/// `Memory` is its one fault.
pub fn profile_of_tracks<R: Wait, H: Hall, P: NodeProfile>(
    rt: &R,
    alloc: Global,
    hall: &mut H,
    pin: &Pin,
    from: u32,
    to: u32,
    a: u64,
    b: u64,
) -> Result<ProfileOver<P>, Memory>
    requires has { Contains (H.view hall.old).seat.pins (pin_view pin.now) }
    requires within { to ≤ tracks_of (take pin.now.place (H.view hall.old).seat.seen)
        (first_id pin.now.ids) }
    ensures profile { let streams = streams_from (take pin.now.place (H.view hall.old).seat.seen)
        (first_id pin.now.ids) from (to - from) in
        IfOk result (λ r. r.profile ≡ P.profile streams a b) }
    ensures over { let streams = streams_from (take pin.now.place (H.view hall.old).seat.seen)
        (first_id pin.now.ids) from (to - from) in
        IfOk result (λ r. r.over ≡ length streams) }
    ensures reads { ReadsBeside (H.view hall.old).account (H.view hall.new).account
        (levels_from (take pin.now.place (H.view hall.old).seat.seen) (first_id pin.now.ids) from
        (to - from)) }
    ensures fills { IfOk result (λ r. FillsBeside (H.view hall.old).account (H.view hall.new).account 0) }
    ensures rest { OnlyWalks (H.view hall.old) (H.view hall.new) }
    ensures reach { KeepsReach (H.view hall.new).seat (H.reaches hall.old) (H.reaches hall.new) }
{
    let mut profile = P::empty(alloc);
    let mut over = 0;
    'tracks: for track in from..to {
        over += add_track(rt, alloc, hall, pin, track, a, b, &mut profile)?;
    }
    Ok(ProfileOver { over, profile })
}
