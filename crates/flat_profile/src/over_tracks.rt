ghost use Rattle.std.specs.Prelude.{◌≡◌, ◌-◌, ◌≤◌, length, take, Contains, IfOk};
ghost use Rattle.hall_history.specs.Asks.{first_id};
ghost use Rattle.hall_history.specs.History.{tracks_of};
ghost use Rattle.hall_trait.specs.Pin.{pin_view};
ghost use Rattle.hall_trait.specs.Reach.{KeepsReach};
ghost use Rattle.profile_walk.specs.Tracks.{levels_from, streams_from};
ghost use Rattle.profile_walk.specs.Walks.{FillsBeside, OnlyWalks, ReadsBeside};
ghost use Rattle.trace_base.specs.Flat.{flat as flat_of_streams};

use hall_trait::{Hall, Pin};
use profile_walk::{ProfileOver, profile_of_tracks};
use std::alloc::Global;
use std::sync::Wait;
use trace_base::{Memory, Profile};

/// The flat profile of some tracks, and how many of them are published.
#[derive(Debug, Drop)]
pub struct FlatOver {
    pub over: u32,
    pub profile: Profile,
}

/// The flat profile over the half-open interval [a, b), in nanoseconds, of the tracks from `from` up to, and
/// not including, `to` of the pin's first trace that are published at the pin's place. Tracks are counted from
/// 0. `Memory` is its one fault.
///
/// Where the hall tells how many nodes were read and how many looks found nothing, at most two nodes on each
/// level of a track's tree were read beside those that weren't found. Each profile that wasn't found was filled
/// in.
pub fn flat<R: Wait, H: Hall>(
    rt: &R,
    alloc: Global,
    hall: &mut H,
    pin: &Pin,
    from: u32,
    to: u32,
    a: u64,
    b: u64,
) -> Result<FlatOver, Memory>
    requires has { Contains (H.view hall.old).seat.pins (pin_view pin.now) }
    requires within { to ≤ tracks_of (take pin.now.place (H.view hall.old).seat.seen)
        (first_id pin.now.ids) }
    ensures profile { let streams = streams_from (take pin.now.place (H.view hall.old).seat.seen)
        (first_id pin.now.ids) from (to - from) in
        IfOk result (λ r. r.profile ≡ flat_of_streams streams a b) }
    ensures over { let streams = streams_from (take pin.now.place (H.view hall.old).seat.seen)
        (first_id pin.now.ids) from (to - from) in
        IfOk result (λ r. r.over ≡ length streams) }
    ensures reads { ReadsBeside (H.view hall.old).account (H.view hall.new).account
        (levels_from (take pin.now.place (H.view hall.old).seat.seen) (first_id pin.now.ids) from
        (to - from)) }
    ensures fills { IfOk result (λ r. FillsBeside (H.view hall.old).account (H.view hall.new).account 0) }
    ensures rest { OnlyWalks (H.view hall.old) (H.view hall.new) }
    ensures reach { KeepsReach (H.view hall.new).seat (H.reaches hall.old) (H.reaches hall.new) }
{
    let sum: ProfileOver<Profile> = profile_of_tracks(rt, alloc, hall, pin, from, to, a, b)?;
    Ok(FlatOver {
        over: sum.over,
        profile: sum.profile,
    })
}
