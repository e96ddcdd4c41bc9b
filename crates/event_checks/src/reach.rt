ghost use Rattle.std.specs.Prelude.{◌≡◌, ◌↔◌, IsSome, IsTrue, Some};
ghost use Rattle.event_checks.specs.Reach.{KeepsPins, PinLeads, PinsLead, StakesLead, StoresRoots};
ghost use Rattle.event_checks.specs.Reach.{StoresStakes, TraceLeads, TrackLeads};
ghost use Rattle.hall_world.specs.Steps.{IsReachedBy};
ghost use Rattle.node_key.specs.Leads.{Leads};
ghost use Rattle.registry_core.specs.Asking.{AreKeptTraces};
ghost use Rattle.registry_core.specs.Registry.{kept_trace};
ghost use Rattle.store_laws.specs.Store.{IsCanonic, key_in, node_in};

use hall_history::{AskIds, PinView, Published};
use hall_world::{SeatView, World};
use node_key::{NodeKey, STORE_ROOMS, Stake};
use registry_core::Registry;
use shard_core::Shard;

// The key of a node of the store.
fn key(rooms: &[Shard], n: u64) -> NodeKey
    requires { IsSome (node_in rooms.now n) }
    ensures { key_in rooms.now n ≡ Some result }
{
    rooms[(n % STORE_ROOMS) as usize].node(n)
}

/// Whether a number lies under another one, of which there is a node in rooms that are a store: it is that
/// number, or lies under a kid of its key. The pass goes down at most as far as the key is high, and comes to a
/// node once for each way to it.
pub fn leads(rooms: &[Shard], from: u64, target: u64) -> bool
    requires canonic { IsCanonic rooms.now }
    requires stored { IsSome (node_in rooms.now from) }
    ensures { IsTrue result ↔ Leads (key_in rooms.now) from target }
{
    if from == target {
        return true;
    }
    let own = key(rooms, from);
    for kid in &own.kids[..own.len as usize] {
        if leads(rooms, kid.node, target) {
            return true;
        }
    }
    false
}

// Whether a number lies under that of one of the stakes.
fn stakes_lead(rooms: &[Shard], stakes: &[Stake], target: u64) -> bool
    requires canonic { IsCanonic rooms.now }
    requires stored { StoresStakes rooms.now stakes.now }
    ensures { IsTrue result ↔ StakesLead rooms.now stakes.now target }
{
    for x in stakes {
        if leads(rooms, x.number, target) {
            return true;
        }
    }
    false
}

// Whether a number lies under the root that was published of a track of a kept trace by a place.
fn track_leads(
    rooms: &[Shard],
    registry: &Registry,
    id: u64,
    place: u64,
    track: u32,
    target: u64,
) -> bool
    requires canonic { IsCanonic rooms.now }
    requires stored { StoresRoots rooms.now registry.now }
    requires kept { IsSome (kept_trace registry.now.traces id) }
    ensures { IsTrue result ↔ TrackLeads rooms.now registry.now id place track target }
{
    match registry.published(id, place, track) {
        Published::Root { start: _, root } => leads(rooms, root, target),
        Published::NotYet => false,
    }
}

// Whether a number lies under a root that was published of a kept trace by a place.
fn trace_leads(rooms: &[Shard], registry: &Registry, id: u64, place: u64, target: u64) -> bool
    requires canonic { IsCanonic rooms.now }
    requires stored { StoresRoots rooms.now registry.now }
    requires kept { IsSome (kept_trace registry.now.traces id) }
    ensures { IsTrue result ↔ TraceLeads rooms.now registry.now id place target }
{
    for track in 0..registry.brief(id).tracks {
        if track_leads(rooms, registry, id, place, track, target) {
            return true;
        }
    }
    false
}

// Whether a number lies under a root that a pin sees.
fn pin_leads(rooms: &[Shard], registry: &Registry, pin: &PinView, target: u64) -> bool
    requires canonic { IsCanonic rooms.now }
    requires stored { StoresRoots rooms.now registry.now }
    requires kept { AreKeptTraces registry.now pin.now.ids }
    ensures { IsTrue result ↔ PinLeads rooms.now registry.now pin.now target }
{
    match pin.ids {
        AskIds::One(id) => trace_leads(rooms, registry, id, pin.place, target),
        AskIds::Two(first, second) => {
            if trace_leads(rooms, registry, first, pin.place, target) {
                return true;
            }
            trace_leads(rooms, registry, second, pin.place, target)
        }
    }
}

// Whether a number lies under a root that one of the pins sees.
fn pins_lead(rooms: &[Shard], registry: &Registry, pins: &[PinView], target: u64) -> bool
    requires canonic { IsCanonic rooms.now }
    requires stored { StoresRoots rooms.now registry.now }
    requires kept { KeepsPins registry.now pins.now }
    ensures { IsTrue result ↔ PinsLead rooms.now registry.now pins.now target }
{
    for pin in pins {
        if pin_leads(rooms, registry, pin, target) {
            return true;
        }
    }
    false
}

/// Whether a seat reaches a number: it lies under the number of one of its stakes, or under a root that one of
/// its pins sees. The rooms are a store, there is a node on each of the seat's stakes and for each root that the
/// registry keeps, and the registry keeps the traces of the seat's pins. It takes no memory.
pub fn is_reached_by(w: &World, seat: &SeatView, n: u64) -> bool
    requires canonic { IsCanonic w.now.state.shards }
    requires staked { StoresStakes w.now.state.shards seat.now.stakes }
    requires roots { StoresRoots w.now.state.shards w.now.state.registry }
    requires pinned { KeepsPins w.now.state.registry seat.now.pins }
    ensures { IsTrue result ↔ IsReachedBy w.now seat.now n }
{
    let rooms = w.state.shards.as_slice();
    stakes_lead(rooms, seat.stakes.as_slice(), n)
        || pins_lead(rooms, &w.state.registry, seat.pins.as_slice(), n)
}
