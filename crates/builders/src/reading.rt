ghost use Rattle.std.specs.Prelude.{◌≡◌, ◌+◌, ◌≤◌, ◌<◌, ◌==◌, ◌++◌, ◌∷◌, [], ℕ, if◌then◌else◌, take, Some};
ghost use Rattle.std.specs.Prelude.{Contains, IfOk, IfSome, OnOk};
ghost use Rattle.hall_trait.specs.Pin.{pin_view};
ghost use Rattle.hall_history.specs.Asks.{first_id};
ghost use Rattle.hall_trait.specs.Reach.{KeepsReach, Source};
ghost use Rattle.node_key.specs.Events.{events};
ghost use Rattle.hall_history.specs.History.{FitsTrack, stream_of, tracks_of};
ghost use Rattle.node_key.specs.Tree.{Tree};
ghost use Rattle.builders.specs.Reads.{IsRead, IsReached, OnlyReads};

use hall_trait::{Hall, Pin, Published};
use node_key::NodeKey;
use std::alloc::Global;
use std::sync::Wait;
use trace_base::{Event, MAX_TIME, Memory, Seq, TrackStream};

/// Adds an event of a call, and nothing for a group, whose function is 0.
fn push_of_call(list: &mut Seq<Event>, func: u32, event: Event) -> Result<(), Memory>
    ensures { OnOk result (list.new ≡ list.old ++ (if func == 0 then [] else event ∷ [])) }
{
    if func == 0 {
        return Ok(());
    }
    list.push(event)
}

/// Adds the events of the tree of a node that begins at `at`, whose key was read.
fn push_events<R: Wait, H: Hall>(
    rt: &R,
    hall: &mut H,
    key: &NodeKey,
    at: u64,
    list: &mut Seq<Event>,
) -> Result<(), Memory>
    requires leads { (by_what : Source) × (t : Tree)
        × IsRead (H.view hall.old).seat (H.reaches hall.old) by_what t key.now }
    requires in_time { at + key.now.dur ≤ MAX_TIME }
    ensures answer { (by_what : Source) (t : Tree)
        → IsRead (H.view hall.old).seat (H.reaches hall.old) by_what t key.now
        → OnOk result (list.new ≡ list.old ++ events t at) }
    ensures rest { OnlyReads (H.view hall.old) (H.view hall.new) }
    ensures reach { KeepsReach (H.view hall.new).seat (H.reaches hall.old) (H.reaches hall.new) }
{
    let end = at + key.dur;
    push_of_call(list, key.func, Event::Enter(key.func, at))?;
    let mut from = at;
    for i in 0..key.len {
        let kid = key.kids[i as usize];
        let start = from + kid.gap;
        let below = hall.read(rt, kid.node);
        push_events(rt, hall, &below, start, list)?;
        from = start + kid.span;
    }
    push_of_call(list, key.func, Event::Leave(end))
}

/// Adds the events of the tree of the node `n`, which begins at `at`, in nanoseconds, and ends within the
/// greatest time. The seat stays, and reaches the nodes below by the same stake or pin from then on.
pub fn events_of_number<R: Wait, H: Hall>(
    rt: &R,
    hall: &mut H,
    n: u64,
    at: u64,
    list: &mut Seq<Event>,
) -> Result<(), Memory>
    requires { (by_what : Source) × (t : Tree)
        × IsReached (H.view hall.old).seat (H.reaches hall.old) by_what n t × (at + t.dur ≤ MAX_TIME) }
    ensures answer { (by_what : Source) (t : Tree)
        → IsReached (H.view hall.old).seat (H.reaches hall.old) by_what n t
        → OnOk result (list.new ≡ list.old ++ events t at) }
    ensures rest { OnlyReads (H.view hall.old) (H.view hall.new) }
    ensures reach { KeepsReach (H.view hall.new).seat (H.reaches hall.old) (H.reaches hall.new) }
{
    let key = hall.read(rt, n);
    push_events(rt, hall, &key, at, list)
}

/// The stream of a track, counted from 0, of the pin's first trace; `None` exactly where it isn't published
/// at the pin's place.
pub fn published_stream<R: Wait, H: Hall>(
    rt: &R,
    alloc: Global,
    hall: &mut H,
    pin: &Pin,
    track: u32,
) -> Result<Option<TrackStream>, Memory>
    requires has { Contains (H.view hall.old).seat.pins (pin_view pin.now) }
    requires within { track < tracks_of (take pin.now.place (H.view hall.old).seat.seen)
        (first_id pin.now.ids) }
    ensures stream { IfOk result (λ s. s ≡ stream_of (take pin.now.place (H.view hall.old).seat.seen)
        (first_id pin.now.ids) track) }
    ensures fits { IfOk result (λ r. IfSome r (λ s. FitsTrack (take pin.now.place (H.view hall.old).seat.seen)
        (first_id pin.now.ids) track s)) }
    ensures rest { OnlyReads (H.view hall.old) (H.view hall.new) }
    ensures reach { KeepsReach (H.view hall.new).seat (H.reaches hall.old) (H.reaches hall.new) }
{
    match hall.published(rt, pin, 0, track) {
        Published::NotYet => Ok(None),
        Published::Root { start, root } => {
            let key = hall.read(rt, root);
            let mut events = Seq::new(alloc);
            push_events(rt, hall, &key, start, &mut events)?;
            Ok(Some(TrackStream {
                start,
                end: start + key.dur,
                events,
            }))
        }
    }
}
