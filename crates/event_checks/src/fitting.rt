ghost use Rattle.std.specs.Prelude.{◌≡◌, ◌↔◌, ◌≤◌, ℕ, All, IsTrue, Some, length, slice_get};
ghost use Rattle.event_checks.specs.Fits.{IsNumbered, SpansTrack};
ghost use Rattle.event_checks.specs.Front.{MayEnd};
ghost use Rattle.trace_base.specs.Info.{Fits};
ghost use Rattle.trace_base.specs.Stream.{IsLegal};

use crate::front::{Front, whole_front};
use trace_base::{Event, MAX_TIME, TraceInfo, TrackStream};

// Whether a stream may end behind this front.
fn may_end(front: &Front, end: u64) -> bool
    ensures { IsTrue result ↔ MayEnd front.now end }
{
    front.depth == 0 && front.last <= end && end <= MAX_TIME
}

/// Whether a stream is a legal one: its times don't fall and lie from its start to its end, each Leave ends a
/// call that is open and none is left open, and all is within the limits. It takes no memory.
pub fn is_legal(s: &TrackStream) -> bool
    ensures { IsTrue result ↔ IsLegal s.now }
{
    match whole_front(s) {
        Some(front) => may_end(&front, s.end),
        None => false,
    }
}

// Whether the stream lasts as long as the container of the track.
fn spans(s: &TrackStream, info: &TraceInfo, track: u32) -> bool
    ensures { IsTrue result ↔ SpansTrack s.now info.now track }
{
    let Some(place) = info.names.tracks.get(track as usize) else {
        return false;
    };
    match info.names.containers.get(place.container as usize) {
        Some(container) => s.start == container.start && s.end == container.end,
        None => false,
    }
}

// Whether the event enters none or one of so many functions.
fn is_numbered(event: Event, functions: usize) -> bool
    ensures { IsTrue result ↔ IsNumbered functions event }
{
    match event {
        Event::Enter(function, _) => function as usize <= functions,
        Event::Leave(_) => true,
    }
}

// Whether each event enters none or one of so many functions.
fn are_numbered(events: &[Event], functions: usize) -> bool
    ensures { IsTrue result ↔ All (IsNumbered functions) events.now }
{
    events.iter().all(|event| is_numbered(*event, functions))
}

/// Whether a stream may be published as this track, counted from 0: it is legal, it lasts as long as the
/// track's container, and the names number its functions. It takes no memory.
pub fn fits(s: &TrackStream, info: &TraceInfo, track: u32) -> bool
    ensures { IsTrue result ↔ Fits s.now info.now track }
{
    spans(s, info, track)
        && are_numbered(s.events.as_slice(), info.names.functions.len())
        && is_legal(s)
}
