ghost use Rattle.std.specs.Prelude.{◌≡◌, ◌+◌, ◌*◌, ◌≤◌, ◌↔◌, ℕ, All, IsTrue, Some, length, slice_get};
ghost use Rattle.std.specs.List.{Contains};
ghost use Rattle.trace_base.specs.Info.{IsLegalContainer, IsLegalInfo, JoinsExisting, NamesExisting};
ghost use Rattle.trace_base.specs.declared.limits.TheConstants.{MAX_CONTAINERS, MAX_FUNCTIONS};
ghost use Rattle.trace_base.specs.declared.limits.TheConstants.{MAX_LINK_EVENTS, MAX_TRACKS, MAX_TYPES};
ghost use Rattle.trace_base.specs.declared.names.Track.{Track as TrackValue};

use trace_base::{
    Container, MAX_CONTAINERS, MAX_FUNCTIONS, MAX_LINK_EVENTS, MAX_TIME, MAX_TRACKS, MAX_TYPES,
    Message, TraceInfo, TraceNames, Track,
};

// Whether the lists of names are within the limits.
fn are_few(names: &TraceNames) -> bool
    ensures { IsTrue result ↔ ((length names.now.containers ≤ MAX_CONTAINERS)
        × (length names.now.kinds + length names.now.link_kinds ≤ MAX_TYPES)
        × (length names.now.tracks ≤ MAX_TRACKS) × (length names.now.functions ≤ MAX_FUNCTIONS)) }
{
    let most_types = MAX_TYPES as usize;
    names.containers.len() <= MAX_CONTAINERS as usize
        && names.kinds.len() <= most_types
        && names.link_kinds.len() <= most_types - names.kinds.len()
        && names.tracks.len() <= MAX_TRACKS as usize
        && names.functions.len() <= MAX_FUNCTIONS as usize
}

// Whether each container exists in an interval within the limits.
fn are_intervals(containers: &[Container]) -> bool
    ensures { IsTrue result ↔ All IsLegalContainer containers.now }
{
    containers
        .iter()
        .all(|c| c.start <= c.end && c.end <= MAX_TIME)
}

// Whether the containers and the kinds of tracks exist.
fn are_named(names: &TraceNames) -> bool
    ensures { IsTrue result ↔ All (NamesExisting names.now) names.now.tracks }
{
    let containers = names.containers.len();
    let kinds = names.kinds.len();
    names.tracks.as_slice().iter().all(|t| (t.container as usize) < containers
        && (t.kind as usize) < kinds)
}

// Whether this track is among others.
fn is_among(track: Track, others: &[Track]) -> bool
    ensures { IsTrue result ↔ Contains others.now track }
{
    others.iter().any(|t| *t == track)
}

// Whether no two tracks are the same.
fn are_distinct(tracks: &[Track]) -> bool
    ensures { IsTrue result ↔ ((i j : ℕ) (t : TrackValue) → slice_get tracks.now i ≡ Some t
        → slice_get tracks.now j ≡ Some t → i ≡ j) }
{
    for (i, track) in tracks.iter().enumerate() {
        if is_among(*track, &tracks[i + 1..]) {
            return false;
        }
    }
    true
}

// Whether the containers of messages exist.
fn are_joined(names: &TraceNames, messages: &[Message]) -> bool
    ensures { IsTrue result ↔ All (JoinsExisting names.now) messages.now }
{
    let containers = names.containers.len();
    messages.iter().all(|m| (m.from as usize) < containers && (m.to as usize) < containers)
}

/// Whether names and messages are those of a legal trace: the lists are within the limits, what they name
/// exists, and no two tracks are the same. It compares each two tracks, and takes no memory.
pub fn is_legal_info(info: &TraceInfo) -> bool
    ensures { IsTrue result ↔ IsLegalInfo info.now }
{
    let messages = info.messages.messages.as_slice();
    are_few(&info.names)
        && messages.len() <= MAX_LINK_EVENTS as usize / 2
        && are_intervals(info.names.containers.as_slice())
        && are_named(&info.names)
        && are_distinct(info.names.tracks.as_slice())
        && are_joined(&info.names, messages)
}
