//! Tracks that state events find.
ghost use Rattle.std.specs.Prelude.{◌≡◌, ◌<◌, ◌^◌, length, slice_get, position, None, Some, unwrap_or, OnOk};
ghost use Rattle.std.specs.Prelude.{IfOk};
ghost use Rattle.std.specs.Option.{option_copied, option_map, option_map_or};
ghost use Rattle.paje_lines.specs.States.{is_same};
ghost use Rattle.paje_model.specs.ContainerTable.{ChangesContainer, with_track};
ghost use Rattle.paje_model.specs.FoundTrack.{HasPlace, HasTrack};
ghost use Rattle.paje_model.specs.TrackTable.{tracks_kept, track_of};
ghost use Rattle.paje_model.specs.declared.container_table.Existing.{Existing};

use crate::container_table::{ContainerTable, Existing};
use crate::open_track::OpenTrack;
use crate::track_table::{Pair, TrackTable};
use trace_base::Memory;

/// The line that destroyed the container.
pub fn destroyed_on(existing: Option<&Existing>) -> Option<u32>
    ensures { (e : Existing) → option_copied existing.entry ≡ Some e
        → result ≡ option_map (λ d. d.line) e.destruction }
{
    match existing {
        Some(existing) => match existing.destruction {
            Some(destruction) => Some(destruction.line),
            None => None,
        },
        None => None,
    }
}

/// When the container was created, in nanoseconds.
pub fn start_of(existing: Option<&Existing>) -> u64
    ensures { (e : Existing) → option_copied existing.entry ≡ Some e → result ≡ e.start }
{
    match existing {
        Some(existing) => existing.start,
        None => 0,
    }
}

/// The last time of a track, else this start; in nanoseconds.
pub fn last_time(track: Option<&OpenTrack>, start: u64) -> u64
    ensures { result ≡ option_map_or (λ t. t.last) (option_copied track.entry) start }
{
    match track {
        Some(track) => track.last,
        None => start,
    }
}

/// How many calls of a track are open.
pub fn open_calls(track: Option<&OpenTrack>) -> u32
    ensures { result ≡ option_map_or (λ t. t.open_calls) (option_copied track.entry) 0 }
{
    match track {
        Some(track) => track.open_calls,
        None => 0,
    }
}

/// Adds a track that isn't there, and tells its place, counted from 0. After `Memory` the tables may only be
/// dropped.
fn add_track(
    tracks: &mut TrackTable,
    containers: &mut ContainerTable,
    pair: Pair,
) -> Result<usize, Memory>
    requires new { position (is_same (track_of pair)) (tracks_kept tracks.old) ≡ None }
    requires container { pair.container < length containers.old.list.items }
    requires room { length tracks.old.list.items < 2 ^ 32 }
    ensures place { IfOk result (λ at. at ≡ length tracks.old.list.items) }
    ensures tracks { (e : Existing) → slice_get containers.old.list.items pair.container ≡ Some e
        → OnOk result (HasTrack tracks.old tracks.new (track_of pair) e.start None) }
    ensures containers { OnOk result (ChangesContainer containers.old containers.new pair.container
        (with_track (length tracks.old.list.items))) }
{
    let place = tracks.len();
    let start = start_of(containers.get(pair.container as usize));
    tracks.add(pair, start)?;
    containers.add_track(pair.container as usize, place as u32)?;
    Ok(place)
}

/// The place of the track that was found at this one; a new track is added. After `Memory` the tables may
/// only be dropped.
pub fn found_track(
    tracks: &mut TrackTable,
    containers: &mut ContainerTable,
    pair: Pair,
    place: Option<usize>,
) -> Result<usize, Memory>
    requires found { place ≡ position (is_same (track_of pair)) (tracks_kept tracks.old) }
    requires container { pair.container < length containers.old.list.items }
    requires room { place ≡ None → length tracks.old.list.items < 2 ^ 32 }
    ensures place { IfOk result (λ at. at ≡ unwrap_or place (length tracks.old.list.items)) }
    ensures tracks { (e : Existing) → slice_get containers.old.list.items pair.container ≡ Some e
        → OnOk result (HasTrack tracks.old tracks.new (track_of pair) e.start place) }
    ensures containers { OnOk result (HasPlace containers.old containers.new pair.container
        (length tracks.old.list.items) place) }
{
    match place {
        Some(place) => Ok(place),
        None => add_track(tracks, containers, pair),
    }
}
