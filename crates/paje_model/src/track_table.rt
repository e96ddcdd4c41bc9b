//! The tracks of a trace, by their containers and state types.
ghost use Rattle.std.specs.Prelude.{◌≡◌, ◌+◌, ◌≤◌, ◌<◌, ◌^◌, [], ◌∷◌, ◌++◌, Some, None, OnOk, IfOk, length};
ghost use Rattle.std.specs.Prelude.{All, option_map, option_copied, position, slice_get, sum_by, true};
ghost use Rattle.std.specs.List.{zip};
ghost use Rattle.std.specs.Option.{option_and_then};
ghost use Rattle.paje_lines.specs.EventLine.{pops, pushes};
ghost use Rattle.paje_lines.specs.States.{is_same};
ghost use Rattle.paje_model.specs.declared.open_track.OpenTrack.{OpenTrack};

use crate::finished_tracks::{FinishedTracks, track_streams};
use crate::open_track::OpenTrack;
use indexmap::IndexMap;
use paje_defs::EventName;
use paje_lines::Effect;
use std::alloc::Global;
use trace_base::{Container, Memory, Seq, Track};

/// A container and a state type, by their numbers.
#[derive(Clone, Copy, Debug, PartialEq, Eq, Hash)]
pub struct Pair {
    pub container: u32,
    pub kind: u32,
}

/// The tracks, in the order of their first state events, and what was made of each.
#[derive(Drop)]
pub struct TrackTable {
    alloc: Global,
    places: IndexMap<Pair, ()>,
    list: Vec<OpenTrack>,
}

impl TrackTable {
    ghost use Rattle.paje_model.specs.OpenTrack.{behind_event, effect_on};
    ghost use Rattle.paje_model.specs.TrackTable.{tracks_kept, track_of, ChangesTrack, calls_at};
    ghost use Rattle.paje_model.specs.Finished.{streams_within};

    /// No track. It takes no memory.
    pub fn new(alloc: Global) -> TrackTable
        ensures tracks { tracks_kept result ≡ [] }
        ensures list { result.list.items ≡ [] }
    {
        TrackTable {
            alloc,
            places: IndexMap::new(alloc),
            list: Vec::new(alloc),
        }
    }

    /// The place of a track, counted from 0.
    pub fn place(&self, pair: Pair) -> Option<usize>
        ensures { result ≡ position (is_same (track_of pair)) (tracks_kept self.now) }
    {
        self.places.get_index_of(&pair)
    }

    /// Adds a track that isn't there, without events. After `Memory` the table may only be dropped.
    pub fn add(&mut self, pair: Pair, start: u64) -> Result<(), Memory>
        requires { position (is_same (track_of pair)) (tracks_kept self.old) ≡ None }
        ensures tracks { OnOk result (tracks_kept self.new ≡ tracks_kept self.old ++ track_of pair ∷ []) }
        ensures list { OnOk result (self.new.list.items ≡ self.old.list.items
            ++ record { events = []; open_calls = 0; last = start } ∷ []) }
    {
        self.list.push(OpenTrack {
            events: Seq::new(self.alloc),
            open_calls: 0,
            last: start,
        })?;
        self.places.insert(pair, ())?;
        Ok(())
    }

    /// How many tracks there are.
    pub fn len(&self) -> usize
        ensures { result ≡ length self.now.list.items }
    {
        self.list.len()
    }

    /// What was made of the track that was found at a place.
    pub fn found(&self, place: Option<usize>) -> Option<&OpenTrack>
        ensures { option_copied result ≡ option_and_then (slice_get self.now.list.items) place }
    {
        match place {
            Some(place) => self.list.get(place),
            None => None,
        }
    }

    /// Adds what a state event does to the track at a place, and says what that is. An event that enters a
    /// call enters the function of this number. After `Memory` the table may only be dropped.
    pub fn change(
        &mut self,
        place: usize,
        event: EventName,
        function: u32,
        time: u64,
    ) -> Result<Effect, Memory>
        requires place { place < length self.old.list.items }
        requires open { (t : OpenTrack) → slice_get self.old.list.items place ≡ Some t → pops event ≡ true
            → 1 ≤ t.open_calls }
        requires room { (t : OpenTrack) → slice_get self.old.list.items place ≡ Some t → pushes event ≡ true
            → t.open_calls + 1 < 2 ^ 32 }
        ensures changed { OnOk result (ChangesTrack self.old self.new place
            (behind_event event function time)) }
        ensures effect { (t : OpenTrack) → slice_get self.old.list.items place ≡ Some t
            → IfOk result (λ done. done ≡ effect_on event t) }
    {
        self.list[place].change(event, function, time)
    }

    /// How many calls of the track at a place are open.
    fn calls(&self, place: u32) -> u32
        ensures { result ≡ calls_at self.now place }
    {
        match self.list.get(place as usize) {
            Some(track) => track.open_calls,
            None => 0,
        }
    }

    /// How many calls of the tracks at these places are open.
    pub fn open_calls(&self, places: &[u32]) -> u32
        requires { sum_by (calls_at self.now) places.now < 2 ^ 32 }
        ensures { result ≡ sum_by (calls_at self.now) places.now }
    {
        let mut open = 0;
        for place in places {
            open += self.calls(*place);
        }
        open
    }

    /// The tracks, whose containers are among these, and their streams.
    pub fn finish(self, containers: &[Container]) -> Result<FinishedTracks, Memory>
        requires { All (λ track. track.container < length containers.now) (tracks_kept self) }
        ensures tracks { IfOk result (λ finished. finished.tracks ≡ tracks_kept self) }
        ensures streams { IfOk result (λ finished. finished.streams
            ≡ streams_within containers.now (zip (tracks_kept self) self.list.items)) }
    {
        let TrackTable {
            alloc,
            places,
            list,
        } = self;
        let tracks: Vec<Track> = places.into_keys().map(|pair| pair.track()).collect(alloc)?;
        let streams = track_streams(alloc, tracks.as_slice(), list, containers)?;
        Ok(FinishedTracks {
            tracks: Seq::from_vec(tracks),
            streams,
        })
    }
}

impl Pair {
    ghost use Rattle.paje_model.specs.TrackTable.{track_of};

    fn track(self) -> Track
        ensures { result ≡ track_of self }
    {
        Track {
            container: self.container,
            kind: self.kind,
        }
    }
}
