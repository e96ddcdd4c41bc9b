//! The tracks of a trace whose lines are all read.
ghost use Rattle.std.specs.Prelude.{◌≡◌, ◌<◌, All, IfOk, length};
ghost use Rattle.std.specs.List.{zip};
ghost use Rattle.paje_model.specs.Finished.{streams_within};

use crate::open_track::OpenTrack;
use std::alloc::Global;
use trace_base::{Container, Memory, Seq, Track, TrackStream};

/// The tracks of a trace and, in their order, their streams of events.
#[derive(Debug, Drop)]
pub struct FinishedTracks {
    pub tracks: Seq<Track>,
    pub streams: Seq<TrackStream>,
}

impl OpenTrack {
    ghost use Rattle.paje_model.specs.Finished.{stream_within};

    /// The track's stream. Calls that are open are left where its container ends.
    fn finish(mut self, container: &Container) -> Result<TrackStream, Memory>
        ensures { IfOk result (λ stream. stream ≡ stream_within container.now self) }
    {
        let open_calls = self.open_calls;
        self.leave(open_calls, container.end)?;
        Ok(TrackStream {
            start: container.start,
            end: container.end,
            events: self.events,
        })
    }
}

/// The streams of tracks, whose containers are among these, by what was made of each.
pub fn track_streams(
    alloc: Global,
    tracks: &[Track],
    made: Vec<OpenTrack>,
    containers: &[Container],
) -> Result<Seq<TrackStream>, Memory>
    requires { All (λ track. track.container < length containers.now) tracks.now }
    ensures { IfOk result (λ streams. streams ≡ streams_within containers.now (zip tracks.now made.items)) }
{
    let mut streams = Vec::with_capacity(alloc, made.len())?;
    for (track, made) in tracks.iter().zip(made) {
        let container = &containers[track.container as usize];
        streams.push(made.finish(container)?)?;
    }
    Ok(Seq::from_vec(streams))
}
