use crate::messages::LinkEvent;
use crate::names::TraceNames;
use crate::seq::Seq;
use crate::stream::TrackStream;

/// What a trace file says: its names, the events of each track, in the order of `names.tracks`, and the link
/// events in the file's order.
#[derive(Debug, Drop)]
pub struct TraceText {
    pub names: TraceNames,
    pub tracks: Seq<TrackStream>,
    pub links: Seq<LinkEvent>,
}
