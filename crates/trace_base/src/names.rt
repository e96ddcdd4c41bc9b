use crate::messages::MsgTable;
use crate::name::Name;
use crate::seq::Seq;

/// A container, as a process or a thread: its name, and the interval in which it exists (nanoseconds).
#[derive(Debug, Drop)]
pub struct Container {
    pub name: Name,
    pub start: u64,
    pub end: u64,
}

/// A track: a container and a state type, by their places in the lists of the names, counted from 0.
#[derive(Clone, Copy, Debug, PartialEq, Eq)]
pub struct Track {
    pub container: u32,
    pub kind: u32,
}

/// What a trace declares. Container 0 is the root. A function's number is its place in `functions`, counted
/// from 1; the other lists count from 0. `end` is the greatest time of the file (nanoseconds).
#[derive(Debug, Drop)]
pub struct TraceNames {
    pub end: u64,
    pub containers: Seq<Container>,
    pub kinds: Seq<Name>,
    pub link_kinds: Seq<Name>,
    pub tracks: Seq<Track>,
    pub functions: Seq<Name>,
}

/// What a hall keeps of a trace beside its tracks' events.
#[derive(Debug, Drop)]
pub struct TraceInfo {
    pub names: TraceNames,
    pub messages: MsgTable,
}
