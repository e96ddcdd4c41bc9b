use crate::seq::Seq;

/// A state event of one track: a call of a function is entered or left. Times are nanoseconds.
#[derive(Clone, Copy, Debug, PartialEq, Eq)]
pub enum Event {
    /// A call of the function with this number, counted from 1, begins at this time.
    Enter(u32, u64),
    /// The call last entered and still open ends at this time.
    Leave(u64),
}

/// The raw events of one track, which lasts from `start` to `end` (nanoseconds), in the order of the file.
#[derive(Debug, Drop)]
pub struct TrackStream {
    pub start: u64,
    pub end: u64,
    pub events: Seq<Event>,
}
