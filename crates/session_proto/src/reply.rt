use trace_base::{Name, Row, Seq};

/// A row of a flat profile, with the name of its function.
#[derive(Debug, Drop)]
pub struct NamedRow {
    pub row: Row,
    pub name: Name,
}

/// Why a request is refused.
#[derive(Clone, Copy, Debug, PartialEq, Eq)]
pub enum No {
    /// The line is no request.
    Grammar,
    /// This line of the trace is refused, counted from 1, for the reason that the word says.
    Text(u32, &'static str),
    /// The trace has more than `MAX_TEXT` bytes.
    Large,
    /// No trace of this id is open before this place.
    Unknown { id: u64, place: u64 },
    /// As of this place the most traces are open.
    Full(u64),
    /// This number is used up.
    Spent(u64),
    /// No memory was found.
    Memory,
}

/// The answer to a request. `place` is the request's place in the history, counted from 1; times are
/// nanoseconds.
#[derive(Debug, Drop)]
pub enum Reply {
    /// The trace is open under this id, with so many tracks, functions and messages.
    Put {
        id: u64,
        tracks: u64,
        functions: u64,
        messages: u64,
        place: u64,
    },
    /// The flat profile over so many tracks; `bare` is the time in which no call was open.
    Flat {
        over: u32,
        bare: u128,
        rows: Seq<NamedRow>,
        place: u64,
    },
    /// The session ends.
    Quit,
    No(No),
}
