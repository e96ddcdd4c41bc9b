use crate::pin::Pin;
use thiserror::Error;

/// Why a hall refuses.
#[derive(Clone, Copy, Debug, PartialEq, Eq, Error)]
pub enum HallFault {
    /// No memory was found.
    #[error("out of memory")]
    Memory,
    /// A number is used up. Where places are needed it is how many are taken or promised, which leaves no
    /// room for what the call needs; where a node is interned, how many numbers its room gave, or how many
    /// references to it there are.
    #[error("number {0} is used up")]
    Spent(u64),
    /// The most traces are open, as of this place.
    #[error("too many traces are open at place {0}")]
    Full(u64),
}

/// What a hall answers to a query that asks for its traces.
#[derive(Debug)]
pub enum AskAnswer {
    /// All of them are open.
    Pinned(Pin),
    /// The first of them that isn't open, the id that the next trace will get, and the place of the question.
    Unknown { id: u64, next: u64, place: u64 },
    /// The places are used up: so many are taken or promised, which leaves no room for one more.
    Spent(u64),
}

/// What a hall answers to the wish that a trace be closed.
#[derive(Clone, Copy, Debug, PartialEq, Eq)]
pub enum CloseAnswer {
    /// It is closed, at this place.
    Closed(u64),
    /// It isn't open: the id that the next trace will get, and the place of the question.
    Unknown { next: u64, place: u64 },
    /// It is loading, as of this place, so that it can't be closed yet.
    Loading(u64),
    /// The places are used up: so many are taken or promised, which leaves no room for one more.
    Spent(u64),
}
