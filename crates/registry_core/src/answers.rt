use crate::roots::Roots;
use thiserror::Error;

/// A trace that was opened: its id, and the place of the entry that opened it, counted from 1.
#[derive(Clone, Copy, Debug, PartialEq, Eq)]
pub struct Opened {
    pub id: u64,
    pub place: u64,
}

/// Why the registry refuses.
#[derive(Clone, Copy, Debug, PartialEq, Eq, Error)]
pub enum RegFault {
    /// No memory was found.
    #[error("out of memory")]
    Memory,
    /// So many places are taken or promised, which leaves no room for what the call needs.
    #[error("number {0} is used up")]
    Spent(u64),
    /// The most traces are open, as of this place.
    #[error("too many traces are open at place {0}")]
    Full(u64),
}

/// What became of a trace whose load was given up.
#[derive(Drop)]
pub enum RegEnd {
    /// It is gone as of this place, and its roots are to be released.
    Ended(u64, Roots),
    /// It ended at this place, and is kept for those who still use it.
    Kept(u64),
}

/// What the registry answers to a query that asks for its traces.
#[derive(Clone, Copy, Debug, PartialEq, Eq)]
pub enum RegAsk {
    /// All of them are open as of this place, and have one user more.
    Pinned(u64),
    /// The first of them that isn't open, the id that the next trace will get, and the place of the question.
    Unknown { id: u64, next: u64, place: u64 },
    /// So many places are taken or promised, which leaves no room for one more.
    Spent(u64),
}

/// The roots that came free when a query gave its traces back: those of the first trace that it named, and
/// those of the second. There are some exactly where the trace had ended and lost its last user.
#[derive(Drop)]
pub struct RegUnpin {
    pub first: Option<Roots>,
    pub second: Option<Roots>,
}

/// What became of a trace that was to be closed.
#[derive(Drop)]
pub enum RegClose {
    /// It is gone as of this place, and its roots are to be released.
    Ended(u64, Roots),
    /// It ended at this place, and is kept for those who still use it.
    Kept(u64),
    /// It is loading as of this place.
    Loading(u64),
    /// It isn't open as of this place. `next` is the id that the next trace will get.
    Unknown { next: u64, place: u64 },
    /// So many places are taken or promised, which leaves no room for one more.
    Spent(u64),
}
