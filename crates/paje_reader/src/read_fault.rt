use crate::why::Why;
use thiserror::Error;

/// The first line that is refused, counted from 1, and why.
#[derive(Clone, Copy, Debug, PartialEq, Eq)]
pub struct ReadRefusal {
    pub line: u32,
    pub why: Why,
}

/// Why a text isn't read.
#[derive(Clone, Copy, Debug, PartialEq, Eq, Error)]
pub enum ReadFault {
    /// A line is refused.
    #[error("line {}: {}", .0.line, .0.why)]
    Refused(ReadRefusal),
    /// No memory was found.
    #[error("out of memory")]
    Memory,
}
