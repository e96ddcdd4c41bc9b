use thiserror::Error;

/// Why a text is no date that the server takes.
#[derive(Clone, Copy, Debug, PartialEq, Eq, Error)]
pub enum DateFault {
    /// It isn't written as a date.
    #[error("not a date")]
    Shape,
    /// It is below 0.
    #[error("a date below 0")]
    Negative,
    /// It is above 2^62 nanoseconds.
    #[error("a date above 2^62 nanoseconds")]
    Big,
}
