use paje_lex::DateFault;
use thiserror::Error;

/// Why an event line is refused.
#[derive(Clone, Copy, Debug, PartialEq, Eq, Error)]
pub enum EventFault {
    /// Its first token is no number of one to ten digits below 2^32.
    #[error("no event number")]
    NoNumber,
    /// The number has no definition.
    #[error("an unknown event number")]
    UnknownNumber,
    /// It has fewer tokens behind its number than the definition has fields.
    #[error("too few fields")]
    TooFew,
    /// Its time is no date.
    #[error("{0}")]
    Date(DateFault),
}
