use crate::role::Role;
use thiserror::Error;

/// Why a definition line is refused.
#[derive(Clone, Copy, Debug, PartialEq, Eq, Error)]
pub enum DefFault {
    /// It isn't written as a definition line, or stands where none of its kind may.
    #[error("no definition line")]
    Shape,
    /// A definition is begun inside another.
    #[error("a definition inside another")]
    Nested,
    /// The event has no known name.
    #[error("an unknown event name")]
    UnknownName,
    /// The number has a definition; with the line that begins it.
    #[error("the number was defined on line {0}")]
    DoubleNumber(u32),
    /// The field has no known type.
    #[error("an unknown type")]
    UnknownType,
    /// The event needs a field of this role.
    #[error("no field of the role {0:?}")]
    MissingField(Role),
}
