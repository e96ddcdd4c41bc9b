ghost use Rattle.std.specs.Prelude.{◌≡◌};

use crate::what::What;
use paje_defs::Role;
use paje_lex::Unread;
use thiserror::Error;

/// Why an event line is refused by the lines before it.
#[derive(Clone, Copy, Debug, PartialEq, Eq, Error)]
pub enum ModelFault {
    /// Nothing that was declared is found for the text of this role.
    #[error("nothing of the role {0:?} is found")]
    UnknownEntity(Role),
    /// What is found for this role is of another kind than the event needs.
    #[error("the wrong kind for the role {0:?}")]
    WrongKind(Role),
    /// The alias is taken; with the line that took it first, 0 for the root's.
    #[error("the alias was taken on line {0}")]
    DoubleAlias(u32),
    /// The container was destroyed; with the line that did so.
    #[error("the container was destroyed on line {0}")]
    AfterDestroy(u32),
    /// The time is below the one before; with that time, in nanoseconds.
    #[error("a time below {0}")]
    TimeBack(u64),
    /// A call is left where none is open.
    #[error("no open call")]
    EmptyPop,
    /// As many calls are open as may be.
    #[error("too many open calls")]
    Deep,
    /// As many as may be are there.
    #[error("too many {0:?}")]
    TooMany(What),
}

impl From<ModelFault> for Unread<ModelFault> {
    ghost use Rattle.paje_lex.specs.declared.unread.Unread.TheVariants.{Refused};

    ghost from_gives = { λ fault e. e ≡ Refused fault };

    fn from(fault: ModelFault) -> Unread<ModelFault> {
        Unread::Refused(fault)
    }
}
