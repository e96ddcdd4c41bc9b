ghost use Rattle.std.specs.Prelude.{◌≡◌};
ghost use Rattle.paje_reader.specs.Why.{why_of_date, why_of_definition, why_of_entity, why_of_event};
ghost use Rattle.paje_reader.specs.Why.{why_of_lexing, word_of};

use paje_defs::{DefFault, EventFault, Role};
use paje_lex::{DateFault, LexFault};
use paje_lines::{ModelFault, What};
use thiserror::Error;

/// Why a line of a trace is refused, or an open definition at the end.
#[derive(Clone, Copy, Debug, PartialEq, Eq, Error)]
pub enum Why {
    /// The line has more bytes than may be.
    #[error("too long a line")]
    LongLine,
    /// It isn't UTF-8; with the length of its longest front that is.
    #[error("no UTF-8 from byte {0} on")]
    NotText(u32),
    /// A quote isn't closed; with its place, in bytes counted from 0.
    #[error("the quote at byte {0} isn't closed")]
    OpenQuote(u32),
    /// A definition line isn't written as one, or stands where none of its kind may.
    #[error("no definition line")]
    Shape,
    /// A definition is begun inside another.
    #[error("a definition inside another")]
    Nested,
    /// A defined event has no known name.
    #[error("an unknown event name")]
    UnknownName,
    /// A defined number has a definition; with the line that begins it.
    #[error("the number was defined on line {0}")]
    DoubleNumber(u32),
    /// A field has no known type.
    #[error("an unknown type")]
    UnknownType,
    /// A definition ends without a field of this role, which its event needs.
    #[error("no field of the role {0:?}")]
    MissingField(Role),
    /// An event line, or the end of the text, stands where a definition isn't ended.
    #[error("a definition without an end")]
    Unended,
    /// The first token of an event line is no number of one to ten digits below 2^32.
    #[error("no event number")]
    NoNumber,
    /// The number has no definition.
    #[error("an unknown event number")]
    UnknownNumber,
    /// An event line has fewer tokens behind its number than its definition has fields.
    #[error("too few fields")]
    TooFew,
    /// The time of an event is no date.
    #[error("no date")]
    DateShape,
    /// The time is below 0.
    #[error("a date below 0")]
    DateNegative,
    /// The time is above 2^62 nanoseconds.
    #[error("a date above 2^62 ns")]
    DateBig,
    /// Nothing that was declared is found for the text of this role.
    #[error("nothing of the role {0:?} is found")]
    UnknownEntity(Role),
    /// What is found for this role is of another kind than the event needs.
    #[error("the wrong kind for the role {0:?}")]
    WrongKind(Role),
    /// An alias is taken; with the line that took it first, 0 for the root's.
    #[error("the alias was taken on line {0}")]
    DoubleAlias(u32),
    /// A container was destroyed; with the line that did so.
    #[error("the container was destroyed on line {0}")]
    AfterDestroy(u32),
    /// A time is below the one before; with that time, in nanoseconds.
    #[error("a time below {0}")]
    TimeBack(u64),
    /// A call is left where none is open.
    #[error("no open call")]
    EmptyPop,
    /// As many calls are open as may be.
    #[error("too many open calls")]
    Deep,
    /// As many as may be are there.
    #[error("too many {0:?}")]
    TooMany(What),
}

impl Why {
    /// The word that stands for the reason in a reply.
    pub fn word(&self) -> &'static str
        ensures { result.now ≡ word_of self.now }
    {
        match self {
            Why::LongLine => "LongLine",
            Why::NotText(_) => "NotText",
            Why::OpenQuote(_) => "OpenQuote",
            Why::Shape => "Shape",
            Why::Nested => "Nested",
            Why::UnknownName => "UnknownName",
            Why::DoubleNumber(_) => "DoubleNumber",
            Why::UnknownType => "UnknownType",
            Why::MissingField(_) => "MissingField",
            Why::Unended => "Unended",
            Why::NoNumber => "NoNumber",
            Why::UnknownNumber => "UnknownNumber",
            Why::TooFew => "TooFew",
            Why::DateShape => "DateShape",
            Why::DateNegative => "DateNegative",
            Why::DateBig => "DateBig",
            Why::UnknownEntity(_) => "UnknownEntity",
            Why::WrongKind(_) => "WrongKind",
            Why::DoubleAlias(_) => "DoubleAlias",
            Why::AfterDestroy(_) => "AfterDestroy",
            Why::TimeBack(_) => "TimeBack",
            Why::EmptyPop => "EmptyPop",
            Why::Deep => "Deep",
            Why::TooMany(_) => "TooMany",
        }
    }
}

impl From<LexFault> for Why {
    ghost from_gives = { λ fault why. why ≡ why_of_lexing fault };

    fn from(fault: LexFault) -> Why {
        match fault {
            LexFault::NotText(at) => Why::NotText(at),
            LexFault::OpenQuote(at) => Why::OpenQuote(at),
        }
    }
}

impl From<DefFault> for Why {
    ghost from_gives = { λ fault why. why ≡ why_of_definition fault };

    fn from(fault: DefFault) -> Why {
        match fault {
            DefFault::Shape => Why::Shape,
            DefFault::Nested => Why::Nested,
            DefFault::UnknownName => Why::UnknownName,
            DefFault::DoubleNumber(line) => Why::DoubleNumber(line),
            DefFault::UnknownType => Why::UnknownType,
            DefFault::MissingField(role) => Why::MissingField(role),
        }
    }
}

impl From<DateFault> for Why {
    ghost from_gives = { λ fault why. why ≡ why_of_date fault };

    fn from(fault: DateFault) -> Why {
        match fault {
            DateFault::Shape => Why::DateShape,
            DateFault::Negative => Why::DateNegative,
            DateFault::Big => Why::DateBig,
        }
    }
}

impl From<EventFault> for Why {
    ghost from_gives = { λ fault why. why ≡ why_of_event fault };

    fn from(fault: EventFault) -> Why {
        match fault {
            EventFault::NoNumber => Why::NoNumber,
            EventFault::UnknownNumber => Why::UnknownNumber,
            EventFault::TooFew => Why::TooFew,
            EventFault::Date(fault) => Why::from(fault),
        }
    }
}

impl From<ModelFault> for Why {
    ghost from_gives = { λ fault why. why ≡ why_of_entity fault };

    fn from(fault: ModelFault) -> Why {
        match fault {
            ModelFault::UnknownEntity(role) => Why::UnknownEntity(role),
            ModelFault::WrongKind(role) => Why::WrongKind(role),
            ModelFault::DoubleAlias(line) => Why::DoubleAlias(line),
            ModelFault::AfterDestroy(line) => Why::AfterDestroy(line),
            ModelFault::TimeBack(time) => Why::TimeBack(time),
            ModelFault::EmptyPop => Why::EmptyPop,
            ModelFault::Deep => Why::Deep,
            ModelFault::TooMany(what) => Why::TooMany(what),
        }
    }
}
