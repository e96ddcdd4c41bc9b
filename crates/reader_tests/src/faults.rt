//! The texts and the words of faults.
use paje_defs::{DefFault, EventFault, Role};
use paje_lex::{DateFault, LexFault};
use paje_lines::{ModelFault, What};
use paje_reader::{ReadFault, ReadRefusal, Why};
use std::fmt::Display;
use std::test::Fail;

fn add_texts<T: Display>(out: &mut String, faults: &[T]) -> Result<(), Fail> {
    for fault in faults {
        writeln!(out, "{fault}")?;
    }
    Ok(())
}

const LEX_FAULTS: [LexFault; 2] = [LexFault::NotText(7), LexFault::OpenQuote(12)];

const DATE_FAULTS: [DateFault; 3] = [DateFault::Shape, DateFault::Negative, DateFault::Big];

const DEFINITION_FAULTS: [DefFault; 6] = [
    DefFault::Shape,
    DefFault::Nested,
    DefFault::UnknownName,
    DefFault::DoubleNumber(12),
    DefFault::UnknownType,
    DefFault::MissingField(Role::Holder),
];

const EVENT_FAULTS: [EventFault; 4] = [
    EventFault::NoNumber,
    EventFault::UnknownNumber,
    EventFault::TooFew,
    EventFault::Date(DateFault::Negative),
];

const MODEL_FAULTS: [ModelFault; 8] = [
    ModelFault::UnknownEntity(Role::Holder),
    ModelFault::WrongKind(Role::Kind),
    ModelFault::DoubleAlias(36),
    ModelFault::AfterDestroy(12),
    ModelFault::TimeBack(30),
    ModelFault::EmptyPop,
    ModelFault::Deep,
    ModelFault::TooMany(What::LinkEvents),
];

const READ_FAULTS: [ReadFault; 3] = [
    ReadFault::Refused(ReadRefusal {
        line: 37,
        why: Why::EmptyPop,
    }),
    ReadFault::Refused(ReadRefusal {
        line: 38,
        why: Why::DoubleAlias(36),
    }),
    ReadFault::Memory,
];

const TEXTS: &str = "\
no UTF-8 from byte 7 on
the quote at byte 12 isn't closed
not a date
a date below 0
a date above 2^62 nanoseconds
no definition line
a definition inside another
an unknown event name
the number was defined on line 12
an unknown type
no field of the role Holder
no event number
an unknown event number
too few fields
a date below 0
nothing of the role Holder is found
the wrong kind for the role Kind
the alias was taken on line 36
the container was destroyed on line 12
a time below 30
no open call
too many open calls
too many LinkEvents
line 37: no open call
line 38: the alias was taken on line 36
out of memory
";

#[test]
fn texts_of_faults(rt: HostRuntime) -> Result<(), Fail> {
    let mut out = String::new(rt.alloc());
    add_texts(&mut out, &LEX_FAULTS)?;
    add_texts(&mut out, &DATE_FAULTS)?;
    add_texts(&mut out, &DEFINITION_FAULTS)?;
    add_texts(&mut out, &EVENT_FAULTS)?;
    add_texts(&mut out, &MODEL_FAULTS)?;
    add_texts(&mut out, &READ_FAULTS)?;
    assert_eq!(rt; out.as_str(), TEXTS);
    Ok(())
}

const REASONS: [Why; 24] = [
    Why::LongLine,
    Why::NotText(3),
    Why::OpenQuote(3),
    Why::Shape,
    Why::Nested,
    Why::UnknownName,
    Why::DoubleNumber(3),
    Why::UnknownType,
    Why::MissingField(Role::Key),
    Why::Unended,
    Why::NoNumber,
    Why::UnknownNumber,
    Why::TooFew,
    Why::DateShape,
    Why::DateNegative,
    Why::DateBig,
    Why::UnknownEntity(Role::Key),
    Why::WrongKind(Role::Key),
    Why::DoubleAlias(3),
    Why::AfterDestroy(3),
    Why::TimeBack(3),
    Why::EmptyPop,
    Why::Deep,
    Why::TooMany(What::Tracks),
];

const WORDS: &str = "\
LongLine NotText OpenQuote Shape Nested UnknownName DoubleNumber UnknownType MissingField Unended NoNumber \
UnknownNumber TooFew DateShape DateNegative DateBig UnknownEntity WrongKind DoubleAlias AfterDestroy \
TimeBack EmptyPop Deep TooMany ";

fn add_words(out: &mut String, reasons: &[Why]) -> Result<(), Fail> {
    for why in reasons {
        write!(out, "{} ", why.word())?;
    }
    Ok(())
}

#[test]
fn words_of_reasons(rt: HostRuntime) -> Result<(), Fail> {
    let mut out = String::new(rt.alloc());
    add_words(&mut out, &REASONS)?;
    assert_eq!(rt; out.as_str(), WORDS);
    Ok(())
}
