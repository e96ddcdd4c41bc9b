ghost use Rattle.std.specs.Prelude.{◌≡◌};
ghost use Rattle.paje_reader.specs.declared.line_fault.LineFault.TheVariants as faults;
ghost use Rattle.paje_reader.specs.LineFaults.{fault_at, fault_of};
ghost use Rattle.paje_reader.specs.Why.{why_of_definition, why_of_entity, why_of_event, why_of_lexing};

use crate::read_fault::{ReadFault, ReadRefusal};
use crate::why::Why;
use paje_defs::{DefFault, EventFault};
use paje_lex::{LexFault, Unread};
use paje_lines::ModelFault;

/// Why a line isn't read.
#[derive(Clone, Copy, Debug, PartialEq, Eq)]
pub enum LineFault {
    /// It is refused.
    Refused(Why),
    /// No memory was found.
    Memory,
}

impl LineFault {
    /// The fault of a text whose line of this number isn't read.
    pub fn at(self, line: u32) -> ReadFault
        ensures { result ≡ fault_at line self }
    {
        match self {
            LineFault::Refused(why) => ReadFault::Refused(ReadRefusal { line, why }),
            LineFault::Memory => ReadFault::Memory,
        }
    }
}

impl From<Unread<LexFault>> for LineFault {
    ghost from_gives = { λ unread e. e ≡ fault_of why_of_lexing unread };

    fn from(unread: Unread<LexFault>) -> LineFault {
        match unread {
            Unread::Refused(fault) => LineFault::Refused(Why::from(fault)),
            Unread::Memory => LineFault::Memory,
        }
    }
}

impl From<Unread<DefFault>> for LineFault {
    ghost from_gives = { λ unread e. e ≡ fault_of why_of_definition unread };

    fn from(unread: Unread<DefFault>) -> LineFault {
        match unread {
            Unread::Refused(fault) => LineFault::Refused(Why::from(fault)),
            Unread::Memory => LineFault::Memory,
        }
    }
}

impl From<Unread<ModelFault>> for LineFault {
    ghost from_gives = { λ unread e. e ≡ fault_of why_of_entity unread };

    fn from(unread: Unread<ModelFault>) -> LineFault {
        match unread {
            Unread::Refused(fault) => LineFault::Refused(Why::from(fault)),
            Unread::Memory => LineFault::Memory,
        }
    }
}

impl From<EventFault> for LineFault {
    ghost from_gives = { λ fault e. e ≡ faults.Refused (why_of_event fault) };

    fn from(fault: EventFault) -> LineFault {
        LineFault::Refused(Why::from(fault))
    }
}
