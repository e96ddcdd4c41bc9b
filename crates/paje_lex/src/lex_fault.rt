ghost use Rattle.std.specs.Prelude.{◌≡◌};

use crate::unread::Unread;
use thiserror::Error;

/// Why a line has no tokens.
#[derive(Clone, Copy, Debug, PartialEq, Eq, Error)]
pub enum LexFault {
    /// It isn't UTF-8; with the length of its longest front that is.
    #[error("no UTF-8 from byte {0} on")]
    NotText(u32),
    /// A quote isn't closed; with its place, in bytes counted from 0.
    #[error("the quote at byte {0} isn't closed")]
    OpenQuote(u32),
}

impl From<LexFault> for Unread<LexFault> {
    ghost use Rattle.paje_lex.specs.declared.unread.Unread.TheVariants.{Refused};

    ghost from_gives = { λ fault e. e ≡ Refused fault };

    fn from(fault: LexFault) -> Unread<LexFault> {
        Unread::Refused(fault)
    }
}
