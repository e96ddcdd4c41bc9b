ghost use Rattle.std.specs.Prelude.{◌≡◌};

use trace_base::Memory;

/// Why a call gave nothing: it refused, for a reason in what it was given, or no memory was found, which is
/// no reason.
#[derive(Clone, Copy, Debug, PartialEq, Eq)]
pub enum Unread<F> {
    /// It refused, for this reason.
    Refused(F),
    /// No memory was found.
    Memory,
}

impl<F> Unread<F> {
    ghost use Rattle.paje_lex.specs.Unread.{reason_told};

    /// The reason; none where no memory was found.
    pub fn reason(self) -> Option<F>
        ensures { result ≡ reason_told self }
    {
        match self {
            Unread::Refused(reason) => Some(reason),
            Unread::Memory => None,
        }
    }
}

impl<F> From<Memory> for Unread<F> {
    ghost use Rattle.paje_lex.specs.declared.unread.Unread.TheVariants.{Memory};

    ghost from_gives = { λ _ e. e ≡ Memory };

    fn from(_: Memory) -> Unread<F> {
        Unread::Memory
    }
}
