ghost use Rattle.std.specs.Prelude.{◌≡◌};
ghost use Rattle.paje_lex.specs.LineReading.{starting};

use crate::line_kinds::is_blank;

/// What stands open between two bytes of a line, and where it began.
#[derive(Clone, Copy)]
pub enum State {
    /// No token.
    Between,
    /// A token without quotes, from its first byte on.
    Plain(u32),
    /// A token in quotes, from its quote on.
    Quoted(u32),
}

impl State {
    /// What a byte begins where no token is open.
    pub fn starting(byte: u8, at: u32) -> State
        ensures { result ≡ starting byte at }
    {
        if is_blank(byte) {
            State::Between
        } else if byte == b'"' {
            State::Quoted(at)
        } else {
            State::Plain(at)
        }
    }
}
