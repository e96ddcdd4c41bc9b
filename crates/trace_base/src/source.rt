ghost use Rattle.std.specs.Prelude.{◌≡◌, ◌≤◌, ◌<◌, ℕ, List, Option, length};
ghost use Rattle.trace_base.specs.Outside.{Rose};
ghost use Rattle.trace_base.specs.Source.{Reads};
ghost use Rattle.trace_base.specs.declared.source.ReadAnswer.TheVariants.{Failed};

use crate::faults::Faults;

/// What a source answers to a read.
#[derive(Clone, Copy, Debug, PartialEq, Eq)]
pub enum ReadAnswer {
    /// This many bytes were read, at least 1.
    Got(usize),
    /// Nothing is left.
    End,
    /// The read failed. What is left is as before.
    Failed,
}

/// A source of bytes, as standard input.
pub trait Source: Faults {
    /// The bytes that are left, where the object tells them. Bytes that were read count as given.
    ghost left: { Self → Option (List ℕ) };

    /// Reads the next bytes into the front of `into`. It may wait for input.
    fn read(&mut self, into: &mut [u8]) -> ReadAnswer
        requires { 0 < length into.old }
        ensures read { Reads (left self.old) (left self.new) into.new result }
        ensures later { Self.faults self.old ≤ Self.faults self.new }
        ensures cause { result ≡ Failed → Rose (Self.faults self.old) (Self.faults self.new) };
}
