ghost use Rattle.std.specs.Prelude.{◌≡◌, ◌≤◌, ◌<◌, ℕ, List, Option, length};
ghost use Rattle.trace_base.specs.Outside.{Rose};
ghost use Rattle.trace_base.specs.Sink.{Writes};
ghost use Rattle.trace_base.specs.declared.sink.WriteAnswer.TheVariants.{Failed};

use crate::faults::Faults;

/// What a sink answers to a write.
#[derive(Clone, Copy, Debug, PartialEq, Eq)]
pub enum WriteAnswer {
    /// The first bytes were taken, this many and at least 1.
    Took(usize),
    /// The write failed. Nothing was taken.
    Failed,
}

/// A sink of bytes, as standard output.
pub trait Sink: Faults {
    /// The bytes that it holds, where the object tells them.
    ghost held: { Self → Option (List ℕ) };

    /// Takes some of the first bytes.
    fn write(&mut self, bytes: &[u8]) -> WriteAnswer
        requires { 0 < length bytes.now }
        ensures written { Writes (held self.old) (held self.new) bytes.now result }
        ensures later { Self.faults self.old ≤ Self.faults self.new }
        ensures cause { result ≡ Failed → Rose (Self.faults self.old) (Self.faults self.new) };
}
