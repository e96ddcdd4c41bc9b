ghost use Rattle.std.specs.Prelude.{◌≡◌, ◌≤◌, ◌<◌, ℕ, List, ◌∷◌, ◌++◌, length};
ghost use Rattle.trace_base.specs.Outside.{Rose};
ghost use Rattle.request_reader.specs.Incoming.{left_to_read};
ghost use Rattle.request_reader.specs.Skipping.{Skips, EmptiesUnlessWhole, HasNoNewline, IsWholeLine};
ghost use Rattle.request_reader.specs.declared.skip.Skipped.TheVariants.{Whole, Failed};

use crate::pending::{NextByte, Pending};
use std::sync::Wait;
use trace_base::Source;

/// How the skipping of some bytes ended.
#[derive(Clone, Copy, Debug, PartialEq, Eq)]
pub enum Skipped {
    /// All were skipped.
    Whole,
    /// The source ended before.
    Cut,
    /// The source failed before.
    Failed,
}

/// Reads the rest of a line, with its newline. It may wait for input. Where all of it waits, the source isn't
/// asked.
pub fn skip_line<R: Wait, I: Source>(rt: &R, input: &mut I, pending: &mut Pending) -> Skipped
    ensures skips { Skips IsWholeLine HasNoNewline
        (left_to_read pending.old (I.left input.old)) (left_to_read pending.new (I.left input.new)) result }
    ensures empties { EmptiesUnlessWhole result pending.new }
    ensures unasked { (line rest : List ℕ) → HasNoNewline line → pending.old ≡ line ++ 10 ∷ rest
        → (result ≡ Whole) × (pending.new ≡ rest) × (input.new ≡ input.old) }
    ensures later { I.faults input.old ≤ I.faults input.new }
    ensures cause { result ≡ Failed → Rose (I.faults input.old) (I.faults input.new) }
{
    'bytes: for _ in rt.forever() {
        match pending.next_byte(input) {
            NextByte::Byte(b'\n') => return Skipped::Whole,
            NextByte::Byte(_) => {}
            NextByte::End => return Skipped::Cut,
            NextByte::Failed => return Skipped::Failed,
        }
    }
    unreachable!()
}

/// Reads this many bytes. Where they wait, the source isn't asked.
pub fn skip_bytes<I: Source>(input: &mut I, pending: &mut Pending, count: u64) -> Skipped
    ensures skips { Skips (λ taken. length taken ≡ count) (λ taken. length taken < count)
        (left_to_read pending.old (I.left input.old)) (left_to_read pending.new (I.left input.new)) result }
    ensures empties { EmptiesUnlessWhole result pending.new }
    ensures unasked { count ≤ length pending.old → (result ≡ Whole) × (input.new ≡ input.old) }
    ensures later { I.faults input.old ≤ I.faults input.new }
    ensures cause { result ≡ Failed → Rose (I.faults input.old) (I.faults input.new) }
{
    'bytes: for _ in 0..count {
        match pending.next_byte(input) {
            NextByte::Byte(_) => {}
            NextByte::End => return Skipped::Cut,
            NextByte::Failed => return Skipped::Failed,
        }
    }
    Skipped::Whole
}
