ghost use Rattle.std.specs.Prelude.{◌≡◌, ◌≤◌, ℕ, List, ◌∷◌, ◌++◌};
ghost use Rattle.trace_base.specs.Outside.{Rose};
ghost use Rattle.request_reader.specs.Incoming.{left_to_read};
ghost use Rattle.request_reader.specs.LineReading.{ReadsLine, EmptiesAtEnd, ReadsWaiting};
ghost use Rattle.request_reader.specs.Skipping.{HasNoNewline};
ghost use Rattle.request_reader.specs.declared.read_line.LineEnd.TheVariants.{Failed};

use crate::line::Line;
use crate::pending::{NextByte, Pending};
use crate::skip::{Skipped, skip_line};
use std::sync::Wait;
use trace_base::Source;

/// How the reading of a line ended.
#[derive(Clone, Copy, Debug, PartialEq, Eq)]
pub enum LineEnd {
    /// The line is read, with its newline.
    Whole,
    /// The line is read, and is longer than a request line may be. Its bytes are dropped.
    Long,
    /// The source ended before the line began.
    Nothing,
    /// The source ended inside the line.
    Cut,
    /// The source failed.
    Failed,
}

/// Reads a line with its newline. It may wait for input. Where all of it waits, the source isn't asked.
pub fn read_line<R: Wait, I: Source>(
    rt: &R,
    input: &mut I,
    pending: &mut Pending,
    line: &mut Line,
) -> LineEnd
    ensures reads { ReadsLine
        (left_to_read pending.old (I.left input.old)) (left_to_read pending.new (I.left input.new)) line.new
        result }
    ensures empties { EmptiesAtEnd result pending.new }
    ensures unasked { (waited rest : List ℕ) → HasNoNewline waited → pending.old ≡ waited ++ 10 ∷ rest
        → ReadsWaiting waited line.new result × (pending.new ≡ rest) × (input.new ≡ input.old) }
    ensures later { I.faults input.old ≤ I.faults input.new }
    ensures cause { result ≡ Failed → Rose (I.faults input.old) (I.faults input.new) }
{
    line.clear();
    'bytes: for _ in rt.forever() {
        match pending.next_byte(input) {
            NextByte::Byte(b'\n') => return LineEnd::Whole,
            NextByte::Byte(byte) => {
                if !line.has_room() {
                    return match skip_line(rt, input, pending) {
                        Skipped::Whole => LineEnd::Long,
                        Skipped::Cut => LineEnd::Cut,
                        Skipped::Failed => LineEnd::Failed,
                    };
                }
                line.push(byte);
            }
            NextByte::End if line.is_empty() => return LineEnd::Nothing,
            NextByte::End => return LineEnd::Cut,
            NextByte::Failed => return LineEnd::Failed,
        }
    }
    unreachable!()
}
