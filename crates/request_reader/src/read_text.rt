ghost use Rattle.std.specs.Prelude.{◌≡◌, ◌≤◌, length};
ghost use Rattle.trace_base.specs.Outside.{Rose};
ghost use Rattle.request_reader.specs.Incoming.{left_to_read};
ghost use Rattle.request_reader.specs.TextReading.{ReadsText, EmptiesInText};
ghost use Rattle.request_reader.specs.declared.read_text.TextEnd.TheVariants.{Failed};

use crate::pending::{NextByte, Pending};
use crate::skip::{Skipped, skip_bytes};
use trace_base::{MAX_TEXT, Source};

/// How the reading of the bytes of a PUT ended.
#[derive(Clone, Copy, Debug, PartialEq, Eq)]
pub enum TextEnd {
    /// They are read.
    Whole,
    /// No memory was found for them. They are read and dropped.
    Dropped,
    /// They are more than `MAX_TEXT`. They are read and dropped.
    Large,
    /// The source ended before.
    Cut,
    /// The source failed before.
    Failed,
}

/// Reads this many bytes, in place of what the text holds. Of more than `MAX_TEXT` it keeps none. Where they
/// wait, the source isn't asked.
pub fn read_text<I: Source>(
    input: &mut I,
    pending: &mut Pending,
    text: &mut Vec<u8>,
    len: u64,
) -> TextEnd
    ensures reads { ReadsText len
        (left_to_read pending.old (I.left input.old)) (left_to_read pending.new (I.left input.new))
        text.new.items result }
    ensures empties { EmptiesInText result pending.new }
    ensures unasked { len ≤ length pending.old → input.new ≡ input.old }
    ensures later { I.faults input.old ≤ I.faults input.new }
    ensures cause { result ≡ Failed → Rose (I.faults input.old) (I.faults input.new) }
{
    text.clear();
    if len > MAX_TEXT {
        return match skip_bytes(input, pending, len) {
            Skipped::Whole => TextEnd::Large,
            Skipped::Cut => TextEnd::Cut,
            Skipped::Failed => TextEnd::Failed,
        };
    }
    let count = len as usize;
    if text.try_reserve(count).is_err() {
        return match skip_bytes(input, pending, len) {
            Skipped::Whole => TextEnd::Dropped,
            Skipped::Cut => TextEnd::Cut,
            Skipped::Failed => TextEnd::Failed,
        };
    }
    while text.len() < count {
        match pending.next_byte(input) {
            NextByte::Byte(byte) => match text.push(byte) {
                Ok(()) => pending.move_into(text, count - text.len()),
                Err(_) => unreachable!(),
            },
            NextByte::End => return TextEnd::Cut,
            NextByte::Failed => return TextEnd::Failed,
        }
    }
    TextEnd::Whole
}
