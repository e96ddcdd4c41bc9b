ghost use Rattle.std.specs.Prelude.{◌≡◌, ◌≤◌, ◌⊎◌, ℕ, [], length, slice_get, IfOk, MatchResult, Some, None};
ghost use Rattle.trace_base.specs.Info.{Fits, IsLegalInfo};
ghost use Rattle.trace_base.specs.declared.stream.TrackStream.{TrackStream};
ghost use Rattle.paje_lines.specs.Text.{info_of_text};
ghost use Rattle.paje_reader.specs.declared.read_fault.ReadRefusal.{ReadRefusal};
ghost use Rattle.paje_reader.specs.Reader.{HasRead};
ghost use Rattle.paje_reader.specs.TextSaid.{Reads, text_refusal};
ghost use Rattle.paje_reader.specs.TextLines.{lines_in};

use crate::cutting::first_line;
use crate::read_fault::{ReadFault, ReadRefusal};
use crate::reader::Reader;
use crate::why::Why;
use std::alloc::Global;
use trace_base::{MAX_TEXT, TraceText};

/// Reads the lines of a text one after another.
fn read_lines(reader: &mut Reader, text: &[u8]) -> Result<(), ReadFault>
    requires none { HasRead [] reader.old }
    requires limit { length text.now ≤ MAX_TEXT }
    ensures { MatchResult result
        (λ _. HasRead (lines_in text.now) reader.new × (text_refusal text.now ≡ None))
        (λ fault. (fault ≡ ReadFault.Memory) ⊎ ((refusal : ReadRefusal) × (fault ≡ ReadFault.Refused refusal)
        × (text_refusal text.now ≡ Some refusal))) }
{
    let mut rest = text;
    let mut number = 0;
    while !rest.is_empty() {
        let (line, behind) = first_line(rest);
        number += 1;
        if let Err(fault) = reader.line(number, line) {
            return Err(fault.at(number));
        }
        rest = behind;
    }
    if reader.definitions.is_inside() {
        return Err(ReadFault::Refused(ReadRefusal {
            line: number + 1,
            why: Why::Unended,
        }));
    }
    Ok(())
}

/// Reads a text in the Pajé format, of at most `MAX_TEXT` bytes. What it answers is a legal trace.
///
/// # Errors
///
/// `Refused` with the first line that is refused and why; `Memory`.
pub fn read_trace(alloc: Global, text: &[u8]) -> Result<TraceText, ReadFault>
    requires { length text.now ≤ MAX_TEXT }
    ensures exact { Reads text.now result }
    ensures legal { IfOk result (λ t. IsLegalInfo (info_of_text t)) }
    ensures lengths { IfOk result (λ t. length t.tracks ≡ length t.names.tracks) }
    // Each stream may be published as the track of its place.
    ensures fits { IfOk result (λ t. (i : ℕ) (s : TrackStream) → slice_get t.tracks i ≡ Some s
        → Fits s (info_of_text t) i) }
{
    let Ok(mut reader) = Reader::new(alloc) else {
        return Err(ReadFault::Memory);
    };
    if let Err(fault) = read_lines(&mut reader, text) {
        return Err(fault);
    }
    match reader.entities.finish() {
        Ok(trace) => Ok(trace),
        Err(_) => Err(ReadFault::Memory),
    }
}
