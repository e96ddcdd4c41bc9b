//! What the canonical text of a trace says. The statements are the clauses; the bodies are empty.
ghost use Rattle.std.specs.Prelude.{◌≡◌, None};
ghost use Rattle.trace_base.specs.declared.text.TraceText.{TraceText};
ghost use Rattle.paje_lines.specs.Reasons.{event_refusal};
ghost use Rattle.paje_lines.specs.Text.{text_said};
ghost use Rattle.paje_print.specs.Canonical.{IsCanonical};
ghost use Rattle.paje_print.specs.CanonicalText.{canonical_text};
ghost use Rattle.paje_reader.specs.LineReasons.{event_lines};
ghost use Rattle.paje_reader.specs.TextLines.{lines_in};
ghost use Rattle.paje_reader.specs.TextSaid.{Says, text_refusal};
ghost use Rattle.paje_read_back.specs.ToldLines.{told_lines};

/// The event lines of a canonical text tell its types, containers, tracks, link events and ends. Where none
/// of them is refused, no line of the text is.
pub fn printed_lines_tell_the_trace()
    ensures lines { (t : TraceText) → IsCanonical t
        → event_lines (lines_in (canonical_text t)) ≡ told_lines t }
    ensures unrefused { (t : TraceText) → IsCanonical t → event_refusal (told_lines t) ≡ None
        → text_refusal (canonical_text t) ≡ None }
{}

/// What the event lines of a canonical text tell isn't refused, and is the trace.
pub fn told_lines_say_the_trace()
    ensures unrefused { (t : TraceText) → IsCanonical t → event_refusal (told_lines t) ≡ None }
    ensures said { (t : TraceText) → IsCanonical t → text_said (told_lines t) ≡ t }
{}

/// A printed trace is read back: the canonical text of a trace isn't refused, and says that trace.
pub fn a_printed_trace_is_read_back()
    ensures { (t : TraceText) → IsCanonical t → Says (canonical_text t) t }
{
    printed_lines_tell_the_trace();
    told_lines_say_the_trace();
}
