//! The law of what a hall keeps of a trace. The statement is the clause; the body is empty.
ghost use Rattle.std.specs.Prelude.{◌≡◌, List, None};
ghost use Rattle.trace_base.specs.Info.{IsLegalInfo};
ghost use Rattle.paje_lines.specs.EventLine.{EventLine, AreInTime};
ghost use Rattle.paje_lines.specs.Reasons.{event_refusal};
ghost use Rattle.paje_lines.specs.Text.{info_said};

/// Where no line is refused and none is past the greatest time, the names that the lines say, with the
/// messages of their link events, are a legal trace.
pub fn text_has_legal_info()
    ensures { (lines : List EventLine) → AreInTime lines → event_refusal lines ≡ None
        → IsLegalInfo (info_said lines) }
{}
