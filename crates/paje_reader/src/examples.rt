//! What the definitions give on small texts. The statements are the clauses; the bodies are empty.
ghost use Rattle.std.specs.Prelude.{◌≡◌, [], ◌∷◌, ◌++◌, map, codes, replicate, None, true, false};
ghost use Rattle.trace_base.specs.Examples.{two_calls};
ghost use Rattle.trace_base.specs.declared.stream.Event.TheVariants.{Enter, Leave};
ghost use Rattle.paje_reader.specs.TextLines.{bytes_of_lines, lines_in, text_line};
ghost use Rattle.paje_reader.specs.TextLines.{defines, refused, skipped, tells};
ghost use Rattle.paje_reader.specs.TextSaid.{text_refusal, trace_in};
ghost use Rattle.paje_reader.specs.Examples.{read_alone, refused_on};
ghost use Rattle.paje_reader.specs.Examples.{double_alias_text, empty_pop_text, head_text, messages_text};
ghost use Rattle.paje_reader.specs.Examples.{set_states_text, two_calls_text, two_pushes_text};

use crate::why::Why;
use paje_defs::Role;

/// A text is cut at its newlines; what is behind the last is a line where it isn't empty.
pub fn lines_of_small_texts()
    ensures none { bytes_of_lines [] ≡ [] }
    ensures empty { bytes_of_lines (codes "\n") ≡ [] ∷ [] }
    ensures ended { bytes_of_lines (codes "a\n") ≡ codes "a" ∷ [] }
    ensures not_ended { bytes_of_lines (codes "a\nb") ≡ codes "a" ∷ codes "b" ∷ [] }
    ensures empty_last { bytes_of_lines (codes "a\n\n") ≡ codes "a" ∷ [] ∷ [] }
    ensures returns { bytes_of_lines (codes "a\r\n\r") ≡ codes "a\r" ∷ codes "\r" ∷ [] }
    ensures numbered { lines_in (codes "a\n\nb\n") ≡ map text_line ((1, codes "a") ∷ (2, [])
        ∷ (3, codes "b") ∷ []) }
{}

/// What a line is by itself. A carriage return at its end is dropped.
pub fn small_lines_alone()
    ensures skipped { map read_alone ([] ∷ codes " \t" ∷ codes "\r" ∷ codes "# \"" ∷ (9 ∷ 35 ∷ 255 ∷ []) ∷ [])
        ≡ skipped ∷ skipped ∷ skipped ∷ skipped ∷ skipped ∷ [] }
    ensures event { read_alone (codes "4 0.1\t\"my func\"\r") ≡ tells (codes "4" ∷ codes "0.1"
        ∷ codes "my func" ∷ []) }
    ensures one_return { read_alone (codes "4\r\r") ≡ tells (codes "4\r" ∷ []) }
    ensures definition { read_alone (codes " %EventDef PajePopState 5") ≡ defines (codes "EventDef"
        ∷ codes "PajePopState" ∷ codes "5" ∷ []) }
    ensures empty_definition { read_alone (codes "%\r") ≡ defines [] }
    ensures open_quote { read_alone (codes "a \"b") ≡ refused (Why.OpenQuote 2) }
    ensures not_text { read_alone (34 ∷ 255 ∷ []) ≡ refused (Why.NotText 1) }
{}

/// The first refusal of a text: its line, counted from 1 with those that are skipped, and why.
pub fn refusals_of_small_texts()
    ensures none { map text_refusal ([] ∷ codes "\n# \"\n"
        ∷ codes "%EventDef PajeNewEvent 4\n% Time date\n%EndEventDef" ∷ []) ≡ None ∷ None ∷ None ∷ [] }
    ensures alone { map text_refusal (codes "\n\"" ∷ codes "#\n%\nx" ∷ codes "x\n%" ∷ codes "\r\n\n4\r" ∷ [])
        ≡ refused_on 2 (Why.OpenQuote 0) ∷ refused_on 2 Why.Shape ∷ refused_on 1 Why.NoNumber
        ∷ refused_on 3 Why.UnknownNumber ∷ [] }
    ensures not_text { text_refusal (10 ∷ 97 ∷ 255 ∷ 10 ∷ []) ≡ refused_on 2 (Why.NotText 1) }
    ensures open_ { map text_refusal (codes "%EventDef PajeNewEvent 4" ∷ codes "%EventDef PajeNewEvent 4\n"
        ∷ codes "%EventDef PajeNewEvent 4\n\n" ∷ codes "%EventDef PajeNewEvent 4\nx\n" ∷ [])
        ≡ refused_on 2 Why.Unended ∷ refused_on 2 Why.Unended ∷ refused_on 3 Why.Unended
        ∷ refused_on 2 Why.Unended ∷ [] }
    ensures nested { text_refusal (codes "%EventDef PajeNewEvent 4\n%EventDef PajeNewEvent 5")
        ≡ refused_on 2 Why.Nested }
{}

/// A whole text: main calls f twice, and its container is destroyed.
pub fn two_calls_of_a_text()
    ensures refused { text_refusal two_calls_text ≡ None }
    ensures said { trace_in two_calls_text ≡ record {
      names = record {
        end = 500000000;
        containers = record { name = codes "0"; start = 0; end = 500000000 }
            ∷ record { name = codes "rank 0"; start = 0; end = 500000000 } ∷ [];
        kinds = codes "State" ∷ [];
        link_kinds = [];
        tracks = record { container = 1; kind = 0 } ∷ [];
        functions = codes "main" ∷ codes "f" ∷ [];
      };
      tracks = two_calls ∷ [];
      links = [];
    } }
{}

/// Texts whose events are refused.
pub fn refusals_of_event_texts()
    ensures empty_pop { text_refusal empty_pop_text ≡ refused_on 37 Why.EmptyPop }
    ensures double_alias { text_refusal double_alias_text ≡ refused_on 38 (Why.DoubleAlias 36) }
    ensures reasons { map (λ line. text_refusal (head_text ++ line)) (codes "4 x Q p0" ∷ codes "4 x Q p0 f"
        ∷ codes "4 -1 Q p0 f" ∷ codes "4 4611686018.427387905 Q p0 f" ∷ codes "4 0 Q p0 f"
        ∷ codes "4 0 P p0 f"
        ∷ codes "%EventDef PajeStrange 4\n%" ∷ codes "%EventDef PajePushState 4\n%" ∷ [])
        ≡ refused_on 36 Why.TooFew ∷ refused_on 36 Why.DateShape ∷ refused_on 36 Why.DateNegative
        ∷ refused_on 36 Why.DateBig ∷ refused_on 36 (Why.UnknownEntity Role.Kind)
        ∷ refused_on 36 (Why.WrongKind Role.Kind) ∷ refused_on 36 Why.UnknownName
        ∷ refused_on 36 (Why.DoubleNumber 23) ∷ [] }
    ensures inside { map (λ line. text_refusal (codes "%EventDef PajeNewEvent 4\n" ++ line))
        (codes "% Time strange" ∷ codes "%EndEventDef" ∷ codes "4 0" ∷ codes "% Time" ∷ [])
        ≡ refused_on 2 Why.UnknownType ∷ refused_on 2 (Why.MissingField Role.Time) ∷ refused_on 2 Why.Unended
        ∷ refused_on 2 Why.Shape ∷ [] }
{}

/// A text with tabs, skipped lines and carriage returns.
pub fn states_of_spaced_texts()
    ensures refused { map text_refusal (set_states_text ∷ two_pushes_text ∷ []) ≡ None ∷ None ∷ [] }
    ensures set { (trace_in set_states_text).tracks ≡ record {
      start = 0;
      end = 1000000000;
      events = Enter 1 0 ∷ Leave 200000000 ∷ Enter 2 200000000 ∷ Leave 500000000 ∷ [];
    } ∷ [] }
    ensures set_names { (trace_in set_states_text).names.functions ≡ codes "main" ∷ codes "f" ∷ [] }
    ensures pushed { (trace_in two_pushes_text).tracks ≡ record {
      start = 0;
      end = 1000000000;
      events = Enter 1 0 ∷ Enter 2 100000000 ∷ Leave 500000000 ∷ Leave 500000000 ∷ [];
    } ∷ [] }
{}

/// The length of a line is looked at with its carriage return, and of a skipped line too.
pub fn long_lines_alone()
    ensures longest { read_alone (replicate 65536 35) ≡ skipped }
    ensures longer { read_alone (replicate 65537 35) ≡ refused Why.LongLine }
    ensures with_return { read_alone (replicate 65536 35 ++ 13 ∷ []) ≡ refused Why.LongLine }
{}

/// A line has the first of its reasons.
pub fn first_reasons_of_lines()
    ensures alone { map text_refusal (codes "% \"" ∷ codes "4 \"" ∷ (34 ∷ 255 ∷ []) ∷ []) ≡
        refused_on 1 (Why.OpenQuote 2) ∷ refused_on 1 (Why.OpenQuote 2) ∷ refused_on 1 (Why.NotText 1) ∷ [] }
    ensures inside { map (λ line. text_refusal (codes "%EventDef PajeNewEvent 4\n" ++ line)) (codes "x"
        ∷ codes "4 \"" ∷ codes "%EventDef PajeStrange x" ∷ codes "%EventDef PajeStrange 4" ∷ [])
        ≡ refused_on 2 Why.Unended ∷ refused_on 2 (Why.OpenQuote 2) ∷ refused_on 2 Why.Shape
        ∷ refused_on 2 Why.Nested ∷ [] }
    ensures events { map (λ line. text_refusal (head_text ++ line)) (codes "2 x / Q 0" ∷ codes "2 x / Q p9 a"
        ∷ codes "2 0 / Q p9 a" ∷ codes "2 0 / P p9 a" ∷ codes "2 0 / P 0 a" ∷ [])
        ≡ refused_on 36 Why.TooFew ∷ refused_on 36 Why.DateShape ∷ refused_on 36 (Why.UnknownEntity Role.Kind)
        ∷ refused_on 36 (Why.UnknownEntity Role.Holder) ∷ refused_on 36 (Why.DoubleAlias 0) ∷ [] }
{}

/// A text with the ends of messages.
pub fn messages_of_a_text()
    ensures refused { text_refusal messages_text ≡ None }
    ensures said { trace_in messages_text ≡ record {
      names = record {
        end = 3000000000;
        containers = record { name = codes "0"; start = 0; end = 3000000000 }
            ∷ record { name = codes "a"; start = 0; end = 3000000000 }
            ∷ record { name = codes "b"; start = 0; end = 3000000000 } ∷ [];
        kinds = codes "State" ∷ [];
        link_kinds = codes "Msg" ∷ [];
        tracks = [];
        functions = [];
      };
      tracks = [];
      links =
          record { starts = true; kind = 0; key = codes "k1"; container = 1; time = 1000000000; size = 100 }
          ∷ record { starts = true; kind = 0; key = codes "k1"; container = 1; time = 2000000000; size = 50 }
          ∷ record { starts = false; kind = 0; key = codes "k1"; container = 2; time = 1500000000; size = 0 }
          ∷ record { starts = true; kind = 0; key = codes "k2"; container = 2; time = 3000000000; size = 7 }
          ∷ record { starts = false; kind = 0; key = codes "k2"; container = 1; time = 2500000000; size = 0 }
          ∷ [];
    } }
{}
