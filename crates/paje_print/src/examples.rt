//! What the definitions give on small traces. The statements are the clauses; the bodies are empty.
ghost use Rattle.std.specs.Prelude.{◌≡◌, ◌^◌, ◌++◌, ◌∷◌, [], codes, drop, map, take, true, false};
ghost use Rattle.trace_base.specs.declared.stream.Event.TheVariants.{Enter, Leave};
ghost use Rattle.paje_print.specs.CanonicalText.{canonical_text, event_lines_written};
ghost use Rattle.paje_print.specs.Examples.{small_trace};
ghost use Rattle.paje_print.specs.Generated.{generated_trace, link_end};
ghost use Rattle.paje_print.specs.WrittenEvents.{definitions_written};
ghost use Rattle.paje_print.specs.WrittenNumbers.{container_alias, link_type_alias, seconds_text};
ghost use Rattle.paje_print.specs.WrittenNumbers.{state_type_alias, zero_padded};
ghost use Rattle.paje_print.specs.WrittenWords.{line_text, lines_text};

/// Times are written in seconds with nine digits behind the point.
pub fn written_times()
    ensures none { seconds_text 0 ≡ codes "0.000000000" }
    ensures least { seconds_text 1 ≡ codes "0.000000001" }
    ensures second { seconds_text (10 ^ 9) ≡ codes "1.000000000" }
    ensures greatest { seconds_text (2 ^ 62) ≡ codes "4611686018.427387904" }
    ensures padded { zero_padded 3 42 ≡ codes "042" }
    ensures zeros { zero_padded 9 0 ≡ codes "000000000" }
    ensures longer { zero_padded 2 123 ≡ codes "123" }
{}

/// The aliases of the root, of other containers, and of types.
pub fn written_aliases()
    ensures root { container_alias 0 ≡ codes "0" }
    ensures container { container_alias 12 ≡ codes "c12" }
    ensures state_type { state_type_alias 0 ≡ codes "s0" }
    ensures link_type { link_type_alias 3 ≡ codes "l3" }
{}

/// The lines that define the first event and the one that enters a call.
pub fn written_definitions()
    ensures first { take 5 (map line_text definitions_written) ≡ codes "%EventDef PajeDefineContainerType 0"
        ∷ codes "% Alias string" ∷ codes "% Type string" ∷ codes "% Name string" ∷ codes "%EndEventDef" ∷ [] }
    ensures push { take 6 (drop 29 (map line_text definitions_written)) ≡ codes "%EventDef PajePushState 5"
        ∷ codes "% Time date" ∷ codes "% Type string" ∷ codes "% Container string" ∷ codes "% Value string"
        ∷ codes "%EndEventDef" ∷ [] }
{}

/// A process calls a function once, and sends the root a message of 100 bytes. Both ends of the message stand
/// behind the calls.
pub fn written_trace()
    ensures lines { map line_text (event_lines_written small_trace) ≡ codes "0 P 0 \"P\""
        ∷ codes "1 s0 P \"State\""
        ∷ codes "2 l0 P P P \"Link\""
        ∷ codes "3 0.000000002 c1 P 0 \"x\""
        ∷ codes "7 0.000000002 s0 c1"
        ∷ codes "5 0.000000003 s0 c1 \"main\""
        ∷ codes "6 0.000000007 s0 c1"
        ∷ codes "8 0.000000003 l0 0 m c1 \"k\" 100"
        ∷ codes "9 0.000000007 l0 0 m 0 \"k\""
        ∷ codes "4 0.000000010 P c1" ∷ [] }
    ensures text { canonical_text small_trace
        ≡ lines_text definitions_written ++ lines_text (event_lines_written small_trace) }
{}

/// Nothing is called in a generated trace of no state events, and it ends after a microsecond.
pub fn generated_from_none()
    ensures functions { (generated_trace 0 0).names.functions ≡ [] }
    ensures end { (generated_trace 0 0).names.end ≡ 1000 }
    ensures links { (generated_trace 0 0).links ≡ [] }
{}

/// One bundle of seed 0: its random value is 1442695040888963407, which gives kernel 0.
pub fn generated_from_four()
    ensures functions { (generated_trace 0 4).names.functions ≡ codes "work" ∷ codes "kernel 0" ∷ [] }
    ensures events { map (λ s. s.events) (take 2 (generated_trace 0 4).tracks)
        ≡ (Enter 1 1000 ∷ Enter 2 1100 ∷ Leave 2100 ∷ Leave 2200 ∷ []) ∷ [] ∷ [] }
    ensures end { (generated_trace 0 4).names.end ≡ 3200 }
    ensures links { (generated_trace 0 4).links ≡ [] }
{}

/// Four bundles of seed 0. Its random values give the kernels 0, 0, 4 and 3. The bundles on the tracks 1 and
/// 3 send messages.
pub fn generated_from_sixteen()
    ensures functions { (generated_trace 0 16).names.functions
        ≡ codes "work" ∷ codes "kernel 0" ∷ codes "kernel 4" ∷ codes "kernel 3" ∷ [] }
    ensures events { map (λ s. s.events) (take 1 (drop 3 (generated_trace 0 16).tracks))
        ≡ (Enter 1 1000 ∷ Enter 4 1100 ∷ Leave 5100 ∷ Leave 5200 ∷ []) ∷ [] }
    ensures end { (generated_trace 0 16).names.end ≡ 7200 }
    ensures links { (generated_trace 0 16).links ≡ record {
      starts = true;
      kind = 0;
      key = codes "1";
      container = 1;
      time = 1000;
      size = 8;
    } ∷ record {
      starts = false;
      kind = 0;
      key = codes "1";
      container = 2;
      time = 2200;
      size = 0;
    } ∷ record {
      starts = true;
      kind = 0;
      key = codes "3";
      container = 2;
      time = 1000;
      size = 32;
    } ∷ record {
      starts = false;
      kind = 0;
      key = codes "3";
      container = 3;
      time = 5200;
      size = 0;
    } ∷ [] }
{}
