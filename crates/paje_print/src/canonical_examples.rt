//! Traces that have a canonical text, and others that break one rule each. The statements are the clauses;
//! the bodies are empty.
ghost use Rattle.std.specs.Prelude.{◌+◌, ◌-◌, ◌/◌, ◌^◌, ◌∷◌, [], codes, replicate};
ghost use Rattle.trace_base.specs.LegalExamples.{lasting, one_call, quiet_until, track_of_kind};
ghost use Rattle.paje_print.specs.Canonical.{IsCanonical, root_until};
ghost use Rattle.paje_print.specs.Examples.{beside_container, beside_containers, beside_track, calling};
ghost use Rattle.paje_print.specs.Examples.{beside_lasting, calling_each, calling_often, calling_two};
ghost use Rattle.paje_print.specs.Examples.{ending_at, linking, linking_often, long_text, long_texts, nesting};
ghost use Rattle.paje_print.specs.Examples.{nothing_traced, of_link_type, of_state_type, of_state_types};
ghost use Rattle.paje_print.specs.Examples.{of_two_link_types};
ghost use Rattle.paje_print.specs.Examples.{quiet_in_each, quiet_process, received, rooted_in, running, sent};
ghost use Rattle.paje_print.specs.Examples.{small_trace};

use trace_base::{
    MAX_CONTAINERS, MAX_FUNCTIONS, MAX_LINK_EVENTS, MAX_OPEN_CALLS, MAX_STATE_EVENTS, MAX_TIME,
    MAX_TRACE_LINE, MAX_TRACKS, MAX_TYPES,
};

/// They have a canonical text, some of them at a limit.
pub fn canonical_traces()
    ensures small { IsCanonical small_trace }
    ensures beside { IsCanonical (beside_track (track_of_kind 1 1) (quiet_process ∷ [])) }
    ensures two_functions { IsCanonical (calling_two (codes "main" ∷ codes "f" ∷ []) 1 2) }
    ensures two_link_types { IsCanonical of_two_link_types }
    ensures great_size { IsCanonical (linking (sent 1 (2 ^ 63 - 1))) }
    ensures last_time { IsCanonical (beside_lasting MAX_TIME) }
    // There are a type of links and one of containers beside these.
    ensures most_types { IsCanonical (of_state_types (replicate (MAX_TYPES - 2) (codes "State"))) }
    // The line has 13 bytes beside these.
    ensures longest_line { IsCanonical (of_link_type (long_text (MAX_TRACE_LINE - 13))) }
    ensures deepest { IsCanonical (nesting MAX_OPEN_CALLS) }
{}

/// A text that can't stand in quotes on a line.
pub fn broken_texts()
    ensures quote { ¬ IsCanonical (calling (codes "ma\"in")) }
    ensures newline { ¬ IsCanonical (of_state_type (codes "Sta\nte")) }
    // A byte that UTF-8 has nowhere.
    ensures utf8 { ¬ IsCanonical (of_link_type (255 ∷ [])) }
{}

/// Containers that no text says.
pub fn broken_containers()
    ensures no_root { ¬ IsCanonical nothing_traced }
    ensures root_name { ¬ IsCanonical (rooted_in (lasting 0 10)) }
    ensures root_start { ¬ IsCanonical (rooted_in (record (root_until 10) { start = 1 })) }
    ensures root_end { ¬ IsCanonical (rooted_in (root_until 9)) }
    ensures backward { ¬ IsCanonical (beside_container (lasting 5 4)) }
    // The end isn't the greatest time.
    ensures late { ¬ IsCanonical (ending_at 11) }
{}

/// A second track, or a stream, that no text says.
pub fn broken_tracks()
    ensures no_stream { ¬ IsCanonical (beside_track (track_of_kind 1 1) []) }
    ensures no_kind { ¬ IsCanonical (beside_track (track_of_kind 1 2) (quiet_process ∷ [])) }
    ensures on_root { ¬ IsCanonical (beside_track (track_of_kind 0 0) (quiet_until 10 ∷ [])) }
    ensures twice { ¬ IsCanonical (beside_track (track_of_kind 1 0) (quiet_process ∷ [])) }
    // It starts before its container.
    ensures early { ¬ IsCanonical (beside_track (track_of_kind 1 1) (quiet_until 10 ∷ [])) }
    // Its times fall.
    ensures illegal { ¬ IsCanonical (running (one_call 1 7 3)) }
{}

/// Functions of one text, or with other numbers.
pub fn broken_functions()
    ensures one_text { ¬ IsCanonical (calling_two (codes "main" ∷ codes "main" ∷ []) 1 2) }
    // The first that is called is the second.
    ensures other_order { ¬ IsCanonical (calling_two (codes "main" ∷ codes "f" ∷ []) 2 1) }
    ensures uncalled { ¬ IsCanonical (calling_two (codes "main" ∷ codes "f" ∷ []) 1 1) }
    ensures no_text { ¬ IsCanonical (calling_two (codes "main" ∷ []) 1 2) }
{}

/// Link events that no text says.
pub fn broken_links()
    ensures no_container { ¬ IsCanonical (linking (sent 2 100)) }
    ensures no_kind { ¬ IsCanonical (linking (record (sent 1 100) { kind = 1 })) }
    ensures size_at_end { ¬ IsCanonical (linking (received 0 1)) }
    ensures great_size { ¬ IsCanonical (linking (sent 1 (2 ^ 63))) }
{}

/// More than a limit, and within the others; but so many state events, or link events, make the text too long
/// as well.
pub fn great_traces()
    ensures time { ¬ IsCanonical (beside_lasting (MAX_TIME + 1)) }
    // There are the root and another container beside these.
    ensures containers { ¬ IsCanonical (beside_containers (MAX_CONTAINERS - 1)) }
    // There are a type of links and one of containers beside these.
    ensures types { ¬ IsCanonical (of_state_types (replicate (MAX_TYPES - 1) (codes "State"))) }
    // There is a track beside these.
    ensures tracks { ¬ IsCanonical (quiet_in_each MAX_TRACKS) }
    ensures functions { ¬ IsCanonical (calling_each (MAX_FUNCTIONS + 1)) }
    // Each call has two events, and the track one.
    ensures states { ¬ IsCanonical (calling_often (MAX_STATE_EVENTS / 2)) }
    ensures links { ¬ IsCanonical (linking_often (MAX_LINK_EVENTS + 1)) }
    // The line has 13 bytes beside these.
    ensures line { ¬ IsCanonical (of_link_type (long_text (MAX_TRACE_LINE - 12))) }
    // 1,033 types of 65,000 bytes each are more than the 67,108,864 of a text.
    ensures text { ¬ IsCanonical (of_state_types (long_texts 1033 65000)) }
    ensures depth { ¬ IsCanonical (nesting (MAX_OPEN_CALLS + 1)) }
{}
