//! Legal streams and infos, and others that break one rule each. The statements are the clauses; the bodies
//! are empty.
ghost use Rattle.std.specs.Prelude.{[], ◌∷◌, ◌+◌, ◌/◌, replicate, codes};
ghost use Rattle.trace_base.specs.Examples.{two_calls, recursion, no_length};
ghost use Rattle.trace_base.specs.Info.{IsLegalInfo, Fits};
ghost use Rattle.trace_base.specs.LegalExamples.{ten_with, quiet_until, one_call, left_twice, left_open};
ghost use Rattle.trace_base.specs.LegalExamples.{nested_calls, calls_in_a_row, lasting, one_message};
ghost use Rattle.trace_base.specs.LegalExamples.{messages_to_root};
ghost use Rattle.trace_base.specs.LegalExamples.{track_of_kind, one_process, with_message, with_messages};
ghost use Rattle.trace_base.specs.LegalExamples.{with_containers, with_kinds, with_tracks, with_functions};
ghost use Rattle.trace_base.specs.LegalExamples.{track_in_each};
ghost use Rattle.trace_base.specs.Stream.{IsLegal};

use crate::limits::{
    MAX_CONTAINERS, MAX_FUNCTIONS, MAX_LINK_EVENTS, MAX_OPEN_CALLS, MAX_STATE_EVENTS, MAX_TIME,
    MAX_TRACKS, MAX_TYPES,
};

/// Streams that are legal, some of them at a limit.
pub fn legal_streams()
    ensures two_calls { IsLegal two_calls }
    ensures recursion { IsLegal recursion }
    ensures no_length { IsLegal no_length }
    ensures last_time { IsLegal (quiet_until MAX_TIME) }
    ensures whole_track { IsLegal (one_call 1 2 10) }
    ensures no_time { IsLegal (one_call 1 5 5) }
    ensures last_function { IsLegal (one_call MAX_FUNCTIONS 3 4) }
{}

/// Streams that break one rule each.
pub fn broken_streams()
    // It ends after the last time.
    ensures late { ¬ IsLegal (quiet_until (MAX_TIME + 1)) }
    // Its times fall.
    ensures falling { ¬ IsLegal (one_call 1 5 4) }
    // An event comes before the track's start, or after its end.
    ensures before { ¬ IsLegal (one_call 1 1 5) }
    ensures behind { ¬ IsLegal (one_call 1 5 11) }
    // A Leave comes where no call is open.
    ensures left_twice { ¬ IsLegal left_twice }
    // A call is left open.
    ensures left_open { ¬ IsLegal left_open }
    // One call more is open at once than may be.
    ensures deep { ¬ IsLegal (nested_calls (MAX_OPEN_CALLS + 1)) }
    // It has one call more than a trace may have.
    ensures many { ¬ IsLegal (ten_with (calls_in_a_row (MAX_STATE_EVENTS + 1))) }
    // Functions are numbered from 1, up to the greatest number of functions.
    ensures no_function { ¬ IsLegal (one_call 0 3 4) }
    ensures past_functions { ¬ IsLegal (one_call (MAX_FUNCTIONS + 1) 3 4) }
{}

/// An info that is legal, and a stream that fits its track.
pub fn legal_info()
    ensures legal { IsLegalInfo (with_message one_process) }
    ensures fits { Fits (one_call 2 3 4) (with_message one_process) 0 }
{}

/// Infos that have more of one thing than a trace may have.
pub fn great_infos()
    ensures containers { ¬ IsLegalInfo (with_containers (replicate (MAX_CONTAINERS + 1) (lasting 0 10))) }
    // There is a type of links beside these.
    ensures types { ¬ IsLegalInfo (with_kinds (replicate MAX_TYPES (codes "State"))) }
    ensures tracks { ¬ IsLegalInfo (track_in_each (MAX_TRACKS + 1)) }
    ensures functions { ¬ IsLegalInfo (with_functions (replicate (MAX_FUNCTIONS + 1) (codes "f"))) }
    // A message counts as two link events.
    ensures messages { ¬ IsLegalInfo (with_messages
        (messages_to_root (MAX_LINK_EVENTS / 2 + 1))) }
{}

/// Infos that break one of the other rules each.
pub fn broken_infos()
    // A container ends before it starts, or after the last time.
    ensures backward { ¬ IsLegalInfo (with_containers (lasting 0 10 ∷ lasting 5 4 ∷ [])) }
    ensures late { ¬ IsLegalInfo (with_containers (lasting 0 10 ∷ lasting 2 (MAX_TIME + 1) ∷ [])) }
    // A track names a container that isn't there, or a kind.
    ensures container { ¬ IsLegalInfo (with_tracks (track_of_kind 2 0 ∷ [])) }
    ensures kind { ¬ IsLegalInfo (with_tracks (track_of_kind 1 1 ∷ [])) }
    // Two tracks are the same.
    ensures twice { ¬ IsLegalInfo (with_tracks (track_of_kind 1 0 ∷ track_of_kind 1 0 ∷ [])) }
    // A message's sender isn't there, or its receiver.
    ensures sender { ¬ IsLegalInfo (with_messages (one_message 2 0 ∷ [])) }
    ensures receiver { ¬ IsLegalInfo (with_messages (one_message 1 2 ∷ [])) }
{}

/// Streams that don't fit the track of a legal info, for one reason each.
pub fn unfit_streams()
    // The stream isn't legal.
    ensures illegal { ¬ Fits (one_call 2 4 3) (with_message one_process) 0 }
    // It lasts longer than the track's container.
    ensures longer { ¬ Fits (quiet_until 10) (with_message one_process) 0 }
    // There is no such track.
    ensures no_track { ¬ Fits (one_call 2 3 4) (with_message one_process) 1 }
    // The names number two functions.
    ensures no_name { ¬ Fits (one_call 3 3 4) (with_message one_process) 0 }
{}
