//! The words of a history, computed on small ones. Each clause is the equation; the bodies are empty.
ghost use Rattle.std.specs.Prelude.{◌≡◌, true, false, List, [], ◌∷◌, ◌++◌, take, length, None, Some};
ghost use Rattle.trace_base.specs.declared.limits.TheConstants.{MAX_OPEN_TRACES};
ghost use Rattle.hall_history.specs.Examples.{no_entries, small, lone, bare, doubled, quiet, quiet_tree};
ghost use Rattle.hall_history.specs.Examples.{two_opened, IsUnlawful};
ghost use Rattle.hall_history.specs.History.{Entry, Opened, Published, Sealed, Dropped, Closed, next_id};
ghost use Rattle.hall_history.specs.History.{is_open};
ghost use Rattle.hall_history.specs.History.{is_loading, open_ids, published_count, published_of, promised};
ghost use Rattle.hall_history.specs.History.{stream_of, IsLegalHistory, MayFollow};

/// The ids of open traces, and the id that comes next.
#[tactic(auto, unfolding(crate::specs::History::opened_ids, crate::specs::History::is_open, crate::specs::History::open_ids))]
pub fn ids_of_small_history()
    ensures first { next_id no_entries ≡ 1 }
    ensures next { next_id small ≡ 3 }
    ensures both { open_ids (take 5 small) ≡ 1 ∷ 2 ∷ [] }
    ensures closed { open_ids (take 6 small) ≡ 2 ∷ [] }
    ensures none { open_ids small ≡ [] }
{}

/// Which traces are open and loading.
#[tactic(auto, unfolding(crate::specs::History::opened_ids, crate::specs::History::is_open, crate::specs::History::is_loading))]
pub fn states_of_small_history()
    ensures unopened { is_open (take 4 small) 2 ≡ false }
    ensures open { is_open (take 4 small) 1 ≡ true }
    ensures dropped { is_open small 2 ≡ false }
    ensures loading { is_loading (take 3 small) 1 ≡ true }
    ensures sealed { is_loading (take 4 small) 1 ≡ false }
    ensures bare_loading { is_loading (take 6 small) 2 ≡ true }
    ensures gone { is_loading small 2 ≡ false }
{}

/// How many tracks are published, and how many places are promised: of a trace with one track two at first.
#[tactic(auto, unfolding(crate::specs::History::opened_ids, crate::specs::History::is_open, crate::specs::History::is_loading, crate::specs::History::info_of, crate::specs::History::published_count, crate::specs::History::promised))]
pub fn places_of_small_history()
    ensures unpublished { published_count (take 1 small) 1 ≡ 0 }
    ensures published { published_count small 1 ≡ 1 }
    ensures load { promised (take 1 small) ≡ 2 }
    ensures seal { promised (take 3 small) ≡ 1 }
    ensures none { promised (take 4 small) ≡ 0 }
    ensures two { promised two_opened ≡ 3 }
    ensures left { promised (two_opened ++ Dropped 1 ∷ []) ≡ 1 }
{}

/// The stream of a track is read off what was published of it, whatever became of its trace.
#[tactic(auto, unfolding(crate::specs::History::published_of, crate::specs::History::stream_of, node_key::specs::Trees::tree, node_key::specs::Bound::bound, node_key::specs::Calls::outer_calls, node_key::specs::Events::events))]
pub fn streams_of_small_history()
    ensures none { stream_of (take 1 small) 1 0 ≡ None }
    ensures tree { published_of small 1 0 ≡ Some quiet_tree }
    ensures stream { stream_of small 1 0 ≡ Some quiet }
    ensures other { stream_of small 1 1 ≡ None }
{}

/// The small history is legal.
pub fn small_history_is_legal()
    ensures { IsLegalHistory small }
{}

/// Histories that break one rule for an opened trace: that of the ids, of the infos, and of the number of
/// open traces.
pub fn unlawful_openings()
    ensures id { IsUnlawful (Opened 2 bare ∷ []) }
    ensures info { IsUnlawful (Opened 1 doubled ∷ []) }
    ensures many { (h : List Entry) → length (open_ids h) ≡ MAX_OPEN_TRACES
        → MayFollow h (Opened (next_id h) bare) → ⊥ }
{}

/// Histories that break one rule for a published track: its trace is loading, it wasn't published, and the
/// stream fits it.
pub fn unlawful_publications()
    ensures dropped { IsUnlawful (Opened 1 lone ∷ Dropped 1 ∷ Published 1 0 quiet_tree ∷ []) }
    ensures twice { IsUnlawful (Opened 1 lone ∷ Published 1 0 quiet_tree ∷ Published 1 0 quiet_tree ∷ []) }
    ensures unfit { IsUnlawful (Opened 1 lone ∷ Published 1 1 quiet_tree ∷ []) }
{}

/// Histories that break one rule for the end of a load or of a trace.
pub fn unlawful_ends()
    ensures sealed_dropped { IsUnlawful (Opened 1 bare ∷ Dropped 1 ∷ Sealed 1 ∷ []) }
    ensures sealed_early { IsUnlawful (Opened 1 lone ∷ Sealed 1 ∷ []) }
    ensures dropped_sealed { IsUnlawful (Opened 1 bare ∷ Sealed 1 ∷ Dropped 1 ∷ []) }
    ensures closed_unopened { IsUnlawful (Closed 1 ∷ []) }
    ensures closed_loading { IsUnlawful (Opened 1 bare ∷ Closed 1 ∷ []) }
{}
