//! The definitions, computed on small registries. Each clause is the equation or the relation; the bodies are
//! empty.
ghost use Rattle.std.specs.Prelude.{◌≡◌, ℕ, Err, None, Ok, Some, [], ◌∷◌};
ghost use Rattle.hall_history.specs.declared.asks.AskIds.TheVariants.{One, Two};
ghost use Rattle.hall_history.specs.declared.published.Published.TheVariants.{NotYet, Root};
ghost use Rattle.registry_core.specs.Asking.{AsksIn, HaveSameNames, after_unpin, first_unknown};
ghost use Rattle.registry_core.specs.Asking.{times_asked, unpinned};
ghost use Rattle.registry_core.specs.Closing.{ClosesIn, ListsIn};
ghost use Rattle.registry_core.specs.Examples.{both, closed_with, ended_trace, first_root, five_names};
ghost use Rattle.registry_core.specs.Examples.{in_use_at, loading_trace, neither, no_place_left, no_tracks};
ghost use Rattle.registry_core.specs.Examples.{one_place_left, only_first, row_in_use, sealed_trace};
ghost use Rattle.registry_core.specs.Examples.{second_root, two_tracks, with_none, with_one};
ghost use Rattle.registry_core.specs.Loading.{AdmitsIn, AwaitsSeal, AwaitsTrack, EndsIn, with_published};
ghost use Rattle.registry_core.specs.Loading.{with_sealed};
ghost use Rattle.registry_core.specs.Registry.{new_registry};
ghost use Rattle.registry_core.specs.Roots.{ExchangesRoots, roots_freed_by, roots_kept, times_root};
ghost use Rattle.registry_core.specs.Staying.{KeepsTold};
ghost use Rattle.registry_core.specs.Trace.{published_by, roots_in};
ghost use Rattle.registry_core.specs.UsedBy.{AreUsedBy, times_named};
ghost use Rattle.registry_core.specs.declared.answers.RegAsk.TheVariants as ask;
ghost use Rattle.registry_core.specs.declared.answers.RegClose.TheVariants as close;
ghost use Rattle.registry_core.specs.declared.answers.RegEnd.TheVariants as end;
ghost use Rattle.registry_core.specs.declared.answers.RegFault.TheVariants as fault;

/// The last places: a trace without tracks wants two, a question one. With none left each call is refused.
pub fn the_last_places()
    ensures admits { AdmitsIn one_place_left no_tracks (Err (fault.Spent 4611686018427387903))
        one_place_left }
    ensures unknown { AsksIn one_place_left (One 9) (ask.Unknown 9 1 4611686018427387904) no_place_left }
    ensures asks { AsksIn no_place_left (One 9) (ask.Spent 4611686018427387904) no_place_left }
    ensures closes { ClosesIn no_place_left 9 (close.Spent 4611686018427387904) no_place_left }
    ensures lists { ListsIn no_place_left (Err (fault.Spent 4611686018427387904)) no_place_left }
{}

/// A load of two tracks and a query beside it, from place 1 to place 8.
pub fn load_beside_a_query()
    ensures opened { AdmitsIn (new_registry 0 1) two_tracks (Ok (record { id = 1; place = 1 }))
        (with_one 1 3 (loading_trace 0 neither)) }
    ensures first_awaited { AwaitsTrack (with_one 1 3 (loading_trace 0 neither)) 1 0 }
    ensures first { with_published (with_one 1 3 (loading_trace 0 neither)) 1 0 0 40
        ≡ with_one 2 2 (loading_trace 0 only_first) }
    ensures pinned { AsksIn (with_one 2 2 (loading_trace 0 only_first)) (One 1) (ask.Pinned 3) (in_use_at 3) }
    ensures question { AsksIn (in_use_at 3) (One 9) (ask.Unknown 9 2 4) (in_use_at 4) }
    ensures loading { ClosesIn (in_use_at 4) 1 (close.Loading 5) (in_use_at 5) }
    ensures listed { ListsIn (in_use_at 5) (Ok (record { place = 6; rows = row_in_use ∷ [] })) (in_use_at 6) }
    ensures second_awaited { AwaitsTrack (in_use_at 6) 1 1 }
    ensures second { with_published (in_use_at 6) 1 1 2 41 ≡ with_one 7 1 (loading_trace 1 both) }
    ensures seal_awaited { AwaitsSeal (with_one 7 1 (loading_trace 1 both)) 1 }
    ensures sealed { with_sealed (with_one 7 1 (loading_trace 1 both)) 1
        ≡ with_one 8 0 (sealed_trace 1 both) }
{}

/// What is told of its tracks as of places: each from its own place on, and none that it doesn't have.
pub fn told_by_places()
    ensures first { published_by (loading_trace 1 only_first) 3 0 ≡ Root 0 40 }
    ensures second { published_by (loading_trace 1 only_first) 3 1 ≡ NotYet }
    ensures too_early { published_by (loading_trace 1 both) 1 0 ≡ NotYet }
    ensures early { published_by (loading_trace 1 both) 6 1 ≡ NotYet }
    ensures in_time { published_by (loading_trace 1 both) 7 1 ≡ Root 2 41 }
    ensures no_track { published_by (loading_trace 1 both) 8 2 ≡ NotYet }
{}

/// What was told of its first track stays when the second is published. It is lost where the trace is gone,
/// or where another root stands in the slot.
pub fn told_or_lost()
    ensures stays { KeepsTold (in_use_at 6) (with_one 7 1 (loading_trace 1 both)) (One 1) 6 }
    ensures gone { KeepsTold (in_use_at 6) (with_none 6) (One 1) 6 → ⊥ }
    ensures other_root { KeepsTold (in_use_at 8)
        (with_one 8 2 (loading_trace 1 (Some second_root ∷ None ∷ []))) (One 1) 8 → ⊥ }
{}

/// A trace that is closed with two users: it is kept, and gone with the second.
pub fn close_with_two_users()
    ensures asked { AsksIn (with_one 8 0 (sealed_trace 1 both)) (One 1) (ask.Pinned 9)
        (with_one 9 0 (sealed_trace 2 both)) }
    ensures kept { ClosesIn (with_one 9 0 (sealed_trace 2 both)) 1 (close.Kept 10) (closed_with 2) }
    ensures first { after_unpin (closed_with 2) (One 1) ≡ closed_with 1 }
    ensures first_roots { unpinned (One 1) (closed_with 2).traces ≡ record { first = None; second = None } }
    ensures second { after_unpin (closed_with 1) (One 1) ≡ with_none 10 }
    ensures second_roots { unpinned (One 1) (closed_with 1).traces
        ≡ record { first = Some (40 ∷ 41 ∷ []); second = None } }
    ensures unused { ClosesIn (with_one 9 0 (sealed_trace 0 both)) 1 (close.Ended 10 (40 ∷ 41 ∷ []))
        (with_none 10) }
    ensures closed { AsksIn (closed_with 2) (One 1) (ask.Unknown 1 2 11)
        (with_one 11 0 (ended_trace 2 both)) }
{}

/// A trace that is named twice has two users, which go at once, and its roots come free once.
pub fn named_twice()
    ensures times { (a : ℕ) → times_asked (Two a a) a ≡ 2 }
    ensures asked { AsksIn (with_one 8 0 (sealed_trace 0 both)) (Two 1 1) (ask.Pinned 9)
        (with_one 9 0 (sealed_trace 2 both)) }
    ensures back { after_unpin (closed_with 2) (Two 1 1) ≡ with_none 10 }
    ensures roots { unpinned (Two 1 1) (closed_with 2).traces
        ≡ record { first = Some (40 ∷ 41 ∷ []); second = None } }
{}

/// A load that is given up: the places that were promised are free, and a trace in use is kept.
pub fn loads_given_up()
    ensures kept { EndsIn (in_use_at 3) 1 (end.Kept 4) (with_one 4 0 (ended_trace 1 only_first)) }
    ensures ended { EndsIn (with_one 2 2 (loading_trace 0 only_first)) 1 (end.Ended 3 (40 ∷ []))
        (with_none 3) }
{}

/// The first id that isn't open, of one or two.
pub fn first_that_is_unknown()
    ensures first { first_unknown (in_use_at 3) (Two 9 1) ≡ Some 9 }
    ensures second { first_unknown (in_use_at 3) (Two 1 9) ≡ Some 9 }
    ensures either { first_unknown (in_use_at 3) (Two 9 8) ≡ Some 9 }
    ensures none { first_unknown (in_use_at 3) (Two 1 1) ≡ None }
    ensures closed { first_unknown (closed_with 2) (One 1) ≡ Some 1 }
{}

/// Names are the same where the lists of functions are: in their order, their number and each text.
pub fn names_compared()
    ensures one { HaveSameNames five_names (One 1) }
    ensures same { HaveSameNames five_names (Two 1 2) }
    ensures itself { HaveSameNames five_names (Two 3 3) }
    ensures order { ¬ HaveSameNames five_names (Two 1 3) }
    ensures number { ¬ HaveSameNames five_names (Two 1 4) }
    ensures text { ¬ HaveSameNames five_names (Two 1 5) }
{}

/// The roots of tracks of which some aren't published.
pub fn roots_between_gaps()
    ensures some { roots_in (None ∷ Some second_root ∷ None ∷ Some first_root ∷ []) ≡ 41 ∷ 40 ∷ [] }
    ensures none { roots_in (None ∷ None ∷ []) ≡ [] }
{}

/// The roots of two traces that are kept, how often each stands, and roots that come free.
pub fn roots_that_are_kept()
    ensures two { roots_kept (loading_trace 0 only_first ∷ sealed_trace 0 both ∷ []) ≡ 40 ∷ 40 ∷ 41 ∷ [] }
    ensures times { times_root 40 (40 ∷ 40 ∷ 41 ∷ []) ≡ 2 }
    ensures taken { ExchangesRoots (40 ∷ 40 ∷ 41 ∷ []) (41 ∷ 40 ∷ []) (40 ∷ []) [] }
    ensures freed { roots_freed_by (record { first = None; second = Some (41 ∷ []) }) ≡ 41 ∷ [] }
{}

/// A trace that two queries use, one of which names it twice.
pub fn users_by_queries()
    ensures times { times_named (One 1 ∷ Two 1 1 ∷ []) 1 ≡ 3 }
    ensures other { times_named (One 1 ∷ Two 1 1 ∷ []) 2 ≡ 0 }
    ensures used { AreUsedBy (sealed_trace 3 both ∷ []) (One 1 ∷ Two 1 1 ∷ []) }
    ensures unused { ¬ AreUsedBy (sealed_trace 0 both ∷ []) (One 1 ∷ []) }
    ensures gone { ¬ AreUsedBy [] (One 1 ∷ []) }
{}
