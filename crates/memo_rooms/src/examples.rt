//! What rooms keep, computed. Each clause is the equation, or the relation; the bodies are empty.
ghost use Rattle.std.specs.Prelude.{◌≡◌, Err, None, Ok, Some};
ghost use Rattle.memo_core.specs.Examples.{idle_flat, idle_paths};
ghost use Rattle.memo_rooms.specs.Examples.{four_rooms};
ghost use Rattle.memo_rooms.specs.Rooms.{LookTells, kept_under, no_entries};
ghost use Rattle.whole_profiles.specs.declared.memo_kind.MemoKind.TheVariants.{Flat, Paths};

/// What is kept under a number and a kind stands in the room of the number: two numbers of one room stand by
/// themselves, and what lies in another room isn't kept.
#[tactic(auto, unfolding(crate::specs::Rooms::kept_under))]
pub fn kept_in_small_rooms()
    ensures first { kept_under four_rooms 4 Flat ≡ Some (idle_flat 40) }
    ensures flat { kept_under four_rooms 1 Flat ≡ Some (idle_flat 10) }
    ensures paths { kept_under four_rooms 1 Paths ≡ Some (idle_paths 11) }
    ensures same_room { kept_under four_rooms 5 Flat ≡ Some (idle_flat 50) }
    ensures other_kind { kept_under four_rooms 5 Paths ≡ None }
    ensures not_filled { kept_under four_rooms 9 Flat ≡ None }
    ensures other_room { kept_under four_rooms 2 Flat ≡ None }
    ensures empty { kept_under no_entries 1 Flat ≡ None }
{}

/// Answers to a look: what is there, and nothing. Memory may be wanted only for what is there.
#[tactic(auto, unfolding(crate::specs::Rooms::kept_under))]
pub fn looks_at_small_rooms()
    ensures there { LookTells (kept_under four_rooms 5 Flat) (Ok (Some (idle_flat 50))) }
    ensures absent { LookTells (kept_under four_rooms 0 Flat) (Ok None) }
    ensures memory { LookTells (kept_under four_rooms 5 Flat) (Err (record {})) }
{}
