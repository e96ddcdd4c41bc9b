//! The definitions, computed on small rooms and on full ones. Each clause is the equation, or the relation;
//! the bodies are empty.
ghost use Rattle.std.specs.Prelude.{◌≡◌, ◌++◌, [], ◌∷◌, Err, None, Ok, Some};
ghost use Rattle.memo_core.specs.Examples.{flat_of_rows, idle_flat, idle_paths, item_of, numbers_from};
ghost use Rattle.memo_core.specs.Examples.{three_items};
ghost use Rattle.memo_core.specs.Memo.{entry_under, items_besides, most_recent, with_recent};
ghost use Rattle.memo_core.specs.Runs.{Filled, Looked, last_filled};
ghost use Rattle.memo_core.specs.Using.{FillsIn, LooksUp};
ghost use Rattle.memo_core.specs.declared.limits.TheConstants.{MEMO_ENTRIES};
ghost use Rattle.whole_profiles.specs.declared.memo_kind.MemoKind.TheVariants.{Flat, Paths};

/// What is found: each kind of a number by itself, and nothing of a number or a kind that isn't there.
pub fn entries_of_three_items()
    ensures flat { entry_under three_items 1 Flat ≡ Some (idle_flat 10) }
    ensures paths { entry_under three_items 1 Paths ≡ Some (idle_paths 11) }
    ensures other_kind { entry_under three_items 2 Paths ≡ None }
    ensures other_number { entry_under three_items 3 Flat ≡ None }
{}

/// The order: an entry becomes the last one, in place of an older one of its number and kind, and the others
/// stay in theirs.
pub fn orders_of_three_items()
    ensures used { with_recent three_items 1 Flat (idle_flat 10)
        ≡ item_of 1 Paths (idle_paths 11) ∷ item_of 2 Flat (idle_flat 20)
        ∷ item_of 1 Flat (idle_flat 10) ∷ [] }
    ensures replaced { with_recent three_items 1 Paths (idle_paths 12)
        ≡ item_of 1 Flat (idle_flat 10) ∷ item_of 2 Flat (idle_flat 20)
        ∷ item_of 1 Paths (idle_paths 12) ∷ [] }
    ensures new { with_recent three_items 2 Paths (idle_paths 21)
        ≡ three_items ++ item_of 2 Paths (idle_paths 21) ∷ [] }
    ensures few { most_recent three_items ≡ three_items }
{}

/// Answers to a look: what is there, and nothing. Memory may be wanted only for what is there.
pub fn looks_at_three_items()
    ensures there { LooksUp three_items 1 Flat (Ok (Some (idle_flat 10)))
        (with_recent three_items 1 Flat (idle_flat 10)) }
    ensures absent { LooksUp three_items 2 Paths (Ok None) three_items }
    ensures memory { LooksUp three_items 1 Paths (Err (record {})) three_items }
{}

/// Fills: 64 rows are kept, in place of what was there; 65 leave what was there; where no memory was found
/// for a new number, all is as before.
pub fn fills_of_three_items()
    ensures most_rows { FillsIn three_items 2 Flat (flat_of_rows 64)
        (item_of 1 Flat (idle_flat 10) ∷ item_of 1 Paths (idle_paths 11)
        ∷ item_of 2 Flat (flat_of_rows 64) ∷ []) }
    ensures too_many_rows { FillsIn three_items 2 Flat (flat_of_rows 65) three_items }
    ensures memory { FillsIn three_items 3 Flat (idle_flat 30) three_items }
{}

/// A full room of the numbers from 0 on: one more number, and the first is gone, and the next is there; where
/// the first was looked up before, the next is gone; a known number, and none is gone.
pub fn fills_of_a_full_room()
    ensures new { most_recent (with_recent (numbers_from 0 MEMO_ENTRIES) 4096 Flat (idle_flat 4096))
        ≡ numbers_from 1 MEMO_ENTRIES }
    ensures first { entry_under (numbers_from 1 MEMO_ENTRIES) 0 Flat ≡ None }
    ensures second { entry_under (numbers_from 1 MEMO_ENTRIES) 1 Flat ≡ Some (idle_flat 1) }
    ensures looked_up { most_recent (with_recent
        (with_recent (numbers_from 0 MEMO_ENTRIES) 0 Flat (idle_flat 0)) 4096 Flat (idle_flat 4096))
        ≡ numbers_from 2 4094 ++ item_of 0 Flat (idle_flat 0) ∷ item_of 4096 Flat (idle_flat 4096) ∷ [] }
    ensures known { most_recent (with_recent (numbers_from 0 MEMO_ENTRIES) 0 Flat (idle_flat 5))
        ≡ numbers_from 1 4095 ++ item_of 0 Flat (idle_flat 5) ∷ [] }
{}

/// The last fill of a number and a kind: one of another number, of the other kind or of 65 rows isn't it.
pub fn last_fills()
    ensures second { last_filled
        (Filled 1 Flat (idle_flat 10) ∷ Filled 1 Flat (idle_flat 12) ∷ Looked 1 Flat (Ok None) ∷ []) 1 Flat
        ≡ Some (idle_flat 12) }
    ensures other_kind { last_filled
        (Filled 1 Flat (idle_flat 10) ∷ Filled 1 Paths (idle_paths 11) ∷ []) 1 Flat ≡ Some (idle_flat 10) }
    ensures too_many_rows { last_filled
        (Filled 1 Flat (idle_flat 10) ∷ Filled 1 Flat (flat_of_rows 65) ∷ []) 1 Flat ≡ Some (idle_flat 10) }
    ensures none { last_filled (Filled 1 Flat (idle_flat 10) ∷ []) 2 Flat ≡ None }
{}
