//! The definitions, computed on a store with one track in which main calls f twice. Each clause is the
//! equation; the bodies are empty.
ghost use Rattle.std.specs.Prelude.{◌≡◌, ◌∷◌, [], ℕ, None, Some};
ghost use Rattle.node_key.specs.Examples.{half, half_key, tenth, tenth_key, track_key, track_of_half};
ghost use Rattle.node_key.specs.Leads.{Leads};
ghost use Rattle.node_key.specs.Stakes.{stake};
ghost use Rattle.node_store.specs.Examples.{none_given, three_given};
ghost use Rattle.node_store.specs.Given.{ever, stakes_of};
ghost use Rattle.node_store.specs.TreeUnder.{kid_stakes, tree_under};

/// Which keys the numbers were given to.
pub fn numbers_of_small_trees()
    ensures f { ever (three_given 0 0 1) 0 ≡ Some tenth_key }
    ensures main { ever (three_given 0 0 1) 12 ≡ Some half_key }
    ensures track { ever (three_given 0 0 1) 4 ≡ Some track_key }
    ensures another_room { ever (three_given 0 0 1) 1 ≡ None }
    ensures not_yet { ever (three_given 0 0 1) 16 ≡ None }
{}

/// The trees that they stand for.
pub fn trees_under_numbers()
    ensures f { tree_under (ever (three_given 0 0 1)) 0 ≡ tenth }
    ensures main { tree_under (ever (three_given 0 0 1)) 12 ≡ half }
    ensures track { tree_under (ever (three_given 0 0 1)) 4 ≡ track_of_half }
{}

/// The stakes of the owner: one on the track, or two on f and one on main.
#[tactic(auto, unfolding(crate::specs::Given::stakes_of))]
pub fn stakes_on_small_trees()
    ensures root { stakes_of (three_given 0 0 1) ≡ stake 4 track_of_half ∷ [] }
    ensures kids { stakes_of (three_given 2 1 0) ≡ stake 0 tenth ∷ stake 0 tenth ∷ stake 12 half ∷ [] }
    ensures on_kids { kid_stakes (ever (three_given 0 0 1)) half_key ≡ stake 0 tenth ∷ stake 0 tenth ∷ [] }
{}

/// Without numbers there are no stakes.
#[tactic(auto, unfolding(crate::specs::Given::stakes_of))]
pub fn nothing_given()
    ensures key { ever none_given 0 ≡ None }
    ensures stakes { stakes_of none_given ≡ [] }
{}

/// The track leads to f, and f to itself alone.
pub fn numbers_under_a_track()
    ensures down { Leads (ever (three_given 0 0 1)) 4 0 }
    ensures leaf { (n : ℕ) → Leads (ever (three_given 0 0 1)) 0 n → n ≡ 0 }
{}
