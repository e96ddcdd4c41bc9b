//! What the numbers lead to on which there are stakes. The statements are the clauses; the bodies are empty.
ghost use Rattle.std.specs.Prelude.{◌≡◌, ◌++◌, ℕ, List, Some};
ghost use Rattle.std.specs.List.{Contains};
ghost use Rattle.node_key.specs.Leads.{KeepsLed, Leads};
ghost use Rattle.node_key.specs.Stands.{Stands};
ghost use Rattle.node_key.specs.declared.key.NodeKey.{NodeKey};
ghost use Rattle.node_key.specs.declared.stake.Stake.{Stake};
ghost use Rattle.store_laws.specs.Store.{key_in};
ghost use Rattle.node_store.specs.Given.{ever, stakes_of};
ghost use Rattle.node_store.specs.Kept.{AreKept, KeepsFor, KeepsNumbers, NodesKept};
ghost use Rattle.node_store.specs.TreeUnder.{tree_under};

/// A number with a stake on it, of the owner or of the others, leads to the same numbers in the rooms as among
/// the keys ever given. Each of them is a node, and stands for the tree that it was given for.
pub fn staked_numbers_lead_to_trees()
    ensures led { (s : NodesKept) (others : List Stake) (x : Stake) → AreKept s → KeepsFor s others
        → Contains (stakes_of s.given ++ others) x → KeepsLed (key_in s.rooms) (ever s.given) x.number }
    ensures stands { (s : NodesKept) (others : List Stake) (x : Stake) (n : ℕ) → AreKept s
        → KeepsFor s others → Contains (stakes_of s.given ++ others) x → Leads (key_in s.rooms) x.number n
        → Stands (key_in s.rooms) n (tree_under (ever s.given) n) }
{}

/// Over calls, which keep the numbers' keys: a node that is stored before has the key that its number has
/// afterwards, and a number with a stake on it before and after leads to the same nodes, with the same keys
/// and the same trees.
pub fn staked_numbers_lead_still()
    ensures one_key { (old new : NodesKept) (n : ℕ) (a b : NodeKey) → AreKept old → KeepsNumbers old new
        → key_in old.rooms n ≡ Some a → ever new.given n ≡ Some b → a ≡ b }
    ensures led { (old new : NodesKept) (others others' : List Stake) (x : Stake) → AreKept old
        → AreKept new → KeepsNumbers old new → KeepsFor old others → KeepsFor new others'
        → Contains (stakes_of old.given ++ others) x → Contains (stakes_of new.given ++ others') x
        → KeepsLed (key_in old.rooms) (key_in new.rooms) x.number }
{}
