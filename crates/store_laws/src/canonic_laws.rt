//! What the numbers of a store stand for. The statements are the clauses; the bodies are empty.
ghost use Rattle.std.specs.Prelude.{◌≡◌, ℕ, Some};
ghost use Rattle.node_key.specs.Stands.{KeyAt, Stands};
ghost use Rattle.node_key.specs.Tree.{Tree};
ghost use Rattle.shard_core.specs.Room.{Stored};
ghost use Rattle.store_laws.specs.Store.{IsCanonic, Store, key_in, node_in};

/// A number stands for one tree, wherever keys are found; and in a store the numbers of two nodes that stand
/// for one tree are one.
pub fn one_number_one_tree()
    ensures tree { (key_at : KeyAt) (n : ℕ) (t u : Tree) → Stands key_at n t → Stands key_at n u → t ≡ u }
    ensures number { (rooms : Store) (m n : ℕ) (t : Tree) → IsCanonic rooms → Stands (key_in rooms) m t
        → Stands (key_in rooms) n t → m ≡ n }
{}

/// Each node of a store stands for a tree.
pub fn each_node_stands()
    ensures { (rooms : Store) (n : ℕ) (s : Stored) → IsCanonic rooms → node_in rooms n ≡ Some s
        → (t : Tree) × Stands (key_in rooms) n t }
{}
