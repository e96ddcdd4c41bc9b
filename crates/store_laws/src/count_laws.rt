//! What becomes of the nodes of a store and of their reference counts. The statements are the clauses; the
//! bodies are empty.
ghost use Rattle.std.specs.Prelude.{◌≡◌, ◌≤◌, ◌%◌, ◌∷◌, [], ℕ, List, Ok, Some, length, map, slice_get};
ghost use Rattle.std.specs.Prelude.{slice_set};
ghost use Rattle.node_key.specs.Keys.{distinct};
ghost use Rattle.node_key.specs.Rooms.{room};
ghost use Rattle.node_key.specs.Stakes.{Exchanges, HasStakes, IsOverStakes};
ghost use Rattle.node_key.specs.declared.stake.Stake.{Stake};
ghost use Rattle.node_key.specs.Tree.{Tree};
ghost use Rattle.node_key.specs.declared.key.NodeKey.{NodeKey};
ghost use Rattle.node_key.specs.declared.limits.TheConstants.{MAX_NUMBERS, STORE_ROOMS};
ghost use Rattle.shard_core.specs.Interning.{Drops, Interns};
ghost use Rattle.shard_core.specs.Room.{Room, Stored};
ghost use Rattle.shard_core.specs.declared.answers.Dropped.TheVariants.{Kept, Removed};
ghost use Rattle.shard_core.specs.declared.answers.Interned.TheVariants.{Known, New};
ghost use Rattle.store_laws.specs.Counted.{IsStore};
ghost use Rattle.store_laws.specs.Reached.{IsReached};
ghost use Rattle.store_laws.specs.Store.{Store, empty_store, node_in, nodes_in};

/// The nodes of a store are what the stakes reach.
pub fn nodes_are_reached()
    ensures { (rooms : Store) (held : List Stake) (n : ℕ) (s : Stored) → IsStore rooms held
        → node_in rooms n ≡ Some s → IsReached rooms held n }
{}

/// There are as many nodes as different subtrees of the stakes' trees.
pub fn nodes_are_the_subtrees()
    ensures { (rooms : Store) (held : List Stake) → IsStore rooms held
        → length (nodes_in rooms) ≡ distinct (map (λ x. x.tree) held) }
{}

/// A store without nodes, whose rooms all give their numbers from one index on.
pub fn nothing_is_a_store()
    ensures { (first : ℕ) → first ≤ MAX_NUMBERS → IsStore (empty_store first) [] }
{}

/// A key over staked kids is entered in its room. Where it is new its kids' stakes are handed over, and there
/// is one on the new number; where it is known there is one more.
pub fn interning()
    ensures new { (rooms : Store) (held left kids : List Stake) (t : Tree) (key : NodeKey) (old r : Room)
        (n : ℕ) → IsStore rooms held → slice_get rooms (room key) ≡ Some old → IsOverStakes t kids key
        → HasStakes held kids → Interns old key (Ok (New n)) r
        → Exchanges held left kids (record { number = n; tree = t } ∷ [])
        → IsStore (slice_set rooms (room key) r) left }
    ensures known { (rooms : Store) (held left kids : List Stake) (t : Tree) (key : NodeKey) (old r : Room)
        (n : ℕ) → IsStore rooms held → slice_get rooms (room key) ≡ Some old → IsOverStakes t kids key
        → HasStakes held kids → Interns old key (Ok (Known n)) r
        → Exchanges held left [] (record { number = n; tree = t } ∷ [])
        → IsStore (slice_set rooms (room key) r) left }
{}

/// A stake is given back. Where its node goes, the kids of the node are staked instead.
pub fn dropping()
    ensures kept { (rooms : Store) (held left : List Stake) (x : Stake) (old r : Room)
        → IsStore rooms held → slice_get rooms (x.number % STORE_ROOMS) ≡ Some old → HasStakes held (x ∷ [])
        → Drops old x.number Kept r → Exchanges held left (x ∷ []) []
        → IsStore (slice_set rooms (x.number % STORE_ROOMS) r) left }
    ensures removed { (rooms : Store) (held : List Stake) (x : Stake) (key : NodeKey) (old r : Room)
        → IsStore rooms held → slice_get rooms (x.number % STORE_ROOMS) ≡ Some old → HasStakes held (x ∷ [])
        → Drops old x.number (Removed key) r → (kids : List Stake) × IsOverStakes x.tree kids key
        × ((left : List Stake) → Exchanges held left (x ∷ []) kids
        → IsStore (slice_set rooms (x.number % STORE_ROOMS) r) left) }
{}
