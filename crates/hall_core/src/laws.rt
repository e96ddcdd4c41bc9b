//! Why a hall stays good, over plain values. The statements are the clauses; the bodies are empty.
ghost use Rattle.std.specs.Prelude.{◌≡◌, ◌≤◌, ◌↔◌, ◌++◌, [], ℕ, List, Some};
ghost use Rattle.node_key.specs.Stakes.{Exchanges};
ghost use Rattle.node_key.specs.declared.stake.Stake.{Stake};
ghost use Rattle.node_key.specs.Stands.{Stands};
ghost use Rattle.node_key.specs.Tree.{Tree};
ghost use Rattle.node_key.specs.declared.key.NodeKey.{NodeKey};
ghost use Rattle.node_key.specs.declared.limits.TheConstants.{MAX_NUMBERS};
ghost use Rattle.shard_core.specs.Room.{Stored};
ghost use Rattle.shard_core.specs.declared.answers.Dropped.{Dropped};
ghost use Rattle.shard_core.specs.declared.answers.Interned.{Interned};
ghost use Rattle.store_laws.specs.Counted.{IsStore};
ghost use Rattle.store_laws.specs.Reached.{IsReached};
ghost use Rattle.store_laws.specs.Store.{Store, key_in, node_in};
ghost use Rattle.hall_core.specs.Allowed.{Allows};
ghost use Rattle.hall_core.specs.Steps.{DropsIn, InternsIn, IsStep};
ghost use Rattle.hall_core.specs.World.{IsGood, all_stakes, new_world};
ghost use Rattle.hall_core.specs.declared.events.HallEvent.{HallEvent};
ghost use Rattle.hall_core.specs.declared.events.StepAnswer.{StepAnswer};
ghost use Rattle.hall_core.specs.declared.world.World.{World};

/// A new hall with one seat is good.
pub fn new_halls_are_good()
    ensures { (first : ℕ) → first ≤ MAX_NUMBERS → IsGood (new_world first) }
{}

/// What one seat does in the store keeps it for this seat's stakes and those of all others, whoever has
/// these: a key that is entered, a stake that is given back, and stakes that go from one seat to another.
pub fn stores_are_kept()
    ensures interning { (key : NodeKey) (i : Interned) (rooms rooms' : Store) (mine mine' others : List Stake)
        → IsStore rooms (mine ++ others) → InternsIn key i rooms mine rooms' mine'
        → IsStore rooms' (mine' ++ others) }
    ensures dropping { (n : ℕ) (d : Dropped) (rooms rooms' : Store) (mine mine' others : List Stake)
        → IsStore rooms (mine ++ others) → DropsIn n d rooms mine rooms' mine'
        → IsStore rooms' (mine' ++ others) }
    ensures moving { (rooms : Store) (held held' : List Stake) → IsStore rooms held
        → Exchanges held held' [] [] → IsStore rooms held' }
{}

/// Whatever event a seat makes that it may make, and whatever it is answered, a good world stays good.
pub fn steps_keep_worlds_good()
    ensures { (old new : World) (actor : ℕ) (e : HallEvent) (answer : StepAnswer) → IsGood old
        → Allows old actor e → IsStep old actor e answer new → IsGood new }
{}

/// In a good world each number that is stored stands for one tree, and two such numbers are one exactly where
/// their trees are.
pub fn equal_subtrees_are_one_node()
    ensures stands { (w : World) (n : ℕ) (s : Stored) → IsGood w → node_in w.state.shards n ≡ Some s
        → (t : Tree) × Stands (key_in w.state.shards) n t }
    ensures one { (w : World) (m n : ℕ) (t u : Tree) → IsGood w → Stands (key_in w.state.shards) m t
        → Stands (key_in w.state.shards) n u → (m ≡ n) ↔ (t ≡ u) }
{}

/// In a good world the numbers that are stored are those that the seats' stakes reach.
pub fn stored_is_what_is_reached()
    ensures stored { (w : World) (n : ℕ) (s : Stored) → IsGood w → node_in w.state.shards n ≡ Some s
        → IsReached w.state.shards (all_stakes w.seats) n }
    ensures reached { (w : World) (n : ℕ) → IsGood w → IsReached w.state.shards (all_stakes w.seats) n
        → (s : Stored) × (node_in w.state.shards n ≡ Some s) }
{}
