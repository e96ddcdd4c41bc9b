//! What stakes lead to, and why it stays. The statements are the clauses; the bodies are empty.
ghost use Rattle.std.specs.Prelude.{◌≡◌, ◌↔◌, ℕ, List, Some};
ghost use Rattle.std.specs.List.{Contains};
ghost use Rattle.node_key.specs.Leads.{KeepsLed, Leads};
ghost use Rattle.node_key.specs.Stands.{Stands};
ghost use Rattle.node_key.specs.Tree.{Tree};
ghost use Rattle.node_key.specs.declared.stake.Stake.{Stake};
ghost use Rattle.shard_core.specs.Room.{Stored};
ghost use Rattle.store_laws.specs.Counted.{IsStore};
ghost use Rattle.store_laws.specs.Reached.{IsReached};
ghost use Rattle.store_laws.specs.Store.{Store, key_in, node_in};
ghost use Rattle.store_laws.specs.StoreSteps.{IsStoreStep};

/// The nodes that stakes reach are those that the number of one of them leads to.
pub fn reached_is_led_to()
    ensures { (rooms : Store) (held : List Stake) (n : ℕ) → IsReached rooms held n
        ↔ ((x : Stake) × Contains held x × Leads (key_in rooms) x.number n) }
{}

/// Over a step of a store, whatever it answers: a stake that was held and is still held leads to the same
/// numbers, and each of them keeps its key and the tree that it stands for.
pub fn stakes_keep_what_they_lead_to()
    ensures led { (rooms after : Store) (held left : List Stake) (x : Stake) → IsStore rooms held
        → IsStore after left → IsStoreStep rooms after → Contains held x → Contains left x
        → KeepsLed (key_in rooms) (key_in after) x.number }
    ensures stands { (rooms after : Store) (held left : List Stake) (x : Stake) (n : ℕ) (s : Stored)
        (t : Tree) → IsStore rooms held → IsStore after left → IsStoreStep rooms after → Contains held x
        → Contains left x → Leads (key_in rooms) x.number n → node_in rooms n ≡ Some s
        → Stands (key_in rooms) n t → (key_in after n ≡ Some s.key) × Stands (key_in after) n t }
{}
