ghost use Rattle.std.specs.Prelude.{◌≡◌, ℕ, ◌<◌, [], length, nat_eq, slice_get, Some, None, IfSome, IfNone};
ghost use Rattle.std.specs.Option.{option_map};
ghost use Rattle.std.specs.List.{IsDistinct, swap_remove};
ghost use Rattle.std.specs.Map.{keys_of, lookup};
ghost use Rattle.indexmap.specs.IndexMap.{set_value_at};

use crate::hashed_key::HashedKey;
use indexmap::{IndexMap, IndexSet};
use node_key::NodeKey;
use std::alloc::Global;
use std::marker::Model;

/// The nodes of a room in two tables that go side by side: the keys, and the numbers with their counts. A
/// place, from 0, is the same in both.
#[derive(Drop)]
pub(crate) struct Nodes {
    keys: IndexSet<HashedKey>,
    counts: IndexMap<u64, u64>,
}

/// What came of a key.
pub(crate) enum FoundOrAdded {
    /// It was there, at this place.
    There(usize),
    /// It went last.
    Added,
    /// It is new, and no memory was found for it.
    NoMemory,
}

impl Model for Nodes {
    ghost use Rattle.std.specs.Prelude.{◌≡◌, ℕ, List, length, nat_eq};
    ghost use Rattle.std.specs.List.{IsDistinct};
    ghost use Rattle.std.specs.Map.{keys_of};
    ghost use Rattle.shard_core.specs.Room.{Stored};
    ghost use Rattle.shard_core.specs.Listed.{listed};

    ghost Value = { List (ℕ × Stored) };

    ghost view = { λ a. listed a.keys.keys a.counts.entries };

    ghost invariant = { λ a. (length a.counts.entries ≡ length a.keys.keys)
        × IsDistinct nat_eq (keys_of a.counts.entries) };
}

impl Nodes {
    ghost use Rattle.shard_core.specs.Room.{Stored};
    ghost use Rattle.shard_core.specs.Listed.{LacksKey};
    ghost use Rattle.shard_core.specs.FindingOrAdding.{FindsOrAdds};

    /// No nodes. It takes no memory.
    pub(crate) fn new(alloc: Global) -> Nodes
        ensures { result ≡ [] }
    {
        Nodes {
            keys: IndexSet::new(alloc),
            counts: IndexMap::new(alloc),
        }
    }

    /// How many nodes there are.
    pub(crate) fn len(&self) -> usize
        ensures value { result ≡ length self.now }
        ensures apart { IsDistinct nat_eq (keys_of self.now) }
    {
        self.counts.len()
    }

    /// The place of a number.
    pub(crate) fn place(&self, number: u64) -> Option<usize>
        ensures found { IfSome result (λ i. (s : Stored) × (slice_get self.now i ≡ Some (number, s))) }
        ensures absent { IfNone result (lookup (nat_eq number) self.now ≡ None) }
        ensures apart { IsDistinct nat_eq (keys_of self.now) }
    {
        self.counts.get_index_of(&number)
    }

    /// The place of a key.
    pub(crate) fn place_of_key(&self, key: &HashedKey) -> Option<usize>
        ensures found { IfSome result (λ i. (n : ℕ) × (c : ℕ)
            × (slice_get self.now i ≡ Some (n, record { key = key.now.key; count = c }))) }
        ensures absent { IfNone result (LacksKey self.now key.now.key) }
    {
        self.keys.get_index_of(key)
    }

    /// The number at a place.
    pub(crate) fn number(&self, place: usize) -> u64
        requires { place < length self.now }
        ensures { option_map (λ e. e.0) (slice_get self.now place) ≡ Some result }
    {
        match self.counts.get_index(place) {
            Some((number, _)) => *number,
            None => unreachable!(),
        }
    }

    /// The count at a place.
    pub(crate) fn count(&self, place: usize) -> u64
        requires { place < length self.now }
        ensures value { option_map (λ e. e.1.count) (slice_get self.now place) ≡ Some result }
        ensures apart { IsDistinct nat_eq (keys_of self.now) }
    {
        match self.counts.get_index(place) {
            Some((_, count)) => *count,
            None => unreachable!(),
        }
    }

    /// The key at a place.
    pub(crate) fn key(&self, place: usize) -> NodeKey
        requires { place < length self.now }
        ensures { option_map (λ e. e.1.key) (slice_get self.now place) ≡ Some result }
    {
        match self.keys.get_index(place) {
            Some(key) => key.key,
            None => unreachable!(),
        }
    }

    /// Finds the key, or adds it under a number that no node has.
    pub(crate) fn find_or_add(&mut self, key: HashedKey, number: u64) -> FoundOrAdded
        requires { lookup (nat_eq number) self.old ≡ None }
        ensures { FindsOrAdds self.old key.key number result self.new }
    {
        let (place, new) = match self.keys.insert_full(key) {
            Ok(known) => known,
            Err(_) => return FoundOrAdded::NoMemory,
        };
        if !new {
            return FoundOrAdded::There(place);
        }
        match self.counts.insert(number, 1) {
            Ok(_) => FoundOrAdded::Added,
            Err(_) => {
                self.keys.pop();
                FoundOrAdded::NoMemory
            }
        }
    }

    /// Writes the count at a place.
    pub(crate) fn set_count(&mut self, place: usize, count: u64)
        requires { place < length self.old }
        ensures { (n : ℕ) (s : Stored) → slice_get self.old place ≡ Some (n, s)
            → self.new ≡ set_value_at self.old place (record { key = s.key; count = count }) }
    {
        self.counts[place] = count;
    }

    /// Gives memory back where less than a quarter of it is used.
    pub(crate) fn give_back(&mut self)
        ensures { self.new ≡ self.old }
    {
        let len = self.counts.len();
        if self.counts.capacity() / 4 > len {
            self.keys.shrink_to(2 * len);
            self.counts.shrink_to(2 * len);
        }
    }

    /// Takes out the node at a place. The last one comes there.
    pub(crate) fn take(&mut self, place: usize) -> NodeKey
        requires { place < length self.old }
        ensures { (n : ℕ) (s : Stored) → slice_get self.old place ≡ Some (n, s)
            → (result ≡ s.key) × (self.new ≡ swap_remove self.old place (n, s)) }
    {
        self.counts.swap_remove_index(place);
        match self.keys.swap_remove_index(place) {
            Some(key) => key.key,
            None => unreachable!(),
        }
    }
}
