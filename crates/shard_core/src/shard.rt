ghost use Rattle.std.specs.Prelude.{◌≡◌, ◌+◌, ◌<◌, ◌≤◌, ℕ, length, is_some, slice_get, Some, Ok, Err, nat_eq};
ghost use Rattle.std.specs.Prelude.{IsTrue, ◌↔◌, IsSome};
ghost use Rattle.std.specs.FinMap as map;
ghost use Rattle.std.specs.List.{IsDistinct};
ghost use Rattle.std.specs.Map.{keys_of};
ghost use Rattle.std.specs.Option.{option_map};
ghost use Rattle.indexmap.specs.IndexMap.{set_value_at};
ghost use Rattle.shard_core.specs.Room.{Stored};
ghost use Rattle.node_key.specs.Rooms.{room};
ghost use Rattle.node_key.specs.declared.limits.TheConstants.{MAX_NUMBERS, STORE_ROOMS};
ghost use Rattle.shard_core.specs.declared.limits.TheConstants.{MAX_COUNT};
ghost use Rattle.shard_core.specs.declared.answers.Interned.TheVariants.{Known};
ghost use Rattle.shard_core.specs.declared.answers.ShardFault.TheVariants.{Spent};

use crate::answers::{Dropped, Interned, ShardFault};
use crate::hashed_key::HashedKey;
use crate::limits::MAX_COUNT;
use crate::nodes::{FoundOrAdded, Nodes};
use node_key::{MAX_NUMBERS, NodeKey, STORE_ROOMS};
use std::alloc::Global;
use std::marker::Model;

/// The count of a node that goes when one count less is left.
const LAST_COUNT: u64 = 1;

/// A room of the store: its nodes, each under one number with one key and a count, and the index of the
/// number that a new key gets.
#[derive(Drop)]
pub struct Shard {
    room: u8,
    next: u64,
    nodes: Nodes,
}

impl Model for Shard {
    ghost use Rattle.shard_core.specs.Room.{Room, room_code, room_of, IsSound};

    ghost Value = { Room };

    ghost coded = { room_code };

    ghost view = { λ a. room_of a.room a.next a.nodes };

    ghost invariant = { λ a. IsSound (room_of a.room a.next a.nodes) };
}

// Raises the count at a place by one.
fn raise(nodes: &mut Nodes, place: usize) -> Result<Interned, ShardFault>
    requires { place < length nodes.old }
    ensures full { (n : ℕ) (s : Stored) → slice_get nodes.old place ≡ Some (n, s) → MAX_COUNT ≤ s.count
        → (result ≡ Err (Spent MAX_COUNT)) × (nodes.new ≡ nodes.old) }
    ensures raised { (n : ℕ) (s : Stored) → slice_get nodes.old place ≡ Some (n, s) → s.count < MAX_COUNT
        → (result ≡ Ok (Known n))
        × (nodes.new ≡ set_value_at nodes.old place (record { key = s.key; count = s.count + 1 })) }
    ensures apart { IsDistinct nat_eq (keys_of nodes.old) }
{
    let count = nodes.count(place);
    if count >= MAX_COUNT {
        return Err(ShardFault::Spent(MAX_COUNT));
    }
    let number = nodes.number(place);
    nodes.set_count(place, count + 1);
    Ok(Interned::Known(number))
}

impl Shard {
    ghost use Rattle.shard_core.specs.Room.{IsSound, node_at};
    ghost use Rattle.shard_core.specs.Interning.{Interns, Drops};

    /// The room with this number, from 0, without nodes, which gives its numbers from index `next` on. It
    /// takes no memory.
    pub fn starting_at(alloc: Global, room: u8, next: u64) -> Shard
        requires one_of_them { room < STORE_ROOMS }
        requires numbers { next ≤ MAX_NUMBERS }
        ensures { result ≡ record { room = room; next = next; nodes = map.empty } }
    {
        Shard {
            room,
            next,
            nodes: Nodes::new(alloc),
        }
    }

    /// Adds a key to this room, or raises its count by one. `Spent` has the count of all numbers where they
    /// are used up, or the greatest count where the key has it. A refusal changes nothing.
    pub fn know_or_add(&mut self, key: NodeKey) -> Result<Interned, ShardFault>
        requires { room key ≡ self.old.room }
        ensures answer { Interns self.old key result self.new }
        ensures sound { IsSound self.new }
        ensures same_room { self.new.room ≡ self.old.room }
    {
        let key = HashedKey { key };
        if self.next >= MAX_NUMBERS {
            return match self.nodes.place_of_key(&key) {
                Some(place) => raise(&mut self.nodes, place),
                None => Err(ShardFault::Spent(MAX_NUMBERS)),
            };
        }
        let number = STORE_ROOMS * self.next + u64::from(self.room);
        match self.nodes.find_or_add(key, number) {
            FoundOrAdded::There(place) => raise(&mut self.nodes, place),
            FoundOrAdded::Added => {
                self.next += 1;
                Ok(Interned::New(number))
            }
            FoundOrAdded::NoMemory => Err(ShardFault::Memory),
        }
    }

    /// Whether a node has this number.
    pub fn has(&self, n: u64) -> bool
        ensures { result ≡ is_some (node_at self.now n) }
    {
        self.nodes.place(n).is_some()
    }

    /// The key under a number that a node has.
    pub fn node(&self, n: u64) -> NodeKey
        requires { IsSome (node_at self.now n) }
        ensures { option_map (λ s. s.key) (node_at self.now n) ≡ Some result }
    {
        match self.nodes.place(n) {
            Some(place) => self.nodes.key(place),
            None => unreachable!(),
        }
    }

    /// The count under a number that a node has: from 1 to `MAX_COUNT`.
    pub fn count(&self, n: u64) -> u64
        requires { IsSome (node_at self.now n) }
        ensures { option_map (λ s. s.count) (node_at self.now n) ≡ Some result }
    {
        match self.nodes.place(n) {
            Some(place) => self.nodes.count(place),
            None => unreachable!(),
        }
    }

    /// The index of the number that the next new key gets. It never falls.
    pub fn next(&self) -> u64
        ensures value { result ≡ self.now.next }
        ensures sound { IsSound self.now }
    {
        self.next
    }

    /// How many nodes there are.
    pub fn len(&self) -> u64
        ensures { result ≡ map.len self.now.nodes }
    {
        self.nodes.len() as u64
    }

    /// Lowers the count of a node by one, and removes the node where that was its last.
    pub fn drop_one(&mut self, n: u64) -> Dropped
        requires { IsSome (node_at self.old n) }
        ensures answer { Drops self.old n result self.new }
        ensures sound { IsSound self.new }
        ensures same_room { self.new.room ≡ self.old.room }
    {
        let Some(place) = self.nodes.place(n) else {
            unreachable!()
        };
        let count = self.nodes.count(place);
        if count > LAST_COUNT {
            self.nodes.set_count(place, count - 1);
            return Dropped::Kept;
        }
        self.nodes.give_back();
        Dropped::Removed(self.nodes.take(place))
    }
}
