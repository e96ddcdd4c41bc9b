ghost use Rattle.std.specs.Prelude.{◌≡◌, ◌+◌, ◌<◌, ◌≤◌, ◌∷◌, [], ℕ, List, IfOk, IsSome, OnErr, OnOk, Some};
ghost use Rattle.std.specs.Prelude.{length};
ghost use Rattle.node_key.specs.Stakes.{Exchanges, HasStakes, stake};
ghost use Rattle.node_key.specs.declared.stake.Stake.{Stake};
ghost use Rattle.node_key.specs.Tree.{Tree};
ghost use Rattle.node_key.specs.declared.key.NodeKey.{NodeKey};
ghost use Rattle.node_key.specs.declared.limits.TheConstants.{MAX_NUMBERS, STORE_ROOMS};
ghost use Rattle.store_laws.specs.Store.{empty_store, nodes_in};
ghost use Rattle.node_store.specs.Given.{ever, stakes_of};

use crate::given::NumbersGiven;
use node_key::{NodeKey, STORE_ROOMS, room_of_key};
use shard_core::{Dropped, Interned, Shard, ShardFault};
use std::alloc::Global;
use std::marker::Model;
use trace_base::Memory;

/// The nodes of the trees of calls that one owner keeps, in rooms. The owner holds stakes on nodes by their
/// numbers, and the store counts them; others it counts elsewhere and gives them back here.
#[derive(Drop)]
pub struct NodeStore {
    shards: Vec<Shard>,
    given: NumbersGiven,
}

impl Model for NodeStore {
    ghost use Rattle.node_store.specs.Kept.{AreKept, NodesKept, kept_code};

    ghost Value = { NodesKept };

    ghost coded = { kept_code };

    ghost view = { λ a. record { rooms = a.shards.items; given = a.given } };

    ghost invariant = { λ a. AreKept (record { rooms = a.shards.items; given = a.given }) };
}

impl NodeStore {
    ghost use Rattle.node_store.specs.Kept.{AreKept, KeepsFor, KeepsNumbers, NextNeverFalls};
    ghost use Rattle.node_store.specs.Answering.{AnswersKey, GivesBack, GivesStake, HasKids, HasOther};
    ghost use Rattle.node_store.specs.Answering.{HasStakeOn, StoresKey, TakesStake};
    ghost use Rattle.node_store.specs.TreeUnder.{kid_stakes};

    /// A store without nodes, on which there are no stakes. Each room gives its numbers from the index
    /// `first` on.
    pub fn starting_at(alloc: Global, first: u64) -> Result<NodeStore, Memory>
        requires { first ≤ MAX_NUMBERS }
        ensures rooms { IfOk result (λ s. s.rooms ≡ empty_store first) }
        ensures stakes { IfOk result (λ s. stakes_of s.given ≡ []) }
        ensures kept { IfOk result (λ s. KeepsFor s []) }
        ensures sound { IfOk result AreKept }
    {
        let mut shards = Vec::new(alloc);
        for room in 0..STORE_ROOMS {
            shards.push(Shard::starting_at(alloc, room as u8, first))?;
        }
        let given = NumbersGiven::starting_at(alloc, first)?;
        Ok(NodeStore { shards, given })
    }

    /// Gives the owner's stakes on the kids of a key for one on the key's number. A key that the store has is
    /// known; any other gets its room's next number. `Spent` has the count of a room's numbers where the key
    /// is new and they are used up, or the greatest count where the key has it. A refusal changes nothing.
    pub fn intern(&mut self, key: NodeKey) -> Result<Interned, ShardFault>
        requires kids { HasKids self.old key }
        requires kept { (others : List Stake) × KeepsFor self.old others }
        ensures answer { AnswersKey self.old key result self.new }
        ensures stakes { IfOk result (λ answer. GivesStake self.old key answer self.new) }
        ensures kept { (others : List Stake) → KeepsFor self.old others → KeepsFor self.new others }
        ensures numbers { KeepsNumbers self.old self.new }
        ensures next { NextNeverFalls self.old self.new }
        ensures sound { AreKept self.new }
    {
        let answer = self.store_key(key)?;
        match answer {
            Interned::Known(_) => self.release_kids(&key),
            Interned::New(_) => self.hand_over_kids(&key),
        }
        Ok(answer)
    }

    // Stores a key in its room, with one stake of the owner more on its number. The memory for the number
    // comes first, so that nothing is left half done.
    fn store_key(&mut self, key: NodeKey) -> Result<Interned, ShardFault>
        requires kids { HasKids self.old key }
        requires kept { (others : List Stake) × KeepsFor self.old others }
        ensures stored { StoresKey self.old key result self.new }
        ensures before { AreKept self.old }
        ensures sound { AreKept self.new }
    {
        let room = usize::from(room_of_key(&key));
        let Ok(()) = self.given.add(room, key) else {
            return Err(ShardFault::Memory);
        };
        match self.shards[room].know_or_add(key) {
            Ok(Interned::New(n)) => Ok(Interned::New(n)),
            Ok(Interned::Known(n)) => {
                self.given.know(room, n);
                Ok(Interned::Known(n))
            }
            Err(fault) => {
                self.given.take_back(room);
                Err(fault)
            }
        }
    }

    // Gives back one of the owner's stakes on each kid of a key.
    fn release_kids(&mut self, key: &NodeKey)
        requires sound { AreKept self.old }
        requires staked { HasStakes (stakes_of self.old.given) (kid_stakes (ever self.old.given) key.now) }
        requires kept { (others : List Stake) × KeepsFor self.old others }
        ensures stakes { Exchanges (stakes_of self.old.given) (stakes_of self.new.given)
            (kid_stakes (ever self.old.given) key.now) [] }
        ensures kept { (others : List Stake) → KeepsFor self.old others → KeepsFor self.new others }
        ensures numbers { ever self.new.given ≡ ever self.old.given }
        ensures next { NextNeverFalls self.old self.new }
        ensures sound { AreKept self.new }
    {
        for kid in &key.kids[..key.len as usize] {
            self.release(kid.node);
        }
    }

    // Counts one of the owner's stakes on each kid of a key elsewhere.
    fn hand_over_kids(&mut self, key: &NodeKey)
        requires sound { AreKept self.old }
        requires staked { HasStakes (stakes_of self.old.given) (kid_stakes (ever self.old.given) key.now) }
        ensures stakes { Exchanges (stakes_of self.old.given) (stakes_of self.new.given)
            (kid_stakes (ever self.old.given) key.now) [] }
        ensures rooms { self.new.rooms ≡ self.old.rooms }
        ensures numbers { ever self.new.given ≡ ever self.old.given }
        ensures sound { AreKept self.new }
    {
        for kid in &key.kids[..key.len as usize] {
            self.hand_over(kid.node);
        }
    }

    /// Gives back one of the owner's stakes on a number. Where no other is left the node goes, and what it
    /// held of its kids is given back in turn. It takes no memory.
    pub fn release(&mut self, n: u64)
        requires staked { HasStakeOn self.old n }
        requires kept { (others : List Stake) × KeepsFor self.old others }
        ensures stakes { TakesStake self.old n self.new }
        ensures kept { (others : List Stake) → KeepsFor self.old others → KeepsFor self.new others }
        ensures numbers { ever self.new.given ≡ ever self.old.given }
        ensures next { NextNeverFalls self.old self.new }
        ensures sound { AreKept self.new }
    {
        self.hand_over(n);
        self.drop_other(n);
    }

    /// Makes one of the owner's stakes on a number one of the others, as for a root that is published. The
    /// nodes stay as they are, and it takes no memory.
    pub fn hand_over(&mut self, n: u64)
        requires { HasStakeOn self.old n }
        ensures stakes { TakesStake self.old n self.new }
        ensures rooms { self.new.rooms ≡ self.old.rooms }
        ensures kept { (others : List Stake) (t : Tree) → HasStakes (stakes_of self.old.given)
            (stake n t ∷ []) → KeepsFor self.old others
            → KeepsFor self.new (stake n t ∷ others) }
        ensures numbers { ever self.new.given ≡ ever self.old.given }
        ensures sound { AreKept self.new }
    {
        self.given.unstake(n);
    }

    /// Gives back one of the other stakes on a number. Where none is left the node goes, and what it held of
    /// its kids is given back in turn. It takes no memory.
    pub fn drop_other(&mut self, n: u64)
        requires { HasOther self.old n }
        ensures given { self.new.given ≡ self.old.given }
        ensures kept { GivesBack self.old n self.new }
        ensures next { NextNeverFalls self.old self.new }
        ensures sound { AreKept self.new }
    {
        match self.shards[(n % STORE_ROOMS) as usize].drop_one(n) {
            Dropped::Kept => {}
            Dropped::Removed(key) => {
                for kid in &key.kids[..key.len as usize] {
                    self.drop_other(kid.node);
                }
            }
        }
    }

    /// The key that a number was ever given to.
    pub fn key(&self, n: u64) -> NodeKey
        requires { IsSome (ever self.now.given n) }
        ensures { ever self.now.given n ≡ Some result }
    {
        self.given.key(n)
    }

    /// How many nodes there are.
    pub fn live(&self) -> u64
        ensures { result ≡ length (nodes_in self.now.rooms) }
    {
        let mut live = 0;
        for shard in &self.shards {
            live += shard.len();
        }
        live
    }
}
