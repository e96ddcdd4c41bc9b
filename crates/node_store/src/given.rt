ghost use Rattle.std.specs.Prelude.{◌≡◌, ◌+◌, ◌-◌, ◌<◌, ◌≤◌, length, IfOk, OnErr, OnOk, IsSome, Some};
ghost use Rattle.node_key.specs.declared.limits.TheConstants.{STORE_ROOMS};
ghost use Rattle.node_store.specs.declared.numbered.Numbered.{Numbered};

use crate::numbered::Numbered;
use node_key::{NodeKey, STORE_ROOMS};
use std::alloc::Global;
use std::marker::Model;
use trace_base::{Memory, Seq};

/// The numbers that the store ever gave, room by room, each with its key and the owner's stakes on it. The
/// first number of each room has the index `first`.
#[derive(Drop)]
pub(crate) struct NumbersGiven {
    first: u64,
    rooms: Vec<Seq<Numbered>>,
}

impl Model for NumbersGiven {
    ghost use Rattle.node_store.specs.Given.{Given, given_code};

    ghost Value = { Given };

    ghost coded = { given_code };

    ghost view = { λ a. record { first = a.first; rooms = a.rooms.items } };
}

impl NumbersGiven {
    ghost use Rattle.std.specs.Prelude.{[], replicate, ◌^◌};
    ghost use Rattle.node_store.specs.Given.{Given, ever, given_entry, staked_at};
    ghost use Rattle.node_store.specs.Changes.{with_last, with_staked};

    /// No number was given yet.
    pub(crate) fn starting_at(alloc: Global, first: u64) -> Result<NumbersGiven, Memory>
        ensures { IfOk result (λ g. g ≡ record { first = first; rooms = replicate STORE_ROOMS [] }) }
    {
        let mut rooms = Vec::new(alloc);
        for _ in 0..STORE_ROOMS {
            rooms.push(Seq::new(alloc))?;
        }
        Ok(NumbersGiven { first, rooms })
    }

    // What was given under a number.
    fn entry(&self, n: u64) -> Numbered
        requires { IsSome (given_entry self.now n) }
        ensures { given_entry self.now n ≡ Some result }
    {
        let place = n / STORE_ROOMS - self.first;
        match self.rooms[(n % STORE_ROOMS) as usize].get(place as usize) {
            Some(entry) => *entry,
            None => unreachable!(),
        }
    }

    /// The key that a number was given to.
    pub(crate) fn key(&self, n: u64) -> NodeKey
        requires { IsSome (given_entry self.now n) }
        ensures { ever self.now n ≡ Some result }
    {
        self.entry(n).key
    }

    /// Gives a room's next number to a key, with one stake on it.
    pub(crate) fn add(&mut self, room: usize, key: NodeKey) -> Result<(), Memory>
        requires { room < length self.old.rooms }
        ensures ok { OnOk result (self.new ≡ with_last self.old room (record { key = key; staked = 1 })) }
        ensures err { OnErr result (self.new ≡ self.old) }
    {
        self.rooms[room].push(Numbered { key, staked: 1 })
    }

    /// Takes a room's last number back.
    pub(crate) fn take_back(&mut self, room: usize)
        requires { room < length self.old.rooms }
        ensures { (before : Given) (e : Numbered) → room < length before.rooms
            → self.old ≡ with_last before room e → self.new ≡ before }
    {
        self.rooms[room].pop();
    }

    /// Takes a room's last number back, and has one stake more on the number of its key, which is known.
    pub(crate) fn know(&mut self, room: usize, n: u64)
        requires { (before : Given) × (e : Numbered) × (room < length before.rooms)
            × (self.old ≡ with_last before room e) × IsSome (given_entry before n)
            × (staked_at before n + 1 < 2 ^ 64) }
        ensures { (before : Given) (e : Numbered) → room < length before.rooms
            → self.old ≡ with_last before room e → self.new ≡ with_staked before n (staked_at before n + 1) }
    {
        self.take_back(room);
        let staked = self.entry(n).staked;
        self.set_staked(n, staked + 1);
    }

    // Writes how many stakes the owner has on a number.
    fn set_staked(&mut self, n: u64, staked: u64)
        requires { IsSome (given_entry self.old n) }
        ensures { self.new ≡ with_staked self.old n staked }
    {
        let key = self.key(n);
        let place = n / STORE_ROOMS - self.first;
        self.rooms[(n % STORE_ROOMS) as usize].set(place as usize, Numbered { key, staked });
    }

    /// One stake less on a number.
    pub(crate) fn unstake(&mut self, n: u64)
        requires { 1 ≤ staked_at self.old n }
        ensures { self.new ≡ with_staked self.old n (staked_at self.old n - 1) }
    {
        let staked = self.entry(n).staked;
        self.set_staked(n, staked - 1);
    }
}
