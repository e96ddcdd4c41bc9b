//! What seats do in turn, what they are told, and what is seen of their hall.
ghost use Rattle.std.specs.Prelude.{◌≤◌, IfOk};
ghost use Rattle.node_key.specs.declared.limits.TheConstants.{MAX_NUMBERS};
ghost use Rattle.hall_core.specs.World.{IsGood};

use crate::keys::{Key, key_of};
use hall_core::{HallEvent, ReadOf, RunFault, StepAnswer, World, run_events};
use node_key::{MAX_NUMBERS, STORE_ROOMS};
use shard_core::{Dropped, Interned};
use std::alloc::Global;
use std::process::Abort;
use std::test::Fail;
use trace_base::{Memory, Seq};

/// What a seat does.
#[derive(Clone, Copy)]
pub(crate) enum Act {
    Intern(Key),
    Read(u64),
    Drop(u64),
    Split,
    /// It splits a pass that it doesn't have.
    SplitPass,
    Join(usize),
}

fn event_of(act: Act) -> HallEvent {
    match act {
        Act::Intern(key) => HallEvent::Intern(key_of(key)),
        Act::Read(n) => HallEvent::Read(ReadOf::Node(n)),
        Act::Drop(n) => HallEvent::Drop(n),
        Act::Split => HallEvent::Split(None),
        Act::SplitPass => HallEvent::Split(Some((0, 0))),
        Act::Join(other) => HallEvent::Join(other),
    }
}

/// What it is told.
#[derive(Clone, Copy)]
pub(crate) enum Told {
    New(u64),
    Known(u64),
    Node(Key),
    Kept,
    Removed(Key),
    Split,
    Joined,
    Spent(u64),
}

fn answer_of(told: Told) -> StepAnswer {
    match told {
        Told::New(n) => StepAnswer::Interned(Interned::New(n)),
        Told::Known(n) => StepAnswer::Interned(Interned::Known(n)),
        Told::Node(key) => StepAnswer::Node(key_of(key)),
        Told::Kept => StepAnswer::Dropped(Dropped::Kept),
        Told::Removed(key) => StepAnswer::Dropped(Dropped::Removed(key_of(key))),
        Told::Split => StepAnswer::Split,
        Told::Joined => StepAnswer::Joined,
        Told::Spent(n) => StepAnswer::Spent(n),
    }
}

// The seats of these indexes do this, one after the other.
fn run(alloc: Global, w: &mut World, list: &[(usize, Act)]) -> Result<Seq<StepAnswer>, RunFault>
    requires { IsGood w.old }
    ensures { IsGood w.new }
{
    let mut events = Vec::new(alloc);
    for (actor, act) in list {
        if events.push((*actor, event_of(*act))).is_err() {
            return Err(RunFault::Memory(0));
        }
    }
    run_events(alloc, w, &events)
}

/// They do it, and are told this.
pub(crate) fn make<R: Abort>(
    rt: &R,
    alloc: Global,
    w: &mut World,
    list: &[(usize, Act)],
    told: &[Told],
)
    requires { IsGood w.old }
    ensures { IsGood w.new }
{
    match run(alloc, w, list) {
        Ok(answers) => {
            assert_eq!(rt; answers.len(), told.len());
            for (answer, wanted) in answers.as_slice().iter().zip(told) {
                assert_eq!(rt; *answer, answer_of(*wanted));
            }
        }
        Err(_) => panic!(rt; "refused"),
    }
}

// The one of this index may not be done.
fn may_not<R: Abort>(rt: &R, alloc: Global, w: &mut World, list: &[(usize, Act)], at: usize)
    requires { IsGood w.old }
    ensures { IsGood w.new }
{
    match run(alloc, w, list) {
        Ok(_) => panic!(rt; "not refused"),
        Err(fault) => assert_eq!(rt; fault, RunFault::NotAllowed(at)),
    }
}

// How many nodes there are.
fn stored(w: &World) -> u64 {
    let mut nodes: u64 = 0;
    for room in w.state.shards.as_slice() {
        nodes = nodes.saturating_add(room.len());
    }
    nodes
}

// The count of the node of this number, 0 where there is none.
fn count_of(w: &World, n: u64) -> u64 {
    match w.state.shards.get((n % STORE_ROOMS) as usize) {
        Some(room) => { if room.has(n) { room.count(n) } else { 0 } }
        None => 0,
    }
}

// How many of the numbers are this one.
fn times(n: u64, numbers: &[u64]) -> usize {
    numbers.iter().filter(|m| **m == n).count()
}

// The seat has stakes on these numbers, in whatever order, and no others.
fn has_stakes<R: Abort>(rt: &R, w: &World, seat: usize, numbers: &[u64]) {
    match w.seats.get(seat) {
        Some(seat) => {
            assert_eq!(rt; seat.stakes.len(), numbers.len());
            for n in numbers {
                let on = seat
                    .stakes
                    .as_slice()
                    .iter()
                    .filter(|x| x.number == *n)
                    .count();
                assert_eq!(rt; on, times(*n, numbers));
            }
        }
        None => panic!(rt; "no seat"),
    }
}

/// What the seats of a hall do, or what is seen of it.
#[derive(Clone, Copy)]
pub(crate) enum Turn<'a> {
    /// They do this, and are told that.
    Make(&'a [(usize, Act)], &'a [Told]),
    /// They do this up to the one of this index, which its seat may not do.
    MayNot(&'a [(usize, Act)], usize),
    /// The seat has stakes on these numbers, and no others.
    Stakes(usize, &'a [u64]),
    /// So many nodes are stored.
    Nodes(u64),
    /// The node of this number has this count, which is 0 where there is none.
    Count(u64, u64),
    /// So many seats are there.
    Seats(usize),
}

pub(crate) fn take<R: Abort>(rt: &R, alloc: Global, w: &mut World, turn: Turn)
    requires { IsGood w.old }
    ensures { IsGood w.new }
{
    match turn {
        Turn::Make(list, told) => make(rt, alloc, w, list, told),
        Turn::MayNot(list, at) => may_not(rt, alloc, w, list, at),
        Turn::Stakes(seat, numbers) => has_stakes(rt, w, seat, numbers),
        Turn::Nodes(count) => assert_eq!(rt; stored(w), count),
        Turn::Count(n, count) => assert_eq!(rt; count_of(w, n), count),
        Turn::Seats(count) => assert_eq!(rt; w.seats.len(), count),
    }
}

/// A new hall with one seat.
pub(crate) fn new_hall(alloc: Global, first: u64) -> Result<World, Memory>
    requires { first ≤ MAX_NUMBERS }
    ensures { IfOk result (λ w. IsGood w) }
{
    World::new(alloc, first)
}

/// These turns are taken in a hall, one after the other.
pub(crate) fn take_all<R: Abort>(rt: &R, alloc: Global, w: &mut World, turns: &[Turn])
    requires { IsGood w.old }
    ensures { IsGood w.new }
{
    for turn in turns {
        take(rt, alloc, w, *turn);
    }
}

/// They are taken in a new hall, which gives its numbers from this index on.
pub(crate) fn play<R: Abort>(rt: &R, alloc: Global, first: u64, turns: &[Turn]) -> Result<(), Fail>
    requires { first ≤ MAX_NUMBERS }
{
    let mut w = new_hall(alloc, first)?;
    take_all(rt, alloc, &mut w, turns);
    Ok(())
}

/// The two calls of a recursion are interned.
pub(crate) const INNER: Act = Act::Intern(Key::Inner);

pub(crate) const OUTER: Act = Act::Intern(Key::Outer);

/// A stake is given back on the number that each has.
pub(crate) const ON_INNER: Act = Act::Drop(3);

pub(crate) const ON_OUTER: Act = Act::Drop(13);

/// The nodes of the track are interned.
pub(crate) const F: Act = Act::Intern(Key::F);

pub(crate) const MAIN: Act = Act::Intern(Key::Main);

pub(crate) const TRACK: Act = Act::Intern(Key::Track);

/// A second seat comes to be.
pub(crate) const SPLIT: Turn = Turn::Make(&[(0, Act::Split)], &[Told::Split]);
