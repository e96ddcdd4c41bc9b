ghost use Rattle.std.specs.Prelude.{◌≡◌, ◌+◌, ◌<◌, ◌≤◌, ◌∷◌, [], ℕ, List, IfOk};
ghost use Rattle.std.specs.List.{Contains};
ghost use Rattle.std.specs.Vec.{vec_capacity, vec_len};
ghost use Rattle.node_key.specs.Stakes.{Exchanges};
ghost use Rattle.node_key.specs.declared.stake.Stake.{Stake as Staked};
ghost use Rattle.node_key.specs.Tree.{Tree};
ghost use Rattle.node_key.specs.Stands.{Stands};
ghost use Rattle.store_laws.specs.Store.{IsCanonic, key_in};
ghost use Rattle.hall_core.specs.Allowed.{Allows};
ghost use Rattle.hall_core.specs.Answering.{AnswersDrop, AnswersIntern, WouldFree};
ghost use Rattle.hall_core.specs.OneTree.{IsStakedTree, OneTreeEach};
ghost use Rattle.hall_core.specs.Steps.{IsStep, handed_over, number_told};
ghost use Rattle.hall_core.specs.World.{IsGood};
ghost use Rattle.hall_core.specs.declared.events.HallEvent.TheVariants as event;
ghost use Rattle.hall_core.specs.declared.events.StepAnswer.TheVariants as answer;
ghost use Rattle.shard_core.specs.declared.answers.ShardFault.TheVariants as shard_fault;

use crate::events::StepAnswer;
use crate::rooms::{count, enter, lower, node};
use crate::stakes::{kid_stakes, staked_tree, take_kids, take_stake, tree_on};
use crate::world::World;
use node_key::{CallTree, NodeKey, Stake};
use shard_core::{Dropped, Interned, Shard, ShardFault};
use std::alloc::Global;
use std::mem;
use trace_base::{Memory, Seq};

// Adds the stake on the number of a key, for which there is space. The stakes on the kids of a new one are
// handed over to it.
fn add_interned(stakes: &mut Vec<Stake>, interned: Interned, key: &NodeKey, tree: CallTree)
    requires one { OneTreeEach stakes.old.items }
    requires staked { (kids : List Staked) × IsStakedTree stakes.old.items key.now tree kids }
    requires space { vec_len stakes.old < vec_capacity stakes.old }
    ensures { (kids : List Staked) → IsStakedTree stakes.old.items key.now tree kids
        → Exchanges stakes.old.items stakes.new.items (handed_over interned kids)
        (record { number = number_told interned; tree = tree } ∷ []) }
{
    let number = match interned {
        Interned::Known(n) => n,
        Interned::New(n) => {
            take_kids(stakes, key);
            n
        }
    };
    stakes.push_reserved(Stake { number, tree });
}

// What a refused key is answered.
fn refused(fault: ShardFault) -> StepAnswer
    ensures spent { (v : ℕ) → fault ≡ shard_fault.Spent v → result ≡ answer.Spent v }
    ensures memory { fault ≡ shard_fault.Memory → result ≡ answer.Memory }
{
    match fault {
        ShardFault::Spent(v) => StepAnswer::Spent(v),
        ShardFault::Memory => StepAnswer::Memory,
    }
}

// Enters a key of a tree over the stakes, for a stake on its number.
fn intern_in(
    alloc: Global,
    rooms: &mut Seq<Shard>,
    stakes: &mut Seq<Stake>,
    key: NodeKey,
) -> StepAnswer
    requires canonic { IsCanonic rooms.old }
    requires one { OneTreeEach stakes.old }
    requires staked { (t : Tree) × (kids : List Staked) × IsStakedTree stakes.old key t kids }
    ensures { AnswersIntern key result rooms.old stakes.old rooms.new stakes.new }
{
    let Ok(tree) = staked_tree(alloc, stakes.as_slice(), &key) else {
        return StepAnswer::Memory;
    };
    let mut list = mem::replace(stakes, Seq::new(alloc)).into_vec();
    let answer = match list.reserve(1) {
        Ok(()) => enter(alloc, rooms, key),
        Err(_) => Err(ShardFault::Memory),
    };
    let answer = match answer {
        Ok(interned) => {
            add_interned(&mut list, interned, &key, tree);
            StepAnswer::Interned(interned)
        }
        Err(fault) => refused(fault),
    };
    *stakes = Seq::from_vec(list);
    answer
}

/// The seat enters a key.
pub(crate) fn intern(alloc: Global, w: &mut World, actor: usize, key: NodeKey) -> StepAnswer
    requires good { IsGood w.old }
    requires allowed { Allows w.old actor (event.Intern key) }
    ensures { IsStep w.old actor (event.Intern key) result w.new }
{
    let mut seats = mem::replace(&mut w.seats, Seq::new(alloc)).into_vec();
    let answer = intern_in(alloc, &mut w.state.shards, &mut seats[actor].stakes, key);
    w.seats = Seq::from_vec(seats);
    answer
}

// The stakes that come free where this stake is the last count of its node; none where it isn't.
fn freed(alloc: Global, rooms: &[Shard], stakes: &[Stake], n: u64) -> Result<Vec<Stake>, Memory>
    requires there { (x : Staked) × Contains stakes.now x × (x.number ≡ n) }
    requires store { (x : Staked) → Contains stakes.now x → Stands (key_in rooms.now) x.number x.tree }
    ensures { IfOk result (λ kids. (x : Staked) → Contains stakes.now x → x.number ≡ n
        → WouldFree rooms.now x kids.items) }
{
    if count(rooms, n) > 1 {
        return Ok(Vec::new(alloc));
    }
    match tree_on(stakes, n) {
        Some(tree) => kid_stakes(alloc, &node(rooms, n), tree),
        None => unreachable!(),
    }
}

// Takes a stake on the number out, and adds those that come free, for which there is space.
fn exchange(stakes: &mut Vec<Stake>, n: u64, mut kids: Vec<Stake>)
    requires one { OneTreeEach stakes.old.items }
    requires there { (x : Staked) × Contains stakes.old.items x × (x.number ≡ n) }
    requires space { vec_len stakes.old + vec_len kids ≤ vec_capacity stakes.old }
    ensures { (x : Staked) → Contains stakes.old.items x → x.number ≡ n
        → Exchanges stakes.old.items stakes.new.items (x ∷ []) kids.items }
{
    take_stake(stakes, n);
    if stakes.append(&mut kids).is_err() {
        unreachable!();
    }
}

// Gives back a stake on the number.
fn give_back_in(
    alloc: Global,
    rooms: &mut Seq<Shard>,
    stakes: &mut Seq<Stake>,
    n: u64,
) -> StepAnswer
    requires canonic { IsCanonic rooms.old }
    requires one { OneTreeEach stakes.old }
    requires store { (x : Staked) → Contains stakes.old x → Stands (key_in rooms.old) x.number x.tree }
    requires there { (x : Staked) × Contains stakes.old x × (x.number ≡ n) }
    ensures { AnswersDrop n result rooms.old stakes.old rooms.new stakes.new }
{
    let Ok(kids) = freed(alloc, rooms.as_slice(), stakes.as_slice(), n) else {
        return StepAnswer::Memory;
    };
    let mut list = mem::replace(stakes, Seq::new(alloc)).into_vec();
    let answer = match list.reserve(kids.len()) {
        Ok(()) => {
            exchange(&mut list, n, kids);
            StepAnswer::Dropped(lower(alloc, rooms, n))
        }
        Err(_) => StepAnswer::Memory,
    };
    *stakes = Seq::from_vec(list);
    answer
}

/// The seat gives back a stake.
pub(crate) fn give_back(alloc: Global, w: &mut World, actor: usize, n: u64) -> StepAnswer
    requires good { IsGood w.old }
    requires allowed { Allows w.old actor (event.Drop n) }
    ensures { IsStep w.old actor (event.Drop n) result w.new }
{
    let mut seats = mem::replace(&mut w.seats, Seq::new(alloc)).into_vec();
    let answer = give_back_in(alloc, &mut w.state.shards, &mut seats[actor].stakes, n);
    w.seats = Seq::from_vec(seats);
    answer
}
