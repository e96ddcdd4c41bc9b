ghost use Rattle.std.specs.Prelude.{◌≡◌, ◌∷◌, [], List, IfOk};
ghost use Rattle.node_key.specs.Examples.{half, tenth, track_of_half};
ghost use Rattle.node_key.specs.Stakes.{stake};
ghost use Rattle.node_key.specs.Tree.{Tree};
ghost use Rattle.node_key.specs.declared.stake.Stake.{Stake};
ghost use Rattle.node_store.specs.Answering.{Owns, answered_number};
ghost use Rattle.node_store.specs.Kept.{KeepsFor};

use node_key::MAX_NUMBERS;
use node_store::NodeStore;
use shard_core::{Interned, ShardFault};
use std::process::Abort;
use std::test::Fail;
use test_keys::{key_of_f, key_of_main, key_of_track};

fn number(answer: Interned) -> u64
    ensures { result ≡ answered_number answer }
{
    match answer {
        Interned::Known(n) => n,
        Interned::New(n) => n,
    }
}

fn intern_f(store: &mut NodeStore) -> Result<u64, ShardFault>
    requires { (others : List Stake) × KeepsFor store.old others }
    ensures stakes { (xs : List Stake) → Owns store.old xs
        → IfOk result (λ n. Owns store.new (stake n tenth ∷ xs)) }
    ensures kept { (others : List Stake) → KeepsFor store.old others → KeepsFor store.new others }
{
    Ok(number(store.intern(key_of_f())?))
}

fn intern_main(store: &mut NodeStore, f: u64, again: u64) -> Result<u64, ShardFault>
    requires kept { (others : List Stake) × KeepsFor store.old others }
    requires kids { (xs : List Stake) × Owns store.old (stake f tenth ∷ stake again tenth ∷ xs) }
    ensures stakes { (xs : List Stake) → Owns store.old (stake f tenth ∷ stake again tenth ∷ xs)
        → IfOk result (λ n. Owns store.new (stake n half ∷ xs)) }
    ensures kept { (others : List Stake) → KeepsFor store.old others → KeepsFor store.new others }
{
    Ok(number(store.intern(key_of_main(f, again))?))
}

fn intern_track(store: &mut NodeStore, main: u64) -> Result<u64, ShardFault>
    requires kept { (others : List Stake) × KeepsFor store.old others }
    requires kids { (xs : List Stake) × Owns store.old (stake main half ∷ xs) }
    ensures stakes { (xs : List Stake) → Owns store.old (stake main half ∷ xs)
        → IfOk result (λ n. Owns store.new (stake n track_of_half ∷ xs)) }
    ensures kept { (others : List Stake) → KeepsFor store.old others → KeepsFor store.new others }
{
    Ok(number(store.intern(key_of_track(main))?))
}

// Interns the track, leaf by leaf.
fn build(store: &mut NodeStore) -> Result<u64, ShardFault>
    requires kept { (others : List Stake) × KeepsFor store.old others }
    requires owned { (xs : List Stake) × Owns store.old xs }
    ensures stakes { (xs : List Stake) → Owns store.old xs
        → IfOk result (λ n. Owns store.new (stake n track_of_half ∷ xs)) }
    ensures kept { (others : List Stake) → KeepsFor store.old others → KeepsFor store.new others }
{
    let again = intern_f(store)?;
    let f = intern_f(store)?;
    let main = intern_main(store, f, again)?;
    intern_track(store, main)
}

// Gives back two stakes, one after the other; so many nodes are there between.
fn release_two<R: Abort>(store: &mut NodeStore, rt: &R, first: u64, between: u64, second: u64)
    requires owned { (t u : Tree) × Owns store.old (stake first t ∷ stake second u ∷ []) }
    requires kept { KeepsFor store.old [] }
    ensures owned { Owns store.new [] }
    ensures kept { KeepsFor store.new [] }
{
    store.release(first);
    assert_eq!(rt; store.live(), between);
    store.release(second);
    assert_eq!(rt; store.live(), 0);
}

// The same track twice: the same three nodes, which go with the second of its stakes. A number isn't given
// again.
fn build_twice<R: Abort>(store: &mut NodeStore, rt: &R) -> Result<(), ShardFault>
    requires owned { Owns store.old [] }
    requires kept { KeepsFor store.old [] }
{
    let root = build(store)?;
    assert_eq!(rt; (root, store.live()), (4, 3));
    let again = build(store)?;
    assert_eq!(rt; (again, store.live()), (4, 3));
    release_two(store, rt, again, 3, root);
    let f = intern_f(store)?;
    assert_eq!(rt; (f, store.live()), (16, 1));
    Ok(())
}

#[test]
fn a_track_is_three_nodes_and_goes(rt: HostRuntime) -> Result<(), Fail> {
    let mut store = NodeStore::starting_at(rt.alloc(), 0)?;
    assert_eq!(rt; store.live(), 0);
    Ok(build_twice(&mut store, &rt)?)
}

// The first stake is published, and the other one given back: the first node stays, and goes with the
// published stake.
fn publish_first<R: Abort>(store: &mut NodeStore, rt: &R, root: u64, other: u64)
    requires owned { (t u : Tree) × Owns store.old (stake root t ∷ stake other u ∷ []) }
    requires kept { KeepsFor store.old [] }
{
    store.hand_over(root);
    store.release(other);
    assert_eq!(rt; store.live(), 1);
    store.drop_other(root);
    assert_eq!(rt; store.live(), 0);
}

// f is published, and main calls it: without main's stake it stays, and goes with the published one.
fn publish_a_kid<R: Abort>(store: &mut NodeStore, rt: &R) -> Result<(), ShardFault>
    requires owned { Owns store.old [] }
    requires kept { KeepsFor store.old [] }
{
    let again = intern_f(store)?;
    let f = intern_f(store)?;
    let main = intern_main(store, f, again)?;
    let root = intern_f(store)?;
    assert_eq!(rt; [f, again, main, root], [0, 0, 12, 0]);
    publish_first(store, rt, root, main);
    Ok(())
}

#[test]
fn a_root_that_is_also_a_kid(rt: HostRuntime) -> Result<(), Fail> {
    let mut store = NodeStore::starting_at(rt.alloc(), 0)?;
    Ok(publish_a_kid(&mut store, &rt)?)
}

// The last number of a room, and none after it.
fn give_last<R: Abort>(store: &mut NodeStore, rt: &R) -> Result<(), ShardFault>
    requires owned { Owns store.old [] }
    requires kept { KeepsFor store.old [] }
{
    let f = intern_f(store)?;
    let again = intern_f(store)?;
    assert_eq!(rt; (f, again), (17_592_186_044_400, 17_592_186_044_400));
    release_two(store, rt, again, 1, f);
    assert_eq!(rt; intern_f(store), Err(ShardFault::Spent(MAX_NUMBERS)));
    assert_eq!(rt; store.live(), 0);
    Ok(())
}

#[test]
fn a_room_whose_next_number_is_the_last(rt: HostRuntime) -> Result<(), Fail> {
    let mut store = NodeStore::starting_at(rt.alloc(), MAX_NUMBERS - 1)?;
    Ok(give_last(&mut store, &rt)?)
}
