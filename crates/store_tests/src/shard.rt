ghost use Rattle.std.specs.Prelude.{◌≡◌, ◌+◌, ◌<◌, ◌≤◌};
ghost use Rattle.node_key.specs.declared.limits.TheConstants.{MAX_NUMBERS, STORE_ROOMS};

use node_key::{Kid, MAX_NUMBERS, NodeKey, room_of_key};
use shard_core::{Dropped, Interned, MAX_COUNT, Shard, ShardFault};
use std::alloc::Global;
use std::process::Abort;
use std::test::Fail;

const FIRST: Kid = Kid {
    gap: 1,
    span: 2,
    node: 16,
};

const SECOND: Kid = Kid {
    gap: 3,
    span: 4,
    node: 32,
};

const ALL_ZERO: Kid = Kid {
    gap: 0,
    span: 0,
    node: 0,
};

// A node over two kids.
fn over(height: u16, first: Kid, second: Kid) -> NodeKey
    requires higher { 1 ≤ height }
    requires within { first.gap + first.span + second.gap + second.span ≤ 100 }
{
    NodeKey::over(5, 100, height, &[first, second])
}

/// The keys of the tests: two leaves in room 3, and nodes over two kids in room 10 that differ in one part.
#[derive(Clone, Copy)]
enum Key {
    LeafOf3,
    LeafOf19,
    TwoKids,
    /// Another gap before the first kid.
    OtherGap,
    /// The first kid lasts longer.
    OtherSpan,
    /// The first kid is another node.
    OtherNumber,
    /// The node is higher.
    OtherHeight,
    /// There is a kid more, which is all zero.
    OtherLen,
    /// The kids in the other order.
    OtherOrder,
}

fn key_of(key: Key) -> NodeKey {
    match key {
        Key::LeafOf3 => NodeKey::leaf(3, 0),
        Key::LeafOf19 => NodeKey::leaf(19, 0),
        Key::TwoKids => over(1, FIRST, SECOND),
        Key::OtherGap => over(1, Kid { gap: 17, ..FIRST }, SECOND),
        Key::OtherSpan => over(1, Kid { span: 18, ..FIRST }, SECOND),
        Key::OtherNumber => over(1, Kid { node: 32, ..FIRST }, SECOND),
        Key::OtherHeight => over(17, FIRST, SECOND),
        Key::OtherLen => NodeKey::over(5, 100, 1, &[FIRST, SECOND, ALL_ZERO]),
        Key::OtherOrder => over(1, SECOND, FIRST),
    }
}

/// What is done with a room, or seen of it.
#[derive(Clone, Copy)]
enum Turn {
    /// The key is entered, and answered this.
    Enter(Key, Result<Interned, ShardFault>),
    /// A node has this number, this key and this count.
    Node(u64, Key, u64),
    /// A count of the node of this number is dropped, and the node goes if a key is named.
    Drop(u64, Option<Key>),
    /// The index of the next number, and how many nodes there are.
    Next(u64, u64),
}

fn dropped(removed: Option<Key>) -> Dropped {
    match removed {
        Some(key) => Dropped::Removed(key_of(key)),
        None => Dropped::Kept,
    }
}

fn enter<R: Abort>(
    rt: &R,
    shard: &mut Shard,
    room: u8,
    key: NodeKey,
    answer: Result<Interned, ShardFault>,
)
    requires { shard.old.room ≡ room }
    ensures { shard.new.room ≡ room }
{
    assert_eq!(rt; room_of_key(&key), room);
    assert_eq!(rt; shard.know_or_add(key), answer);
}

fn see<R: Abort>(rt: &R, shard: &Shard, n: u64, key: NodeKey, count: u64) {
    assert!(rt; shard.has(n));
    assert!(rt; shard.node(n) == key);
    assert_eq!(rt; shard.count(n), count);
}

fn lower<R: Abort>(rt: &R, shard: &mut Shard, room: u8, n: u64, left: Dropped)
    requires { shard.old.room ≡ room }
    ensures { shard.new.room ≡ room }
{
    assert!(rt; shard.has(n));
    assert!(rt; shard.drop_one(n) == left);
}

fn take<R: Abort>(rt: &R, shard: &mut Shard, room: u8, turn: Turn)
    requires { shard.old.room ≡ room }
    ensures { shard.new.room ≡ room }
{
    match turn {
        Turn::Enter(key, answer) => enter(rt, shard, room, key_of(key), answer),
        Turn::Node(n, key, count) => see(rt, shard, n, key_of(key), count),
        Turn::Drop(n, removed) => lower(rt, shard, room, n, dropped(removed)),
        Turn::Next(next, len) => assert_eq!(rt; (shard.next(), shard.len()), (next, len)),
    }
}

// These turns are taken in a room, one after the other.
fn take_all<R: Abort>(rt: &R, shard: &mut Shard, room: u8, turns: &[Turn])
    requires { shard.old.room ≡ room }
    ensures { shard.new.room ≡ room }
{
    for turn in turns {
        take(rt, shard, room, *turn);
    }
}

// They are taken in a new room, which gives its numbers from this index on.
fn play<R: Abort>(rt: &R, alloc: Global, room: u8, next: u64, turns: &[Turn])
    requires one_of_them { room < STORE_ROOMS }
    requires numbers { next ≤ MAX_NUMBERS }
{
    let mut shard = Shard::starting_at(alloc, room, next);
    take_all(rt, &mut shard, room, turns);
}

const LAST: u64 = 17_592_186_044_403;

const LAST_NUMBER: [Turn; 9] = [
    Turn::Enter(Key::LeafOf3, Ok(Interned::New(LAST))),
    Turn::Enter(Key::LeafOf19, Err(ShardFault::Spent(MAX_NUMBERS))),
    Turn::Enter(Key::LeafOf3, Ok(Interned::Known(LAST))),
    Turn::Next(MAX_NUMBERS, 1),
    Turn::Node(LAST, Key::LeafOf3, 2),
    Turn::Drop(LAST, None),
    Turn::Drop(LAST, Some(Key::LeafOf3)),
    Turn::Next(MAX_NUMBERS, 0),
    Turn::Enter(Key::LeafOf3, Err(ShardFault::Spent(MAX_NUMBERS))),
];

#[test]
fn the_last_number_of_a_room(rt: HostRuntime) -> Result<(), Fail> {
    play(&rt, rt.alloc(), 3, MAX_NUMBERS - 1, &LAST_NUMBER);
    Ok(())
}

const ONE_PART: [Turn; 12] = [
    Turn::Next(0, 0),
    Turn::Enter(Key::TwoKids, Ok(Interned::New(10))),
    Turn::Enter(Key::OtherGap, Ok(Interned::New(26))),
    Turn::Enter(Key::OtherSpan, Ok(Interned::New(42))),
    Turn::Enter(Key::OtherNumber, Ok(Interned::New(58))),
    Turn::Enter(Key::OtherHeight, Ok(Interned::New(74))),
    Turn::Enter(Key::OtherLen, Ok(Interned::New(90))),
    Turn::Enter(Key::OtherOrder, Ok(Interned::New(106))),
    Turn::Next(7, 7),
    Turn::Enter(Key::OtherGap, Ok(Interned::Known(26))),
    Turn::Enter(Key::TwoKids, Ok(Interned::Known(10))),
    Turn::Next(7, 7),
];

#[test]
fn keys_that_differ_in_one_part(rt: HostRuntime) -> Result<(), Fail> {
    play(&rt, rt.alloc(), 10, 0, &ONE_PART);
    Ok(())
}

/// Each fault and its text.
const TEXTS: [(ShardFault, &str); 3] = [
    (ShardFault::Memory, "out of memory"),
    (
        ShardFault::Spent(MAX_NUMBERS),
        "number 1099511627776 is used up",
    ),
    (
        ShardFault::Spent(MAX_COUNT),
        "number 4611686018427387904 is used up",
    ),
];

#[test]
fn texts_of_faults(rt: HostRuntime) -> Result<(), Fail> {
    for (fault, text) in TEXTS {
        let told = format!(in rt.alloc(); "{fault}")?;
        assert_eq!(rt; told.as_str(), text);
    }
    Ok(())
}
