ghost use Rattle.std.specs.Prelude.{◌-◌, ◌≤◌, ◌<◌, All, IfOk};
ghost use Rattle.node_key.specs.Items.{FitBetween};
ghost use Rattle.node_key.specs.Tree.{height};
ghost use Rattle.trace_base.specs.Stream.{IsLegal};

use call_tree::{events_of, split, tree_of};
use node_key::{CallTree, Item, MAX_HEIGHT, MAX_KIDS};
use std::alloc::Global;
use std::test::Fail;
use trace_base::{Event, MAX_TIME, Memory, Seq, TrackStream};

const MAIN_AND_TWO_CALLS: [Event; 6] = [
    Event::Enter(1, 0),
    Event::Enter(2, 100_000_000),
    Event::Leave(200_000_000),
    Event::Enter(2, 300_000_000),
    Event::Leave(400_000_000),
    Event::Leave(500_000_000),
];

// A stream that is legal: main calls f twice.
fn two_calls(alloc: Global) -> Result<TrackStream, Memory>
    ensures { IfOk result (λ s. IsLegal s) }
{
    let events = Seq::from_slice(alloc, &MAIN_AND_TWO_CALLS)?;
    Ok(TrackStream {
        start: 0,
        end: 500_000_000,
        events,
    })
}

// Calls of no time, one at each nanosecond.
fn in_a_row(alloc: Global, number: u64) -> Result<Seq<Item>, Memory>
    requires { number ≤ 1000 }
    ensures placed { IfOk result (λ is. FitBetween 0 MAX_TIME is) }
    ensures low { IfOk result (λ is. All (λ i. height i.tree ≤ MAX_HEIGHT - MAX_KIDS) is) }
{
    let mut items = Seq::new(alloc);
    for at in 0..number {
        let tree = CallTree::new(alloc, 2, at, at, Seq::new(alloc))?;
        items.push(Item { at, tree })?;
    }
    Ok(items)
}

/// A node of a tree, as it is seen: the gap before it, its function, its duration, its height, and how many
/// kids it has.
#[derive(Clone, Copy, Debug, PartialEq, Eq)]
struct Seen {
    gap: u64,
    func: u32,
    dur: u64,
    height: u16,
    len: u8,
}

// Adds the nodes of a tree that comes after this gap, each before those below it.
fn push_nodes(list: &mut Seq<Seen>, gap: u64, t: &CallTree) -> Result<(), Memory> {
    list.push(Seen {
        gap,
        func: t.func(),
        dur: t.dur(),
        height: t.height(),
        len: t.len(),
    })?;
    for i in 0..t.len() {
        push_nodes(list, t.gap(i), t.kid(i))?;
    }
    Ok(())
}

// The nodes of the tree of main and two calls, with one look at each.
fn nodes_of_two_calls(alloc: Global) -> Result<Seq<Seen>, Memory> {
    let mut nodes = Seq::new(alloc);
    let tree = tree_of(alloc, &two_calls(alloc)?)?;
    match push_nodes(&mut nodes, 0, &tree) {
        Ok(()) => Ok(nodes),
        Err(Memory) => Err(Memory),
    }
}

/// The nodes of the tree of main and two calls.
const NODES: [Seen; 4] = [
    Seen {
        gap: 0,
        func: 0,
        dur: 500_000_000,
        height: 2,
        len: 1,
    },
    Seen {
        gap: 0,
        func: 1,
        dur: 500_000_000,
        height: 1,
        len: 2,
    },
    Seen {
        gap: 100_000_000,
        func: 2,
        dur: 100_000_000,
        height: 0,
        len: 0,
    },
    Seen {
        gap: 100_000_000,
        func: 2,
        dur: 100_000_000,
        height: 0,
        len: 0,
    },
];

#[test]
fn the_tree_of_main_and_two_calls(rt: HostRuntime) -> Result<(), Fail> {
    let nodes = nodes_of_two_calls(rt.alloc())?;
    assert_eq!(rt; nodes.as_slice(), NODES.as_slice());
    Ok(())
}

#[test]
fn the_events_of_a_tree_from_a_time_on(rt: HostRuntime) -> Result<(), Fail> {
    let alloc = rt.alloc();
    let tree = tree_of(alloc, &two_calls(alloc)?)?;
    assert_eq!(rt; tree.dur(), 500_000_000);
    let events = events_of(alloc, &tree, 1_000_000_000)?;
    let wanted = [
        Event::Enter(1, 1_000_000_000),
        Event::Enter(2, 1_100_000_000),
        Event::Leave(1_200_000_000),
        Event::Enter(2, 1_300_000_000),
        Event::Leave(1_400_000_000),
        Event::Leave(1_500_000_000),
    ];
    assert_eq!(rt; events.as_slice(), wanted.as_slice());
    Ok(())
}

// How many items are left of so many calls in a row, and how many kids the first has and how high it is.
fn seen_of_bounded(alloc: Global, number: u64) -> Result<(usize, u8, u16), Memory>
    requires { number ≤ 1000 }
{
    let items = split(alloc, in_a_row(alloc, number)?)?;
    match items.get(0) {
        Some(first) => Ok((items.len(), first.tree.len(), first.tree.height())),
        None => Ok((0, 0, 0)),
    }
}

#[test]
fn lists_of_calls_are_bounded(rt: HostRuntime) -> Result<(), Fail> {
    for (number, left, kids, high) in [
        (8, 8, 0, 0),
        (9, 2, 8, 1),
        (16, 2, 8, 1),
        (17, 3, 8, 1),
        (65, 2, 8, 2),
    ] {
        assert_eq!(rt; seen_of_bounded(rt.alloc(), number)?, (left, kids, high));
    }
    Ok(())
}
