//! Groups of items.
ghost use Rattle.std.specs.Prelude.{◌≡◌, ◌≢◌, ◌+◌, ◌<◌, ◌≤◌, [], All, IfOk, OnOk, drop, length, take};
ghost use Rattle.std.specs.Vec.Iter.{into_iter_items};
ghost use Rattle.node_key.specs.Bound.{group, grouped, start_of, stop_of};
ghost use Rattle.node_key.specs.Items.{FitBetween};
ghost use Rattle.node_key.specs.Tree.{height};

use node_key::{CallTree, HEIGHT_BOUND, Item, MAX_KIDS};
use std::alloc::Global;
use std::vec::IntoIter;
use trace_base::{MAX_TIME, Memory, Seq};

// When the first item begins, in nanoseconds.
fn start(items: &[Item]) -> u64
    requires { 0 < length items.now }
    ensures { result ≡ start_of items.now }
{
    items[0].at
}

// When the last item ends, in nanoseconds.
fn stop(items: &[Item]) -> u64
    requires some { 0 < length items.now }
    requires placed { FitBetween 0 MAX_TIME items.now }
    ensures { result ≡ stop_of items.now }
{
    let last = &items[items.len() - 1];
    last.at + last.tree.dur()
}

// A chunk as one item: a group where it has several.
fn group_of(alloc: Global, mut chunk: Seq<Item>) -> Result<Item, Memory>
    requires some { 0 < length chunk }
    requires few { length chunk ≤ MAX_KIDS }
    requires placed { FitBetween 0 MAX_TIME chunk }
    requires low { All (λ i. height i.tree < HEIGHT_BOUND) chunk }
    ensures { IfOk result (λ i. i ≡ group chunk) }
{
    if chunk.len() == 1 {
        return match chunk.pop() {
            Some(item) => Ok(item),
            None => unreachable!(),
        };
    }
    let at = start(chunk.as_slice());
    let end = stop(chunk.as_slice());
    let tree = CallTree::new(alloc, 0, at, end, chunk)?;
    Ok(Item { at, tree })
}

// Takes the next 8 items, or those that are left.
fn next_chunk(alloc: Global, items: &mut IntoIter<Item>) -> Result<Seq<Item>, Memory>
    ensures chunk { IfOk result (λ c. c ≡ take MAX_KIDS (into_iter_items items.old)) }
    ensures rest { OnOk result (into_iter_items items.new ≡ drop MAX_KIDS (into_iter_items items.old)) }
{
    let mut chunk = Seq::new(alloc);
    for _ in 0..MAX_KIDS {
        match items.next() {
            Some(item) => chunk.push(item)?,
            None => return Ok(chunk),
        }
    }
    Ok(chunk)
}

/// The list in which each chunk is one item.
pub fn grouped_of(alloc: Global, items: Seq<Item>) -> Result<Seq<Item>, Memory>
    requires placed { FitBetween 0 MAX_TIME items }
    requires low { All (λ i. height i.tree < HEIGHT_BOUND) items }
    ensures { IfOk result (λ is. is ≡ grouped items) }
{
    let mut groups = Seq::new(alloc);
    let mut left = items.into_vec().into_iter();
    'chunks: loop {
        let chunk = next_chunk(alloc, &mut left)?;
        if chunk.is_empty() {
            return Ok(groups);
        }
        groups.push(group_of(alloc, chunk)?)?;
    }
}
