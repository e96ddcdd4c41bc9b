ghost use Rattle.std.specs.Prelude.{◌≡◌, [], ◌∷◌, ◌++◌, IfOk};
ghost use Rattle.call_tree.specs.Passing.{CanClose, MayCome, PassesEvent, closed_item};
ghost use Rattle.node_key.specs.Trees.{tree};
ghost use Rattle.trace_base.specs.Stream.{IsLegal};

use crate::bounding::split;
use crate::pass::Open;
use node_key::{CallTree, Item};
use std::alloc::Global;
use trace_base::{Event, Memory, Seq, TrackStream};

// An open call that ends at `stop`.
fn close(alloc: Global, innermost: Open, stop: u64) -> Result<Item, Memory>
    requires { CanClose innermost stop }
    ensures { IfOk result (λ i. i ≡ closed_item innermost stop) }
{
    let Open { func, start, items } = innermost;
    let bounded = split(alloc, items)?;
    let tree = CallTree::new(alloc, func, start, stop, bounded)?;
    Ok(Item { at: start, tree })
}

// Takes the open calls over one event: `around` has those round the innermost one, which stands by itself.
fn step(
    alloc: Global,
    around: &mut Vec<Open>,
    innermost: Open,
    event: Event,
) -> Result<Open, Memory>
    requires { MayCome event around.old.items innermost }
    ensures { IfOk result (λ now. PassesEvent around.old.items innermost event around.new.items now) }
{
    match event {
        Event::Enter(func, start) => {
            around.push(innermost)?;
            Ok(Open {
                func,
                start,
                items: Seq::new(alloc),
            })
        }
        Event::Leave(stop) => {
            let item = close(alloc, innermost, stop)?;
            match around.pop() {
                Some(outer) => with_item(outer, item),
                None => unreachable!(),
            }
        }
    }
}

// An open call with one more call in it.
fn with_item(innermost: Open, item: Item) -> Result<Open, Memory>
    ensures { IfOk result (λ now. now ≡ record {
      func = innermost.func;
      start = innermost.start;
      items = innermost.items ++ item ∷ [];
    }) }
{
    let Open {
        func,
        start,
        mut items,
    } = innermost;
    items.push(item)?;
    Ok(Open { func, start, items })
}

/// The bounded tree of a legal stream: the group over its outermost calls, from its start to its end. One
/// pass over the events, with the calls that are open and what lies in each so far; nothing is copied but
/// items. At most 2,048 high.
pub fn tree_of(alloc: Global, s: &TrackStream) -> Result<CallTree, Memory>
    requires { IsLegal s.now }
    ensures { IfOk result (λ t. t ≡ tree s.now) }
{
    let mut around = Vec::new(alloc);
    let mut innermost = Open {
        func: 0,
        start: s.start,
        items: Seq::new(alloc),
    };
    for event in s.events.as_slice() {
        innermost = step(alloc, &mut around, innermost, *event)?;
    }
    let Item { at: _, tree } = close(alloc, innermost, s.end)?;
    Ok(tree)
}
