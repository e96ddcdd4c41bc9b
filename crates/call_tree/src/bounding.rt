ghost use Rattle.std.specs.Prelude.{◌≡◌, ◌-◌, ◌≤◌, All, IfOk};
ghost use Rattle.node_key.specs.Bound.{bound};
ghost use Rattle.node_key.specs.Items.{FitBetween};
ghost use Rattle.node_key.specs.Tree.{height};

use crate::group::grouped_of;
use node_key::{Item, MAX_HEIGHT, MAX_KIDS};
use std::alloc::Global;
use trace_base::{MAX_TIME, Memory, Seq};

/// At most 8 items in place of a list of any length: while it has more, it is cut from the left into chunks
/// of 8, and each chunk of at least two becomes a group. The items don't overlap, their times, in
/// nanoseconds, don't fall, and they end within the greatest time. On `Memory` they are dropped.
pub fn split(alloc: Global, items: Seq<Item>) -> Result<Seq<Item>, Memory>
    requires placed { FitBetween 0 MAX_TIME items }
    requires low { All (λ i. height i.tree ≤ MAX_HEIGHT - MAX_KIDS) items }
    ensures { IfOk result (λ is. is ≡ bound items) }
{
    let mut bounded = items;
    let mut number = bounded.len();
    'levels: while number > MAX_KIDS {
        bounded = grouped_of(alloc, bounded)?;
        number = bounded.len();
    }
    Ok(bounded)
}
