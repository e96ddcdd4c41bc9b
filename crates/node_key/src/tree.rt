ghost use Rattle.std.specs.Prelude.{◌≡◌, ◌+◌, ◌<◌, ◌≤◌, ◌↔◌, All, IfOk, IsTrue, Some, length, slice_get};
ghost use Rattle.std.specs.Option.{option_map};
ghost use Rattle.node_key.specs.Tree.{count, height, total};
ghost use Rattle.node_key.specs.declared.limits.TheConstants.{HEIGHT_BOUND, MAX_KIDS};

use crate::item::Item;
use sqlite_items::Items;
use std::alloc::Global;
use std::marker::Model;
use trace_base::{Memory, Seq};

/// A tree of calls.
#[cycle(call_tree)]
#[derive(Drop)]
pub struct CallTree {
    alloc: Global,
    func: u32,
    dur: u64,
    height: u16,
    kids: Items<Branch>,
}

/// A kid of a node: the nanoseconds from the end of the kid before it, or from the node's start, and its
/// tree.
#[cycle(call_tree)]
#[derive(Drop)]
pub struct Branch {
    pub gap: u64,
    pub tree: CallTree,
}

impl Model for CallTree {
    ghost use Rattle.std.specs.Prelude.{◌≡◌, ◌≤◌, length};
    ghost use Rattle.node_key.specs.Tree.{Tree, tree_code, total, height_above, nodes};
    ghost use Rattle.node_key.specs.declared.limits.TheConstants.{HEIGHT_BOUND, MAX_KIDS};

    ghost Value = { Tree };

    ghost coded = { tree_code };

    ghost use Rattle.node_key.specs.Branches.{kids_of};

    ghost view = { λ a. record { func = a.func; dur = a.dur; kids = kids_of a.kids } };

    ghost invariant = { λ a. (length a.kids ≤ MAX_KIDS) × (total (kids_of a.kids) ≤ a.dur)
        × (a.height ≡ height_above (kids_of a.kids)) × (a.height ≤ HEIGHT_BOUND) };

    ghost size = { nodes };

    ghost use Rattle.node_key.specs.TreeFalls.{branches_fall};

    ghost size_decreases = { λ a h. branches_fall a.kids };
}

impl CallTree {
    ghost use Rattle.node_key.specs.Branches.{branches};
    ghost use Rattle.node_key.specs.Items.{FitBetween, node};

    /// The tree of a call of `func`, or of a group where that is 0, from `start` to `end` over these items,
    /// which are times in nanoseconds. The items lie between them, in order, and don't overlap. On `Memory`
    /// they are dropped.
    pub fn new(
        alloc: Global,
        func: u32,
        start: u64,
        end: u64,
        items: Seq<Item>,
    ) -> Result<CallTree, Memory>
        requires few { length items ≤ MAX_KIDS }
        requires within { FitBetween start end items }
        requires low { All (λ i. height i.tree < HEIGHT_BOUND) items }
        ensures { IfOk result (λ t. t ≡ node func start end items) }
    {
        let mut kids = Items::new(alloc);
        let mut from = start;
        let mut highest: u16 = 0;
        for item in items.into_vec() {
            let Item { at, tree } = item;
            let end = at + tree.dur();
            highest = highest.max(tree.height() + 1);
            kids.push(Branch {
                gap: at - from,
                tree,
            })?;
            from = end;
        }
        Ok(CallTree {
            alloc,
            func,
            dur: end - start,
            height: highest,
            kids,
        })
    }

    /// The function of the node, or 0 for a group.
    pub fn func(&self) -> u32
        ensures { result ≡ self.now.func }
    {
        self.func
    }

    /// The duration in nanoseconds. The gaps and the durations of the kids add up to at most it.
    pub fn dur(&self) -> u64
        ensures value { result ≡ self.now.dur }
        ensures kids_within { total self.now.kids ≤ result }
    {
        self.dur
    }

    /// The height: 0 for a leaf, else one more than that of the highest kid.
    pub fn height(&self) -> u16
        ensures value { result ≡ height self.now }
        ensures bounded { result ≤ HEIGHT_BOUND }
    {
        self.height
    }

    /// The number of kids.
    #[tactic(auto, using(crate::proofs::Kids::kids))]
    pub fn len(&self) -> u8
        ensures value { result ≡ count self.now.kids }
        ensures few { result ≤ MAX_KIDS }
    {
        self.kids.len() as u8
    }

    /// Whether there are no kids.
    pub fn is_empty(&self) -> bool
        ensures { IsTrue result ↔ (count self.now.kids ≡ 0) }
    {
        self.len() == 0
    }

    /// The nanoseconds from the end of the kid before the i-th, counted from 0, or from the node's start.
    #[tactic(auto, using(crate::proofs::Kids::kids))]
    pub fn gap(&self, i: u8) -> u64
        requires { i < count self.now.kids }
        ensures { option_map (λ b. b.gap) (slice_get (branches self.now.kids) i) ≡ Some result }
    {
        self.kids.as_slice()[i as usize].gap
    }

    /// The i-th kid, counted from 0.
    #[tactic(auto, using(crate::proofs::Kids::kids))]
    pub fn kid(&self, i: u8) -> &CallTree
        requires { i < count self.now.kids }
        ensures { option_map (λ b. b.tree) (slice_get (branches self.now.kids) i) ≡ Some result.now }
    {
        &self.kids.as_slice()[i as usize].tree
    }

    /// An equal tree.
    pub fn copy(&self) -> Result<CallTree, Memory>
        ensures { IfOk result (λ t. t ≡ self.now) }
    {
        let mut kids = Items::new(self.alloc);
        for branch in self.kids.as_slice() {
            let tree = branch.tree.copy()?;
            kids.push(Branch {
                gap: branch.gap,
                tree,
            })?;
        }
        Ok(CallTree {
            alloc: self.alloc,
            func: self.func,
            dur: self.dur,
            height: self.height,
            kids,
        })
    }
}
