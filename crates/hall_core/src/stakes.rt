ghost use Rattle.std.specs.Prelude.{◌≡◌, ◌≢◌, ◌<◌, ◌≤◌, ◌==◌, ◌↔◌, [], ◌∷◌, ℕ, List, IfNone};
ghost use Rattle.std.specs.Prelude.{IfOk, IfSome, IsTrue, count_by};
ghost use Rattle.std.specs.List.{Contains};
ghost use Rattle.std.specs.Vec.{vec_capacity};
ghost use Rattle.node_key.specs.Keys.{IsKeyOf};
ghost use Rattle.node_key.specs.Stakes.{Exchanges, IsOverStakes};
ghost use Rattle.node_key.specs.declared.stake.Stake.{Stake as Staked};
ghost use Rattle.node_key.specs.Tree.{Tree};
ghost use Rattle.store_laws.specs.Counted.{stakes_on};
ghost use Rattle.store_laws.specs.Store.{kids_in};
ghost use Rattle.hall_core.specs.OneTree.{IsStakedTree, OneTreeEach};

use node_key::{CallTree, Item, Kid, NodeKey, Stake};
use std::alloc::Global;
use trace_base::{Memory, Seq};

/// Whether there is a stake on this number.
pub(crate) fn has_stake_on(stakes: &[Stake], n: u64) -> bool
    ensures { IsTrue result ↔ ((x : Staked) × Contains stakes.now x × (x.number ≡ n)) }
{
    stakes.iter().any(|x| x.number == n)
}

/// The tree of a stake on this number.
pub(crate) fn tree_on(stakes: &[Stake], n: u64) -> Option<&CallTree>
    ensures some { IfSome result (λ t. Contains stakes.now (record { number = n; tree = t.now })) }
    ensures none { IfNone result ((x : Staked) → Contains stakes.now x → x.number ≢ n) }
{
    for x in stakes {
        if x.number == n {
            return Some(&x.tree);
        }
    }
    None
}

// How many stakes there are on this number.
fn count_on(stakes: &[Stake], n: u64) -> usize
    ensures { result ≡ stakes_on n stakes.now }
{
    stakes.iter().filter(|x| x.number == n).count()
}

// How many of the key's kids have this number.
fn kids_on(key: &NodeKey, n: u64) -> usize
    ensures { result ≡ count_by (λ k. k.node == n) (kids_in key.now) }
{
    key.kids[..key.len as usize]
        .iter()
        .filter(|k| k.node == n)
        .count()
}

// The tree of the stakes on a kid of the key, if it has the kid's span and the key names its number no more
// often than there are stakes on it.
fn kid_tree<'a>(stakes: &'a [Stake], key: &NodeKey, kid: Kid) -> Option<&'a CallTree>
    requires { OneTreeEach stakes.now }
    ensures some { IfSome result (λ t. Contains stakes.now (record { number = kid.node; tree = t.now })
        × (t.now.dur ≡ kid.span)
        × (count_by (λ k. k.node == kid.node) (kids_in key.now) ≤ stakes_on kid.node stakes.now)) }
    ensures none { IfNone result ((x : Staked) → Contains stakes.now x → x.number ≡ kid.node
        → x.tree.dur ≡ kid.span
        → stakes_on kid.node stakes.now < count_by (λ k. k.node == kid.node) (kids_in key.now)) }
{
    let Some(tree) = tree_on(stakes, kid.node) else {
        return None;
    };
    if tree.dur() == kid.span && kids_on(key, kid.node) <= count_on(stakes, kid.node) {
        Some(tree)
    } else {
        None
    }
}

/// Whether the key is that of a tree over some of the stakes.
pub(crate) fn is_staked(stakes: &[Stake], key: &NodeKey) -> bool
    requires { OneTreeEach stakes.now }
    ensures { IsTrue result ↔ ((t : Tree) × (kids : List Staked) × IsStakedTree stakes.now key.now t kids) }
{
    let mut height: u32 = 0;
    for kid in &key.kids[..key.len as usize] {
        let Some(tree) = kid_tree(stakes, key, *kid) else {
            return false;
        };
        height = height.max(u32::from(tree.height()) + 1);
    }
    u32::from(key.height) == height
}

/// The tree of the key over the stakes.
pub(crate) fn staked_tree(
    alloc: Global,
    stakes: &[Stake],
    key: &NodeKey,
) -> Result<CallTree, Memory>
    requires one { OneTreeEach stakes.now }
    requires staked { (t : Tree) × (kids : List Staked) × IsStakedTree stakes.now key.now t kids }
    ensures { IfOk result (λ r. (t : Tree) (kids : List Staked) → IsStakedTree stakes.now key.now t kids
        → r ≡ t) }
{
    let mut items = Seq::new(alloc);
    let mut from = 0;
    for kid in &key.kids[..key.len as usize] {
        let at = from + kid.gap;
        let Some(tree) = tree_on(stakes, kid.node) else {
            unreachable!();
        };
        items.push(Item {
            at,
            tree: tree.copy()?,
        })?;
        from = at + kid.span;
    }
    CallTree::new(alloc, key.func, 0, key.dur, items)
}

/// Takes a stake on this number out.
pub(crate) fn take_stake(stakes: &mut Vec<Stake>, n: u64) -> Stake
    requires { (x : Staked) × Contains stakes.old.items x × (x.number ≡ n) }
    ensures number { result.number ≡ n }
    ensures among { Contains stakes.old.items result }
    ensures rest { Exchanges stakes.old.items stakes.new.items (result ∷ []) [] }
    ensures space { vec_capacity stakes.new ≡ vec_capacity stakes.old }
{
    for i in 0..stakes.len() {
        if stakes[i].number == n {
            return stakes.swap_remove(i);
        }
    }
    unreachable!()
}

/// Takes a stake on each kid of the key out.
pub(crate) fn take_kids(stakes: &mut Vec<Stake>, key: &NodeKey)
    requires one { OneTreeEach stakes.old.items }
    requires staked { (t : Tree) × (kids : List Staked) × IsStakedTree stakes.old.items key.now t kids }
    ensures rest { (t : Tree) (kids : List Staked) → IsStakedTree stakes.old.items key.now t kids
        → Exchanges stakes.old.items stakes.new.items kids [] }
    ensures space { vec_capacity stakes.new ≡ vec_capacity stakes.old }
{
    for kid in &key.kids[..key.len as usize] {
        take_stake(stakes, kid.node);
    }
}

/// Stakes on the kids of the key, which is that of this tree.
pub(crate) fn kid_stakes(
    alloc: Global,
    key: &NodeKey,
    tree: &CallTree,
) -> Result<Vec<Stake>, Memory>
    requires { (ns : List ℕ) × IsKeyOf tree.now ns key.now }
    ensures { IfOk result (λ kids. IsOverStakes tree.now kids.items key.now) }
{
    let mut kids = Vec::new(alloc);
    for i in 0..key.len {
        kids.push(Stake {
            number: key.kids[i as usize].node,
            tree: tree.kid(i).copy()?,
        })?;
    }
    Ok(kids)
}
