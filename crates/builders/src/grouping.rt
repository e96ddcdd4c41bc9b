ghost use Rattle.std.specs.Prelude.{◌≡◌, ◌+◌, ◌≤◌, ◌<◌, ℕ, [], length, List, IfOk};
ghost use Rattle.builders.specs.Spending.{BuildSpends};
ghost use Rattle.builders.specs.Beside.{KeepsOthers};
ghost use Rattle.builders.specs.View.{GoesOnBuilding};
ghost use Rattle.hall_trait.specs.Reach.{KeepsReach};
ghost use Rattle.builders.specs.Built.{StoredItem, items_in, stakes_held};
ghost use Rattle.builders.specs.Builds.{BuildsItem, BuildsItems, HoldsBetween, MayBeBound};
ghost use Rattle.builders.specs.Builds.{WorkOfNodes, nodes_in};
ghost use Rattle.node_key.specs.Tree.{nodes};
ghost use Rattle.node_key.specs.Bound.{bound, group, grouped};

use crate::built::BuiltItem;
use crate::nodes::{node_of, release_all};
use crate::spans::{start, stop};
use hall_trait::{Hall, HallFault};
use node_key::MAX_KIDS;
use std::sync::Wait;
use trace_base::{MAX_TIME, Seq};

/// A chunk as one item: a group, which is interned, where it has several. On a fault the stakes are as
/// before.
#[tactic(auto, using(crate::proofs::BuildingViews::working_same))]
fn group_of<R: Wait, H: Hall>(
    rt: &R,
    hall: &mut H,
    chunk: &[BuiltItem],
) -> Result<BuiltItem, HallFault>
    requires some { 0 < length chunk.now }
    requires few { length chunk.now ≤ MAX_KIDS }
    requires held { (stored : List StoredItem)
        × HoldsBetween (H.view hall.old).seat 0 MAX_TIME chunk.now stored }
    ensures answer { (stored : List StoredItem)
        → HoldsBetween (H.view hall.old).seat 0 MAX_TIME chunk.now stored
        → BuildsItem (H.view hall.old).seat (H.view hall.new).seat (stakes_held stored)
        (group (items_in stored)) (stakes_held stored) result }
    ensures rest { GoesOnBuilding result (H.view hall.old) (H.view hall.new) }
    ensures spent { BuildSpends (H.view hall.new).rooms result }
    ensures reach { KeepsReach (H.view hall.new).seat (H.reaches hall.old) (H.reaches hall.new) }
    ensures work { (stored : List StoredItem)
        → HoldsBetween (H.view hall.old).seat 0 MAX_TIME chunk.now stored
        → WorkOfNodes (H.view hall.old).account.work (H.view hall.new).account.work
        (nodes_in (items_in stored)) (nodes (group (items_in stored)).tree) result }
{
    if chunk.len() == 1 {
        return Ok(chunk[0]);
    }
    node_of(rt, hall, 0, start(chunk), stop(chunk), chunk)
}

/// The list in which each chunk of 8 items, or of those that are left, is one item. The groups are interned,
/// and take the stakes on the items. On a fault all stakes are given back.
pub fn grouped_of<R: Wait, H: Hall>(
    rt: &R,
    hall: &mut H,
    items: Seq<BuiltItem>,
) -> Result<Seq<BuiltItem>, HallFault>
    requires { (stored : List StoredItem) × HoldsBetween (H.view hall.old).seat 0 MAX_TIME items stored }
    ensures answer { (stored : List StoredItem) → HoldsBetween (H.view hall.old).seat 0 MAX_TIME items stored
        → BuildsItems (H.view hall.old).seat (H.view hall.new).seat (stakes_held stored)
        (grouped (items_in stored)) [] result }
    ensures rest { GoesOnBuilding result (H.view hall.old) (H.view hall.new) }
    ensures spent { BuildSpends (H.view hall.new).rooms result }
    ensures reach { (stored : List StoredItem) → HoldsBetween (H.view hall.old).seat 0 MAX_TIME items stored
        → KeepsOthers (H.view hall.old).seat (stakes_held stored) (H.reaches hall.old) (H.reaches hall.new) }
    ensures work { (stored : List StoredItem) → HoldsBetween (H.view hall.old).seat 0 MAX_TIME items stored
        → WorkOfNodes (H.view hall.old).account.work (H.view hall.new).account.work
        (nodes_in (items_in stored)) (nodes_in (grouped (items_in stored))) result }
{
    let number = items.len();
    let mut list = items.into_vec();
    let mut groups = 0;
    let mut from = 0;
    'chunks: while from < number {
        let until = from + MAX_KIDS.min(number - from);
        match group_of(rt, hall, &list[from..until]) {
            Ok(group) => list[groups] = group,
            Err(fault) => {
                release_all(rt, hall, &list[..groups]);
                release_all(rt, hall, &list[from..]);
                return Err(fault);
            }
        }
        groups += 1;
        from = until;
    }
    list.truncate(groups);
    Ok(Seq::from_vec(list))
}

/// At most 8 items in place of a list of any length: while it has more, each chunk of 8 becomes one item. The
/// groups are interned, and take the stakes on the items. On a fault all stakes are given back.
#[tactic(auto, using(crate::proofs::BuildingViews::working_same))]
pub fn bound_of<R: Wait, H: Hall>(
    rt: &R,
    hall: &mut H,
    items: Seq<BuiltItem>,
) -> Result<Seq<BuiltItem>, HallFault>
    requires { (stored : List StoredItem) × MayBeBound (H.view hall.old).seat items stored }
    ensures answer { (stored : List StoredItem) → MayBeBound (H.view hall.old).seat items stored
        → BuildsItems (H.view hall.old).seat (H.view hall.new).seat (stakes_held stored)
        (bound (items_in stored)) [] result }
    ensures few { IfOk result (λ is. length is ≤ MAX_KIDS) }
    ensures rest { GoesOnBuilding result (H.view hall.old) (H.view hall.new) }
    ensures spent { BuildSpends (H.view hall.new).rooms result }
    ensures reach { (stored : List StoredItem) → MayBeBound (H.view hall.old).seat items stored
        → KeepsOthers (H.view hall.old).seat (stakes_held stored) (H.reaches hall.old) (H.reaches hall.new) }
    ensures work { (stored : List StoredItem) → MayBeBound (H.view hall.old).seat items stored
        → WorkOfNodes (H.view hall.old).account.work (H.view hall.new).account.work
        (nodes_in (items_in stored)) (nodes_in (bound (items_in stored))) result }
{
    let mut bounded = items;
    let mut number = bounded.len();
    'levels: while number > MAX_KIDS {
        match grouped_of(rt, hall, bounded) {
            Ok(groups) => bounded = groups,
            Err(fault) => return Err(fault),
        }
        number = bounded.len();
    }
    Ok(bounded)
}
