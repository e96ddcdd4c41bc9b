ghost use Rattle.std.specs.Prelude.{◌≡◌, ℕ, [], ◌∷◌, List, map};
ghost use Rattle.builders.specs.Spending.{BuildSpends};
ghost use Rattle.builders.specs.Beside.{KeepsOthers};
ghost use Rattle.builders.specs.View.{GoesOnBuilding};
ghost use Rattle.hall_trait.specs.Reach.{KeepsReach};
ghost use Rattle.hall_trait.specs.View.{GoesOn};
ghost use Rattle.builders.specs.Built.{StoredItem, items_in, stakes_held};
ghost use Rattle.builders.specs.Builds.{AddsNoWork, BuildsItem, WorkOfNodes, nodes_in};
ghost use Rattle.node_key.specs.Tree.{nodes};
ghost use Rattle.builders.specs.Calls.{AddsItem, HoldsCall, HoldsWith, StoredCall, calls_stakes, open_call};
ghost use Rattle.builders.specs.Calls.{passed};
ghost use Rattle.call_tree.specs.Passing.{closed_item};
ghost use Rattle.hall_history.specs.Seat.{ExchangesStakes};
ghost use Rattle.node_key.specs.Stakes.{HasStakes};

use crate::built::{BuiltItem, OpenCall};
use crate::grouping::bound_of;
use crate::nodes::{node_of, release_all};
use hall_trait::{Hall, HallFault};
use std::sync::Wait;

/// An open call that ends at `stop`, as one item, whose node is interned. On a fault the stakes on its items
/// are given back.
pub fn close<R: Wait, H: Hall>(
    rt: &R,
    hall: &mut H,
    innermost: OpenCall,
    stop: u64,
) -> Result<BuiltItem, HallFault>
    requires { (call : StoredCall) × HoldsCall (H.view hall.old).seat innermost stop call }
    ensures answer { (call : StoredCall) → HoldsCall (H.view hall.old).seat innermost stop call
        → BuildsItem (H.view hall.old).seat (H.view hall.new).seat (stakes_held call.stored)
        (closed_item (passed call) stop) [] result }
    ensures rest { GoesOnBuilding result (H.view hall.old) (H.view hall.new) }
    ensures spent { BuildSpends (H.view hall.new).rooms result }
    ensures reach { (call : StoredCall) → HoldsCall (H.view hall.old).seat innermost stop call
        → KeepsOthers (H.view hall.old).seat (stakes_held call.stored) (H.reaches hall.old)
        (H.reaches hall.new) }
    ensures work { (call : StoredCall) → HoldsCall (H.view hall.old).seat innermost stop call
        → WorkOfNodes (H.view hall.old).account.work (H.view hall.new).account.work
        (nodes_in (items_in call.stored)) (nodes (closed_item (passed call) stop).tree) result }
{
    let OpenCall { func, start, items } = innermost;
    let bounded = match bound_of(rt, hall, items) {
        Ok(bounded) => bounded,
        Err(fault) => return Err(fault),
    };
    match node_of(rt, hall, func, start, stop, bounded.as_slice()) {
        Ok(item) => Ok(item),
        Err(fault) => {
            release_all(rt, hall, bounded.as_slice());
            Err(fault)
        }
    }
}

/// An open call with one item more in it. On a fault the stakes on all of them are given back.
#[tactic(auto, using(crate::proofs::BuildingViews::working_same))]
pub fn with_item<R: Wait, H: Hall>(
    rt: &R,
    hall: &mut H,
    innermost: OpenCall,
    item: BuiltItem,
) -> Result<OpenCall, HallFault>
    requires { (call : StoredCall) × (one : StoredItem)
        × HoldsWith (H.view hall.old).seat innermost item call one }
    ensures answer { (call : StoredCall) (one : StoredItem)
        → HoldsWith (H.view hall.old).seat innermost item call one
        → AddsItem (H.view hall.old).seat (H.view hall.new).seat call one result }
    ensures rest { GoesOnBuilding result (H.view hall.old) (H.view hall.new) }
    ensures spent { BuildSpends (H.view hall.new).rooms result }
    ensures reach { KeepsReach (H.view hall.new).seat (H.reaches hall.old) (H.reaches hall.new) }
    ensures work { AddsNoWork (H.view hall.old).account.work (H.view hall.new).account.work }
{
    let OpenCall {
        func,
        start,
        mut items,
    } = innermost;
    match items.push(item) {
        Ok(()) => Ok(OpenCall { func, start, items }),
        Err(_) => {
            release_all(rt, hall, items.as_slice());
            hall.release(rt, item.number);
            Err(HallFault::Memory)
        }
    }
}

/// Gives back the stakes on the items of these calls.
#[tactic(auto, using(crate::proofs::BuildingViews::working_same))]
pub fn release_calls<R: Wait, H: Hall>(rt: &R, hall: &mut H, calls: &[OpenCall])
    requires { (stored : List StoredCall) × (calls.now ≡ map open_call stored)
        × HasStakes (H.view hall.old).seat.stakes (calls_stakes stored) }
    ensures gone { (stored : List StoredCall) → calls.now ≡ map open_call stored
        → HasStakes (H.view hall.old).seat.stakes (calls_stakes stored)
        → ExchangesStakes (H.view hall.old).seat (H.view hall.new).seat (calls_stakes stored) [] }
    ensures rest { GoesOn (H.view hall.old) (H.view hall.new) }
    ensures reach { KeepsReach (H.view hall.new).seat (H.reaches hall.old) (H.reaches hall.new) }
{
    for call in calls {
        release_all(rt, hall, call.items.as_slice());
    }
}
