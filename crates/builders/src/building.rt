ghost use Rattle.std.specs.Prelude.{◌≡◌, ℕ, [], ◌∷◌, ◌++◌, List, map};
ghost use Rattle.builders.specs.Spending.{BuildSpends};
ghost use Rattle.builders.specs.Beside.{KeepsOthers};
ghost use Rattle.builders.specs.Built.{stakes_held};
ghost use Rattle.builders.specs.View.{GoesOnBuilding};
ghost use Rattle.hall_trait.specs.Reach.{KeepsReach};
ghost use Rattle.builders.specs.Builds.{WorkOfTree};
ghost use Rattle.builders.specs.Calls.{BuildsTree, HoldsCalls, PassesOn, StoredCall, WorkOfEvent};
ghost use Rattle.builders.specs.Calls.{calls_stakes, passed};
ghost use Rattle.node_key.specs.Trees.{tree};
ghost use Rattle.trace_base.specs.Stream.{IsLegal};
ghost use Rattle.trace_base.specs.declared.stream.Event.TheVariants.{Enter, Leave};

use crate::built::OpenCall;
use crate::closing::{close, release_calls, with_item};
use crate::nodes::release_all;
use hall_trait::{Hall, HallFault};
use std::alloc::Global;
use std::sync::Wait;
use trace_base::{Event, Seq, TrackStream};

/// Takes the open calls over one Enter. `around` has those round the innermost one, which stands by itself.
/// On a fault the stakes on the items of the innermost one are given back.
#[tactic(auto, using(crate::proofs::BuildingViews::working_same))]
fn enter<R: Wait, H: Hall>(
    rt: &R,
    alloc: Global,
    hall: &mut H,
    around: &mut Vec<OpenCall>,
    innermost: OpenCall,
    func: u32,
    start: u64,
) -> Result<OpenCall, HallFault>
    requires { (calls : List StoredCall) × (call : StoredCall)
        × HoldsCalls (H.view hall.old).seat around.old.items innermost (Enter func start) calls call }
    ensures answer { (calls : List StoredCall) (call : StoredCall)
        → HoldsCalls (H.view hall.old).seat around.old.items innermost (Enter func start) calls call
        → PassesOn (H.view hall.old).seat (H.view hall.new).seat calls call (Enter func start)
        around.new.items result }
    ensures rest { GoesOnBuilding result (H.view hall.old) (H.view hall.new) }
    ensures spent { BuildSpends (H.view hall.new).rooms result }
    ensures reach { (calls : List StoredCall) (call : StoredCall)
        → HoldsCalls (H.view hall.old).seat around.old.items innermost (Enter func start) calls call
        → KeepsOthers (H.view hall.old).seat (calls_stakes calls ++ stakes_held call.stored)
        (H.reaches hall.old) (H.reaches hall.new) }
    ensures work { (calls : List StoredCall) (call : StoredCall)
        → HoldsCalls (H.view hall.old).seat around.old.items innermost (Enter func start) calls call
        → WorkOfEvent (H.view hall.old).account.work (H.view hall.new).account.work (map passed calls)
        (passed call) (Enter func start) result }
{
    match around.push(innermost) {
        Ok(()) => Ok(OpenCall {
            func,
            start,
            items: Seq::new(alloc),
        }),
        Err(refused) => {
            let call = refused.value;
            release_all(rt, hall, call.items.as_slice());
            Err(HallFault::Memory)
        }
    }
}

/// Takes the open calls over one Leave, which closes the innermost one. On a fault the stakes on its items,
/// and on those of a call that isn't in `around` any more, are given back.
fn leave<R: Wait, H: Hall>(
    rt: &R,
    hall: &mut H,
    around: &mut Vec<OpenCall>,
    innermost: OpenCall,
    stop: u64,
) -> Result<OpenCall, HallFault>
    requires { (calls : List StoredCall) × (call : StoredCall)
        × HoldsCalls (H.view hall.old).seat around.old.items innermost (Leave stop) calls call }
    ensures answer { (calls : List StoredCall) (call : StoredCall)
        → HoldsCalls (H.view hall.old).seat around.old.items innermost (Leave stop) calls call
        → PassesOn (H.view hall.old).seat (H.view hall.new).seat calls call (Leave stop)
        around.new.items result }
    ensures rest { GoesOnBuilding result (H.view hall.old) (H.view hall.new) }
    ensures spent { BuildSpends (H.view hall.new).rooms result }
    ensures reach { (calls : List StoredCall) (call : StoredCall)
        → HoldsCalls (H.view hall.old).seat around.old.items innermost (Leave stop) calls call
        → KeepsOthers (H.view hall.old).seat (calls_stakes calls ++ stakes_held call.stored)
        (H.reaches hall.old) (H.reaches hall.new) }
    ensures work { (calls : List StoredCall) (call : StoredCall)
        → HoldsCalls (H.view hall.old).seat around.old.items innermost (Leave stop) calls call
        → WorkOfEvent (H.view hall.old).account.work (H.view hall.new).account.work (map passed calls)
        (passed call) (Leave stop) result }
{
    let item = match close(rt, hall, innermost, stop) {
        Ok(item) => item,
        Err(fault) => return Err(fault),
    };
    match around.pop() {
        Some(outer) => with_item(rt, hall, outer, item),
        None => unreachable!(),
    }
}

/// Takes the open calls over one event.
fn step<R: Wait, H: Hall>(
    rt: &R,
    alloc: Global,
    hall: &mut H,
    around: &mut Vec<OpenCall>,
    innermost: OpenCall,
    event: Event,
) -> Result<OpenCall, HallFault>
    requires { (calls : List StoredCall) × (call : StoredCall)
        × HoldsCalls (H.view hall.old).seat around.old.items innermost event calls call }
    ensures answer { (calls : List StoredCall) (call : StoredCall)
        → HoldsCalls (H.view hall.old).seat around.old.items innermost event calls call
        → PassesOn (H.view hall.old).seat (H.view hall.new).seat calls call event around.new.items result }
    ensures rest { GoesOnBuilding result (H.view hall.old) (H.view hall.new) }
    ensures spent { BuildSpends (H.view hall.new).rooms result }
    ensures reach { (calls : List StoredCall) (call : StoredCall)
        → HoldsCalls (H.view hall.old).seat around.old.items innermost event calls call
        → KeepsOthers (H.view hall.old).seat (calls_stakes calls ++ stakes_held call.stored)
        (H.reaches hall.old) (H.reaches hall.new) }
    ensures work { (calls : List StoredCall) (call : StoredCall)
        → HoldsCalls (H.view hall.old).seat around.old.items innermost event calls call
        → WorkOfEvent (H.view hall.old).account.work (H.view hall.new).account.work (map passed calls)
        (passed call) event result }
{
    match event {
        Event::Enter(func, start) => enter(rt, alloc, hall, around, innermost, func, start),
        Event::Leave(stop) => leave(rt, hall, around, innermost, stop),
    }
}

/// Interns the bounded tree of a legal stream, in one pass over its events: the node of each call when it is
/// left, and each group of calls when there are more than 8 in a row. It answers the number of the root, on
/// which there is a new stake. On a fault, which is `Memory`, or `Spent` as `intern` tells it, all stakes are
/// as before. What the seat reached by the stakes and pins that it had, it reaches still. No tree is made.
pub fn build_track<R: Wait, H: Hall>(
    rt: &R,
    alloc: Global,
    hall: &mut H,
    s: &TrackStream,
) -> Result<u64, HallFault>
    requires { IsLegal s.now }
    ensures answer { BuildsTree (H.view hall.old).seat (H.view hall.new).seat (tree s.now) result }
    ensures rest { GoesOnBuilding result (H.view hall.old) (H.view hall.new) }
    ensures spent { BuildSpends (H.view hall.new).rooms result }
    ensures reach { KeepsReach (H.view hall.old).seat (H.reaches hall.old) (H.reaches hall.new) }
    ensures work { WorkOfTree (H.view hall.old).account.work (H.view hall.new).account.work (tree s.now)
        result }
{
    let mut around = Vec::new(alloc);
    let mut innermost = OpenCall {
        func: 0,
        start: s.start,
        items: Seq::new(alloc),
    };
    for event in s.events.as_slice() {
        match step(rt, alloc, hall, &mut around, innermost, *event) {
            Ok(now) => innermost = now,
            Err(fault) => {
                release_calls(rt, hall, &around);
                return Err(fault);
            }
        }
    }
    match close(rt, hall, innermost, s.end) {
        Ok(root) => Ok(root.number),
        Err(fault) => Err(fault),
    }
}
