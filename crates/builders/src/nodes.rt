ghost use Rattle.std.specs.Prelude.{◌≡◌, ◌+◌, ◌≤◌, ◌<◌, ℕ, [], length, List, IfErr, IfOk};
ghost use Rattle.builders.specs.Spending.{BuildSpends};
ghost use Rattle.builders.specs.View.{GoesOnBuilding};
ghost use Rattle.hall_trait.specs.Reach.{KeepsReach};
ghost use Rattle.hall_trait.specs.View.{GoesOn};
ghost use Rattle.builders.specs.Built.{StoredItem, items_in, stakes_held};
ghost use Rattle.builders.specs.Builds.{AddsNoWork, AddsWork, BuildsItem, Holds, HoldsBetween};
ghost use Rattle.node_key.specs.Items.{node};
ghost use Rattle.hall_history.specs.Seat.{ExchangesStakes};
ghost use Rattle.std.specs.Prelude.{◌⊎◌};
ghost use Rattle.shard_core.specs.declared.answers.Interned.TheVariants.{Known, New};

use crate::built::BuiltItem;
use crate::keys::key_of;
use hall_trait::{Hall, HallFault};
use node_key::MAX_KIDS;
use shard_core::Interned;
use std::sync::Wait;

/// The number that was interned.
fn number_of(interned: Interned) -> u64
    ensures { interned ≡ Known result ⊎ interned ≡ New result }
{
    match interned {
        Interned::Known(n) | Interned::New(n) => n,
    }
}

/// Interns the node of a call of `func`, or of a group where that is 0, from `start` to `end`, in
/// nanoseconds, over at most 8 items, whose stakes it takes. On a fault the stakes are as before.
pub fn node_of<R: Wait, H: Hall>(
    rt: &R,
    hall: &mut H,
    func: u32,
    start: u64,
    end: u64,
    items: &[BuiltItem],
) -> Result<BuiltItem, HallFault>
    requires few { length items.now ≤ MAX_KIDS }
    requires held { (stored : List StoredItem)
        × HoldsBetween (H.view hall.old).seat start end items.now stored }
    ensures answer { (stored : List StoredItem)
        → HoldsBetween (H.view hall.old).seat start end items.now stored
        → BuildsItem (H.view hall.old).seat (H.view hall.new).seat (stakes_held stored)
        (record { at = start; tree = node func start end (items_in stored) }) (stakes_held stored) result }
    ensures rest { GoesOnBuilding result (H.view hall.old) (H.view hall.new) }
    ensures spent { BuildSpends (H.view hall.new).rooms result }
    ensures work { IfOk result (λ b.
        AddsWork (H.view hall.old).account.work (H.view hall.new).account.work 1) }
    ensures idle { IfErr result (λ e.
        AddsNoWork (H.view hall.old).account.work (H.view hall.new).account.work) }
    ensures reach { KeepsReach (H.view hall.new).seat (H.reaches hall.old) (H.reaches hall.new) }
{
    let key = key_of(func, start, end, items);
    let height = key.height;
    match hall.intern(rt, key) {
        Ok(interned) => Ok(BuiltItem {
            at: start,
            dur: end - start,
            height,
            number: number_of(interned),
        }),
        Err(fault) => Err(fault),
    }
}

/// Gives back the stakes on these items.
#[tactic(auto, using(crate::proofs::BuildingViews::working_same))]
pub fn release_all<R: Wait, H: Hall>(rt: &R, hall: &mut H, items: &[BuiltItem])
    requires { (stored : List StoredItem) × Holds (H.view hall.old).seat items.now stored }
    ensures gone { (stored : List StoredItem) → Holds (H.view hall.old).seat items.now stored
        → ExchangesStakes (H.view hall.old).seat (H.view hall.new).seat (stakes_held stored) [] }
    ensures rest { GoesOn (H.view hall.old) (H.view hall.new) }
    ensures reach { KeepsReach (H.view hall.new).seat (H.reaches hall.old) (H.reaches hall.new) }
{
    for item in items {
        hall.release(rt, item.number);
    }
}
