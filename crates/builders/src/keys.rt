ghost use Rattle.std.specs.Prelude.{◌≡◌, ◌<◌, ◌≤◌, All, List, length, map};
ghost use Rattle.builders.specs.Built.{BuiltFitBetween, StoredItem, built, items_in, stakes_held};
ghost use Rattle.node_key.specs.Items.{node};
ghost use Rattle.node_key.specs.Stakes.{IsOverStakes};

use crate::built::BuiltItem;
use node_key::{HEIGHT_BOUND, Kid, MAX_KIDS, NodeKey};

const NO_KID: Kid = Kid {
    gap: 0,
    span: 0,
    node: 0,
};

/// The key of the node of a call of `func`, or of a group where that is 0, from `start` to `end` over these
/// items, which are times in nanoseconds. The items lie between them, in order, and don't overlap.
pub fn key_of(func: u32, start: u64, end: u64, items: &[BuiltItem]) -> NodeKey
    requires few { length items.now ≤ MAX_KIDS }
    requires within { BuiltFitBetween start end items.now }
    requires low { All (λ b. b.height < HEIGHT_BOUND) items.now }
    ensures { (stored : List StoredItem) → items.now ≡ map built stored
        → IsOverStakes (node func start end (items_in stored)) (stakes_held stored) result }
{
    let mut kids = [NO_KID; 8];
    let mut from = start;
    let mut highest: u16 = 0;
    for (i, item) in items.iter().enumerate() {
        kids[i] = Kid {
            gap: item.at - from,
            span: item.dur,
            node: item.number,
        };
        from = item.at + item.dur;
        highest = highest.max(item.height + 1);
    }
    NodeKey {
        func,
        dur: end - start,
        height: highest,
        len: items.len() as u8,
        kids,
    }
}
