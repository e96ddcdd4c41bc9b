ghost use Rattle.std.specs.Prelude.{◌↔◌, ◌∷◌, [], IsTrue};
ghost use Rattle.node_key.specs.declared.stake.Stake.{Stake as Staked};
ghost use Rattle.node_key.specs.Stands.{Stands};
ghost use Rattle.std.specs.List.{Contains};
ghost use Rattle.store_laws.specs.Reached.{IsReached};
ghost use Rattle.store_laws.specs.Store.{key_in};

use crate::rooms::node;
use node_key::{CallTree, Stake};
use shard_core::Shard;

// Whether a number that stands for this tree leads to another one: is that, or has a kid that leads to it.
fn leads(rooms: &[Shard], n: u64, tree: &CallTree, target: u64) -> bool
    requires { Stands (key_in rooms.now) n tree.now }
    ensures { IsTrue result ↔ IsReached rooms.now (record { number = n; tree = tree.now } ∷ []) target }
{
    if n == target {
        return true;
    }
    let key = node(rooms, n);
    for i in 0..tree.len() {
        if leads(rooms, key.kids[i as usize].node, tree.kid(i), target) {
            return true;
        }
    }
    false
}

/// Whether a number is reached from the stakes.
pub(crate) fn is_reached(rooms: &[Shard], stakes: &[Stake], target: u64) -> bool
    requires { (x : Staked) → Contains stakes.now x → Stands (key_in rooms.now) x.number x.tree }
    ensures { IsTrue result ↔ IsReached rooms.now stakes.now target }
{
    for x in stakes {
        if leads(rooms, x.number, &x.tree, target) {
            return true;
        }
    }
    false
}
