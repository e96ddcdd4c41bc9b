ghost use Rattle.std.specs.Prelude.{◌≡◌, ◌%◌, IsSome, Some, slice_get, slice_set};
ghost use Rattle.std.specs.Option.{option_map};
ghost use Rattle.node_key.specs.Rooms.{room};
ghost use Rattle.node_key.specs.declared.limits.TheConstants.{STORE_ROOMS};
ghost use Rattle.shard_core.specs.Interning.{Drops, Interns};
ghost use Rattle.shard_core.specs.Room.{Room};
ghost use Rattle.store_laws.specs.Store.{IsCanonic, key_in, node_in};

use node_key::{NodeKey, STORE_ROOMS, room_of_key};
use shard_core::{Dropped, Interned, Shard, ShardFault};
use std::alloc::Global;
use std::mem;
use trace_base::Seq;

/// The key of a node of the store.
pub(crate) fn node(rooms: &[Shard], n: u64) -> NodeKey
    requires { IsSome (node_in rooms.now n) }
    ensures { key_in rooms.now n ≡ Some result }
{
    rooms[(n % STORE_ROOMS) as usize].node(n)
}

/// The count of a node of the store.
pub(crate) fn count(rooms: &[Shard], n: u64) -> u64
    requires { IsSome (node_in rooms.now n) }
    ensures { option_map (λ s. s.count) (node_in rooms.now n) ≡ Some result }
{
    rooms[(n % STORE_ROOMS) as usize].count(n)
}

/// Enters a key in its room.
pub(crate) fn enter(
    alloc: Global,
    rooms: &mut Seq<Shard>,
    key: NodeKey,
) -> Result<Interned, ShardFault>
    requires { IsCanonic rooms.old }
    ensures { (before : Room) → slice_get rooms.old (room key) ≡ Some before
        → (after : Room) × Interns before key result after
        × (rooms.new ≡ slice_set rooms.old (room key) after) }
{
    let mut shards = mem::replace(rooms, Seq::new(alloc)).into_vec();
    let answer = shards[room_of_key(&key) as usize].know_or_add(key);
    *rooms = Seq::from_vec(shards);
    answer
}

/// Lowers the count of a node, which goes with its last one.
pub(crate) fn lower(alloc: Global, rooms: &mut Seq<Shard>, n: u64) -> Dropped
    requires { IsSome (node_in rooms.old n) }
    ensures { (before : Room) → slice_get rooms.old (n % STORE_ROOMS) ≡ Some before
        → (after : Room) × Drops before n result after
        × (rooms.new ≡ slice_set rooms.old (n % STORE_ROOMS) after) }
{
    let mut shards = mem::replace(rooms, Seq::new(alloc)).into_vec();
    let answer = shards[(n % STORE_ROOMS) as usize].drop_one(n);
    *rooms = Seq::from_vec(shards);
    answer
}
