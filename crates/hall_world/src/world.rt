ghost use Rattle.std.specs.Prelude.{◌≡◌, ◌≤◌, [], IfOk, replicate};
ghost use Rattle.memo_core.specs.declared.limits.TheConstants.{MEMO_ROOMS};
ghost use Rattle.node_key.specs.declared.limits.TheConstants.{MAX_NUMBERS};
ghost use Rattle.hall_world.specs.World.{empty_seat, new_state, new_world};
ghost use Rattle.store_laws.specs.Store.{empty_store};

use hall_history::{PassView, PinView};
use memo_core::{MEMO_ROOMS, Memo};
use node_key::{STORE_ROOMS, Stake};
use registry_core::Registry;
use shard_core::Shard;
use std::alloc::Global;
use trace_base::{Memory, Seq};

/// The rooms of a hall at one moment: those of the store and of the memo, by their indexes from 0, and the
/// registry.
#[derive(Drop)]
pub struct HallState {
    pub shards: Seq<Shard>,
    pub memos: Seq<Memo>,
    pub registry: Registry,
}

/// What a seat has: its stakes, pins and load passes, how many entries of the history it has seen, the places
/// of its own entries, and whether it has ended.
#[derive(Drop)]
pub struct SeatView {
    pub stakes: Seq<Stake>,
    pub pins: Seq<PinView>,
    pub passes: Seq<PassView>,
    pub seen: u64,
    pub places: Seq<u64>,
    pub ended: bool,
}

/// A hall and its seats, which are named by their indexes from 0.
#[derive(Drop)]
pub struct World {
    pub state: HallState,
    pub seats: Seq<SeatView>,
}

fn new_shards(alloc: Global, first: u64) -> Result<Seq<Shard>, Memory>
    requires { first ≤ MAX_NUMBERS }
    ensures { IfOk result (λ rooms. rooms ≡ empty_store first) }
{
    let mut shards = Seq::new(alloc);
    for room in 0..STORE_ROOMS {
        shards.push(Shard::starting_at(alloc, room as u8, first))?;
    }
    Ok(shards)
}

fn new_memos(alloc: Global) -> Result<Seq<Memo>, Memory>
    ensures { IfOk result (λ rooms. rooms ≡ replicate MEMO_ROOMS []) }
{
    let mut memos = Seq::new(alloc);
    for _ in 0..MEMO_ROOMS {
        memos.push(Memo::new(alloc)?)?;
    }
    Ok(memos)
}

impl HallState {
    /// A hall without nodes, profiles or traces, each room of whose store gives its numbers from the index
    /// `first` on.
    pub fn new(alloc: Global, first: u64) -> Result<HallState, Memory>
        requires { first ≤ MAX_NUMBERS }
        ensures { IfOk result (λ s. s ≡ new_state first) }
    {
        Ok(HallState {
            shards: new_shards(alloc, first)?,
            memos: new_memos(alloc)?,
            registry: Registry::starting_at(alloc, 0, 1)?,
        })
    }
}

impl SeatView {
    /// A seat that has nothing, and has seen so many entries. It takes no memory.
    pub fn new(alloc: Global, seen: u64) -> SeatView
        ensures { result ≡ empty_seat seen }
    {
        SeatView {
            stakes: Seq::new(alloc),
            pins: Seq::new(alloc),
            passes: Seq::new(alloc),
            seen,
            places: Seq::new(alloc),
            ended: false,
        }
    }
}

impl World {
    /// A new hall with one seat.
    pub fn new(alloc: Global, first: u64) -> Result<World, Memory>
        requires { first ≤ MAX_NUMBERS }
        ensures { IfOk result (λ w. w ≡ new_world first) }
    {
        let mut seats = Seq::new(alloc);
        seats.push(SeatView::new(alloc, 0))?;
        Ok(World {
            state: HallState::new(alloc, first)?,
            seats,
        })
    }
}
