ghost use Rattle.std.specs.Option.{ForSome};
ghost use Rattle.memo_rooms.specs.Rooms.{kept_under};
ghost use Rattle.node_store.specs.Given.{ever};
ghost use Rattle.plain_hall.specs.KeptHistory.{history, HasSpace, entries_owed};
ghost use Rattle.plain_hall.specs.PlainSeat.{IsHeld, queries_of};
ghost use Rattle.plain_hall.specs.Profiles.{AreProfiles, AreProfiles-prop};
ghost use Rattle.plain_hall.specs.Whole.{IsSoundHall, IsSoundHall-prop};

use crate::asked_for::{first_of, second_of};
use crate::kept_entry::HistoryEntry;
use crate::kept_history::KeptHistory;
use crate::kept_pin::KeptPin;
use crate::releasing::{release_freed, release_roots};
use crate::root::Root;
use hall_history::{AskIds, Left, Listing, PassState, Published};
use hall_trait::{AskAnswer, CloseAnswer, Hall, HallFault, LoadPass, Pin};
use memo_rooms::MemoRooms;
use node_key::NodeKey;
use node_store::NodeStore;
use registry_core::{RegAsk, RegClose, RegEnd, RegFault, Registry};
use shard_core::{Interned, ShardFault};
use std::alloc::Global;
use std::sync::{Arc, Wait};
use trace_base::{Memory, TraceInfo};
use whole_profiles::{Entry, MemoKind};

/// A hall with one owner. Its registry knows its traces and their places, and keeps the traces that a pin
/// uses. Beside it stands its history, in which each track has the number of its root; each entry but a
/// question is kept in memory that was found when its trace was admitted. The nodes of the traces that are
/// kept are stored, equal subtrees once, and a memo keeps whole profiles of nodes.
#[derive(Drop)]
pub struct PlainHall {
    past: KeptHistory,
    registry: Registry,
    nodes: NodeStore,
    memos: MemoRooms,
    pin: Option<KeptPin>,
    ghost whole: { IsSoundHall nodes registry (history past) (queries_of pin) } by { IsSoundHall-prop nodes registry (history past) (queries_of pin) },
    ghost space: { HasSpace past (entries_owed registry) },
    ghost held: { ForSome pin (IsHeld (history past)) },
    ghost profiles: { AreProfiles (ever nodes.given) (kept_under memos) } by { AreProfiles-prop (ever nodes.given) (kept_under memos) },
}

impl PlainHall {
    ghost use Rattle.std.specs.Prelude.{◌≡◌, ◌≤◌, []};
    ghost use Rattle.std.specs.Prelude.{IfOk};
    ghost use Rattle.node_key.specs.declared.limits.TheConstants.{MAX_NUMBERS};
    ghost use Rattle.hall_history.specs.Left.{left_of};
    ghost use Rattle.plain_hall.specs.Holding.{left_with};
    ghost use Rattle.plain_hall.specs.PlainHall.{seat_of, view_at_first, view_of};

    /// A hall without traces.
    pub fn new(alloc: Global) -> Result<PlainHall, Memory>
        ensures { IfOk result (λ hall. view_of hall ≡ view_at_first 0) }
    {
        PlainHall::starting_at(alloc, 0)
    }

    /// A hall without traces, each room of whose store gives its numbers from the index `first` on.
    pub fn starting_at(alloc: Global, first: u64) -> Result<PlainHall, Memory>
        requires { first ≤ MAX_NUMBERS }
        ensures { IfOk result (λ hall. view_of hall ≡ view_at_first first) }
    {
        let memos = MemoRooms::new(alloc)?;
        let nodes = NodeStore::starting_at(alloc, first)?;
        let registry = Registry::starting_at(alloc, 0, 1)?;
        Ok(PlainHall {
            past: KeptHistory::new(alloc),
            registry,
            nodes,
            memos,
            pin: None,
        })
    }

    /// How many traces are open, and how many nodes are kept. There must be no stakes. The nodes are those that
    /// the trees of the open traces need, and where a pin is out, those of its traces as well.
    pub fn left(&self) -> Left
        requires { (seat_of self.now).stakes ≡ [] }
        ensures pinned { result ≡ left_with (seat_of self.now).pins (seat_of self.now).seen }
        ensures unpinned { (seat_of self.now).pins ≡ [] → result ≡ left_of (seat_of self.now).seen }
    {
        Left {
            traces: self.registry.open_traces(),
            nodes: self.nodes.live(),
        }
    }
}

impl Hall for PlainHall {
    ghost use Rattle.plain_hall.specs.HallLaws.{room_left, staked_reached};
    ghost use Rattle.plain_hall.specs.PlainHall.{reached_in, view_of};

    ghost view = { view_of };

    ghost reaches = { reached_in };

    ghost legal = { λ hall. hall.whole.legal };

    ghost room = { λ hall. room_left hall.whole };

    ghost staked = { λ hall x there. staked_reached hall.whole x there };

    fn intern<R: Wait>(&mut self, _rt: &R, key: NodeKey) -> Result<Interned, HallFault> {
        match self.nodes.intern(key) {
            Ok(interned) => Ok(interned),
            Err(fault) => match fault {
                ShardFault::Memory => Err(HallFault::Memory),
                ShardFault::Spent(v) => Err(HallFault::Spent(v)),
            },
        }
    }

    fn read<R: Wait>(&mut self, _rt: &R, n: u64) -> NodeKey {
        self.nodes.key(n)
    }

    fn release<R: Wait>(&mut self, _rt: &R, n: u64) {
        self.nodes.release(n);
    }

    fn admit<R: Wait>(
        &mut self,
        _rt: &R,
        info: Arc<TraceInfo, Global>,
    ) -> Result<LoadPass, HallFault> {
        let tracks = info.names.tracks.len() as u32;
        let Ok(kept) = info.clone() else {
            return Err(HallFault::Memory);
        };
        let more = self.registry.promised() + self.registry.open_traces() + u64::from(tracks) + 3;
        let Ok(()) = self.past.reserve(more) else {
            return Err(HallFault::Memory);
        };
        match self.registry.admit(kept) {
            Ok(opened) => {
                self.past.push(HistoryEntry::Opened(opened.id, info));
                Ok(LoadPass::new(opened.id, opened.place, tracks))
            }
            Err(RegFault::Full(place)) => {
                self.past.push_asked();
                Err(HallFault::Full(place))
            }
            Err(RegFault::Spent(taken)) => Err(HallFault::Spent(taken)),
            Err(RegFault::Memory) => Err(HallFault::Memory),
        }
    }

    fn publish<R: Wait>(&mut self, _rt: &R, pass: &mut LoadPass, start: u64, root: u64) -> u64 {
        let PassState::Straight(track) = pass.state else {
            unreachable!()
        };
        self.nodes.hand_over(root);
        let place = self.registry.publish(pass.id, track, start, root);
        let node = Root { start, node: root };
        self.past
            .push(HistoryEntry::Published(pass.id, track, node));
        pass.advance();
        place
    }

    fn seal<R: Wait>(&mut self, _rt: &R, pass: LoadPass) -> u64 {
        let LoadPass {
            id,
            place: _,
            from: _,
            to: _,
            state: _,
        } = pass;
        self.past.push(HistoryEntry::Sealed(id));
        self.registry.seal(id)
    }

    fn abandon<R: Wait>(&mut self, _rt: &R, pass: LoadPass) -> u64 {
        let LoadPass {
            id,
            place: _,
            from: _,
            to: _,
            state: _,
        } = pass;
        self.past.push(HistoryEntry::Dropped(id));
        match self.registry.abandon(id) {
            RegEnd::Ended(place, roots) => {
                release_roots(&mut self.nodes, roots);
                place
            }
            RegEnd::Kept(place) => place,
        }
    }

    fn ask<R: Wait>(&mut self, _rt: &R, ids: AskIds) -> AskAnswer {
        match self.registry.ask(ids) {
            RegAsk::Pinned(place) => {
                self.past.push_asked();
                self.pin = Some(KeptPin { ids, place });
                AskAnswer::Pinned(Pin {
                    ids,
                    place,
                    first: self.registry.brief(first_of(ids)),
                    second: self.registry.brief(second_of(ids)),
                })
            }
            RegAsk::Unknown { id, next, place } => {
                self.past.push_asked();
                AskAnswer::Unknown { id, next, place }
            }
            RegAsk::Spent(taken) => AskAnswer::Spent(taken),
        }
    }

    fn published<R: Wait>(&mut self, _rt: &R, pin: &Pin, which: u8, track: u32) -> Published {
        self.registry.published(pin.id(which), pin.place, track)
    }

    fn info<R: Wait>(
        &mut self,
        _rt: &R,
        pin: &Pin,
        which: u8,
    ) -> Result<Arc<TraceInfo, Global>, HallFault> {
        match self.registry.info(pin.id(which)) {
            Ok(info) => Ok(info),
            Err(Memory) => Err(HallFault::Memory),
        }
    }

    fn same<R: Wait>(&mut self, _rt: &R, _pin: &Pin, a: u64, b: u64) -> bool {
        a == b
    }

    fn same_names<R: Wait>(&mut self, _rt: &R, pin: &Pin) -> bool {
        self.registry.same_names(pin.ids)
    }

    fn unpin<R: Wait>(&mut self, _rt: &R, pin: Pin) {
        let Pin {
            ids,
            place: _,
            first: _,
            second: _,
        } = pin;
        self.pin = None;
        let freed = self.registry.unpin(ids);
        release_freed(&mut self.nodes, freed.first);
        release_freed(&mut self.nodes, freed.second);
    }

    fn close<R: Wait>(&mut self, _rt: &R, id: u64) -> CloseAnswer {
        match self.registry.close(id) {
            RegClose::Ended(place, roots) => {
                self.past.push(HistoryEntry::Closed(id));
                release_roots(&mut self.nodes, roots);
                CloseAnswer::Closed(place)
            }
            RegClose::Kept(place) => {
                self.past.push(HistoryEntry::Closed(id));
                CloseAnswer::Closed(place)
            }
            RegClose::Loading(place) => {
                self.past.push_asked();
                CloseAnswer::Loading(place)
            }
            RegClose::Unknown { next, place } => {
                self.past.push_asked();
                CloseAnswer::Unknown { next, place }
            }
            RegClose::Spent(taken) => CloseAnswer::Spent(taken),
        }
    }

    fn list<R: Wait>(&mut self, _rt: &R) -> Result<Listing, HallFault> {
        match self.registry.list() {
            Ok(listing) => {
                self.past.push_asked();
                Ok(listing)
            }
            Err(RegFault::Spent(taken)) => Err(HallFault::Spent(taken)),
            Err(RegFault::Memory) => Err(HallFault::Memory),
            Err(RegFault::Full(_)) => unreachable!(),
        }
    }

    fn memo_look<R: Wait>(
        &mut self,
        _rt: &R,
        n: u64,
        kind: MemoKind,
    ) -> Result<Option<Entry>, HallFault> {
        match self.memos.look(n, kind) {
            Ok(found) => Ok(found),
            Err(Memory) => Err(HallFault::Memory),
        }
    }

    fn memo_fill<R: Wait>(&mut self, _rt: &R, n: u64, kind: MemoKind, entry: Entry) {
        self.memos.fill(n, kind, entry);
    }
}
