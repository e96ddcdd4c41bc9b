//! A hall that tells the work of its seat.
ghost use Rattle.std.specs.Prelude.{◌≡◌, IfOk};

use hall_history::{AskIds, Listing, Published};
use hall_trait::{AskAnswer, CloseAnswer, Hall, HallFault, LoadPass, Pin};
use node_key::NodeKey;
use plain_hall::PlainHall;
use shard_core::Interned;
use std::alloc::Global;
use std::sync::{Arc, Wait};
use trace_base::{Memory, TraceInfo};
use whole_profiles::{Entry, MemoKind};

/// A hall with one owner that counts the nodes that are interned in it, those that it has already too.
#[derive(Drop)]
pub(crate) struct WorkTellingHall {
    hall: PlainHall,
    /// How many nodes were interned. Where no more can be counted, `intern` answers `Memory`.
    pub(crate) interned: u64,
}

impl WorkTellingHall {
    /// A hall without traces, in which nothing was interned.
    pub(crate) fn new(alloc: Global) -> Result<WorkTellingHall, Memory>
        ensures { IfOk result (λ counting. counting.interned ≡ 0) }
    {
        let hall = PlainHall::new(alloc)?;
        Ok(WorkTellingHall { hall, interned: 0 })
    }
}

impl Hall for WorkTellingHall {
    ghost use Rattle.hall_tests.specs.SeatWork.{counted};
    ghost use Rattle.plain_hall.specs.HallLaws.{room_left, staked_reached};
    ghost use Rattle.plain_hall.specs.PlainHall.{reached_in, view_of};

    ghost view = { λ counting. counted counting.interned (view_of counting.hall) };

    ghost reaches = { λ counting. reached_in counting.hall };

    ghost legal = { λ counting. counting.hall.whole.legal };

    ghost room = { λ counting. room_left counting.hall.whole };

    ghost staked = { λ counting x there. staked_reached counting.hall.whole x there };

    #[tactic(auto, using(hall_trait::proofs::Views::nexts_same))]
    fn intern<R: Wait>(&mut self, rt: &R, key: NodeKey) -> Result<Interned, HallFault> {
        if self.interned == u64::MAX {
            return Err(HallFault::Memory);
        }
        match self.hall.intern(rt, key) {
            Ok(interned) => {
                self.interned += 1;
                Ok(interned)
            }
            Err(fault) => Err(fault),
        }
    }

    fn read<R: Wait>(&mut self, rt: &R, n: u64) -> NodeKey {
        self.hall.read(rt, n)
    }

    fn release<R: Wait>(&mut self, rt: &R, n: u64) {
        self.hall.release(rt, n);
    }

    fn admit<R: Wait>(
        &mut self,
        rt: &R,
        info: Arc<TraceInfo, Global>,
    ) -> Result<LoadPass, HallFault> {
        self.hall.admit(rt, info)
    }

    fn publish<R: Wait>(&mut self, rt: &R, pass: &mut LoadPass, start: u64, root: u64) -> u64 {
        self.hall.publish(rt, pass, start, root)
    }

    fn seal<R: Wait>(&mut self, rt: &R, pass: LoadPass) -> u64 {
        self.hall.seal(rt, pass)
    }

    fn abandon<R: Wait>(&mut self, rt: &R, pass: LoadPass) -> u64 {
        self.hall.abandon(rt, pass)
    }

    fn ask<R: Wait>(&mut self, rt: &R, ids: AskIds) -> AskAnswer {
        self.hall.ask(rt, ids)
    }

    fn published<R: Wait>(&mut self, rt: &R, pin: &Pin, which: u8, track: u32) -> Published {
        self.hall.published(rt, pin, which, track)
    }

    fn info<R: Wait>(
        &mut self,
        rt: &R,
        pin: &Pin,
        which: u8,
    ) -> Result<Arc<TraceInfo, Global>, HallFault> {
        self.hall.info(rt, pin, which)
    }

    fn same<R: Wait>(&mut self, rt: &R, pin: &Pin, a: u64, b: u64) -> bool {
        self.hall.same(rt, pin, a, b)
    }

    fn same_names<R: Wait>(&mut self, rt: &R, pin: &Pin) -> bool {
        self.hall.same_names(rt, pin)
    }

    fn unpin<R: Wait>(&mut self, rt: &R, pin: Pin) {
        self.hall.unpin(rt, pin);
    }

    fn close<R: Wait>(&mut self, rt: &R, id: u64) -> CloseAnswer {
        self.hall.close(rt, id)
    }

    fn list<R: Wait>(&mut self, rt: &R) -> Result<Listing, HallFault> {
        self.hall.list(rt)
    }

    fn memo_look<R: Wait>(
        &mut self,
        rt: &R,
        n: u64,
        kind: MemoKind,
    ) -> Result<Option<Entry>, HallFault> {
        self.hall.memo_look(rt, n, kind)
    }

    fn memo_fill<R: Wait>(&mut self, rt: &R, n: u64, kind: MemoKind, entry: Entry) {
        self.hall.memo_fill(rt, n, kind, entry);
    }
}
