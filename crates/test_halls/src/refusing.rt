use hall_history::{AskIds, Listing, Published};
use hall_trait::{AskAnswer, CloseAnswer, Hall, HallFault, LoadPass, Pin};
use node_key::NodeKey;
use shard_core::Interned;
use std::alloc::Global;
use std::sync::{Arc, Wait};
use trace_base::TraceInfo;
use whole_profiles::{Entry, MemoKind};

/// Which call finds no memory: the one with this number, counted from 0, of those that may want it.
#[derive(Clone, Copy, Debug, PartialEq, Eq)]
pub struct Refusal {
    /// How many of these calls come before it; `None` once it was made, and where there is none.
    pub before: Option<u64>,
}

impl Refusal {
    // Whether it is the call that is made now.
    fn comes(&mut self) -> bool {
        match self.before {
            None => false,
            Some(0) => {
                self.before = None;
                true
            }
            Some(before) => {
                self.before = Some(before - 1);
                false
            }
        }
    }
}

/// A hall in which one call finds no memory, of `intern`, `admit`, `info`, `list` and those of `memo_look` that find
/// a profile. In all else it is the hall inside.
#[derive(Drop)]
pub struct RefusingHall<H> {
    pub inner: H,
    pub refusal: Refusal,
}

impl<H: Hall> RefusingHall<H> {
    ghost use Rattle.std.specs.Prelude.{◌≡◌};

    /// Over this hall, where so many calls that may want memory come before the one that finds none.
    pub fn over(inner: H, before: u64) -> RefusingHall<H>
        ensures { result.inner ≡ inner }
    {
        RefusingHall {
            inner,
            refusal: Refusal {
                before: Some(before),
            },
        }
    }
}

impl<H: Hall> Hall for RefusingHall<H> {
    ghost view = { λ h. H.view h.inner };

    ghost reaches = { λ h by_what n t. H.reaches h.inner by_what n t };

    ghost legal = { λ h. H.legal h.inner };

    ghost room = { λ h. H.room h.inner };

    ghost staked = { λ h x there. H.staked h.inner x there };

    #[tactic(auto, using(hall_trait::proofs::Views::nexts_same))]
    fn intern<R: Wait>(&mut self, rt: &R, key: NodeKey) -> Result<Interned, HallFault> {
        if self.refusal.comes() {
            return Err(HallFault::Memory);
        }
        self.inner.intern(rt, key)
    }

    fn read<R: Wait>(&mut self, rt: &R, n: u64) -> NodeKey {
        self.inner.read(rt, n)
    }

    fn release<R: Wait>(&mut self, rt: &R, n: u64) {
        self.inner.release(rt, n);
    }

    #[tactic(auto, using(hall_trait::proofs::Views::nexts_same))]
    fn admit<R: Wait>(
        &mut self,
        rt: &R,
        info: Arc<TraceInfo, Global>,
    ) -> Result<LoadPass, HallFault> {
        if self.refusal.comes() {
            return Err(HallFault::Memory);
        }
        self.inner.admit(rt, info)
    }

    fn publish<R: Wait>(&mut self, rt: &R, pass: &mut LoadPass, start: u64, root: u64) -> u64 {
        self.inner.publish(rt, pass, start, root)
    }

    fn seal<R: Wait>(&mut self, rt: &R, pass: LoadPass) -> u64 {
        self.inner.seal(rt, pass)
    }

    fn abandon<R: Wait>(&mut self, rt: &R, pass: LoadPass) -> u64 {
        self.inner.abandon(rt, pass)
    }

    fn ask<R: Wait>(&mut self, rt: &R, ids: AskIds) -> AskAnswer {
        self.inner.ask(rt, ids)
    }

    fn published<R: Wait>(&mut self, rt: &R, pin: &Pin, which: u8, track: u32) -> Published {
        self.inner.published(rt, pin, which, track)
    }

    #[tactic(auto, using(hall_trait::proofs::Views::nexts_same))]
    fn info<R: Wait>(
        &mut self,
        rt: &R,
        pin: &Pin,
        which: u8,
    ) -> Result<Arc<TraceInfo, Global>, HallFault> {
        if self.refusal.comes() {
            return Err(HallFault::Memory);
        }
        self.inner.info(rt, pin, which)
    }

    fn same<R: Wait>(&mut self, rt: &R, pin: &Pin, a: u64, b: u64) -> bool {
        self.inner.same(rt, pin, a, b)
    }

    fn same_names<R: Wait>(&mut self, rt: &R, pin: &Pin) -> bool {
        self.inner.same_names(rt, pin)
    }

    fn unpin<R: Wait>(&mut self, rt: &R, pin: Pin) {
        self.inner.unpin(rt, pin);
    }

    fn close<R: Wait>(&mut self, rt: &R, id: u64) -> CloseAnswer {
        self.inner.close(rt, id)
    }

    #[tactic(auto, using(hall_trait::proofs::Views::nexts_same))]
    fn list<R: Wait>(&mut self, rt: &R) -> Result<Listing, HallFault> {
        if self.refusal.comes() {
            return Err(HallFault::Memory);
        }
        self.inner.list(rt)
    }

    fn memo_look<R: Wait>(
        &mut self,
        rt: &R,
        n: u64,
        kind: MemoKind,
    ) -> Result<Option<Entry>, HallFault> {
        let found = self.inner.memo_look(rt, n, kind)?;
        if found.is_some() && self.refusal.comes() {
            return Err(HallFault::Memory);
        }
        Ok(found)
    }

    fn memo_fill<R: Wait>(&mut self, rt: &R, n: u64, kind: MemoKind, entry: Entry) {
        self.inner.memo_fill(rt, n, kind, entry);
    }
}
