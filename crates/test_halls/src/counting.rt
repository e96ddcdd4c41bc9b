use hall_history::{AskIds, Listing, Published};
use hall_trait::{AskAnswer, CloseAnswer, Hall, HallFault, LoadPass, Pin};
use node_key::NodeKey;
use shard_core::Interned;
use std::alloc::Global;
use std::sync::{Arc, Wait};
use trace_base::TraceInfo;
use whole_profiles::{Entry, MemoKind};

/// How often each call of a hall was made. A count stands still at the end of its type.
#[derive(Clone, Copy, Debug, PartialEq, Eq)]
pub struct CallCounts {
    pub intern: u64,
    pub read: u64,
    pub release: u64,
    pub admit: u64,
    pub publish: u64,
    pub seal: u64,
    pub abandon: u64,
    pub ask: u64,
    pub published: u64,
    pub info: u64,
    pub same: u64,
    pub same_names: u64,
    pub unpin: u64,
    pub close: u64,
    pub list: u64,
    pub memo_look: u64,
    pub memo_fill: u64,
}

/// A hall that counts the calls that are made of it, each before the hall inside serves it. In all else it is
/// that hall.
#[derive(Drop)]
pub struct CountingHall<H> {
    pub inner: H,
    pub counts: CallCounts,
}

impl<H: Hall> CountingHall<H> {
    ghost use Rattle.std.specs.Prelude.{◌≡◌};

    /// Over this hall, of which no call was made yet.
    pub fn over(inner: H) -> CountingHall<H>
        ensures { result.inner ≡ inner }
    {
        CountingHall {
            inner,
            counts: CallCounts {
                intern: 0,
                read: 0,
                release: 0,
                admit: 0,
                publish: 0,
                seal: 0,
                abandon: 0,
                ask: 0,
                published: 0,
                info: 0,
                same: 0,
                same_names: 0,
                unpin: 0,
                close: 0,
                list: 0,
                memo_look: 0,
                memo_fill: 0,
            },
        }
    }
}

impl<H: Hall> Hall for CountingHall<H> {
    ghost view = { λ h. H.view h.inner };

    ghost reaches = { λ h by_what n t. H.reaches h.inner by_what n t };

    ghost legal = { λ h. H.legal h.inner };

    ghost room = { λ h. H.room h.inner };

    ghost staked = { λ h x there. H.staked h.inner x there };

    fn intern<R: Wait>(&mut self, rt: &R, key: NodeKey) -> Result<Interned, HallFault> {
        self.counts.intern = self.counts.intern.saturating_add(1);
        self.inner.intern(rt, key)
    }

    fn read<R: Wait>(&mut self, rt: &R, n: u64) -> NodeKey {
        self.counts.read = self.counts.read.saturating_add(1);
        self.inner.read(rt, n)
    }

    fn release<R: Wait>(&mut self, rt: &R, n: u64) {
        self.counts.release = self.counts.release.saturating_add(1);
        self.inner.release(rt, n);
    }

    fn admit<R: Wait>(
        &mut self,
        rt: &R,
        info: Arc<TraceInfo, Global>,
    ) -> Result<LoadPass, HallFault> {
        self.counts.admit = self.counts.admit.saturating_add(1);
        self.inner.admit(rt, info)
    }

    fn publish<R: Wait>(&mut self, rt: &R, pass: &mut LoadPass, start: u64, root: u64) -> u64 {
        self.counts.publish = self.counts.publish.saturating_add(1);
        self.inner.publish(rt, pass, start, root)
    }

    fn seal<R: Wait>(&mut self, rt: &R, pass: LoadPass) -> u64 {
        self.counts.seal = self.counts.seal.saturating_add(1);
        self.inner.seal(rt, pass)
    }

    fn abandon<R: Wait>(&mut self, rt: &R, pass: LoadPass) -> u64 {
        self.counts.abandon = self.counts.abandon.saturating_add(1);
        self.inner.abandon(rt, pass)
    }

    fn ask<R: Wait>(&mut self, rt: &R, ids: AskIds) -> AskAnswer {
        self.counts.ask = self.counts.ask.saturating_add(1);
        self.inner.ask(rt, ids)
    }

    fn published<R: Wait>(&mut self, rt: &R, pin: &Pin, which: u8, track: u32) -> Published {
        self.counts.published = self.counts.published.saturating_add(1);
        self.inner.published(rt, pin, which, track)
    }

    fn info<R: Wait>(
        &mut self,
        rt: &R,
        pin: &Pin,
        which: u8,
    ) -> Result<Arc<TraceInfo, Global>, HallFault> {
        self.counts.info = self.counts.info.saturating_add(1);
        self.inner.info(rt, pin, which)
    }

    fn same<R: Wait>(&mut self, rt: &R, pin: &Pin, a: u64, b: u64) -> bool {
        self.counts.same = self.counts.same.saturating_add(1);
        self.inner.same(rt, pin, a, b)
    }

    fn same_names<R: Wait>(&mut self, rt: &R, pin: &Pin) -> bool {
        self.counts.same_names = self.counts.same_names.saturating_add(1);
        self.inner.same_names(rt, pin)
    }

    fn unpin<R: Wait>(&mut self, rt: &R, pin: Pin) {
        self.counts.unpin = self.counts.unpin.saturating_add(1);
        self.inner.unpin(rt, pin);
    }

    fn close<R: Wait>(&mut self, rt: &R, id: u64) -> CloseAnswer {
        self.counts.close = self.counts.close.saturating_add(1);
        self.inner.close(rt, id)
    }

    fn list<R: Wait>(&mut self, rt: &R) -> Result<Listing, HallFault> {
        self.counts.list = self.counts.list.saturating_add(1);
        self.inner.list(rt)
    }

    fn memo_look<R: Wait>(
        &mut self,
        rt: &R,
        n: u64,
        kind: MemoKind,
    ) -> Result<Option<Entry>, HallFault> {
        self.counts.memo_look = self.counts.memo_look.saturating_add(1);
        self.inner.memo_look(rt, n, kind)
    }

    fn memo_fill<R: Wait>(&mut self, rt: &R, n: u64, kind: MemoKind, entry: Entry) {
        self.counts.memo_fill = self.counts.memo_fill.saturating_add(1);
        self.inner.memo_fill(rt, n, kind, entry);
    }
}
