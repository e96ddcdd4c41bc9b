ghost use Rattle.std.specs.Prelude.{◌≡◌, ◌+◌, ◌<◌, ◌≤◌, ◌↔◌, false, IfOk};
ghost use Rattle.std.specs.Prelude.{IsSome, IsTrue, None, Some, is_some, length};
ghost use Rattle.std.specs.Prelude.{if◌then◌else◌};
ghost use Rattle.std.specs.Arc.{arc_value};
ghost use Rattle.trace_base.specs.Info.{IsLegalInfo};
ghost use Rattle.trace_base.specs.declared.limits.TheConstants.{MAX_PLACES};
ghost use Rattle.registry_core.specs.Asking.{AreKeptTraces, AreUsed, AsksIn, HaveSameNames, after_unpin};
ghost use Rattle.registry_core.specs.Asking.{first_unknown, unpinned};
ghost use Rattle.registry_core.specs.Closing.{ClosesIn, ListsIn};
ghost use Rattle.registry_core.specs.Loading.{EndsIn, AdmitsIn, AwaitsSeal, AwaitsTrack};
ghost use Rattle.registry_core.specs.Loading.{IsLoadingTrace, with_published, with_sealed};
ghost use Rattle.registry_core.specs.Registry.{FitsPlaces, after_entry, kept_trace, new_registry};
ghost use Rattle.registry_core.specs.Registry.{open_count, open_trace, taken_places};
ghost use Rattle.registry_core.specs.Trace.{Trace, published_by};

use crate::answers::{Opened, RegAsk, RegClose, RegEnd, RegFault, RegUnpin};
use crate::kept_trace::KeptTrace;
use crate::same_names::are_same;
use crate::traces::Traces;
use crate::track_root::TrackRoot;
use hall_history::{AskIds, Brief, Listing, Published};
use std::alloc::Global;
use std::marker::Model;
use std::sync::Arc;
use trace_base::{MAX_OPEN_TRACES, MAX_PLACES, Memory, TraceInfo};

/// The traces of a hall, and the places of its history. Places and ids are given once.
#[derive(Drop)]
pub struct Registry {
    alloc: Global,
    place: u64,
    next_id: u64,
    promised: u64,
    /// How many traces are open.
    open_traces: u64,
    traces: Traces,
}

impl Model for Registry {
    ghost use Rattle.std.specs.Prelude.{◌≡◌};
    ghost use Rattle.registry_core.specs.Registry.{IsSoundRegistry, RegistryValue, open_count, registry_code};

    ghost Value = { RegistryValue };

    ghost coded = { registry_code };

    ghost view = { λ a. record {
      place = a.place;
      next_id = a.next_id;
      promised = a.promised;
      traces = a.traces;
    } };

    ghost invariant = { λ a. IsSoundRegistry (record {
      place = a.place;
      next_id = a.next_id;
      promised = a.promised;
      traces = a.traces;
    }) × (a.open_traces ≡ open_count a.traces) };
}

impl Registry {
    /// A registry without traces, whose next entry comes behind this place, and whose next trace gets this
    /// id. Ids and places are counted from 1, and there are at most as many ids given as places.
    pub fn starting_at(alloc: Global, place: u64, next_id: u64) -> Result<Registry, Memory>
        requires place { place ≤ MAX_PLACES }
        requires id { (1 ≤ next_id) × (next_id ≤ place + 1) }
        ensures { IfOk result (λ r. r ≡ new_registry place next_id) }
    {
        Ok(Registry {
            alloc,
            place,
            next_id,
            promised: 0,
            open_traces: 0,
            traces: Traces::new(alloc),
        })
    }

    // The places that are taken or promised.
    fn taken(&self) -> u64
        ensures value { result ≡ taken_places self.now }
        ensures most { result ≤ MAX_PLACES }
    {
        self.place + self.promised
    }

    /// How many traces are open.
    pub fn open_traces(&self) -> u64
        ensures { result ≡ open_count self.now.traces }
    {
        self.open_traces
    }

    /// How many places are promised to loading traces.
    pub fn promised(&self) -> u64
        ensures { result ≡ self.now.promised }
    {
        self.promised
    }

    // Makes an entry that changes nothing else, and answers its place.
    fn enter(&mut self) -> u64
        requires { FitsPlaces self.old 1 }
        ensures place { result ≡ self.old.place + 1 }
        ensures rest { self.new ≡ after_entry self.old }
    {
        self.place += 1;
        self.place
    }

    /// Opens a trace, and promises it the places of all its entries to come. Everything that it will ever
    /// need is taken here.
    ///
    /// Errors: `Spent` exactly where so many places are taken or promised that those of a whole load don't
    /// fit; else `Full` exactly where `MAX_OPEN_TRACES` traces are open, which makes an entry; else, at
    /// times, `Memory`, and then nothing is changed.
    pub fn admit(&mut self, info: Arc<TraceInfo, Global>) -> Result<Opened, RegFault>
        requires { IsLegalInfo (arc_value info) }
        ensures { AdmitsIn self.old (arc_value info) result self.new }
    {
        let promised = info.names.tracks.len() as u64 + 1;
        let taken = self.taken();
        if taken + promised + 1 > MAX_PLACES {
            return Err(RegFault::Spent(taken));
        }
        if self.open_traces == MAX_OPEN_TRACES {
            return Err(RegFault::Full(self.enter()));
        }
        let id = self.next_id;
        let added = match KeptTrace::new(self.alloc, id, info) {
            Ok(trace) => self.traces.add(trace),
            Err(Memory) => Err(Memory),
        };
        if added.is_err() {
            return Err(RegFault::Memory);
        }
        self.place += 1;
        self.next_id += 1;
        self.promised += promised;
        self.open_traces += 1;
        Ok(Opened {
            id,
            place: self.place,
        })
    }

    /// Publishes a track of a loading trace: when it starts, in nanoseconds, and the number of its root. The
    /// answer is the place of that entry. It takes no memory.
    pub fn publish(&mut self, id: u64, track: u32, start: u64, root: u64) -> u64
        requires { AwaitsTrack self.old id track }
        ensures place { result ≡ self.old.place + 1 }
        ensures rest { self.new ≡ with_published self.old id track start root }
    {
        let place = self.place + 1;
        self.traces
            .publish(id, track, TrackRoot { start, root, place });
        self.place = place;
        self.promised -= 1;
        place
    }

    /// Ends the load of a trace whose tracks are all published. The answer is the place of that entry. It
    /// takes no memory.
    pub fn seal(&mut self, id: u64) -> u64
        requires { AwaitsSeal self.old id }
        ensures place { result ≡ self.old.place + 1 }
        ensures rest { self.new ≡ with_sealed self.old id }
    {
        self.traces.seal(id);
        self.place += 1;
        self.promised -= 1;
        self.place
    }

    // Ends a trace that is loading, or that is open while a place is left; the places that were promised to
    // it are free.
    fn end(&mut self, id: u64) -> RegEnd
        requires { (t : Trace) × (kept_trace self.old.traces id ≡ Some t)
            × (t.loading ≡ false → (t.closing ≡ false) × FitsPlaces self.old 1) }
        ensures { EndsIn self.old id result self.new }
    {
        let place = self.place + 1;
        let Some(trace) = self.traces.find(id) else {
            unreachable!();
        };
        let promise = trace.promise();
        let is_used = trace.users > 0;
        self.place = place;
        self.promised -= promise;
        self.open_traces -= 1;
        if is_used {
            self.traces.end(id);
            return RegEnd::Kept(place);
        }
        match self.traces.take(id) {
            Some(trace) => RegEnd::Ended(place, trace.into_roots()),
            None => unreachable!(),
        }
    }

    /// Gives up the load of a trace; the places that were promised to it are free. Where a query uses the
    /// trace it is kept until it was given back, else its roots come free. It takes no memory.
    pub fn abandon(&mut self, id: u64) -> RegEnd
        requires { IsLoadingTrace self.old id }
        ensures { EndsIn self.old id result self.new }
    {
        self.end(id)
    }

    /// Asks for one or two traces, which then have one user more for each time that they are asked for. It
    /// takes no memory.
    ///
    /// `Spent` comes exactly where no place is left, before the ids are looked at. All else makes an entry:
    /// `Unknown` exactly where an id isn't open, with the first such.
    pub fn ask(&mut self, ids: AskIds) -> RegAsk
        ensures { AsksIn self.old ids result self.new }
    {
        let taken = self.taken();
        if taken == MAX_PLACES {
            return RegAsk::Spent(taken);
        }
        if let Some(id) = self.first_unknown(ids) {
            let next = self.next_id;
            return RegAsk::Unknown {
                id,
                next,
                place: self.enter(),
            };
        }
        self.place += 1;
        self.traces.raise_all(ids);
        RegAsk::Pinned(self.place)
    }

    // Whether the trace is open.
    fn is_open(&self, id: u64) -> bool
        ensures { result ≡ is_some (open_trace self.now.traces id) }
    {
        match self.traces.find(id) {
            Some(trace) => !trace.closing,
            None => false,
        }
    }

    // The id, unless its trace is open.
    fn unless_open(&self, id: u64) -> Option<u64>
        ensures { result ≡ (if is_some (open_trace self.now.traces id) then None else Some id) }
    {
        if self.is_open(id) { None } else { Some(id) }
    }

    // The first of these ids that isn't open.
    fn first_unknown(&self, ids: AskIds) -> Option<u64>
        ensures { result ≡ first_unknown self.now ids }
    {
        match ids {
            AskIds::One(a) => self.unless_open(a),
            AskIds::Two(a, b) => match self.unless_open(a) {
                Some(id) => Some(id),
                None => self.unless_open(b),
            },
        }
    }

    // A trace that is kept.
    fn kept(&self, id: u64) -> &KeptTrace
        requires { IsSome (kept_trace self.now.traces id) }
        ensures { kept_trace self.now.traces id ≡ Some result.now }
    {
        match self.traces.find(id) {
            Some(trace) => trace,
            None => unreachable!(),
        }
    }

    /// What is published of a track of a kept trace as of a place of the history: `NotYet` exactly where it
    /// was published behind that place, or not at all.
    pub fn published(&self, id: u64, place: u64, track: u32) -> Published
        requires { IsSome (kept_trace self.now.traces id) }
        ensures { (t : Trace) → kept_trace self.now.traces id ≡ Some t → result ≡ published_by t place track }
    {
        self.kept(id).told(place, track)
    }

    /// What a kept trace was opened with.
    ///
    /// Error: `Memory`, where no second owner of it can be made.
    pub fn info(&self, id: u64) -> Result<Arc<TraceInfo, Global>, Memory>
        requires { IsSome (kept_trace self.now.traces id) }
        ensures { (t : Trace) → kept_trace self.now.traces id ≡ Some t
            → IfOk result (λ info. arc_value info ≡ t.info) }
    {
        match self.kept(id).info.clone() {
            Ok(info) => Ok(info),
            Err(_) => Err(Memory),
        }
    }

    /// The number of a kept trace's tracks.
    pub fn brief(&self, id: u64) -> Brief
        requires { IsSome (kept_trace self.now.traces id) }
        ensures { (t : Trace) → kept_trace self.now.traces id ≡ Some t → result.tracks ≡ length t.tracks }
    {
        let Some(trace) = self.traces.find(id) else {
            unreachable!();
        };
        Brief {
            tracks: trace.track_count(),
        }
    }

    /// Whether the kept traces that are named have the same list of functions.
    pub fn same_names(&self, ids: AskIds) -> bool
        requires { AreKeptTraces self.now ids }
        ensures { IsTrue result ↔ HaveSameNames self.now ids }
    {
        match ids {
            AskIds::One(_) => true,
            AskIds::Two(a, b) => {
                let first = self.kept(a).info.names.functions.as_slice();
                are_same(first, self.kept(b).info.names.functions.as_slice())
            }
        }
    }

    /// Gives traces back that were asked for. Those that have ended and have no users left are gone, and
    /// their roots come free. It makes no entry and takes no memory.
    pub fn unpin(&mut self, ids: AskIds) -> RegUnpin
        requires { AreUsed self.old ids }
        ensures roots { result ≡ unpinned ids self.old.traces }
        ensures rest { self.new ≡ after_unpin self.old ids }
    {
        self.traces.lower_all(ids);
        match ids {
            AskIds::One(a) => RegUnpin {
                first: self.traces.take_over(a),
                second: None,
            },
            AskIds::Two(a, b) => {
                let first = self.traces.take_over(a);
                let second = self.traces.take_over(b);
                RegUnpin { first, second }
            }
        }
    }

    /// Closes a trace that is open and no longer loading. Where a query uses it, it is kept until it was
    /// given back, else its roots come free. It takes no memory.
    ///
    /// `Spent` comes exactly where no place is left, before the id is looked at. All else makes an entry:
    /// `Unknown` exactly where the id isn't open, and `Loading` exactly where its trace is loading.
    pub fn close(&mut self, id: u64) -> RegClose
        ensures { ClosesIn self.old id result self.new }
    {
        let taken = self.taken();
        if taken == MAX_PLACES {
            return RegClose::Spent(taken);
        }
        let next = self.next_id;
        if !self.is_open(id) {
            return RegClose::Unknown {
                next,
                place: self.enter(),
            };
        }
        if self.kept(id).loading {
            return RegClose::Loading(self.enter());
        }
        match self.end(id) {
            RegEnd::Ended(place, roots) => RegClose::Ended(place, roots),
            RegEnd::Kept(place) => RegClose::Kept(place),
        }
    }

    /// The open traces, rising by id. It makes an entry.
    ///
    /// Errors: `Spent` exactly where no place is left; `Memory`, and then nothing is changed. It never
    /// answers `Full`.
    pub fn list(&mut self) -> Result<Listing, RegFault>
        ensures { ListsIn self.old result self.new }
    {
        let taken = self.taken();
        if taken == MAX_PLACES {
            return Err(RegFault::Spent(taken));
        }
        match self.traces.rows(self.alloc, self.open_traces) {
            Ok(rows) => Ok(Listing {
                place: self.enter(),
                rows,
            }),
            Err(Memory) => Err(RegFault::Memory),
        }
    }
}
