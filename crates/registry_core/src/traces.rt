ghost use Rattle.std.specs.Prelude.{◌≡◌, ◌<◌, ◌≤◌, ◌^◌, ◌-◌, [], ◌∷◌, ◌++◌, ◌&&◌, All, IfOk, OnErr, OnOk};
ghost use Rattle.std.specs.Prelude.{None, Some, filter, length, map, not, slice_get};
ghost use Rattle.std.specs.List.{find};
ghost use Rattle.std.specs.Option.{option_copied, option_map};
ghost use Rattle.trace_base.specs.declared.limits.TheConstants.{MAX_TRACKS};
ghost use Rattle.registry_core.specs.Asking.{times_asked, with_users, without_users};
ghost use Rattle.registry_core.specs.Registry.{has_id, is_open_trace, kept_trace, open_count, with_changed};
ghost use Rattle.registry_core.specs.Registry.{without_trace};
ghost use Rattle.registry_core.specs.Trace.{Trace, is_over, kept_for_users, list_row, loaded, roots_in};
ghost use Rattle.registry_core.specs.Trace.{used_less, used_more, with_root};

use crate::kept_trace::KeptTrace;
use crate::roots::Roots;
use crate::track_root::TrackRoot;
use hall_history::{AskIds, ListRow};
use std::alloc::Global;
use std::collections::BTreeMap;
use std::marker::Model;
use trace_base::{Memory, Seq};

/// The traces of a registry, found by their ids.
#[derive(Drop)]
pub(crate) struct Traces {
    by_id: BTreeMap<u64, KeptTrace>,
}

impl Model for Traces {
    ghost use Rattle.std.specs.Prelude.{◌≡◌, List, map};
    ghost use Rattle.std.specs.Coded.{coded_list};
    ghost use Rattle.std.specs.BTreeMap.{keys, values};
    ghost use Rattle.std.specs.List.Sorted.{IsStrictlySortedBy};
    ghost use Rattle.std.specs.Ordering.{nat_cmp};
    ghost use Rattle.registry_core.specs.Trace.{Trace, trace_code};

    ghost Value = { List Trace };

    ghost coded = { coded_list trace_code };

    ghost view = { λ a. values a.by_id };

    ghost invariant = { λ a. IsStrictlySortedBy nat_cmp (keys a.by_id)
        × (keys a.by_id ≡ map (λ (t : Trace). t.id) (values a.by_id)) };
}

impl Traces {
    /// No traces. It takes no memory.
    pub(crate) fn new(alloc: Global) -> Traces
        ensures { result ≡ [] }
    {
        Traces {
            by_id: BTreeMap::new(alloc),
        }
    }

    /// The trace of an id.
    pub(crate) fn find(&self, id: u64) -> Option<&KeptTrace>
        ensures { option_copied result ≡ kept_trace self.now id }
    {
        self.by_id.get(&id)
    }

    /// Adds a trace whose id is greater than the others. On `Memory` the traces are as before.
    pub(crate) fn add(&mut self, trace: KeptTrace) -> Result<(), Memory>
        requires { All (λ (t : Trace). t.id < trace.id) self.old }
        ensures added { OnOk result (self.new ≡ self.old ++ trace ∷ []) }
        ensures unchanged { OnErr result (self.new ≡ self.old) }
    {
        match self.by_id.insert(trace.id, trace) {
            Ok(_) => Ok(()),
            Err(_) => Err(Memory),
        }
    }

    /// Takes the trace of an id out.
    pub(crate) fn take(&mut self, id: u64) -> Option<KeptTrace>
        ensures value { result ≡ kept_trace self.old id }
        ensures rest { self.new ≡ without_trace id self.old }
    {
        self.by_id.remove(&id)
    }

    /// Publishes a track of the trace.
    pub(crate) fn publish(&mut self, id: u64, track: u32, root: TrackRoot)
        requires { (t : Trace) × (kept_trace self.old id ≡ Some t) × (length t.tracks ≤ MAX_TRACKS)
            × (slice_get t.tracks track ≡ Some None) }
        ensures { self.new ≡ with_changed id (with_root track root) self.old }
    {
        if let Some(trace) = self.by_id.get_mut(&id) {
            trace.publish(track, root);
        }
    }

    /// Ends the load of the trace.
    pub(crate) fn seal(&mut self, id: u64)
        ensures { self.new ≡ with_changed id loaded self.old }
    {
        if let Some(trace) = self.by_id.get_mut(&id) {
            trace.seal();
        }
    }

    /// Ends the trace, and keeps it for its users.
    pub(crate) fn end(&mut self, id: u64)
        ensures { self.new ≡ with_changed id kept_for_users self.old }
    {
        if let Some(trace) = self.by_id.get_mut(&id) {
            trace.end();
        }
    }

    /// Adds a user to the trace.
    pub(crate) fn raise(&mut self, id: u64)
        requires { (t : Trace) → kept_trace self.old id ≡ Some t → t.users < 2 ^ 64 - 1 }
        ensures { self.new ≡ with_changed id (used_more 1) self.old }
    {
        if let Some(trace) = self.by_id.get_mut(&id) {
            trace.raise();
        }
    }

    /// Takes a user of the trace away.
    pub(crate) fn lower(&mut self, id: u64)
        requires { (t : Trace) → kept_trace self.old id ≡ Some t → 1 ≤ t.users }
        ensures { self.new ≡ with_changed id (used_less 1) self.old }
    {
        if let Some(trace) = self.by_id.get_mut(&id) {
            trace.lower();
        }
    }

    /// Adds a user to each trace that is asked for, for each time that it is.
    pub(crate) fn raise_all(&mut self, ids: AskIds)
        requires { All (λ (t : Trace). t.users < 2 ^ 64 - 2) self.old }
        ensures { self.new ≡ with_users ids self.old }
    {
        match ids {
            AskIds::One(a) => self.raise(a),
            AskIds::Two(a, b) => {
                self.raise(a);
                self.raise(b);
            }
        }
    }

    /// Takes a user away from each trace that is named, for each time that it is.
    pub(crate) fn lower_all(&mut self, ids: AskIds)
        requires { All (λ (t : Trace). times_asked ids t.id ≤ t.users) self.old }
        ensures { self.new ≡ without_users ids self.old }
    {
        match ids {
            AskIds::One(a) => self.lower(a),
            AskIds::Two(a, b) => {
                self.lower(a);
                self.lower(b);
            }
        }
    }

    /// Takes the trace out if it ended and nobody uses it, and answers its roots.
    pub(crate) fn take_over(&mut self, id: u64) -> Option<Roots>
        ensures roots { result ≡ option_map (λ (t : Trace). roots_in t.tracks)
            (find (λ t. has_id id t && is_over t) self.old) }
        ensures rest { self.new ≡ filter (λ t. not (has_id id t && is_over t)) self.old }
    {
        let trace = self.by_id.get(&id)?;
        if !trace.is_over() {
            return None;
        }
        let trace = self.take(id)?;
        Some(trace.into_roots())
    }

    /// A row for each open trace, of which there are so many, rising by id.
    pub(crate) fn rows(&self, alloc: Global, count: u64) -> Result<Seq<ListRow>, Memory>
        requires few { All (λ (t : Trace). length t.tracks ≤ MAX_TRACKS) self.now }
        requires count { count ≡ open_count self.now }
        ensures { IfOk result (λ rows. rows ≡ map list_row (filter is_open_trace self.now)) }
    {
        let Ok(mut rows) = Vec::with_capacity(alloc, count as usize) else {
            return Err(Memory);
        };
        for (_, trace) in self.by_id.iter() {
            if !trace.closing {
                rows.push_reserved(trace.row());
            }
        }
        Ok(Seq::from_vec(rows))
    }
}
