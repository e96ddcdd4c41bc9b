ghost use Rattle.std.specs.Prelude.{◌≡◌, ◌+◌, ◌-◌, ◌<◌, ◌≤◌, ◌^◌, IfOk, Some, None, length, slice_get};
ghost use Rattle.std.specs.Arc.{arc_value};
ghost use Rattle.trace_base.specs.declared.limits.TheConstants.{MAX_TRACKS};
ghost use Rattle.trace_base.specs.Info.{IsLegalInfo};
ghost use Rattle.registry_core.specs.Trace.{is_over, just_opened, kept_for_users, loaded, promise_of};
ghost use Rattle.registry_core.specs.Trace.{list_row, published_by, root_of_track, roots_in, used_less};
ghost use Rattle.registry_core.specs.Trace.{used_more, with_root};

use crate::roots::Roots;
use crate::track_root::TrackRoot;
use hall_history::{ListRow, Published};
use std::alloc::Global;
use std::marker::Model;
use std::sync::Arc;
use trace_base::{Memory, TraceInfo};

/// A trace as the registry keeps it, with its published tracks counted.
#[derive(Drop)]
pub(crate) struct KeptTrace {
    pub(crate) id: u64,
    pub(crate) info: Arc<TraceInfo, Global>,
    pub(crate) closing: bool,
    pub(crate) loading: bool,
    pub(crate) users: u64,
    published: u32,
    tracks: Vec<Option<TrackRoot>>,
}

impl Model for KeptTrace {
    ghost use Rattle.std.specs.Prelude.{◌≡◌, count_by, is_some};
    ghost use Rattle.std.specs.Arc.{arc_value};
    ghost use Rattle.registry_core.specs.Trace.{Trace, trace_code};

    ghost Value = { Trace };

    ghost coded = { trace_code };

    ghost view = { λ a. record {
      id = a.id;
      info = arc_value a.info;
      closing = a.closing;
      loading = a.loading;
      users = a.users;
      tracks = a.tracks.items;
    } };

    ghost invariant = { λ a. a.published ≡ count_by is_some a.tracks.items };
}

impl KeptTrace {
    /// A trace that was just opened. It takes what the trace will ever need.
    pub(crate) fn new(
        alloc: Global,
        id: u64,
        info: Arc<TraceInfo, Global>,
    ) -> Result<KeptTrace, Memory>
        ensures { IfOk result (λ t. t ≡ just_opened id (arc_value info)) }
    {
        let Ok(tracks) = Vec::from_elem(alloc, None, info.names.tracks.len()) else {
            return Err(Memory);
        };
        Ok(KeptTrace {
            id,
            info,
            closing: false,
            loading: true,
            users: 0,
            published: 0,
            tracks,
        })
    }

    /// The number of its tracks.
    pub(crate) fn track_count(&self) -> u32
        requires { length self.now.tracks ≤ MAX_TRACKS }
        ensures { result ≡ length self.now.tracks }
    {
        self.tracks.len() as u32
    }

    /// The places that are promised to it.
    pub(crate) fn promise(&self) -> u64
        requires { length self.now.tracks ≤ MAX_TRACKS }
        ensures { result ≡ promise_of self.now }
    {
        if self.loading {
            u64::from(self.track_count() - self.published) + 1
        } else {
            0
        }
    }

    /// Whether it ended and nobody uses it.
    pub(crate) fn is_over(&self) -> bool
        ensures { result ≡ is_over self.now }
    {
        self.closing && self.users == 0
    }

    /// What is told of a track as of a place.
    pub(crate) fn told(&self, place: u64, track: u32) -> Published
        ensures { result ≡ published_by self.now place track }
    {
        match self.tracks.get(track as usize) {
            Some(Some(root)) if root.place <= place => Published::Root {
                start: root.start,
                root: root.root,
            },
            _ => Published::NotYet,
        }
    }

    /// Its row in a listing.
    pub(crate) fn row(&self) -> ListRow
        requires { length self.now.tracks ≤ MAX_TRACKS }
        ensures { result ≡ list_row self.now }
    {
        ListRow {
            id: self.id,
            tracks: self.track_count(),
            published: self.published,
            loading: self.loading,
        }
    }

    /// Publishes a track.
    pub(crate) fn publish(&mut self, track: u32, root: TrackRoot)
        requires few { length self.old.tracks ≤ MAX_TRACKS }
        requires open { slice_get self.old.tracks track ≡ Some None }
        ensures { self.new ≡ with_root track root self.old }
    {
        self.tracks[track as usize] = Some(root);
        self.published += 1;
    }

    /// Ends its load.
    pub(crate) fn seal(&mut self)
        ensures { self.new ≡ loaded self.old }
    {
        self.loading = false;
    }

    /// Ends it, and keeps it for its users.
    pub(crate) fn end(&mut self)
        ensures { self.new ≡ kept_for_users self.old }
    {
        self.closing = true;
        self.loading = false;
    }

    /// Adds a user.
    pub(crate) fn raise(&mut self)
        requires { self.old.users < 2 ^ 64 - 1 }
        ensures { self.new ≡ used_more 1 self.old }
    {
        self.users += 1;
    }

    /// Takes a user away.
    pub(crate) fn lower(&mut self)
        requires { 1 ≤ self.old.users }
        ensures { self.new ≡ used_less 1 self.old }
    {
        self.users -= 1;
    }

    /// Its roots.
    pub(crate) fn into_roots(self) -> Roots
        ensures { result ≡ roots_in self.tracks }
    {
        Roots::new(self.tracks)
    }
}
