ghost use Rattle.std.specs.Prelude.{◌≡◌, ◌++◌, [], ◌∷◌, MatchOption};
ghost use Rattle.registry_core.specs.Trace.{roots_in};

use crate::track_root::TrackRoot;
use std::marker::Model;

/// The numbers of the roots of a trace that is gone, each of which is to be released once. It has the memory
/// that the trace had for its tracks.
#[derive(Drop)]
pub struct Roots {
    tracks: Vec<Option<TrackRoot>>,
}

impl Model for Roots {
    ghost use Rattle.std.specs.Prelude.{ℕ, List};
    ghost use Rattle.std.specs.Coded.{coded_list, coded_ℕ};
    ghost use Rattle.registry_core.specs.Trace.{roots_in};

    ghost Value = { List ℕ };

    ghost coded = { coded_list coded_ℕ };

    ghost view = { λ a. roots_in a.tracks.items };
}

impl Roots {
    /// The roots of these tracks. It takes no memory.
    pub(crate) fn new(tracks: Vec<Option<TrackRoot>>) -> Roots
        ensures { result ≡ roots_in tracks.items }
    {
        Roots { tracks }
    }

    /// Takes a root out; `None` exactly where none is left.
    pub fn pop(&mut self) -> Option<u64>
        ensures { MatchOption result ((self.old ≡ []) × (self.new ≡ [])) (λ root. self.old ≡ self.new
            ++ root ∷ []) }
    {
        while let Some(track) = self.tracks.pop() {
            if let Some(root) = track {
                return Some(root.root);
            }
        }
        None
    }
}
