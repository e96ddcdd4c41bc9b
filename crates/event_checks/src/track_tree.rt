ghost use Rattle.std.specs.Prelude.{◌≡◌, ◌+◌, ◌<◌, ◌≤◌, ◌↔◌, IfOk, IfSome, IfNone, IsTrue};
ghost use Rattle.event_checks.specs.TrackTree.{IsTrackTree};
ghost use Rattle.node_key.specs.Trees.{tree as tree_of_stream};
ghost use Rattle.trace_base.specs.Info.{Fits};
ghost use Rattle.trace_base.specs.declared.limits.TheConstants.{MAX_TIME};

use crate::fitting::fits;
use crate::same_tree::are_same;
use call_tree::{events_of, tree_of};
use node_key::CallTree;
use std::alloc::Global;
use trace_base::{MAX_TIME, Memory, TraceInfo, TrackStream};

// When a tree ends that begins at `start`, in nanoseconds; none past the greatest time.
fn end_of(tree: &CallTree, start: u64) -> Option<u64>
    ensures some { IfSome result (λ end. (end ≡ start + tree.now.dur) × (end ≤ MAX_TIME)) }
    ensures none { IfNone result (MAX_TIME < start + tree.now.dur) }
{
    match start.checked_add(tree.dur()) {
        Some(end) if end <= MAX_TIME => Some(end),
        _ => None,
    }
}

// Whether a stream fits a track and has this tree.
fn fits_with(
    alloc: Global,
    tree: &CallTree,
    s: &TrackStream,
    info: &TraceInfo,
    track: u32,
) -> Result<bool, Memory>
    ensures { IfOk result (λ is. IsTrue is ↔ (Fits s.now info.now track × (tree.now ≡ tree_of_stream s.now))) }
{
    if !fits(s, info, track) {
        return Ok(false);
    }
    let own = tree_of(alloc, s)?;
    Ok(are_same(tree, &own))
}

/// Whether a tree is that of a stream that starts at `start`, in nanoseconds, and may be published as this
/// track, counted from 0. It takes memory for the events of the tree and for their tree.
pub fn is_track_tree(
    alloc: Global,
    tree: &CallTree,
    start: u64,
    info: &TraceInfo,
    track: u32,
) -> Result<bool, Memory>
    ensures { IfOk result (λ is. IsTrue is ↔ IsTrackTree tree.now start info.now track) }
{
    let Some(end) = end_of(tree, start) else {
        return Ok(false);
    };
    let events = events_of(alloc, tree, start)?;
    let s = TrackStream { start, end, events };
    fits_with(alloc, tree, &s, info, track)
}
