//! The call-tree profile: a row for each call path, in depth-first order.
ghost use Rattle.std.specs.Prelude.{◌≡◌, ◌<◌, ◌≤◌, [], ◌∷◌, map, All, IfOk};
ghost use Rattle.event_model.specs.PathRows.{rows_told, IsOfOpenCalls};
ghost use Rattle.trace_base.specs.Paths.{call_paths, path_row, path_stands, paths};
ghost use Rattle.trace_base.specs.Stream.{IsLegal};
ghost use Rattle.trace_base.specs.declared.limits.TheConstants.{MAX_TIME};

use crate::part::Part;
use crate::pass::{calls_into, step, time_in};
use std::alloc::Global;
use std::collections::BTreeSet;
use trace_base::{Memory, PathProfile, PathRow, Seq, TrackStream};

// The different call paths of the stream, in depth-first order.
fn call_paths_of(alloc: Global, s: &TrackStream) -> Result<Vec<Vec<u32>>, Memory>
    requires { IsLegal s.now }
    ensures exact { IfOk result (λ paths. map (λ path. path.items) paths.items ≡ call_paths (s.now ∷ [])) }
    ensures open { IfOk result (λ paths. All (λ path. IsOfOpenCalls path.items) paths.items) }
{
    let mut stack = Vec::new(alloc);
    let mut paths: BTreeSet<Vec<u32>> = BTreeSet::new(alloc);
    for event in s.events.as_slice() {
        step(&mut stack, *event)?;
        if !stack.is_empty() {
            paths.insert(Vec::from_slice(alloc, stack.as_slice())?)?;
        }
    }
    Ok(paths.into_iter().collect(alloc)?)
}

// What the path took within [a, b).
#[tactic(auto, unfolding(trace_base::specs::Paths::path_row))]
fn row(alloc: Global, s: &TrackStream, a: u64, b: u64, path: &[u32]) -> Result<PathRow, Memory>
    requires legal { IsLegal s.now }
    requires open { IsOfOpenCalls path.now }
    ensures { IfOk result (λ r. r ≡ path_row (s.now ∷ []) a b path.now) }
{
    Ok(PathRow {
        depth: path.len() as u16,
        func: path[path.len() - 1],
        calls: calls_into(alloc, s, Part::At(path), a, b)?,
        incl: u128::from(time_in(alloc, s, Part::Under(path), a, b)?),
        excl: u128::from(time_in(alloc, s, Part::At(path), a, b)?),
    })
}

// Whether a path that begins with this one began a call within [a, b) or took time in it.
#[tactic(auto, unfolding(trace_base::specs::Paths::path_stands))]
fn stands(alloc: Global, s: &TrackStream, a: u64, b: u64, path: &[u32]) -> Result<bool, Memory>
    requires { IsLegal s.now }
    ensures { IfOk result (λ t. t ≡ path_stands (s.now ∷ []) a b path.now) }
{
    let calls = calls_into(alloc, s, Part::Under(path), a, b)?;
    let time = time_in(alloc, s, Part::Under(path), a, b)?;
    Ok(calls > 0 || time > 0)
}

// The rows of the paths that stand, in the order of the paths.
fn rows_of(
    alloc: Global,
    s: &TrackStream,
    a: u64,
    b: u64,
    paths: &[Vec<u32>],
) -> Result<Seq<PathRow>, Memory>
    requires legal { IsLegal s.now }
    requires open { All (λ path. IsOfOpenCalls path.items) paths.now }
    ensures { IfOk result (λ rows. rows ≡ rows_told (s.now ∷ []) a b (map (λ path. path.items) paths.now)) }
{
    let mut rows = Seq::new(alloc);
    for path in paths {
        if stands(alloc, s, a, b, path.as_slice())? {
            rows.push(row(alloc, s, a, b, path.as_slice())?)?;
        }
    }
    Ok(rows)
}

/// The call-tree profile of one legal stream over [a, b), half open and in nanoseconds: a row for each call
/// path under which a call began in it or took time in it, in depth-first order, siblings rising by function.
/// `Memory` where none was found.
#[tactic(auto, unfolding(trace_base::specs::Paths::paths))]
pub fn paths_of(alloc: Global, s: &TrackStream, a: u64, b: u64) -> Result<PathProfile, Memory>
    requires legal { IsLegal s.now }
    requires below { a < b }
    requires limit { b ≤ MAX_TIME }
    ensures { IfOk result (λ p. p ≡ paths (s.now ∷ []) a b) }
{
    let paths = call_paths_of(alloc, s)?;
    let rows = rows_of(alloc, s, a, b, paths.as_slice())?;
    let bare = u128::from(time_in(alloc, s, Part::Bare, a, b)?);
    Ok(PathProfile { bare, rows })
}
