//! The flat profile: the passes over each stream, added.
ghost use Rattle.std.specs.Prelude.{◌≡◌, ◌+◌, ◌*◌, ◌<◌, ◌≤◌, [], ◌∷◌, length, map, sum_by, All, IfOk};
ghost use Rattle.event_model.specs.Part.{has};
ghost use Rattle.trace_base.specs.Flat.{calls_in, flat, greatest_function, row_of, stands, time_with};
ghost use Rattle.trace_base.specs.Stream.{IsLegal};
ghost use Rattle.trace_base.specs.declared.limits.TheConstants.{MAX_TIME, MAX_TRACKS};

use crate::part::Part;
use crate::pass::{calls_of, greatest_in, time_in};
use std::alloc::Global;
use trace_base::{Memory, Profile, Row, Seq, TrackStream};

// The time within [a, b) in which the part runs, over the streams, in nanoseconds.
fn time_over(
    alloc: Global,
    streams: &[&TrackStream],
    part: Part<'_>,
    a: u64,
    b: u64,
) -> Result<u128, Memory>
    requires legal { All (λ s. IsLegal s.now) streams.now }
    requires few { length streams.now ≤ MAX_TRACKS }
    ensures { IfOk result (λ t. t ≡ sum_by (time_with (has part.entry) a b) (map (λ s. s.now) streams.now)) }
{
    let mut total = 0u128;
    for s in streams {
        total += u128::from(time_in(alloc, *s, part, a, b)?);
    }
    Ok(total)
}

// The calls of the function that begin within [a, b), over the streams.
fn calls_over(streams: &[&TrackStream], f: u32, a: u64, b: u64) -> u64
    requires legal { All (λ s. IsLegal s.now) streams.now }
    requires few { length streams.now ≤ MAX_TRACKS }
    ensures { result ≡ sum_by (calls_in f a b) (map (λ s. s.now) streams.now) }
{
    let mut calls = 0;
    for s in streams {
        calls += calls_of(*s, f, a, b);
    }
    calls
}

// The greatest function that the streams enter, 0 where there is none.
#[tactic(auto, unfolding(trace_base::specs::Flat::greatest_function))]
fn greatest_over(streams: &[&TrackStream]) -> u32
    ensures { result ≡ greatest_function (map (λ s. s.now) streams.now) }
{
    let mut greatest = 0;
    for s in streams {
        greatest = greatest_in(*s, greatest);
    }
    greatest
}

// What the function took within [a, b), over the streams.
#[tactic(auto, unfolding(trace_base::specs::Flat::row_of))]
fn row(alloc: Global, streams: &[&TrackStream], a: u64, b: u64, f: u32) -> Result<Row, Memory>
    requires legal { All (λ s. IsLegal s.now) streams.now }
    requires few { length streams.now ≤ MAX_TRACKS }
    ensures { IfOk result (λ r. r ≡ row_of (map (λ s. s.now) streams.now) a b f) }
{
    Ok(Row {
        func: f,
        calls: calls_over(streams, f, a, b),
        incl: time_over(alloc, streams, Part::Open(f), a, b)?,
        excl: time_over(alloc, streams, Part::Innermost(f), a, b)?,
    })
}

// Whether the row is told.
fn is_told(row: &Row) -> bool
    ensures { result ≡ stands row.now }
{
    row.calls > 0 || row.incl > 0
}

/// The flat profile of several legal streams over [a, b), half open and in nanoseconds, their numbers added:
/// a row for each function that began a call in it or had one open, rising by function. A call that is open
/// within a call of the same function counts its time once in `incl`. `Memory` where none was found.
#[tactic(auto, unfolding(trace_base::specs::Flat::flat))]
pub fn flat_of_all(
    alloc: Global,
    streams: &[&TrackStream],
    a: u64,
    b: u64,
) -> Result<Profile, Memory>
    requires legal { All (λ s. IsLegal s.now) streams.now }
    requires few { length streams.now ≤ MAX_TRACKS }
    requires below { a < b }
    requires limit { b ≤ MAX_TIME }
    ensures { IfOk result (λ p. p ≡ flat (map (λ s. s.now) streams.now) a b) }
{
    let mut rows = Seq::new(alloc);
    for i in 0..greatest_over(streams) {
        let row = row(alloc, streams, a, b, i + 1)?;
        if is_told(&row) {
            rows.push(row)?;
        }
    }
    let bare = time_over(alloc, streams, Part::Bare, a, b)?;
    Ok(Profile { bare, rows })
}

/// The flat profile of one legal stream over [a, b), as `flat_of_all` has it.
pub fn flat_of(alloc: Global, s: &TrackStream, a: u64, b: u64) -> Result<Profile, Memory>
    requires legal { IsLegal s.now }
    requires below { a < b }
    requires limit { b ≤ MAX_TIME }
    ensures { IfOk result (λ p. p ≡ flat (s.now ∷ []) a b) }
{
    flat_of_all(alloc, &[s], a, b)
}
