ghost use Rattle.std.specs.Prelude.{◌-◌, ◌<◌, ◌≤◌, length, All, IfOk};
ghost use Rattle.trace_base.specs.Stream.{IsLegal};
ghost use Rattle.trace_base.specs.declared.limits.TheConstants.{MAX_PIXELS, MAX_TIME, MAX_TRACKS};

use event_model::{flat_of, flat_of_all, line_of, paths_of};
use std::alloc::Global;
use std::test::Fail;
use trace_base::{Event, Memory, PathRow, Profile, Row, Seq, TrackStream};

/// A stream that is legal.
fn two_calls(alloc: Global) -> Result<TrackStream, Memory>
    ensures { IfOk result (λ s. IsLegal s) }
{
    let events = Seq::from_slice(
        alloc,
        &[
            Event::Enter(1, 0),
            Event::Enter(2, 100_000_000),
            Event::Leave(200_000_000),
            Event::Enter(2, 300_000_000),
            Event::Leave(400_000_000),
            Event::Leave(500_000_000),
        ],
    )?;
    Ok(TrackStream {
        start: 0,
        end: 500_000_000,
        events,
    })
}

fn recursion(alloc: Global) -> Result<TrackStream, Memory>
    ensures { IfOk result (λ s. IsLegal s) }
{
    let events = Seq::from_slice(
        alloc,
        &[
            Event::Enter(1, 0),
            Event::Enter(1, 2),
            Event::Leave(4),
            Event::Leave(10),
        ],
    )?;
    Ok(TrackStream {
        start: 0,
        end: 10,
        events,
    })
}

fn no_length(alloc: Global) -> Result<TrackStream, Memory>
    ensures { IfOk result (λ s. IsLegal s) }
{
    let events = Seq::from_slice(
        alloc,
        &[
            Event::Enter(1, 10),
            Event::Leave(10),
            Event::Enter(1, 20),
            Event::Leave(20),
        ],
    )?;
    Ok(TrackStream {
        start: 0,
        end: 100,
        events,
    })
}

/// Function 2 calls 1, then 1 calls 2.
fn both_ways(alloc: Global) -> Result<TrackStream, Memory>
    ensures { IfOk result (λ s. IsLegal s) }
{
    let events = Seq::from_slice(
        alloc,
        &[
            Event::Enter(2, 0),
            Event::Enter(1, 1),
            Event::Leave(3),
            Event::Leave(4),
            Event::Enter(1, 4),
            Event::Enter(2, 7),
            Event::Leave(8),
            Event::Leave(10),
        ],
    )?;
    Ok(TrackStream {
        start: 0,
        end: 10,
        events,
    })
}

/// Function 1 calls 3, which calls 2, and then 2.
fn siblings(alloc: Global) -> Result<TrackStream, Memory>
    ensures { IfOk result (λ s. IsLegal s) }
{
    let events = Seq::from_slice(
        alloc,
        &[
            Event::Enter(1, 0),
            Event::Enter(3, 1),
            Event::Enter(2, 2),
            Event::Leave(5),
            Event::Leave(6),
            Event::Enter(2, 6),
            Event::Leave(9),
            Event::Leave(12),
        ],
    )?;
    Ok(TrackStream {
        start: 0,
        end: 20,
        events,
    })
}

fn row(func: u32, calls: u64, incl: u128, excl: u128) -> Row {
    Row {
        func,
        calls,
        incl,
        excl,
    }
}

/// Whether the profile is this one.
fn is(profile: &Profile, bare: u128, rows: &[Row]) -> bool {
    profile.bare == bare && profile.rows.as_slice() == rows
}

/// Whether the flat profile of the stream over [a, b) is this one.
fn flat_is(
    alloc: Global,
    s: &TrackStream,
    a: u64,
    b: u64,
    bare: u128,
    rows: &[Row],
) -> Result<bool, Memory>
    requires legal { IsLegal s.now }
    requires below { a < b }
    requires limit { b ≤ MAX_TIME }
{
    Ok(is(&flat_of(alloc, s, a, b)?, bare, rows))
}

/// Whether the flat profile of the streams over [0, 10) is this one.
fn sum_is(alloc: Global, streams: &[&TrackStream], bare: u128, rows: &[Row]) -> Result<bool, Memory>
    requires legal { All (λ s. IsLegal s.now) streams.now }
    requires few { length streams.now ≤ MAX_TRACKS }
{
    Ok(is(&flat_of_all(alloc, streams, 0, 10)?, bare, rows))
}

#[test]
fn flat_profiles_of_two_calls(rt: HostRuntime) -> Result<(), Fail> {
    let s = two_calls(rt.alloc())?;
    let whole = [
        row(1, 1, 500_000_000, 300_000_000),
        row(2, 2, 200_000_000, 200_000_000),
    ];
    assert!(rt; flat_is(rt.alloc(), &s, 0, 500_000_000, 0, &whole)?);
    let part = [
        row(1, 0, 200_000_000, 100_000_000),
        row(2, 1, 100_000_000, 100_000_000),
    ];
    assert!(rt; flat_is(rt.alloc(), &s, 150_000_000, 350_000_000, 0, &part)?);
    Ok(())
}

#[test]
fn flat_profile_of_recursion(rt: HostRuntime) -> Result<(), Fail> {
    let r = recursion(rt.alloc())?;
    assert!(rt; flat_is(rt.alloc(), &r, 0, 10, 0, &[row(1, 2, 10, 10)])?);
    Ok(())
}

#[test]
fn flat_profile_of_calls_of_no_length(rt: HostRuntime) -> Result<(), Fail> {
    let z = no_length(rt.alloc())?;
    assert!(rt; flat_is(rt.alloc(), &z, 10, 20, 10, &[row(1, 1, 0, 0)])?);
    Ok(())
}

// The numbers of several streams are added. Of all three, function 1: calls 2 + 2 + 0, incl 10 + 8 + 0, excl
// 10 + 7 + 0. Function 2 is called in the second alone.
#[test]
fn flat_profiles_of_several_streams(rt: HostRuntime) -> Result<(), Fail> {
    let r = recursion(rt.alloc())?;
    let w = both_ways(rt.alloc())?;
    let z = no_length(rt.alloc())?;
    assert!(rt; sum_is(rt.alloc(), &[&r, &z], 10, &[row(1, 2, 10, 10)])?);
    let all = [row(1, 4, 18, 17), row(2, 2, 5, 3)];
    assert!(rt; sum_is(rt.alloc(), &[&r, &w, &z], 10, &all)?);
    Ok(())
}

/// Whether the timeline of the stream over [a, b) has these pixels.
fn line_is(alloc: Global, s: &TrackStream, a: u64, b: u64, pixels: &[u32]) -> Result<bool, Memory>
    requires legal { IsLegal s.now }
    requires below { a < b }
    requires limit { b ≤ MAX_TIME }
    requires some { 1 ≤ length pixels.now }
    requires pixels { length pixels.now ≤ MAX_PIXELS }
    requires fine { length pixels.now ≤ b - a }
{
    let line = line_of(alloc, s, a, b, pixels.len() as u32)?;
    Ok(line.as_slice() == pixels)
}

// In the second the two functions tie.
#[test]
fn timelines_of_two_calls(rt: HostRuntime) -> Result<(), Fail> {
    let s = two_calls(rt.alloc())?;
    assert!(rt; line_is(rt.alloc(), &s, 0, 500_000_000, &[1, 2, 1, 2, 1])?);
    assert!(rt; line_is(rt.alloc(), &s, 0, 200_000_000, &[1])?);
    assert!(rt; line_is(rt.alloc(), &s, 0, 3, &[1, 1, 1])?);
    Ok(())
}

#[test]
fn timeline_of_siblings(rt: HostRuntime) -> Result<(), Fail> {
    let s = siblings(rt.alloc())?;
    assert!(rt; line_is(rt.alloc(), &s, 0, 20, &[1, 2, 2, 2, 1, 1, 0, 0, 0, 0])?);
    Ok(())
}

// A call of no length is not shown.
#[test]
fn timeline_of_calls_of_no_length(rt: HostRuntime) -> Result<(), Fail> {
    let z = no_length(rt.alloc())?;
    assert!(rt; line_is(rt.alloc(), &z, 10, 20, &[0])?);
    Ok(())
}

fn path_row(depth: u16, func: u32, calls: u64, incl: u128, excl: u128) -> PathRow {
    PathRow {
        depth,
        func,
        calls,
        incl,
        excl,
    }
}

/// Whether the call-tree profile of the stream over [0, b) is this one.
fn paths_are(
    alloc: Global,
    s: &TrackStream,
    b: u64,
    bare: u128,
    rows: &[PathRow],
) -> Result<bool, Memory>
    requires legal { IsLegal s.now }
    requires below { 0 < b }
    requires limit { b ≤ MAX_TIME }
{
    let profile = paths_of(alloc, s, 0, b)?;
    Ok(profile.bare == bare && profile.rows.as_slice() == rows)
}

#[test]
fn path_profiles(rt: HostRuntime) -> Result<(), Fail> {
    let r = recursion(rt.alloc())?;
    let rows = [path_row(1, 1, 1, 10, 8), path_row(2, 1, 1, 2, 2)];
    assert!(rt; paths_are(rt.alloc(), &r, 10, 0, &rows)?);
    Ok(())
}

#[test]
fn paths_in_depth_first_order(rt: HostRuntime) -> Result<(), Fail> {
    let siblings = siblings(rt.alloc())?;
    let rows = [
        path_row(1, 1, 1, 12, 4),
        path_row(2, 2, 1, 3, 3),
        path_row(2, 3, 1, 5, 2),
        path_row(3, 2, 1, 3, 3),
    ];
    assert!(rt; paths_are(rt.alloc(), &siblings, 20, 8, &rows)?);
    Ok(())
}

#[test]
fn paths_with_one_function(rt: HostRuntime) -> Result<(), Fail> {
    let w = both_ways(rt.alloc())?;
    let rows = [
        path_row(1, 1, 1, 6, 5),
        path_row(2, 2, 1, 1, 1),
        path_row(1, 2, 1, 4, 2),
        path_row(2, 1, 1, 2, 2),
    ];
    assert!(rt; paths_are(rt.alloc(), &w, 10, 0, &rows)?);
    Ok(())
}
