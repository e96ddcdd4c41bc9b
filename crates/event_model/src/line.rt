//! The timeline: the busiest function of each pixel.
ghost use Rattle.std.specs.Prelude.{◌≡◌, ◌+◌, ◌-◌, ◌<◌, ◌≤◌, ◌==◌, ◌&&◌, nat_lt, find, IfOk};
ghost use Rattle.std.specs.Option.{option_copied};
ghost use Rattle.trace_base.specs.Stream.{IsLegal};
ghost use Rattle.trace_base.specs.Timeline.{busiest, greatest_excl, pixel_start, timeline};
ghost use Rattle.trace_base.specs.declared.limits.TheConstants.{MAX_PIXELS, MAX_TIME};

use crate::flat::flat_of;
use std::alloc::Global;
use trace_base::{Memory, Profile, Row, Seq, TrackStream};

// The time at which pixel i begins, counted from 0, where [a, b) has px of them. For i = px it is b.
fn start_of_pixel(a: u64, b: u64, px: u32, i: u32) -> u64
    requires below { a < b }
    requires limit { b ≤ MAX_TIME }
    requires some { 1 ≤ px }
    requires within { i ≤ px }
    ensures exact { result ≡ pixel_start a b px i }
    ensures in_interval { result ≤ b }
{
    a + (u128::from(i) * u128::from(b - a) / u128::from(px)) as u64
}

// The greatest time of its own that a row has.
fn most_of(rows: &[Row]) -> u128
    ensures { result ≡ greatest_excl rows.now }
{
    let mut most = 0;
    for row in rows {
        most = most.max(row.excl);
    }
    most
}

// The first row with this time of its own, if that is above 0.
fn first_with(rows: &[Row], excl: u128) -> Option<&Row>
    ensures { option_copied result ≡ find (λ row. nat_lt 0 row.excl && (row.excl == excl)) rows.now }
{
    rows.iter().find(|row| row.excl > 0 && row.excl == excl)
}

// The function of the greatest time of its own, the least on a tie, 0 where none has any.
fn busiest_of(profile: &Profile) -> u32
    ensures { result ≡ busiest profile.now }
{
    let rows = profile.rows.as_slice();
    match first_with(rows, most_of(rows)) {
        Some(row) => row.func,
        None => 0,
    }
}

/// The timeline of one legal stream over [a, b) in px pixels, half open and in nanoseconds: in each pixel the
/// function of the greatest time of its own above 0, the least number on a tie, 0 where there is none. Pixels
/// have the same length but for rounding down. `Memory` where none was found.
#[tactic(auto, unfolding(trace_base::specs::Timeline::timeline))]
pub fn line_of(alloc: Global, s: &TrackStream, a: u64, b: u64, px: u32) -> Result<Seq<u32>, Memory>
    requires legal { IsLegal s.now }
    requires below { a < b }
    requires limit { b ≤ MAX_TIME }
    requires some { 1 ≤ px }
    requires pixels { px ≤ MAX_PIXELS }
    requires fine { px ≤ b - a }
    ensures { IfOk result (λ cells. cells ≡ timeline s.now a b px) }
{
    let mut cells = Seq::new(alloc);
    for i in 0..px {
        let from = start_of_pixel(a, b, px, i);
        let to = start_of_pixel(a, b, px, i + 1);
        let profile = flat_of(alloc, s, from, to)?;
        cells.push(busiest_of(&profile))?;
    }
    Ok(cells)
}
