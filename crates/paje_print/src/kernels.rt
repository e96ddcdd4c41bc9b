//! The kernels of the generated trace's bundles, track by track.
ghost use Rattle.std.specs.Prelude.{◌≡◌, ◌+◌, ◌*◌, ◌≤◌, ◌<◌, ◌++◌, ◌∷◌, [], IfOk, OnOk, List, ℕ};
ghost use Rattle.std.specs.Prelude.{length, map, nat_eq, slice_index};
ghost use Rattle.std.specs.List.{flat_map, position_or_len, range_with_len};
ghost use Rattle.paje_lines.specs.Found.{distinct_by};
ghost use Rattle.paje_print.specs.Generated.{bundles_on};

use crate::bundles::{MAX_BUNDLES, TRACKS};
use std::alloc::Global;
use trace_base::{Memory, Seq};

/// How many of the first bundles are on a track.
pub fn bundle_count(track: u32, count: u32) -> u32
    requires track { track < TRACKS }
    requires count { count ≤ MAX_BUNDLES }
    ensures bundles { bundles_on track count ≡ map (λ i. 128 * i + track) (range_with_len 0 result) }
    ensures within { (i : ℕ) → i < result → 128 * i + track < count }
{
    (count + (TRACKS - 1) - track) / TRACKS
}

/// Where a kernel stands among those called, or their number where it isn't there.
pub fn place_of(called: &[u8], kernel: u8) -> usize
    ensures place { result ≡ position_or_len (nat_eq kernel) called.now }
    ensures within { result ≤ length called.now }
{
    for i in 0..called.len() {
        if called[i] == kernel {
            return i;
        }
    }
    called.len()
}

/// Adds a kernel to those called, if it isn't there.
fn add_kernel(called: &mut Seq<u8>, kernel: u8) -> Result<(), Memory>
    ensures { (xs : List ℕ) → called.old ≡ distinct_by nat_eq xs
        → OnOk result (called.new ≡ distinct_by nat_eq (xs ++ kernel ∷ [])) }
{
    if place_of(called.as_slice(), kernel) < called.len() {
        return Ok(());
    }
    called.push(kernel)
}

/// Adds the kernels of a track's bundles to those called.
fn add_kernels(called: &mut Seq<u8>, kernels: &[u8], track: u32) -> Result<(), Memory>
    requires track { track < TRACKS }
    requires few { length kernels.now ≤ MAX_BUNDLES }
    ensures { (xs : List ℕ) → called.old ≡ distinct_by nat_eq xs
        → OnOk result (called.new ≡ distinct_by nat_eq (xs
        ++ map (slice_index kernels.now) (bundles_on track (length kernels.now)))) }
{
    for i in 0..bundle_count(track, kernels.len() as u32) {
        add_kernel(called, kernels[(TRACKS * i + track) as usize])?;
    }
    Ok(())
}

/// The different kernels of the bundles, whose kernels these are, in the order in which the tracks one after
/// another call them.
pub fn kernels_called(alloc: Global, kernels: &[u8]) -> Result<Seq<u8>, Memory>
    requires { length kernels.now ≤ MAX_BUNDLES }
    ensures { IfOk result (λ called. called ≡ distinct_by nat_eq (flat_map (λ track. map (slice_index
        kernels.now) (bundles_on track (length kernels.now))) (range_with_len 0 128))) }
{
    let mut called = Seq::new(alloc);
    for track in 0..TRACKS {
        add_kernels(&mut called, kernels, track)?;
    }
    Ok(called)
}
