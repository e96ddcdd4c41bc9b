//! The generated trace.
ghost use Rattle.std.specs.Prelude.{◌≡◌, ◌≤◌, IfOk};
ghost use Rattle.paje_print.specs.Generated.{generated_trace};

use crate::bundles::Bundles;
use crate::kernels::kernels_called;
use crate::names::all_names;
use crate::streams::{all_streams, end_of};
use std::alloc::Global;
use trace_base::{Memory, TraceText};

/// The greatest number of state events that are generated.
pub const MAX_SIZE: u32 = 1_000_000;

/// A trace of 64 ranks with two tracks each and up to `size` state events, four in a bundle: `work` and the
/// kernel that it calls, a random one of eight. The bundles go to the tracks in turn, and one on an odd track
/// sends a message to the next rank. The seed and the size alone say what it is.
///
/// # Errors
///
/// `Memory` where none was found for it.
pub fn generate(alloc: Global, seed: u64, size: u32) -> Result<TraceText, Memory>
    requires { size ≤ MAX_SIZE }
    ensures { IfOk result (λ trace. trace ≡ generated_trace seed size) }
{
    let count = size / 4;
    let bundles = Bundles::first(alloc, seed, count)?;
    let kernels = bundles.kernels.as_slice();
    let end = end_of(bundles.clocks.as_slice());
    let called = kernels_called(alloc, kernels)?;
    let names = all_names(alloc, end, count, called.as_slice())?;
    let tracks = all_streams(alloc, kernels, called.as_slice(), end)?;
    Ok(TraceText {
        names,
        tracks,
        links: bundles.links,
    })
}
