//! The events of the generated trace's tracks.
ghost use Rattle.std.specs.Prelude.{◌≡◌, ◌+◌, ◌*◌, ◌^◌, ◌≤◌, ◌<◌, ◌++◌, ◌∷◌, [], IfOk, OnOk, ℕ};
ghost use Rattle.std.specs.Prelude.{fold, length, map, max};
ghost use Rattle.std.specs.List.{flat_map, range_with_len};
ghost use Rattle.paje_print.specs.Bundles.{AreKernels};
ghost use Rattle.paje_print.specs.Generated.{bundle_events, bundles_on, generated_end, generated_stream};
ghost use Rattle.paje_print.specs.Generated.{kernels_called};
ghost use Rattle.trace_base.specs.declared.stream.Event.TheVariants.{Enter, Leave};

use crate::bundles::{MAX_BUNDLES, TRACKS};
use crate::kernels::{bundle_count, place_of};
use std::alloc::Global;
use trace_base::{Event, Memory, Seq, TrackStream};

/// The time at which everything ends: the greatest clock and 1000.
pub fn end_of(clocks: &[u64]) -> u64
    requires { fold max 0 clocks.now ≤ 20000000 }
    ensures { result ≡ fold max 0 clocks.now + 1000 }
{
    let mut greatest = 0;
    for clock in clocks {
        greatest = greatest.max(*clock);
    }
    greatest + 1000
}

/// Adds the events of a bundle that starts at this time: `work` calls the kernel, which has this number and
/// takes so long. Gives the bundle's end.
fn add_bundle(events: &mut Seq<Event>, start: u64, number: u32, time: u64) -> Result<u64, Memory>
    requires start { start ≤ 2 ^ 40 }
    requires time { time ≤ 2 ^ 20 }
    ensures events { OnOk result (events.new ≡ events.old ++ (Enter 1 start ∷ Enter number (start + 100)
        ∷ Leave (start + 100 + time) ∷ Leave (start + 200 + time) ∷ [])) }
    ensures end { IfOk result (λ end. end ≡ start + 200 + time) }
{
    let end = start + 200 + time;
    events.push(Event::Enter(1, start))?;
    events.push(Event::Enter(number, start + 100))?;
    events.push(Event::Leave(start + 100 + time))?;
    events.push(Event::Leave(end))?;
    Ok(end)
}

/// The events of a track, of the bundles whose kernels these are.
fn track_events(
    alloc: Global,
    kernels: &[u8],
    called: &[u8],
    track: u32,
) -> Result<Seq<Event>, Memory>
    requires track { track < TRACKS }
    requires few { length kernels.now ≤ MAX_BUNDLES }
    requires called { length called.now ≤ 256 }
    ensures { (seed : ℕ) → AreKernels seed kernels.now → IfOk result (λ events. events
        ≡ flat_map (bundle_events seed called.now) (bundles_on track (length kernels.now))) }
{
    let mut events = Seq::new(alloc);
    let mut clock = 0;
    for i in 0..bundle_count(track, kernels.len() as u32) {
        let kernel = kernels[(TRACKS * i + track) as usize];
        let number = place_of(called, kernel) as u32 + 2;
        clock = add_bundle(
            &mut events,
            clock + 1000,
            number,
            1000 * (u64::from(kernel) + 1),
        )?;
    }
    Ok(events)
}

/// The streams of all tracks, of the bundles whose kernels these are.
pub fn all_streams(
    alloc: Global,
    kernels: &[u8],
    called: &[u8],
    end: u64,
) -> Result<Seq<TrackStream>, Memory>
    requires few { length kernels.now ≤ MAX_BUNDLES }
    requires called { length called.now ≤ 256 }
    ensures { (seed : ℕ) → AreKernels seed kernels.now → called.now ≡ kernels_called seed (length kernels.now)
        → end ≡ generated_end seed (length kernels.now) → IfOk result (λ streams. streams
        ≡ map (generated_stream seed (length kernels.now)) (range_with_len 0 128)) }
{
    let mut streams = Seq::new(alloc);
    for track in 0..TRACKS {
        streams.push(TrackStream {
            start: 0,
            end,
            events: track_events(alloc, kernels, called, track)?,
        })?;
    }
    Ok(streams)
}
