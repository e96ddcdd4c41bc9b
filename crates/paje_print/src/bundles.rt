//! The bundles of a generated trace, one after another.
ghost use Rattle.std.specs.Prelude.{◌≡◌, ◌+◌, ◌%◌, ◌<◌, ◌≤◌, ◌++◌, ◌∷◌, [], OnOk, IfOk, ℕ};
ghost use Rattle.std.specs.Prelude.{decimal, false, true};
ghost use Rattle.paje_print.specs.Bundles.{AreBundles};
ghost use Rattle.paje_print.specs.Generated.{link_end, rank_of_bundle};

use crate::generator::MAX_SIZE;
use crate::random::Random;
use crate::text_parts::add_number;
use std::alloc::Global;
use trace_base::{LinkEvent, Memory, Name, Seq};

/// The number of ranks.
pub const RANKS: u32 = 64;

/// The number of tracks, two of each rank.
pub const TRACKS: u32 = 2 * RANKS;

/// The greatest number of bundles, with four state events in each.
pub const MAX_BUNDLES: u32 = MAX_SIZE / 4;

/// The first bundles: their kernels, how long those of each track take, and their messages.
#[derive(Drop)]
pub struct Bundles {
    random: Random,
    pub kernels: Seq<u8>,
    /// In nanoseconds.
    pub clocks: Seq<u64>,
    pub links: Seq<LinkEvent>,
}

/// The name of a number, in decimal digits.
fn number_name(alloc: Global, n: u64) -> Result<Name, Memory>
    ensures { IfOk result (λ name. name ≡ decimal n) }
{
    let mut text = Vec::new(alloc);
    add_number(&mut text, n)?;
    Ok(Name::from_vec(text))
}

/// Adds both ends of the message that a bundle of an odd track sends to the next rank.
fn send(
    alloc: Global,
    links: &mut Seq<LinkEvent>,
    bundle: u32,
    start: u64,
    end: u64,
    size: u64,
) -> Result<(), Memory>
    ensures { OnOk result (links.new ≡ links.old ++ (link_end true bundle (rank_of_bundle bundle) start size
        ∷ link_end false bundle ((rank_of_bundle bundle + 1) % 64) end 0 ∷ [])) }
{
    let rank = bundle % TRACKS / 2;
    links.push(LinkEvent {
        starts: true,
        kind: 0,
        key: number_name(alloc, u64::from(bundle))?,
        container: rank + 1,
        time: start,
        size,
    })?;
    links.push(LinkEvent {
        starts: false,
        kind: 0,
        key: number_name(alloc, u64::from(bundle))?,
        container: (rank + 1) % RANKS + 1,
        time: end,
        size: 0,
    })
}

impl Bundles {
    /// No bundles.
    #[tactic(auto, using(crate::proofs::BundleSteps::no_clocks))]
    pub fn new(alloc: Global, seed: u64) -> Result<Bundles, Memory>
        ensures { IfOk result (AreBundles seed 0) }
    {
        Ok(Bundles {
            random: Random { value: seed },
            kernels: Seq::new(alloc),
            clocks: Seq::from_slice(alloc, [0; TRACKS as usize].as_slice())?,
            links: Seq::new(alloc),
        })
    }

    /// Adds the bundle of this number, which is the number of those before it.
    pub fn add(&mut self, alloc: Global, bundle: u32) -> Result<(), Memory>
        requires few { bundle < MAX_BUNDLES }
        requires known { (seed : ℕ) × AreBundles seed bundle self.old }
        ensures { (seed : ℕ) → AreBundles seed bundle self.old
            → OnOk result (AreBundles seed (bundle + 1) self.new) }
    {
        let kernel = self.random.kernel();
        self.kernels.push(kernel)?;
        let track = (bundle % TRACKS) as usize;
        let start = self.clocks.as_slice()[track] + 1000;
        let end = start + 200 + 1000 * (u64::from(kernel) + 1);
        self.clocks.set(track, end);
        if track % 2 == 1 {
            send(
                alloc,
                &mut self.links,
                bundle,
                start,
                end,
                8 * (u64::from(kernel) + 1),
            )?;
        }
        Ok(())
    }

    /// The first bundles, so many of them.
    pub fn first(alloc: Global, seed: u64, count: u32) -> Result<Bundles, Memory>
        requires { count ≤ MAX_BUNDLES }
        ensures { IfOk result (AreBundles seed count) }
    {
        let mut bundles = Bundles::new(alloc, seed)?;
        for bundle in 0..count {
            bundles.add(alloc, bundle)?;
        }
        Ok(bundles)
    }
}
