//! The names of the generated trace.
ghost use Rattle.std.specs.Prelude.{◌≡◌, ◌==◌, ◌++◌, ◌∷◌, [], IfOk, ℕ, codes, decimal, map, if◌then◌else◌};
ghost use Rattle.std.specs.List.{range_with_len};
ghost use Rattle.paje_print.specs.Generated.{generated_containers, generated_end, generated_track};
ghost use Rattle.paje_print.specs.Generated.{kernels_called, trace_of_bundles};

use crate::bundles::{RANKS, TRACKS};
use crate::text_parts::{add, add_number};
use std::alloc::Global;
use trace_base::{Container, Memory, Name, Seq, TraceNames, Track};

/// A name with a number behind it, in decimal digits.
pub fn numbered_name(alloc: Global, word: &[u8], n: u64) -> Result<Name, Memory>
    ensures { IfOk result (λ name. name ≡ word.now ++ decimal n) }
{
    let mut text = Vec::new(alloc);
    add(&mut text, word)?;
    add_number(&mut text, n)?;
    Ok(Name::from_vec(text))
}

/// The root and the 64 ranks, each from time 0 to this end.
fn all_containers(alloc: Global, end: u64) -> Result<Seq<Container>, Memory>
    ensures { IfOk result (λ containers. containers ≡ generated_containers end) }
{
    let mut containers = Seq::new(alloc);
    containers.push(Container {
        name: Name::from_bytes(alloc, b"0")?,
        start: 0,
        end,
    })?;
    for rank in 0..RANKS {
        containers.push(Container {
            name: numbered_name(alloc, b"rank ", u64::from(rank))?,
            start: 0,
            end,
        })?;
    }
    Ok(containers)
}

/// Two tracks of each rank.
fn all_tracks(alloc: Global) -> Result<Seq<Track>, Memory>
    ensures { IfOk result (λ tracks. tracks ≡ map generated_track (range_with_len 0 128)) }
{
    let mut tracks = Seq::new(alloc);
    for track in 0..TRACKS {
        tracks.push(Track {
            container: track / 2 + 1,
            kind: track % 2,
        })?;
    }
    Ok(tracks)
}

/// The functions: `work`, where there is a bundle, and a function of each kernel that is called.
fn all_functions(alloc: Global, count: u32, called: &[u8]) -> Result<Seq<Name>, Memory>
    ensures { IfOk result (λ functions. functions ≡ (if count == 0 then [] else codes "work"
        ∷ map (λ kernel. codes "kernel " ++ decimal kernel) called.now)) }
{
    let mut functions = Seq::new(alloc);
    if count == 0 {
        return Ok(functions);
    }
    functions.push(Name::from_bytes(alloc, b"work")?)?;
    for kernel in called {
        functions.push(numbered_name(alloc, b"kernel ", u64::from(*kernel))?)?;
    }
    Ok(functions)
}

/// One name.
fn one_name(alloc: Global, name: &[u8]) -> Result<Seq<Name>, Memory>
    ensures { IfOk result (λ names. names ≡ name.now ∷ []) }
{
    let mut names = Seq::new(alloc);
    names.push(Name::from_bytes(alloc, name)?)?;
    Ok(names)
}

/// The names of the trace that ends at this time, has so many bundles, and calls these kernels.
pub fn all_names(alloc: Global, end: u64, count: u32, called: &[u8]) -> Result<TraceNames, Memory>
    ensures { (seed : ℕ) → end ≡ generated_end seed count → called.now ≡ kernels_called seed count
        → IfOk result (λ names. names ≡ (trace_of_bundles seed count).names) }
{
    let mut kinds = one_name(alloc, b"code")?;
    kinds.push(Name::from_bytes(alloc, b"mpi")?)?;
    Ok(TraceNames {
        end,
        containers: all_containers(alloc, end)?,
        kinds,
        link_kinds: one_name(alloc, b"msg")?,
        tracks: all_tracks(alloc)?,
        functions: all_functions(alloc, count, called)?,
    })
}
