ghost use Rattle.std.specs.Prelude.{◌≡◌, ℕ, List, OnOk, IfOk, map, filter, slice_get, ◌++◌, ◌∷◌, []};
ghost use Rattle.std.specs.Prelude.{if◌then◌else◌};
ghost use Rattle.message_lists.specs.Arrivals.{arrivals_at, arrival_of, is_end_of, is_at};

use crate::link_key::{LinkKey, key_of};
use std::alloc::Global;
use std::collections::HashMap;
use trace_base::{LinkEvent, Memory};

/// Where and when a message was received.
#[derive(Clone, Copy)]
pub struct Arrival {
    pub container: u32,
    pub time: u64,
}

// Adds an arrival after those of its link type and key.
fn add<'a>(
    alloc: Global,
    arrivals: &mut HashMap<LinkKey<'a>, Vec<Arrival>>,
    at: LinkKey<'a>,
    arrival: Arrival,
) -> Result<(), Memory>
    ensures { OnOk result ((kind : ℕ) (key : List ℕ) →
        arrivals_at arrivals.new kind key ≡ arrivals_at arrivals.old kind key
        ++ (if is_at at.entry kind key then arrival ∷ [] else [])) }
{
    let mut list = arrivals.remove(&at).unwrap_or(Vec::new(alloc));
    list.push(arrival)?;
    arrivals.insert(at, list)?;
    Ok(())
}

/// The arrivals of each link type and key, in order.
pub fn arrivals_of<'a>(
    alloc: Global,
    links: &'a [LinkEvent],
) -> Result<HashMap<LinkKey<'a>, Vec<Arrival>>, Memory>
    ensures { IfOk result (λ m. (kind : ℕ) (key : List ℕ) →
        arrivals_at m kind key ≡ map arrival_of (filter (is_end_of kind key) links.now)) }
{
    let mut arrivals: HashMap<LinkKey, Vec<Arrival>> = HashMap::new(alloc);
    for link in links {
        if !link.starts {
            let arrival = Arrival {
                container: link.container,
                time: link.time,
            };
            add(alloc, &mut arrivals, key_of(link), arrival)?;
        }
    }
    Ok(arrivals)
}

/// The arrival after this many others of the link type and key, if there is one.
pub fn arrival_after(
    arrivals: &HashMap<LinkKey, Vec<Arrival>>,
    at: LinkKey,
    others: usize,
) -> Option<Arrival>
    ensures { result ≡ slice_get (arrivals_at arrivals.now at.entry.kind at.entry.key.now) others }
{
    match arrivals.get(&at) {
        Some(list) => list.get(others).copied(),
        None => None,
    }
}
