//! The messages in the order of their starts.
ghost use Rattle.std.specs.Prelude.{◌≡◌, ◌+◌, ◌<◌, ◌^◌, ℕ, List, None, IfOk, if◌then◌else◌, option_map};
ghost use Rattle.std.specs.Prelude.{slice_get};
ghost use Rattle.message_lists.specs.Arrivals.{arrivals_at, count_at, is_start_of};
ghost use Rattle.message_lists.specs.Started.{message_to};
ghost use Rattle.trace_base.specs.Messages.{messages_started};

use crate::arrivals::{Arrival, arrival_after, arrivals_of};
use crate::counts::count;
use crate::link_key::{LinkKey, key_of};
use std::alloc::Global;
use std::collections::HashMap;
use trace_base::{LinkEvent, Memory, Message};

// The message of this start and this arrival.
fn message(start: &LinkEvent, arrival: Arrival) -> Message
    ensures { result ≡ message_to start.now arrival }
{
    Message {
        from: start.container,
        to: arrival.container,
        send: start.time,
        receive: arrival.time,
        size: start.size,
    }
}

// The message that the link event starts, if it starts one. A start is counted.
fn next<'a>(
    arrivals: &HashMap<LinkKey<'a>, Vec<Arrival>>,
    counts: &mut HashMap<LinkKey<'a>, usize>,
    link: &'a LinkEvent,
) -> Result<Option<Message>, Memory>
    requires { count_at counts.old link.now.kind link.now.key + 1 < 2 ^ 64 }
    ensures message { IfOk result (λ m. m ≡ (if link.now.starts
        then option_map (message_to link.now) (slice_get (arrivals_at arrivals.now link.now.kind link.now.key)
        (count_at counts.old link.now.kind link.now.key))
        else None)) }
    ensures counted { IfOk result (λ m. (kind : ℕ) (key : List ℕ) →
        count_at counts.new kind key ≡ count_at counts.old kind key
        + (if is_start_of kind key link.now then 1 else 0)) }
{
    if !link.starts {
        return Ok(None);
    }
    let key = key_of(link);
    let others = count(counts, key)?;
    match arrival_after(arrivals, key, others) {
        Some(arrival) => Ok(Some(message(link, arrival))),
        None => Ok(None),
    }
}

/// The messages of the link events, in the order of their starts.
#[tactic(auto, unfolding(trace_base::specs::Messages::messages_started))]
pub fn started(alloc: Global, links: &[LinkEvent]) -> Result<Vec<Message>, Memory>
    ensures { IfOk result (λ ms. ms.items ≡ messages_started links.now) }
{
    let arrivals = arrivals_of(alloc, links)?;
    let mut counts: HashMap<LinkKey, usize> = HashMap::new(alloc);
    let mut messages = Vec::new(alloc);
    for link in links {
        if let Some(message) = next(&arrivals, &mut counts, link)? {
            messages.push(message)?;
        }
    }
    Ok(messages)
}
