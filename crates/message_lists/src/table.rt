ghost use Rattle.std.specs.Prelude.{◌≡◌, IfOk};
ghost use Rattle.trace_base.specs.Messages.{table_of};

use crate::started::started;
use std::alloc::Global;
use trace_base::{LinkEvent, Memory, MsgTable, Seq};

/// The messages of link events in the file's order: the k-th start and the k-th end of one link type and key
/// are the two ends of a message, whose size is the start's. They stand by sender, then receiver, then the
/// time they were sent, and in the order of their starts where these tie. The link events that are no end of
/// a message are counted. `Memory` where none was found.
#[tactic(auto, unfolding(trace_base::specs::Messages::table_of, trace_base::specs::Messages::in_table_order))]
pub fn match_links(alloc: Global, links: &[LinkEvent]) -> Result<MsgTable, Memory>
    ensures { IfOk result (λ t. t ≡ table_of links.now) }
{
    let mut messages = started(alloc, links)?;
    let unmatched = links.len().saturating_sub(2 * messages.len());
    messages.sort_by_key(|m| (m.from, m.to, m.send))?;
    Ok(MsgTable {
        messages: Seq::from_vec(messages),
        unmatched: unmatched as u64,
    })
}
