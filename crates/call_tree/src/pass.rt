//! The calls that are open in a pass over the events of a stream.
use node_key::Item;
use trace_base::Seq;

/// A call that is open, or the stream itself, whose function is 0: when it began, in nanoseconds, and the
/// calls that lie in it so far.
#[derive(Drop)]
pub struct Open {
    pub func: u32,
    pub start: u64,
    pub items: Seq<Item>,
}
