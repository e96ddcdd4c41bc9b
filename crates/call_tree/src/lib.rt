//! Trees of calls: the bounded tree of a stream, and the events of a tree.
#![tactic(auto)]

mod bounding;
mod building;
mod events;
mod examples;
mod group;
mod laws;
mod pass;

pub use bounding::split;
pub use building::tree_of;
pub use events::events_of;
