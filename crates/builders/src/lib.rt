//! Trees of tracks that are built in a hall, node by node, and read from it.
#![tactic(auto)]

mod building;
mod built;
mod closing;
mod grouping;
mod keys;
mod nodes;
mod reading;
mod spans;

pub use building::build_track;
pub use built::{BuiltItem, OpenCall};
pub use reading::{events_of_number, published_stream};
