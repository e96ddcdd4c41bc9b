//! The messages of a trace, from the link events that are their two ends.
#![tactic(auto)]

mod arrivals;
mod counts;
mod link_key;
mod started;
mod table;

pub use table::match_links;
