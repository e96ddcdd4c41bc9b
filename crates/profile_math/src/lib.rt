//! Sums of profiles: two profiles added, and the profile of a call over the profile of what it encloses.
#![tactic(auto)]

mod examples;
mod flat;
mod laws;
mod merging;
mod paths;
mod sums;

pub use laws::{
    flat_in_order, flat_of_call, flat_of_intervals, flat_of_streams, paths_in_order, paths_of_call,
    paths_of_intervals, paths_of_streams,
};
pub use sums::Sums;
