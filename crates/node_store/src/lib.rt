//! The store of the nodes of trees of calls, for one owner: equal subtrees are one node, each under a number
//! that is given once, with the stakes that the owner has on it.
#![tactic(auto)]

mod examples;
mod given;
mod numbered;
mod reach_laws;
mod store;

pub use examples::{
    nothing_given, numbers_of_small_trees, numbers_under_a_track, stakes_on_small_trees,
    trees_under_numbers,
};
pub use reach_laws::{staked_numbers_lead_still, staked_numbers_lead_to_trees};
pub use store::NodeStore;
