//! The laws of a store of trees of calls, in which equal subtrees are one node: what its nodes stand for,
//! which of them are reached, and what becomes of the reference counts.
#![tactic(auto)]

mod canonic_laws;
mod count_laws;
mod reach_laws;

pub use canonic_laws::{each_node_stands, one_number_one_tree};
pub use count_laws::{
    dropping, interning, nodes_are_reached, nodes_are_the_subtrees, nothing_is_a_store,
};
pub use reach_laws::{reached_is_led_to, stakes_keep_what_they_lead_to};
