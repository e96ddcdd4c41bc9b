//! A room of the store as a value: the nodes that it keeps, each under one number, with counts.
#![tactic(auto)]

mod answers;
mod examples;
mod hashed_key;
mod laws;
mod limits;
mod nodes;
mod shard;

pub use answers::{Dropped, Interned, ShardFault};
pub use examples::{
    answers_to_a_drop, answers_to_a_key, last_number_of_a_room, nodes_under_numbers,
};
pub use laws::{next_never_falls, numbers_given_once, spent_by_its_causes};
pub use limits::MAX_COUNT;
pub use shard::Shard;
