//! Nodes of trees of calls: the key under which the store keeps one, the room that a key is in, and trees as
//! values.
#![tactic(auto)]

mod examples;
mod item;
mod key;
mod limits;
mod rooms;
mod stake;
mod tree;

pub use item::Item;
pub use key::{Kid, NodeKey};
pub use limits::{HEIGHT_BOUND, MAX_HEIGHT, MAX_KIDS, MAX_NUMBERS, STORE_ROOMS};
pub use rooms::{room_of_key, room_of_number};
pub use stake::Stake;
pub use tree::{Branch, CallTree};
