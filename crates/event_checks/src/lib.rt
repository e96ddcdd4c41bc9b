//! What a seat may do, decided: whether names are legal, whether a stream fits a track, whether a tree is one of
//! a track, and what a seat reaches.
#![tactic(auto)]

mod fitting;
mod front;
mod legal_info;
mod reach;
mod same_tree;
mod track_tree;

pub use fitting::{fits, is_legal};
pub use legal_info::is_legal_info;
pub use reach::{is_reached_by, leads};
pub use same_tree::are_same;
pub use track_tree::is_track_tree;
