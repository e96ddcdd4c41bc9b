//! The flat profile of tracks that a hall keeps as nodes, with its memo.
#![tactic(auto)]

mod over_tracks;

pub use over_tracks::{FlatOver, flat};
