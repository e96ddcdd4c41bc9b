//! Keys of nodes for tests, node by node: of a track on which main calls f twice, and of one on which it
//! calls nothing.
#![tactic(auto)]

mod keys;

pub use keys::{key_of_f, key_of_lone_main, key_of_lone_track, key_of_main, key_of_track};
