//! Profiles of trees that a hall keeps as nodes, with its memo: of whole nodes, of nodes over an interval, and
//! of the tracks of a pin. It serves each kind of profile of which the memo keeps entries.
#![tactic(auto)]

mod flat;
mod lies;
mod node_profile;
mod parts;
mod place;
mod steps;
mod tracks;

pub use lies::Lies;
pub use node_profile::NodeProfile;
pub use parts::profile_of_key;
pub use place::Place;
pub use tracks::{ProfileOver, add_tree, profile_of_tracks};
