//! The history of a hall, which all its seats share: its entries, what is open, loading or published after
//! some of them, what a seat has seen and holds, and what is left of the loads.
#![tactic(auto)]

mod asks;
mod brief;
mod examples;
mod left;
mod listing;
mod published;
mod seat;

pub use asks::{AskIds, PassState};
pub use brief::Brief;
pub use examples::{
    ids_of_small_history, places_of_small_history, small_history_is_legal, states_of_small_history,
    streams_of_small_history, unlawful_ends, unlawful_openings, unlawful_publications,
};
pub use left::Left;
pub use listing::{ListRow, Listing};
pub use published::Published;
pub use seat::{PassView, PinView};
