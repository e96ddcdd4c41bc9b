//! The core of a hall: its rooms, the seats that act on them, and what any one of them may do in one step.
#![tactic(auto)]

mod allowed;
mod events;
mod examples;
mod laws;
mod nodes;
mod reach;
mod rooms;
mod run;
mod seats;
mod stakes;
mod stepping;
mod world;

pub use allowed::allows;
pub use events::{HallEvent, ReadOf, RunFault, StepAnswer};
pub use examples::{
    a_count_too_high, a_count_too_low, a_good_world, a_key_in_another_room,
    a_key_under_two_numbers, a_kid_that_is_not_stored, a_stake_on_another_tree, seats_and_others,
    seats_that_have_stakes, seats_that_read,
};
pub use laws::{
    equal_subtrees_are_one_node, new_halls_are_good, steps_keep_worlds_good,
    stored_is_what_is_reached, stores_are_kept,
};
pub use memo_core::MEMO_ROOMS;
pub use run::run_events;
pub use stepping::step;
pub use world::{HallState, SeatView, World};
