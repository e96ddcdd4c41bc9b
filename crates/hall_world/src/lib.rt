//! The world of a hall, whose rooms any number of seats act on: what its seats may do in one step, what
//! becomes of the world, when it is good for the history, and why it stays good.
#![tactic(auto)]

mod events;
mod laws;
mod limits;
mod world;

pub use events::{HallEvent, ReadOf, StepAnswer};
pub use laws::{new_halls_are_good, one_event, seats_keep_worlds_good};
pub use limits::REGISTRY_ROOM;
pub use memo_core::MEMO_ROOMS;
pub use world::{HallState, SeatView, World};
