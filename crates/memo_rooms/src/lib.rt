//! A memo of several rooms: profiles of whole nodes by number and kind, each in the room of its number.
#![tactic(auto)]

mod examples;
mod laws;
mod rooms;

pub use examples::{kept_in_small_rooms, looks_at_small_rooms};
pub use laws::memos_stay_whole;
pub use memo_core::MEMO_ROOMS;
pub use rooms::MemoRooms;
