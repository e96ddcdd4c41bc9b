//! What a hall, which keeps the open traces as nodes, is to its callers: the trait `Hall`, over a history
//! that all seats of the hall share, with what its calls take and answer. No hall stands here.
#![tactic(auto)]

mod answers;
mod hall;
mod laws;
mod pass;
mod pin;

pub use answers::{AskAnswer, CloseAnswer, HallFault};
pub use hall::Hall;
pub use hall_history::Published;
pub use laws::published_streams_stay;
pub use pass::LoadPass;
pub use pin::Pin;
pub use shard_core::Interned;
