//! Requests and replies as text.
#![tactic(auto)]

mod examples;
mod number;
mod reply;
mod request;
mod words;
mod write;

pub use reply::{NamedRow, No, Reply};
pub use request::{Request, Sel, parse_request};
pub use write::{SHORT_REPLY, write_reply};
