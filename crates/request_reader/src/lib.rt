//! The requests of a session, read whole from a source.
#![tactic(auto)]

mod buffer;
mod examples;
mod incoming;
mod laws;
mod line;
mod pending;
mod read_line;
mod read_text;
mod reader;
mod skip;

pub use buffer::InputBuf;
pub use incoming::{Incoming, InputEnd};
pub use laws::{requests_of_more, requests_of_rest};
pub use line::Line;
pub use pending::Pending;
pub use reader::next_request;
