//! One session over a hall: requests in, replies out.
#![tactic(auto)]

mod answer;
mod buffer;
mod examples;
mod finish;
mod left;
mod load;
mod output;
mod profile;
mod program;
mod serve;
mod sessions;
mod text;

pub use buffer::SessionBuf;
pub use program::run;
pub use sessions::{End, session};
