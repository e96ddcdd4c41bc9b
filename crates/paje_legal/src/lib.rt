//! The law that the event lines of a trace within the limits say a legal trace.
#![tactic(auto)]

mod examples;
mod info_law;
mod stream_law;

pub use examples::two_calls_fit;
pub use info_law::text_has_legal_info;
pub use stream_law::streams_fit_their_tracks;
