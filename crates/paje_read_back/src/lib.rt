//! The law that the canonical text of a trace is read as that trace.
#![tactic(auto)]

mod examples;
mod printed_law;

pub use examples::{
    declared_lines, lines_of_a_trace, lines_of_links_and_ends, lines_of_tracks, texts_of_lines,
};
pub use printed_law::{
    a_printed_trace_is_read_back, printed_lines_tell_the_trace, told_lines_say_the_trace,
};
