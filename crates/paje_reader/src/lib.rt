//! Whole trace texts in the Pajé format.
#![tactic(auto)]

mod cutting;
mod examples;
mod line_fault;
mod read;
mod read_fault;
mod reader;
mod why;

pub use examples::{
    first_reasons_of_lines, lines_of_small_texts, long_lines_alone, messages_of_a_text,
    refusals_of_event_texts, refusals_of_small_texts, small_lines_alone, states_of_spaced_texts,
    two_calls_of_a_text,
};
pub use read::read_trace;
pub use read_fault::{ReadFault, ReadRefusal};
pub use why::Why;
