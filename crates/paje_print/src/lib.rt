//! The canonical text of a trace, and a generated trace.
#![tactic(auto)]

mod bundles;
mod canonical_examples;
mod examples;
mod generated_law;
mod generator;
mod kernels;
mod lines;
mod names;
mod random;
mod streams;
mod text_parts;
mod writer;

pub use generated_law::generated_traces_are_canonical;
pub use generator::{MAX_SIZE, generate};
pub use writer::write_trace;
