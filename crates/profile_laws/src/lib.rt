//! The laws of profiles of streams and of trees, flat and by call paths: what parts of a stream or of a tree
//! have to do with the whole. The statements are the clauses; the bodies are empty.
#![tactic(auto)]

mod stream_laws;
mod tree_laws;

pub use stream_laws::{
    flat_numbers_fit, flat_of_streams_in_time, paths_of_streams_in_time, times_at_the_ends,
};
pub use tree_laws::{flat_of_trees, paths_of_trees, trees_of_streams};
