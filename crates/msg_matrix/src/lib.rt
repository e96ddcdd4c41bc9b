//! The communication matrix of messages over an interval.
#![tactic(auto)]

mod matrix_rows;
mod pairs;

pub use matrix_rows::matrix;
pub use trace_base::{Matrix, MatrixRow};
