//! Halls for tests, over any hall: one that counts the calls that are made of it, and one in which a chosen
//! call finds no memory.
#![tactic(auto)]

mod counting;
mod refusing;

pub use counting::{CallCounts, CountingHall};
pub use refusing::RefusingHall;
