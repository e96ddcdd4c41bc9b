//! `PlainHall`, a hall in memory with one owner. A registry knows its traces, a list keeps its history, and a
//! store the nodes. A load finds all its memory when its trace is let in.
#![tactic(auto)]

mod asked_for;
mod hall;
mod kept_entry;
mod kept_history;
mod kept_pin;
mod releasing;
mod root;

pub use hall::PlainHall;
