//! Tests of the objects of the outside, and of the plain folds, messages, matrices and sums over small traces.
#![tactic(auto)]

#[cfg(test)]
mod folds;
#[cfg(test)]
mod matrices;
#[cfg(test)]
mod messages;
#[cfg(test)]
mod objects;
#[cfg(test)]
mod sums;
