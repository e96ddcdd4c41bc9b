//! Tests of the hall with one owner: its loads and questions, traces that are closed, listed and compared,
//! profiles that are filled in and found, its faults, and the work of building a track.
#![tactic(auto)]

#[cfg(test)]
mod closing;
#[cfg(test)]
mod comparing;
#[cfg(test)]
mod fault;
#[cfg(test)]
mod hall;
#[cfg(test)]
mod listing;
#[cfg(test)]
mod looking;
#[cfg(test)]
mod nesting;
#[cfg(test)]
mod samples;
#[cfg(test)]
mod told_work;
#[cfg(test)]
mod twins;
#[cfg(test)]
mod work;
