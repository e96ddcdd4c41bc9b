//! Tests of the registry of a hall as a value, and of the steps of a hall's core.
#![tactic(auto)]

#[cfg(test)]
mod keys;
#[cfg(test)]
mod nodes;
#[cfg(test)]
mod orders;
#[cfg(test)]
mod registry;
#[cfg(test)]
mod seats;
#[cfg(test)]
mod tracks;
#[cfg(test)]
mod turns;
