//! Tests of the reader of trace texts: tokens, definitions, entities, whole texts, printed ones.
#![tactic(auto)]

#[cfg(test)]
mod definitions;
#[cfg(test)]
mod entities;
#[cfg(test)]
mod faults;
#[cfg(test)]
mod lex;
#[cfg(test)]
mod linked;
#[cfg(test)]
mod printing;
#[cfg(test)]
mod rows;
#[cfg(test)]
mod texts;
#[cfg(test)]
mod told;
#[cfg(test)]
mod written;
