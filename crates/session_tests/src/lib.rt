//! Tests of requests and replies as text, of the reader of requests, and of whole sessions.
#![tactic(auto)]

#[cfg(test)]
mod halls;
#[cfg(test)]
mod protocol;
#[cfg(test)]
mod requests;
#[cfg(test)]
mod sessions;
