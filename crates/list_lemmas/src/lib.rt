//! Facts of lists, numbers, options and tests that the proofs of the other crates rest on.
#![tactic(auto)]
