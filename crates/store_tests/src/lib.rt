//! Tests of trees of calls, the store of their nodes, and the memo.
#![tactic(auto)]

#[cfg(test)]
mod keys;
#[cfg(test)]
mod memo;
#[cfg(test)]
mod memo_of_rooms;
#[cfg(test)]
mod nodes;
#[cfg(test)]
mod shard;
#[cfg(test)]
mod trees;
