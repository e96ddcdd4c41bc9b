//! The limit of a room's counts. `node_key` has those of its numbers.

/// The greatest count of a node: 2^62.
pub const MAX_COUNT: u64 = 4_611_686_018_427_387_904;
