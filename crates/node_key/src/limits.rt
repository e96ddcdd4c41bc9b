//! The limits of trees and of the store.

/// Kids of one node.
pub const MAX_KIDS: usize = 8;

/// Height of the tree of a stream. A list of 2^22 calls is cut into groups at most 7 times, so that each of
/// at most 256 levels of calls, and the root, adds at most 8.
pub const MAX_HEIGHT: u16 = 2_048;

/// No `CallTree` is higher, as the height in a key has 16 bits. What goes down a tree, as its `drop` does,
/// calls itself as often as the tree is high: at most `MAX_HEIGHT` times in the tree of a stream.
pub const HEIGHT_BOUND: u16 = u16::MAX;

/// Rooms of the store.
pub const STORE_ROOMS: u64 = 16;

/// Numbers that one room of the store gives: 2^40.
pub const MAX_NUMBERS: u64 = 1_099_511_627_776;
