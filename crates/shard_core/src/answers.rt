use node_key::NodeKey;
use thiserror::Error;

/// The number that a room keeps a key under.
#[derive(Clone, Copy, Debug, PartialEq, Eq)]
pub enum Interned {
    /// The key was there, under this number.
    Known(u64),
    /// The key is new, and has got this number.
    New(u64),
}

/// What is left of a node after its count fell by one.
#[derive(Clone, Copy, Debug, PartialEq, Eq)]
pub enum Dropped {
    /// The node, with the lower count.
    Kept,
    /// Nothing. The node had this key.
    Removed(NodeKey),
}

/// Why a room refuses a key.
#[derive(Clone, Copy, Debug, PartialEq, Eq, Error)]
pub enum ShardFault {
    /// No memory was found.
    #[error("out of memory")]
    Memory,
    /// The room's numbers are used up, `MAX_NUMBERS` of them, or the key's count is `MAX_COUNT`.
    #[error("number {0} is used up")]
    Spent(u64),
}
