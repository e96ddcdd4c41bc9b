use node_key::NodeKey;
use shard_core::{Dropped, Interned};

/// What a seat reads.
#[derive(Clone, Copy, Debug, PartialEq, Eq)]
pub enum ReadOf {
    /// The key of the node of this number.
    Node(u64),
}

/// What a seat does, in one atomic step.
#[derive(Clone, Copy, Debug, PartialEq, Eq)]
pub enum HallEvent {
    /// Enters the key of a tree over the nodes of its kids, on which the seat has stakes.
    Intern(NodeKey),
    /// Reads what the seat reaches.
    Read(ReadOf),
    /// Gives back a stake on the node of this number.
    Drop(u64),
    /// Makes another seat, which stands last. It may take over the tracks of a load pass, which is named by
    /// its index among the seat's passes, from this track on.
    Split(Option<(usize, u32)>),
    /// Ends another seat, which is named by its index, and takes over what it has.
    Join(usize),
}

/// What an event is answered.
#[derive(Clone, Copy, Debug, PartialEq, Eq)]
pub enum StepAnswer {
    /// The number that the key has got or had.
    Interned(Interned),
    /// The key that was read.
    Node(NodeKey),
    /// What is left of the node on which a stake was given back.
    Dropped(Dropped),
    /// The new seat is there.
    Split,
    /// The other seat has ended.
    Joined,
    /// This number is used up: of all numbers of a room, or the greatest count of a node.
    Spent(u64),
    /// No memory was found, and nothing is changed.
    Memory,
}

/// Where a run of events stopped: the index of the event, counted from 0. Those before it are done.
#[derive(Clone, Copy, Debug, PartialEq, Eq)]
pub enum RunFault {
    /// Its seat may not make it.
    NotAllowed(usize),
    /// No memory was found.
    Memory(usize),
}
