use hall_history::{AskIds, Listing, Published};
use node_key::NodeKey;
use registry_core::{Opened, RegAsk, RegClose, RegEnd, RegUnpin};
use shard_core::{Dropped, Interned};
use std::alloc::Global;
use std::sync::Arc;
use trace_base::TraceInfo;

/// What a seat reads. A pin is named by its index among the seat's pins, counted from 0, and one of its traces
/// by 0 or 1.
#[derive(Clone, Copy, Debug, PartialEq, Eq)]
pub enum ReadOf {
    /// The key of the node of this number.
    Node(u64),
    /// What is published of a track of a pinned trace as of the pin's place. Tracks are counted from 0.
    Root { pin: usize, which: u8, track: u32 },
    /// What a pinned trace was opened with.
    Info { pin: usize, which: u8 },
    /// Whether the traces of a pin have the same list of functions.
    Names(usize),
}

/// What a seat does, in one atomic step. Its pins, its load passes and the other seats are named by their
/// indexes, counted from 0; a new one stands last.
#[derive(Drop)]
pub enum HallEvent {
    /// Enters the key of a tree over the nodes of its kids, on which the seat has stakes.
    Intern(NodeKey),
    /// Reads what the seat reaches.
    Read(ReadOf),
    /// Gives back a stake on the node of this number.
    Drop(u64),
    /// Makes another seat. It may take over the tracks of a load pass from this track on.
    Split(Option<(usize, u32)>),
    /// Ends another seat, and takes over what it has.
    Join(usize),
    /// Opens a trace, and gives a pass over all its tracks.
    Admit(Arc<TraceInfo, Global>),
    /// Publishes the tree of the node `root` as the next track of a pass, which starts at `start`, in
    /// nanoseconds. It takes a stake on the node.
    Publish { pass: usize, start: u64, root: u64 },
    /// Ends the load of a trace whose tracks are all published.
    Seal(usize),
    /// Gives up the load of a trace.
    Abandon(usize),
    /// Asks for traces, and gives a pin on them.
    Ask(AskIds),
    /// Gives a pin back.
    Unpin(usize),
    /// Closes the trace of this id.
    Close(u64),
    /// Lists the open traces.
    List,
}

/// What an event is answered.
#[derive(Drop)]
pub enum StepAnswer {
    /// The number that the key has got or had.
    Interned(Interned),
    /// The key that was read.
    Node(NodeKey),
    /// What is published of the track.
    Root(Published),
    /// What the trace was opened with.
    Info(Arc<TraceInfo, Global>),
    /// Whether the names are the same.
    Names(bool),
    /// What is left of the node on which a stake was given back.
    Dropped(Dropped),
    /// The new seat is there.
    Split,
    /// The other seat has ended.
    Joined,
    /// The trace that was opened.
    Opened(Opened),
    /// The most traces are open, as of this place.
    Full(u64),
    /// The place of the publication or of the seal.
    Placed(u64),
    /// What became of the trace whose load was given up.
    Ended(RegEnd),
    /// What the question was answered.
    Asked(RegAsk),
    /// The roots that came free when the pin was given back.
    Unpinned(RegUnpin),
    /// What became of the trace that was to be closed.
    Closed(RegClose),
    /// The open traces.
    Listed(Listing),
    /// This number is used up: of all numbers of a room, of the references to a node, or of the places.
    Spent(u64),
    /// No memory was found, and nothing is changed.
    Memory,
}
