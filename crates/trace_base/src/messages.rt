use crate::name::Name;
use crate::seq::Seq;

/// One end of a message, as a line of the file tells it: whether it is the start, the link type (its place
/// among the link types, counted from 0), the key that joins it to the other end, the container, the time
/// (nanoseconds) and, at a start, the size (bytes; 0 at an end).
#[derive(Debug, Drop)]
pub struct LinkEvent {
    pub starts: bool,
    pub kind: u32,
    pub key: Name,
    pub container: u32,
    pub time: u64,
    pub size: u64,
}

/// A message: the containers that sent and received it, by their places in the trace's list, counted from 0,
/// when it was sent and received (nanoseconds), and its size (bytes).
#[derive(Clone, Copy, Debug, PartialEq, Eq)]
pub struct Message {
    pub from: u32,
    pub to: u32,
    pub send: u64,
    pub receive: u64,
    pub size: u64,
}

/// The messages of a trace, and the number of link events that have no partner. The messages stand by sender,
/// then receiver, then the time they were sent, then the line of their start.
#[derive(Debug, Drop)]
pub struct MsgTable {
    pub messages: Seq<Message>,
    pub unmatched: u64,
}
