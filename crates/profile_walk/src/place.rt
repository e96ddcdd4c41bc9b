/// Where a walk over the kids of a node has come: the index of the next kid, and the time at which the one
/// before it ends, or at which the node starts, in nanoseconds.
#[derive(Clone, Copy, Debug, PartialEq, Eq)]
pub struct Place {
    pub index: u8,
    pub from: u64,
}
