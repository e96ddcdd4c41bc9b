/// Where the tree of a published track stands.
#[derive(Clone, Copy, Debug, Drop, PartialEq, Eq)]
pub struct Root {
    /// When the track starts, in nanoseconds.
    pub start: u64,
    /// The number of the node that its tree is.
    pub node: u64,
}
