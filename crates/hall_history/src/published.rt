/// What is told of a track of a pinned trace, as of the place of the pin.
#[derive(Clone, Copy, Debug, PartialEq, Eq)]
pub enum Published {
    /// It starts at `start`, in nanoseconds, and its tree is that of the node `root`.
    Root { start: u64, root: u64 },
    /// It isn't published there.
    NotYet,
}
