/// What the loads that are open in a hall take up.
#[derive(Clone, Copy, Debug, PartialEq, Eq)]
pub struct Left {
    /// How many traces are open.
    pub traces: u64,
    /// How many different subtrees the trees of their published tracks have.
    pub nodes: u64,
}
