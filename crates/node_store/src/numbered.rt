use node_key::NodeKey;

/// A key that a number was given to, and how many stakes the owner of the store has on the number.
#[derive(Clone, Copy, Debug)]
pub(crate) struct Numbered {
    pub(crate) key: NodeKey,
    pub(crate) staked: u64,
}
