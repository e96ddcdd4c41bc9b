use crate::tree::CallTree;

/// A stake: a counted reference to the node of this number, which stands for this tree.
#[derive(Drop)]
pub struct Stake {
    pub number: u64,
    pub tree: CallTree,
}
