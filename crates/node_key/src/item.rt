use crate::tree::CallTree;

/// A tree at its place in time: it begins at `at`, in nanoseconds.
#[derive(Drop)]
pub struct Item {
    pub at: u64,
    pub tree: CallTree,
}
