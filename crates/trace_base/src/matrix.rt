use crate::seq::Seq;

/// The messages that one container sent another: their number, the sum of their sizes (bytes), the sum and
/// the greatest of their times on the way (nanoseconds), and how many of them were received before they were
/// sent.
#[derive(Clone, Copy, Debug, PartialEq, Eq)]
pub struct MatrixRow {
    pub from: u32,
    pub to: u32,
    pub count: u64,
    pub bytes: u128,
    pub transit: u128,
    pub greatest: u64,
    pub backward: u64,
}

/// A communication matrix: a row a pair of containers with messages, rising by `from`, then by `to`.
#[derive(Debug, Drop)]
pub struct Matrix {
    pub rows: Seq<MatrixRow>,
}
