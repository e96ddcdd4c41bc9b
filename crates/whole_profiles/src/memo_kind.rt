/// Which profile of a node an entry is.
#[derive(Clone, Copy, Debug, PartialEq, Eq, Hash)]
pub enum MemoKind {
    /// The flat profile.
    Flat,
    /// The call-tree profile.
    Paths,
}
