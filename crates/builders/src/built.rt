use trace_base::Seq;

/// A node at its place in time whose tree was built in a hall: when it begins and how long it lasts, in
/// nanoseconds, its height, and the number under which the hall keeps it.
#[derive(Clone, Copy, Debug, PartialEq, Eq)]
pub struct BuiltItem {
    pub at: u64,
    pub dur: u64,
    pub height: u16,
    pub number: u64,
}

/// A call that is open, or the stream itself, whose function is 0: when it began, in nanoseconds, and the
/// calls that lie in it so far, which are built.
#[derive(Debug, Drop)]
pub struct OpenCall {
    pub func: u32,
    pub start: u64,
    pub items: Seq<BuiltItem>,
}
