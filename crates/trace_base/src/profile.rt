use crate::seq::Seq;

/// What one function took in an interval: the calls that began in it, the time in which a call of it was open
/// (`incl`), and the time in which such a call was the innermost one (`excl`). Times are nanoseconds.
#[derive(Clone, Copy, Debug, PartialEq, Eq)]
pub struct Row {
    pub func: u32,
    pub calls: u64,
    pub incl: u128,
    pub excl: u128,
}

/// A flat profile: the time in which no call was open (nanoseconds), and a row a function, rising by
/// function.
#[derive(Debug, Drop)]
pub struct Profile {
    pub bare: u128,
    pub rows: Seq<Row>,
}

/// What one call path took in an interval. A path is the functions of a call stack, the outermost first:
/// `depth` is their number and `func` the last of them. `calls` of it began in the interval, for `incl`
/// nanoseconds the call stack began with the path, and for `excl` nanoseconds it was the path.
#[derive(Clone, Copy, Debug, PartialEq, Eq)]
pub struct PathRow {
    pub depth: u16,
    pub func: u32,
    pub calls: u64,
    pub incl: u128,
    pub excl: u128,
}

/// A call-tree profile: the time in which no call was open (nanoseconds), and the rows of the paths. The row
/// of a path stands before those of the paths that go on from it, and paths with one caller rise by function.
#[derive(Debug, Drop)]
pub struct PathProfile {
    pub bare: u128,
    pub rows: Seq<PathRow>,
}
