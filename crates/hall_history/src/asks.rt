/// The traces that a query asks for, by their ids.
#[derive(Clone, Copy, Debug, PartialEq, Eq)]
pub enum AskIds {
    /// One trace.
    One(u64),
    /// Two traces, which may be the same.
    Two(u64, u64),
}

/// How far a load pass has come.
#[derive(Clone, Copy, Debug, PartialEq, Eq)]
pub enum PassState {
    /// The pass's tracks with lower numbers than this are published, and no other one of it is.
    Straight(u32),
    /// All its tracks are published.
    Whole,
    /// Some are, and nothing more is known.
    Broken,
}
