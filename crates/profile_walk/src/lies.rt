ghost use Rattle.profile_walk.specs.Lies.{LiesAs};

/// How a node lies beside an interval.
#[derive(Clone, Copy, Debug, PartialEq, Eq)]
pub enum Lies {
    /// It begins within the interval, and ends before it does.
    Inside,
    /// It ends before the interval begins, or begins where it ends or behind that.
    Outside,
    /// It is neither inside nor outside.
    Across,
}

impl Lies {
    /// How a node that begins at `start` and ends at `end` lies beside the half-open interval [a, b), all in
    /// nanoseconds.
    pub fn of(start: u64, end: u64, a: u64, b: u64) -> Lies
        ensures { LiesAs result start end a b }
    {
        if a <= start && end < b {
            Lies::Inside
        } else if end < a || b <= start {
            Lies::Outside
        } else {
            Lies::Across
        }
    }
}
