/// What is published of a track: when it starts, in nanoseconds, the number of the root of its tree, and the
/// place of the publication, counted from 1.
#[derive(Clone, Copy, Debug, PartialEq, Eq)]
pub struct TrackRoot {
    pub start: u64,
    pub root: u64,
    pub place: u64,
}
