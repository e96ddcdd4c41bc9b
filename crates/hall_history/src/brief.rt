/// The number of a trace's tracks.
#[derive(Clone, Copy, Debug, PartialEq, Eq)]
pub struct Brief {
    pub tracks: u32,
}
