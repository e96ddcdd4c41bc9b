use trace_base::Seq;

/// An open trace in a listing: its id, the number of its tracks, how many of them are published, and whether
/// it is loading.
#[derive(Clone, Copy, Debug, PartialEq, Eq)]
pub struct ListRow {
    pub id: u64,
    pub tracks: u32,
    pub published: u32,
    pub loading: bool,
}

/// The open traces as of a place of the history, counted from 1: a row a trace, rising by id.
#[derive(Debug, Drop)]
pub struct Listing {
    pub place: u64,
    pub rows: Seq<ListRow>,
}
