use crate::root::Root;
use std::alloc::Global;
use std::sync::Arc;
use trace_base::TraceInfo;

/// An entry of a plain hall's history that carries something.
#[derive(Drop)]
pub enum HistoryEntry {
    /// This trace was opened, with these names and messages.
    Opened(u64, Arc<TraceInfo, Global>),
    /// This track of it was published, with this root.
    Published(u64, u32, Root),
    /// All of it was sealed.
    Sealed(u64),
    /// Its loading was dropped.
    Dropped(u64),
    /// It was closed.
    Closed(u64),
}

/// An entry, and how many questions come right before it.
#[derive(Drop)]
pub struct KeptEntry {
    pub asked: u64,
    pub entry: HistoryEntry,
}
