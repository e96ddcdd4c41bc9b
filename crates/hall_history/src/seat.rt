use crate::asks::{AskIds, PassState};

/// A pin, as its seat has it: the hold of a running query on its traces, as of a place of the history.
#[derive(Clone, Copy, Debug, PartialEq, Eq)]
pub struct PinView {
    pub ids: AskIds,
    pub place: u64,
}

/// A load pass, as its seat has it: the right to publish the tracks from `from` up to, not including, `to`
/// of a loading trace.
#[derive(Clone, Copy, Debug, PartialEq, Eq)]
pub struct PassView {
    pub id: u64,
    pub from: u32,
    pub to: u32,
    pub state: PassState,
}
