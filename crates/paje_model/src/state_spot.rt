//! Where state events stand.

use crate::function_place::FunctionPlace;
use crate::track_table::Pair;

/// Where a state event stands: its track, the place of that among the tracks before it, and of the function
/// that it enters.
#[derive(Clone, Copy, Debug)]
pub struct StateSpot {
    pub pair: Pair,
    pub place: Option<usize>,
    pub function: FunctionPlace,
}
