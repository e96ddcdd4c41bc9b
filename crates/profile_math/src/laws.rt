//! What the sum and the closing of profiles have to do with the profiles of streams. The bodies are empty.
ghost use Rattle.profile_math.specs.Laws.{FlatOfStreams, FlatOfIntervals, FlatOfCall, FlatRises};
ghost use Rattle.profile_math.specs.Laws.{PathsOfStreams, PathsOfIntervals, PathsOfCall, PathsDepthFirst};

/// The flat profile of several streams is the sum of each one's.
#[tactic(auto, using(crate::proofs::FlatLaws::laws))]
pub fn flat_of_streams()
    ensures { FlatOfStreams }
{}

/// The flat profile of two intervals of some streams, one after the other, is the sum of theirs: each call
/// counts in the one in which it begins.
#[tactic(auto, using(crate::proofs::FlatLaws::laws))]
pub fn flat_of_intervals()
    ensures { FlatOfIntervals }
{}

/// The flat profile of a call, from just before it is entered to where it is left, is the closing of the
/// profile of what it encloses, over any interval: the call counts where it begins within the interval.
#[tactic(auto, using(crate::proofs::FlatCalls::flat_call))]
pub fn flat_of_call()
    ensures { FlatOfCall }
{}

/// The rows of a flat profile rise by function, so that it can be added to and closed.
#[tactic(auto, using(crate::proofs::FlatLaws::laws))]
pub fn flat_in_order()
    ensures { FlatRises }
{}

/// The call-tree profile of several streams is the sum of each one's.
#[tactic(auto, using(crate::proofs::PathLaws::laws))]
pub fn paths_of_streams()
    ensures { PathsOfStreams }
{}

/// The call-tree profile of two intervals of some streams, one after the other, is the sum of theirs: each
/// call counts in the one in which it begins.
#[tactic(auto, using(crate::proofs::PathLaws::laws))]
pub fn paths_of_intervals()
    ensures { PathsOfIntervals }
{}

/// The call-tree profile of a call, from just before it is entered to where it is left, is the closing of the
/// profile of what it encloses, over any interval: the call counts where it begins within the interval.
#[tactic(auto, using(crate::proofs::PathCalls::path_call))]
pub fn paths_of_call()
    ensures { PathsOfCall }
{}

/// The rows of a call-tree profile stand in depth-first order, so that it can be added to and closed.
pub fn paths_in_order()
    ensures { PathsDepthFirst }
{}
