//! Streams one behind the other, moved in time, and beside an interval.
ghost use Rattle.std.specs.Prelude.{[]};
ghost use Rattle.profile_laws.specs.Laws.{HasAllTimeWithin, HasNoTimeBefore, OfEnclosed, OfIdle, OfJoined};
ghost use Rattle.profile_laws.specs.Laws.{OfFitting, OfLater, OfOutside};
ghost use Rattle.profile_math.specs.Sum.{ProfileFits};
ghost use Rattle.trace_base.specs.Flat.{flat};
ghost use Rattle.trace_base.specs.Paths.{paths};

/// The flat profile.
#[tactic(auto, using(crate::proofs::FlatOfStreams::laws))]
pub fn flat_of_streams_in_time()
    ensures joined { OfJoined flat }
    ensures later { OfLater flat }
    ensures enclosed { OfEnclosed flat }
    ensures outside { OfOutside flat }
    ensures idle { OfIdle flat (λ time. record { bare = time; rows = [] }) }
{}

/// The numbers of the flat profile.
#[tactic(auto, using(crate::proofs::FlatFits::laws))]
pub fn flat_numbers_fit()
    ensures { OfFitting flat ProfileFits }
{}

/// The call-tree profile.
#[tactic(auto, using(crate::proofs::PathsOfStreams::laws))]
pub fn paths_of_streams_in_time()
    ensures joined { OfJoined paths }
    ensures later { OfLater paths }
    ensures enclosed { OfEnclosed paths }
    ensures outside { OfOutside paths }
    ensures idle { OfIdle paths (λ time. record { bare = time; rows = [] }) }
{}

/// Streams that end where an interval begins or ends.
#[tactic(auto, using(crate::proofs::TimesAtTheEnds::laws))]
pub fn times_at_the_ends()
    ensures before { HasNoTimeBefore }
    ensures within { HasAllTimeWithin }
{}
