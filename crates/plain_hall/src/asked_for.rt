ghost use Rattle.std.specs.Prelude.{◌≡◌};
ghost use Rattle.hall_history.specs.Asks.{first_id, second_id};

use hall_history::AskIds;

/// The first trace that is asked for.
pub fn first_of(ids: AskIds) -> u64
    ensures { result ≡ first_id ids }
{
    match ids {
        AskIds::One(a) => a,
        AskIds::Two(a, _) => a,
    }
}

/// The second trace that is asked for; where one is, that one.
pub fn second_of(ids: AskIds) -> u64
    ensures { result ≡ second_id ids }
{
    match ids {
        AskIds::One(a) => a,
        AskIds::Two(_, b) => b,
    }
}
