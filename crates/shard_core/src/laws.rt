//! What follows from the answers of a room. The clauses are the statements; the bodies are empty.
ghost use Rattle.shard_core.specs.Laws.{DropsKeepNext, InternsNeverLowerNext};
ghost use Rattle.shard_core.specs.Laws.{NewNumbersAreFresh, NewNumbersRise, SpentByItsCauses};

/// The index of the next number never falls: an answer to a key keeps or raises it, and a dropped count keeps
/// it, also where the node goes.
pub fn next_never_falls()
    ensures interns { InternsNeverLowerNext }
    ensures drops { DropsKeepNext }
{}

/// The number of a new key has the next index, and no node has it; a later one is greater. So no number is
/// given twice.
pub fn numbers_given_once()
    ensures fresh { NewNumbersAreFresh }
    ensures rise { NewNumbersRise }
{}

/// A number is used up for a key exactly by the two causes: where one of them holds there is no other answer.
pub fn spent_by_its_causes()
    ensures { SpentByItsCauses }
{}
