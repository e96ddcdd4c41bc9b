//! What follows for a room, whatever its entries. The clauses are the statements; the bodies are empty.
ghost use Rattle.memo_core.specs.Laws.{AnswersWhatWasFilled, FilledIsFound, FilledOrNothing};
ghost use Rattle.memo_core.specs.Laws.{KnownLosesNone, LeastRecentGoes, NewTakesRoom, OthersStayOrGo};

/// An entry that was filled in is found, and those of other numbers and of the other kind stay as they were,
/// or go: none where the number and the kind were there, none while there is room, and in a full room the
/// least recently used one.
pub fn what_a_fill_leaves()
    ensures found { FilledIsFound }
    ensures others { OthersStayOrGo }
    ensures known { KnownLosesNone }
    ensures room { NewTakesRoom }
    ensures full { LeastRecentGoes }
{}

/// After any looks and fills a room that began empty has, for a number and a kind, what was filled in for
/// them last, or nothing; so a look answers what was filled in for that very number and kind.
pub fn filled_or_nothing()
    ensures kept { FilledOrNothing }
    ensures answered { AnswersWhatWasFilled }
{}
