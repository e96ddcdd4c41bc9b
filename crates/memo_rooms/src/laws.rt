//! What follows for a memo of whole profiles. The clauses are the statements; the bodies are empty.
ghost use Rattle.memo_rooms.specs.Laws.{EmptyIsWhole, FillsLeaveWhole, LooksLeaveWhole};
ghost use Rattle.memo_rooms.specs.Laws.{NewTreesLeaveWhole};

/// A memo of whole profiles stays one: it begins without entries, looks change nothing, fills put in the
/// whole profile of the tree of their number, and numbers get trees under which nothing is kept.
pub fn memos_stay_whole()
    ensures empty { EmptyIsWhole }
    ensures looks { LooksLeaveWhole }
    ensures fills { FillsLeaveWhole }
    ensures trees { NewTreesLeaveWhole }
{}
