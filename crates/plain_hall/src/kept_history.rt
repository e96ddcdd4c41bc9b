use crate::kept_entry::{HistoryEntry, KeptEntry};
use std::alloc::Global;
use trace_base::Memory;

/// The entries of a plain hall's history. A question takes no memory.
#[derive(Drop)]
pub struct KeptHistory {
    pub entries: Vec<KeptEntry>,
    /// The questions after the last of these entries.
    pub asked: u64,
}

impl KeptHistory {
    ghost use Rattle.std.specs.Prelude.{◌≡◌, ℕ, ◌+◌, ◌<◌, [], ◌∷◌, ◌++◌, length, OnOk};
    ghost use Rattle.trace_base.specs.declared.limits.TheConstants.{MAX_PLACES};
    ghost use Rattle.hall_history.specs.History.{Asked};
    ghost use Rattle.plain_hall.specs.Kept.{entry_of};
    ghost use Rattle.plain_hall.specs.KeptHistory.{history, HasSpace};

    /// The empty history. It takes no memory.
    pub fn new(alloc: Global) -> KeptHistory
        ensures { history result ≡ [] }
    {
        KeptHistory {
            entries: Vec::new(alloc),
            asked: 0,
        }
    }

    /// Makes space for so many more entries. On `Memory` there is no less than before.
    pub fn reserve(&mut self, more: u64) -> Result<(), Memory>
        ensures seen { history self.new ≡ history self.old }
        ensures space { OnOk result (HasSpace self.new more) }
        ensures same { (n : ℕ) → HasSpace self.old n → HasSpace self.new n }
    {
        match self.entries.reserve(more as usize) {
            Ok(()) => Ok(()),
            Err(_) => Err(Memory),
        }
    }

    /// Adds an entry at the end.
    pub fn push(&mut self, entry: HistoryEntry)
        requires { HasSpace self.old 1 }
        ensures seen { history self.new ≡ history self.old ++ entry_of entry ∷ [] }
        ensures space { (n : ℕ) → HasSpace self.old (n + 1) → HasSpace self.new n }
    {
        let asked = self.asked;
        self.entries.push_reserved(KeptEntry { asked, entry });
        self.asked = 0;
    }

    /// Adds a question at the end.
    pub fn push_asked(&mut self)
        requires { length (history self.old) < MAX_PLACES }
        ensures seen { history self.new ≡ history self.old ++ Asked ∷ [] }
        ensures space { (n : ℕ) → HasSpace self.old n → HasSpace self.new n }
    {
        self.asked += 1;
    }
}
