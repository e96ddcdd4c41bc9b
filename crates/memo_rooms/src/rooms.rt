ghost use Rattle.std.specs.Prelude.{◌≡◌, ◌%◌, ◌<◌, ℕ, IfOk, None};
ghost use Rattle.memo_core.specs.declared.limits.TheConstants.{MEMO_ROOMS};
ghost use Rattle.memo_rooms.specs.Rooms.{no_entries};
ghost use Rattle.whole_profiles.specs.Entry.{entry_kind};

use memo_core::{MEMO_ROOMS, Memo};
use std::alloc::Global;
use std::marker::Model;
use trace_base::Memory;
use whole_profiles::{Entry, MemoKind};

/// A memo of `MEMO_ROOMS` rooms: profiles of whole nodes, each under the number of its node and its kind, in
/// the room that the number leaves over when it is divided by the count of rooms. Each room keeps the most
/// recently used ones of its numbers.
#[derive(Drop)]
pub struct MemoRooms {
    rooms: Vec<Memo>,
}

impl Model for MemoRooms {
    ghost use Rattle.std.specs.Prelude.{List};
    ghost use Rattle.std.specs.Coded.{coded_list};
    ghost use Rattle.memo_core.specs.Memo.{MemoItem, memo_item_code};
    ghost use Rattle.memo_rooms.specs.Rooms.{AreRooms};

    ghost Value = { List (List MemoItem) };

    ghost coded = { coded_list (coded_list memo_item_code) };

    ghost view = { λ m. m.rooms.items };

    ghost invariant = { λ m. AreRooms m.rooms.items };
}

// The index of a number's room.
fn room_index(n: u64) -> usize
    ensures exact { result ≡ n % MEMO_ROOMS }
    ensures within { result < MEMO_ROOMS }
{
    (n % MEMO_ROOMS as u64) as usize
}

// So many rooms without entries.
fn new_rooms(alloc: Global) -> Result<Vec<Memo>, Memory>
    ensures { IfOk result (λ rooms. rooms.items ≡ no_entries) }
{
    let mut rooms = Vec::new(alloc);
    for _ in 0..MEMO_ROOMS {
        rooms.push(Memo::new(alloc)?)?;
    }
    Ok(rooms)
}

impl MemoRooms {
    ghost use Rattle.memo_core.specs.Using.{FillsIn, LooksUp};
    ghost use Rattle.memo_rooms.specs.Rooms.{InItsRoom, IsKeptAfter, LookTells, kept_under};
    ghost use Rattle.whole_profiles.specs.declared.memo_kind.MemoKind.{MemoKind};

    /// Rooms without entries. It takes memory for the tables of all entries that there may be, and fails for
    /// want of it alone.
    pub fn new(alloc: Global) -> Result<MemoRooms, Memory>
        ensures empty { IfOk result (λ m. m ≡ no_entries) }
        ensures kept { IfOk result (λ m. (n : ℕ) (kind : MemoKind) → kept_under m n kind ≡ None) }
    {
        Ok(MemoRooms {
            rooms: new_rooms(alloc)?,
        })
    }

    /// A copy of the entry of this number and kind, which becomes the most recently used one of its room;
    /// `None` where there is none. Without memory for the copy nothing changes. What is kept stays in any
    /// case.
    pub fn look(&mut self, n: u64, kind: MemoKind) -> Result<Option<Entry>, Memory>
        ensures answer { LookTells (kept_under self.old n kind) result }
        ensures kept { kept_under self.new ≡ kept_under self.old }
        ensures room { InItsRoom (λ old new. LooksUp old n kind result new) n self.old self.new }
    {
        self.rooms[room_index(n)].look(n, kind)
    }

    /// Keeps an entry of this kind as the most recently used one of its room, in place of an older one of its
    /// number and kind; where these are new and the room is full, the room's least recently used one goes.
    /// An entry of more than `MEMO_ROWS` rows isn't kept, nor one of a new number or kind for which no memory
    /// was found; then nothing changes.
    pub fn fill(&mut self, n: u64, kind: MemoKind, entry: Entry)
        requires { entry_kind entry ≡ kind }
        ensures kept { IsKeptAfter (kept_under self.old) n kind entry (kept_under self.new) }
        ensures room { InItsRoom (λ old new. FillsIn old n kind entry new) n self.old self.new }
    {
        self.rooms[room_index(n)].fill(n, kind, entry)
    }
}
