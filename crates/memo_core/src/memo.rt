ghost use Rattle.std.specs.Prelude.{◌≡◌, [], IfOk};
ghost use Rattle.whole_profiles.specs.Entry.{entry_kind};

use crate::entries::{copy_of, tight_entry};
use crate::limits::{MEMO_ENTRIES, MEMO_ROWS};
use crate::memo_key::MemoKey;
use lru::LruCache;
use std::alloc::Global;
use std::marker::Model;
use std::num::NonZeroUsize;
use trace_base::Memory;
use whole_profiles::{Entry, MemoKind};

/// A room of the memo: profiles of whole nodes, each under the number of its node and its kind. It keeps the
/// `MEMO_ENTRIES` most recently used ones.
#[derive(Drop)]
pub struct Memo {
    alloc: Global,
    cache: LruCache<MemoKey, Entry>,
}

impl Model for Memo {
    ghost use Rattle.std.specs.Prelude.{◌≡◌, List};
    ghost use Rattle.std.specs.Coded.{coded_list};
    ghost use Rattle.memo_core.specs.Memo.{IsMemo, MemoItem, memo_item_code};
    ghost use Rattle.memo_core.specs.Cached.{memo_items};
    ghost use Rattle.memo_core.specs.declared.limits.TheConstants.{MEMO_ENTRIES};

    ghost Value = { List MemoItem };

    ghost coded = { coded_list memo_item_code };

    ghost view = { λ m. memo_items m.cache.entries };

    ghost invariant = { λ m. IsMemo (memo_items m.cache.entries) × (m.cache.cap ≡ MEMO_ENTRIES) };
}

impl Memo {
    ghost use Rattle.memo_core.specs.Memo.{IsMemo};
    ghost use Rattle.memo_core.specs.Using.{FillsIn, LooksUp};

    /// An empty room. It takes memory for the table of all entries that there may be.
    pub fn new(alloc: Global) -> Result<Memo, Memory>
        ensures empty { IfOk result (λ m. m ≡ []) }
        ensures valid { IfOk result (λ m. IsMemo m) }
    {
        let Some(most) = NonZeroUsize::new(MEMO_ENTRIES) else {
            unreachable!()
        };
        let cache = LruCache::new(alloc, most)?;
        Ok(Memo { alloc, cache })
    }

    /// A copy of the entry of this number and kind, which becomes the most recently used one; `None` where
    /// there is none. Without memory for the copy nothing changes.
    pub fn look(&mut self, n: u64, kind: MemoKind) -> Result<Option<Entry>, Memory>
        ensures answer { LooksUp self.old n kind result self.new }
        ensures valid { IsMemo self.new }
    {
        let key = MemoKey { number: n, kind };
        let Some(entry) = self.cache.peek(&key) else {
            return Ok(None);
        };
        let Ok(copy) = copy_of(self.alloc, entry) else {
            return Err(Memory);
        };
        self.cache.promote(&key);
        Ok(Some(copy))
    }

    /// Keeps an entry of this kind as the most recently used one, in place of an older one of its number and
    /// kind; where these are new and the room is full, the least recently used one goes. An entry of more
    /// than `MEMO_ROWS` rows isn't kept, nor one of a new number or kind for which no memory was found; then
    /// nothing changes.
    pub fn fill(&mut self, n: u64, kind: MemoKind, entry: Entry)
        requires { entry_kind entry ≡ kind }
        ensures answer { FillsIn self.old n kind entry self.new }
        ensures valid { IsMemo self.new }
    {
        let cache = &mut self.cache;
        if entry.rows() > MEMO_ROWS {
            return;
        }
        drop(cache.put(MemoKey { number: n, kind }, tight_entry(self.alloc, entry)));
    }
}
