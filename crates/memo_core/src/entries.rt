ghost use Rattle.std.specs.Prelude.{◌≡◌, IfOk};

use profile_math::Sums;
use std::alloc::Global;
use trace_base::{Memory, PathProfile, Profile, Seq};
use whole_profiles::Entry;

// The same entry once more; `Memory` where none was found for its rows.
pub(crate) fn copy_of(alloc: Global, entry: &Entry) -> Result<Entry, Memory>
    ensures { IfOk result (λ e. e ≡ entry.now) }
{
    match entry {
        Entry::Flat(profile) => Ok(Entry::Flat(profile.copy(alloc)?)),
        Entry::Paths(profile) => Ok(Entry::Paths(profile.copy(alloc)?)),
    }
}

// The same entry, whose rows take no more memory than they need where a block of that size was found.
pub(crate) fn tight_entry(alloc: Global, entry: Entry) -> Entry
    ensures { result ≡ entry }
{
    match entry {
        Entry::Flat(Profile { bare, rows }) => Entry::Flat(Profile {
            bare,
            rows: tight_rows(alloc, rows),
        }),
        Entry::Paths(PathProfile { bare, rows }) => Entry::Paths(PathProfile {
            bare,
            rows: tight_rows(alloc, rows),
        }),
    }
}

// The same rows, in a block of their size where one was found. A block made smaller in place would leave a
// gap behind it that is too short for the next one.
fn tight_rows<T: Copy>(alloc: Global, rows: Seq<T>) -> Seq<T>
    ensures { result ≡ rows }
{
    let rows = rows.into_vec();
    if rows.capacity() > rows.len() {
        if let Ok(copy) = Seq::from_slice(alloc, rows.as_slice()) {
            return copy;
        }
    }
    Seq::from_vec(rows)
}
