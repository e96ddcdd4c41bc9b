//! A memo room as a value: profiles of nodes by number and kind, the most recently used ones.
#![tactic(auto)]

mod entries;
mod examples;
mod laws;
mod limits;
mod memo;
mod memo_key;

pub use examples::{
    entries_of_three_items, fills_of_a_full_room, fills_of_three_items, last_fills,
    looks_at_three_items, orders_of_three_items,
};
pub use laws::{filled_or_nothing, what_a_fill_leaves};
pub use limits::{MEMO_ENTRIES, MEMO_ROOMS, MEMO_ROWS};
pub use memo::Memo;
pub use whole_profiles::{Entry, MemoKind};
