//! The limits of a memo.

/// Entries of one room.
pub const MEMO_ENTRIES: usize = 4_096;

/// Rows of one entry.
pub const MEMO_ROWS: usize = 64;

/// Rooms of a memo of several rooms.
pub const MEMO_ROOMS: usize = 4;
