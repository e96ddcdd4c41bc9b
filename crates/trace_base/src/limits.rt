//! The limits of the product. Code, clauses and definitions cite them by name; of a limit that nothing cites
//! yet its comment says which part will.
//!
//! Sums of times and of sizes are kept in 128 bits, and they fit: a track lasts at most `MAX_TIME`
//! nanoseconds, and at most `MAX_TRACKS` tracks are summed; a trace has at most half of `MAX_LINK_EVENTS`
//! messages, each with a size and a time on the way below 2^64.

/// The greatest time, in nanoseconds: 2^62.
pub const MAX_TIME: u64 = 4_611_686_018_427_387_904;

/// Bytes of the text of one trace.
pub const MAX_TEXT: u64 = 67_108_864;

/// Bytes of one line of a trace, without its end.
pub const MAX_TRACE_LINE: usize = 65_536;

/// Bytes of one request line, without its end.
pub const MAX_REQUEST_LINE: usize = 4_096;

/// State events of one trace.
pub const MAX_STATE_EVENTS: u32 = 4_194_304;

/// Link events of one trace.
pub const MAX_LINK_EVENTS: u32 = 4_194_304;

/// Tracks of one trace.
pub const MAX_TRACKS: u32 = 4_096;

/// Functions of one trace.
pub const MAX_FUNCTIONS: u32 = 65_536;

/// Containers of one trace, the root included.
pub const MAX_CONTAINERS: u32 = 65_536;

/// Declared values of the state types of one trace.
pub const MAX_VALUES: u32 = 65_536;

/// Declared types of one trace.
pub const MAX_TYPES: u32 = 4_096;

/// Calls of one track that are open at once.
pub const MAX_OPEN_CALLS: usize = 256;

/// Pixels of one timeline. The timeline query will cite it.
pub const MAX_PIXELS: u32 = 4_096;

/// Open traces of one hall, the loading ones included.
pub const MAX_OPEN_TRACES: u64 = 1_024;

/// Places of one history: 2^62.
pub const MAX_PLACES: u64 = 4_611_686_018_427_387_904;
