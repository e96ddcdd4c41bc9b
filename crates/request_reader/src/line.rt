use std::alloc::Global;
use std::marker::Model;
use trace_base::{MAX_REQUEST_LINE, Memory};

/// The line that is read, without its newline, in memory that is taken once. Contracts see it as the list of
/// its bytes.
#[derive(Debug, Drop)]
pub struct Line {
    bytes: Vec<u8>,
    len: usize,
}

impl Model for Line {
    ghost use Rattle.std.specs.Prelude.{◌≡◌, ℕ, ◌≤◌, List, length, take};

    ghost Value = { List ℕ };

    ghost view = { λ l. take l.len l.bytes.items };

    ghost invariant = { λ l. (length l.bytes.items ≡ 4096) × (l.len ≤ 4096) };
}

impl Line {
    ghost use Rattle.std.specs.Prelude.{◌≡◌, ◌<◌, [], ◌∷◌, ◌++◌, length, ◌↔◌, IsTrue, IfOk};

    /// An empty line.
    pub fn new(alloc: Global) -> Result<Line, Memory>
        ensures { IfOk result (λ l. l ≡ []) }
    {
        let bytes = vec![in alloc; 0u8; MAX_REQUEST_LINE]?;
        Ok(Line { bytes, len: 0 })
    }

    /// The bytes.
    pub fn as_slice(&self) -> &[u8]
        ensures { result.now ≡ self.now }
    {
        &self.bytes[..self.len]
    }

    /// Whether it has no byte.
    pub fn is_empty(&self) -> bool
        ensures { IsTrue result ↔ (self.now ≡ []) }
    {
        self.len == 0
    }

    /// Whether one byte more has room.
    pub fn has_room(&self) -> bool
        ensures { IsTrue result ↔ (length self.now < MAX_REQUEST_LINE) }
    {
        self.len < MAX_REQUEST_LINE
    }

    /// Adds a byte at the end.
    pub fn push(&mut self, byte: u8)
        requires { length self.old < MAX_REQUEST_LINE }
        ensures { self.new ≡ self.old ++ byte ∷ [] }
    {
        self.bytes[self.len] = byte;
        self.len += 1;
    }

    /// Drops the bytes.
    pub fn clear(&mut self)
        ensures { self.new ≡ [] }
    {
        self.len = 0;
    }
}
