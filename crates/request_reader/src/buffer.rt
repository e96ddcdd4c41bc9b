ghost use Rattle.std.specs.Prelude.{◌≡◌, [], IfOk};

use crate::line::Line;
use crate::pending::Pending;
use std::alloc::Global;
use trace_base::Memory;

/// What a session keeps of its source between requests: bytes that were given and wait, the line that is
/// read, and the text of the last PUT.
#[derive(Debug, Drop)]
pub struct InputBuf {
    pub pending: Pending,
    pub line: Line,
    pub text: Vec<u8>,
}

impl InputBuf {
    /// Empty buffers.
    pub fn new(alloc: Global) -> Result<InputBuf, Memory>
        ensures { IfOk result (λ buf. buf.pending ≡ []) }
    {
        Ok(InputBuf {
            pending: Pending::new(alloc)?,
            line: Line::new(alloc)?,
            text: Vec::new(alloc),
        })
    }

    /// Drops the bytes that wait.
    pub fn clear(&mut self)
        ensures { self.new.pending ≡ [] }
    {
        self.pending.clear();
    }
}
