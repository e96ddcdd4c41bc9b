ghost use Rattle.std.specs.Prelude.{◌≤◌, vec_capacity};
ghost use Rattle.session_proto.specs.declared.write.TheConstants.{SHORT_REPLY};

use request_reader::InputBuf;
use session_proto::SHORT_REPLY;
use std::alloc::Global;
use trace_base::Memory;

/// The buffers of a session: for the bytes that wait and the text of a PUT, and for a reply. A reply of one
/// line finds its room always.
#[derive(Debug, Drop)]
pub struct SessionBuf {
    pub(crate) input: InputBuf,
    pub(crate) reply: Vec<u8>,
    ghost room: { SHORT_REPLY ≤ vec_capacity reply },
}

impl SessionBuf {
    /// Takes the buffers.
    pub fn new(alloc: Global) -> Result<SessionBuf, Memory> {
        let input = InputBuf::new(alloc)?;
        let Ok(reply) = Vec::with_capacity(alloc, SHORT_REPLY) else {
            return Err(Memory);
        };
        Ok(SessionBuf { input, reply })
    }
}
