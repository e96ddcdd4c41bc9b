ghost use Rattle.std.specs.Prelude.{◌≡◌, IfOk, length};

use crate::memory::Memory;
use std::alloc::Global;
use std::marker::Model;

/// The bytes of a name. Contracts see it as the list of its bytes.
#[derive(Debug, Drop)]
pub struct Name {
    bytes: Vec<u8>,
}

impl Model for Name {
    ghost use Rattle.std.specs.Prelude.{List, ℕ};

    ghost Value = { List ℕ };

    ghost view = { λ n. n.bytes.items };
}

impl Name {
    /// A name of these bytes; `Memory` where none was found for them.
    pub fn from_bytes(alloc: Global, bytes: &[u8]) -> Result<Name, Memory>
        ensures { IfOk result (λ n. n ≡ bytes.now) }
    {
        match Vec::from_slice(alloc, bytes) {
            Ok(bytes) => Ok(Name { bytes }),
            Err(_) => Err(Memory),
        }
    }

    /// The name of the vector's bytes. It takes no memory.
    pub fn from_vec(bytes: Vec<u8>) -> Name
        ensures { result ≡ bytes.items }
    {
        Name { bytes }
    }

    /// The bytes, in order.
    pub fn as_bytes(&self) -> &[u8]
        ensures { result.now ≡ self.now }
    {
        self.bytes.as_slice()
    }

    /// The number of bytes.
    pub fn len(&self) -> usize
        ensures { result ≡ length self.now }
    {
        self.bytes.len()
    }
}
