//! The buffer through which bytes pass; each worker of `tcp_relay` makes one for all its connections.

ghost use Rattle.std.specs.Prelude.{◌≡◌, IfOk, vec_len};

use base_sequence::NoMemory;
use std::alloc::Global;

/// How many bytes a read takes at most.
pub(crate) const ROOM: usize = 65_536;

/// A buffer of 65,536 bytes, through which those of all connections of a thread pass in turn.
#[derive(Drop)]
pub struct Buffer {
    pub(crate) bytes: Vec<u8>,
    ghost room: { vec_len bytes ≡ 65536 },
}

impl Buffer {
    /// A buffer. It takes memory here alone.
    pub fn new(alloc: Global) -> Result<Buffer, NoMemory>
        ensures { IfOk result (λ buffer. vec_len buffer.bytes ≡ 65536) }
    {
        let bytes = vec![in alloc; 0u8; ROOM]?;
        Ok(Buffer { bytes })
    }
}
