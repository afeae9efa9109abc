//! What a thread needs to wait for its connections and to carry their bytes; `reserved` makes it, and `turning` uses it.

ghost use Rattle.std.specs.Prelude.{◌≡◌, IfOk, length};

use crate::waits::Waits;
use crate::width::Width;
use base_sequence::NoMemory;
use mio::Events;
use std::alloc::Global;
use tcp_link::Buffer;

/// How many events are taken at once.
const EVENTS: usize = 256;

/// What a thread is told by the system, the buffer that all its connections share, and places for clients that are waited for.
#[derive(Drop)]
pub(crate) struct Buffers<W: Width> {
    pub(crate) events: Events,
    pub(crate) buffer: Buffer,
    pub(crate) waits: Waits<W>,
}

/// The buffers of so many threads, each of which may wait for so many clients' headers.
pub(crate) fn reserve_buffers<W: Width>(
    alloc: Global,
    count: usize,
    waits: usize,
) -> Result<Vec<Buffers<W>>, NoMemory>
    ensures count { IfOk result (λ all_buffers. length all_buffers.items ≡ count) }
{
    let mut all_buffers = Vec::with_capacity(alloc, count)?;
    for _buffers in 0..count {
        let events = Events::with_capacity(alloc, EVENTS)?;
        let buffer = Buffer::new(alloc)?;
        let waits = Waits::reserve(alloc, waits)?;
        all_buffers.push_reserved(Buffers {
            events,
            buffer,
            waits,
        });
    }
    Ok(all_buffers)
}
