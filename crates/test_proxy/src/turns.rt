//! Where a turn of a direction stops: how many reads it makes, and what a read means that leaves the buffer part empty.

use std::alloc::Global;
use std::io;
use tcp_flow::{Direction, ReadyStream, Step};

/// The first step of a direction whose three bytes are there at once and then end, with a buffer for so many.
fn first(alloc: Global, reads: u32, until_end: bool, room: usize) -> Option<Step> {
    let mut buffer = [0u8; 8];
    let buffer = buffer.get_mut(..room)?;
    if buffer.is_empty() {
        return None;
    }
    let mut from = ReadyStream::new(b"abc".as_slice());
    let mut to = ReadyStream::new(io::sink());
    Some(Direction::new(alloc).turn(&mut from, &mut to, buffer, reads, until_end))
}

/// How many reads are made at most, whether the end is waited for, the room of the buffer, and the step.
static ROWS: [(u32, bool, usize, Step); 6] = [
    (2, false, 1, Step::Yields),
    (2, true, 1, Step::Yields),
    (2, false, 8, Step::WaitsToRead),
    (1, true, 8, Step::Yields),
    (2, true, 8, Step::Ended),
    (2, false, 3, Step::Ended),
];

#[test]
fn a_turn_stops_at_its_last_read(rt: HostRuntime) {
    for (reads, until_end, room, step) in ROWS {
        assert!(rt;
            first(rt.alloc(), reads, until_end, room) == Some(step),
            "{reads} {until_end} {room}"
        );
    }
}
