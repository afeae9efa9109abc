//! What no contract says of gathered writes: when they come, and what is shared through a cell.

use byte_ports::{
    Failed, FlushingSource, GatheringSink, MemorySink, MemorySource, SharedSink, Source,
    flush_shared, write_all,
};
use std::alloc::Global;
use std::cell::RefCell;

const TEXT: &[u8] = b"abcde";

type Shared = RefCell<GatheringSink<MemorySink>>;

type Sending<'a> = SharedSink<'a, MemorySink>;

type Reading<'a> = FlushingSource<'a, MemorySource<'a>, MemorySink>;

/// Whether the sink behind what is gathered has taken that.
fn has_written(gathered: &Shared, wanted: &[u8]) -> bool {
    match gathered.try_borrow() {
        Ok(sink) => sink.inner().written() == wanted,
        Err(_) => false,
    }
}

/// Whether the first two bytes are written before a read, and not before.
fn is_written_by_a_read(gathered: &Shared, sink: &mut Sending, source: &mut Reading) -> bool {
    let mut buffer = [0u8; 4];
    write_all(sink, &TEXT[..2]) == Ok(())
        && has_written(gathered, b"")
        && source.read(&mut buffer) == Ok(4)
        && has_written(gathered, &TEXT[..2])
}

/// Whether the rest is written by a flush, and not before.
fn is_written_by_a_flush(gathered: &Shared, sink: &mut Sending) -> bool {
    write_all(sink, &TEXT[2..]) == Ok(())
        && has_written(gathered, &TEXT[..2])
        && flush_shared(gathered) == Ok(())
        && has_written(gathered, TEXT)
}

/// Whether what is gathered is written before a read and by a flush, and not before.
fn is_written_before_a_read(alloc: Global) -> bool {
    let gathered = RefCell::new(GatheringSink::new(MemorySink::new(alloc, 7, None)));
    let mut sink = SharedSink::new(&gathered);
    let mut source = FlushingSource::new(MemorySource::new(TEXT, 7, None), &gathered);
    is_written_by_a_read(&gathered, &mut sink, &mut source)
        && is_written_by_a_flush(&gathered, &mut sink)
}

/// Whether a read fails, and takes nothing, where what is gathered can't be written.
fn fails_before_a_read(alloc: Global) -> bool {
    let gathered = RefCell::new(GatheringSink::new(MemorySink::new(alloc, 7, Some(1))));
    let mut sink = SharedSink::new(&gathered);
    let mut source = FlushingSource::new(MemorySource::new(TEXT, 7, None), &gathered);
    let mut buffer = [0u8; 4];
    write_all(&mut sink, TEXT) == Ok(())
        && source.read(&mut buffer) == Err(Failed)
        && buffer == [0; 4]
        && has_written(&gathered, &TEXT[..1])
        && flush_shared(&gathered) == Err(Failed)
}

#[test]
fn a_read_comes_after_what_is_gathered(rt: HostRuntime) {
    assert!(rt; is_written_before_a_read(rt.alloc()));
    assert!(rt; fails_before_a_read(rt.alloc()));
}
