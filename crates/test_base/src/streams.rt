//! What no contract says of devices: what a source and a sink pass on of a reader and a writer of std, and of their errors.

use byte_ports::{Failed, Sink, Source, Stopped, StreamSink, StreamSource, write_all};
use std::io;
use std::io::{ErrorKind, Read};

/// Gives one byte, then an error, then the end.
#[derive(Drop)]
struct Faulty {
    calls: u8,
}

impl Read for Faulty {
    fn read(&mut self, buffer: &mut [u8]) -> io::Result<usize> {
        self.calls = self.calls.wrapping_add(1);
        if self.calls == 2 {
            return Err(io::Error::from(ErrorKind::ConnectionReset));
        }
        if self.calls > 2 || buffer.is_empty() {
            return Ok(0);
        }
        buffer[0] = b'x';
        Ok(1)
    }
}

/// Whether one byte is read, then an error met, and then the end.
fn reads_one(source: &mut StreamSource<Faulty>) -> bool {
    let mut buffer = [0u8; 4];
    source.read(&mut buffer) == Ok(1)
        && buffer == [b'x', 0, 0, 0]
        && source.read(&mut buffer) == Err(Failed)
        && source.read(&mut buffer) == Ok(0)
}

/// Whether a room of three bytes takes as many, and says so.
fn takes_three(sink: &mut StreamSink<&mut [u8]>) -> bool {
    write_all(sink, b"ab") == Ok(())
        && write_all(sink, b"cd") == Err(Stopped { written: 1 })
        && sink.write(b"") == Ok(0)
}

#[test]
fn a_reader_and_a_writer_of_std(rt: HostRuntime) {
    assert!(rt; reads_one(&mut StreamSource::new(Faulty { calls: 0 })));
    let mut room = [0u8; 3];
    let is_taken = takes_three(&mut StreamSink::new(room.as_mut_slice()));
    assert!(rt; is_taken && room == [b'a', b'b', b'c']);
}
