//! Ports over a stream whose calls end as a list says: what each error means to a call, and to the next one.

ghost use Rattle.std.specs.Prelude.{◌≤◌, IfOk};

use std::io;
use std::io::{ErrorKind, Read, Write};
use tcp_flow::{Halt, ReadySink, ReadySource, ReadyStream};

/// A stream whose calls fail so, one after another. After the last, three bytes pass in each.
#[derive(Drop)]
struct Listed<'a> {
    errors: &'a [ErrorKind],
}

impl<'a> Listed<'a> {
    /// How many of so many bytes pass in a call.
    fn pass(&mut self, count: usize) -> io::Result<usize>
        ensures { IfOk result (λ passed. passed ≤ count) }
    {
        match self.errors.split_first() {
            Some((first, rest)) => {
                self.errors = rest;
                Err(io::Error::from(*first))
            }
            None => Ok(count.min(3)),
        }
    }
}

impl<'a> Read for Listed<'a> {
    fn read(&mut self, buffer: &mut [u8]) -> io::Result<usize> {
        self.pass(buffer.len())
    }
}

impl<'a> Write for Listed<'a> {
    fn write(&mut self, bytes: &[u8]) -> io::Result<usize> {
        self.pass(bytes.len())
    }

    fn flush(&mut self) -> io::Result<()> {
        Ok(())
    }
}

/// What two reads of eight bytes come to, of a stream that fails so first.
fn reads(errors: &[ErrorKind]) -> [Result<usize, Halt>; 2] {
    let mut stream = ReadyStream::new(Listed { errors });
    let mut buffer = [0u8; 8];
    [stream.read_now(&mut buffer), stream.read_now(&mut buffer)]
}

/// What two writes of eight bytes come to.
fn writes(errors: &[ErrorKind]) -> [Result<usize, Halt>; 2] {
    let mut stream = ReadyStream::new(Listed { errors });
    [stream.write_now(&[1u8; 8]), stream.write_now(&[1u8; 8])]
}

/// The first errors of a stream, and what the first call comes to.
type Row = (&'static [ErrorKind], Result<usize, Halt>);

static ROWS: [Row; 7] = [
    (&[], Ok(3)),
    (&[ErrorKind::WouldBlock], Err(Halt::NotNow)),
    (&[ErrorKind::ConnectionReset], Err(Halt::Failed)),
    (&[ErrorKind::Interrupted; 15], Ok(3)),
    (&[ErrorKind::Interrupted; 16], Err(Halt::Failed)),
    (
        &[ErrorKind::Interrupted, ErrorKind::WouldBlock],
        Err(Halt::NotNow),
    ),
    (
        &[ErrorKind::Interrupted, ErrorKind::BrokenPipe],
        Err(Halt::Failed),
    ),
];

#[test]
fn errors_of_streams(rt: HostRuntime) {
    for (errors, first) in ROWS {
        assert!(rt; reads(errors) == [first, Ok(3)], "{errors:?}");
        assert!(rt; writes(errors) == [first, Ok(3)], "{errors:?}");
    }
}
