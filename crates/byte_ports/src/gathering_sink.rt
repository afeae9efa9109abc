//! A sink that gathers bytes for the sink behind it; `table_socket` shares one between `SharedSink` and `FlushingSource`.

ghost use Rattle.std.specs.Prelude.{◌≡◌, ◌≤◌, ◌<◌, ◌++◌, [], length, take, IfOk, OnOk, OnErr};
ghost use Rattle.byte_ports.specs.Bytes.{Grows, IsOneMore};
ghost use Rattle.byte_ports.specs.Gathering.{gathered};

use crate::held_bytes::HeldBytes;
use crate::writes::write_all;
use crate::{Failed, Sink};

/// Gathers bytes, up to `ROOM` of them, for a sink behind it, which gets them once there is no more room or when
/// `flush` is called, in their order. Contracts see what it has taken: what that sink has taken, and what is gathered.
/// Without `flush` at the end, what is gathered is lost.
#[derive(Drop)]
pub struct GatheringSink<W> {
    inner: W,
    held: HeldBytes,
    // How many of the bytes that are held the sink behind has taken, where it then failed.
    sent: usize,
    ghost within: { sent ≤ length held },
}

impl<W: Sink> GatheringSink<W> {
    /// Nothing is gathered for this sink yet.
    pub fn new(inner: W) -> Self
        ensures inner { result.inner ≡ inner }
        ensures empty { gathered result.held result.sent ≡ [] }
    {
        GatheringSink {
            inner,
            held: HeldBytes::new(),
            sent: 0,
        }
    }

    /// The sink behind, and what it has taken.
    pub fn inner(&self) -> &W
        ensures { result.now ≡ self.now.inner }
    {
        &self.inner
    }

    /// The sink behind has taken all that was gathered. `Failed` comes where it failed; what it has not taken then is
    /// still gathered.
    pub fn flush(&mut self) -> Result<(), Failed>
        ensures kept { Grows W.tells (W.written self.old.inner ++ gathered self.old.held self.old.sent) (W.written self.new.inner ++ gathered self.new.held self.new.sent) [] }
        ensures empty { OnOk result (gathered self.new.held self.new.sent ≡ []) }
        ensures ok { OnOk result (W.failures self.new.inner ≡ W.failures self.old.inner) }
        ensures err { OnErr result (IsOneMore (W.failures self.old.inner) (W.failures self.new.inner)) }
    {
        match write_all(&mut self.inner, &self.held.as_slice()[self.sent..]) {
            Ok(()) => {
                self.sent = 0;
                self.held.truncate(0);
                Ok(())
            }
            Err(stopped) => {
                self.sent += stopped.written;
                Err(Failed)
            }
        }
    }

    /// Has the sink behind take what is gathered, and then of these bytes what it takes in one call.
    fn pass(&mut self, bytes: &[u8]) -> Result<usize, Failed>
        ensures bound { IfOk result (λ count. count ≤ length bytes.now) }
        ensures some { 0 < length bytes.now → IfOk result (λ count. 0 < count) }
        ensures bytes { IfOk result (λ count. Grows W.tells (W.written self.old.inner ++ gathered self.old.held self.old.sent) (W.written self.new.inner ++ gathered self.new.held self.new.sent) (take count bytes.now)) }
        ensures ok { OnOk result (W.failures self.new.inner ≡ W.failures self.old.inner) }
        ensures err { OnErr result (IsOneMore (W.failures self.old.inner) (W.failures self.new.inner)) }
        ensures kept { OnErr result (Grows W.tells (W.written self.old.inner ++ gathered self.old.held self.old.sent) (W.written self.new.inner ++ gathered self.new.held self.new.sent) []) }
    {
        self.flush()?;
        self.inner.write(bytes)
    }
}

impl<W: Sink> Sink for GatheringSink<W> {
    ghost use Rattle.std.specs.Prelude.{◌++◌};

    ghost tells = { W.tells };

    ghost written = { λ sink. W.written sink.inner ++ gathered sink.held sink.sent };

    ghost failures = { λ sink. W.failures sink.inner };

    fn write(&mut self, bytes: &[u8]) -> Result<usize, Failed> {
        match self.held.try_extend_from_slice(bytes) {
            Ok(()) => Ok(bytes.len()),
            Err(_) => self.pass(bytes),
        }
    }
}
