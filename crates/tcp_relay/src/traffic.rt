//! The bytes of a connection both ways: `Connection` has those that are counted so far, and `Ended` those that it ended after.

ghost use Rattle.std.specs.Prelude.{◌≡◌};
ghost use Rattle.tcp_relay.specs.Traffics.{beyond};

/// Bytes of a connection, as they are counted.
#[derive(Clone, Copy, Debug, PartialEq, Eq)]
pub(crate) struct Traffic {
    /// Bytes that came of its client.
    pub(crate) bytes_in: u64,
    /// Bytes that went to its client.
    pub(crate) bytes_out: u64,
}

impl Traffic {
    /// No byte.
    pub(crate) fn none() -> Traffic
        ensures { result ≡ record { bytes_in = 0; bytes_out = 0 } }
    {
        Traffic {
            bytes_in: 0,
            bytes_out: 0,
        }
    }

    /// What there is of it beyond what was counted before.
    pub(crate) fn beyond(self, counted: Traffic) -> Traffic
        ensures { result ≡ beyond self counted }
    {
        Traffic {
            bytes_in: self.bytes_in.saturating_sub(counted.bytes_in),
            bytes_out: self.bytes_out.saturating_sub(counted.bytes_out),
        }
    }
}
