//! A header of the PROXY protocol that a client has begun by; `hearing` makes it of the bytes, and `arrival` takes the client for whom
//! it tells.

ghost use Rattle.tcp_relay.specs.Arrivals.{IsSaid};

use proxy_header::Ends;

/// A header that a client has sent whole. There are bytes that say so.
#[derive(Clone, Copy, Debug)]
pub(crate) struct Header {
    /// How many bytes it has.
    pub(crate) length: usize,
    /// The ends that it tells, if it tells some.
    pub(crate) ends: Option<Ends>,
    ghost said: { IsSaid length ends },
}
