//! A client that isn't connected to its server; `Link::open` gives it back, and `tcp_relay` closes it.

ghost use Rattle.std.specs.Prelude.{◌≡◌};

use crate::Unreached;
use mio::net::TcpStream;

/// A client whose server the system can't connect to, which it said at once. Dropping it closes the client.
#[derive(Drop)]
pub struct Unopened {
    /// As it was given.
    pub client: TcpStream,
    /// Why it can't.
    pub unreached: Unreached,
}

impl Unopened {
    /// This client, and why it isn't connected.
    pub(crate) fn new(client: TcpStream, unreached: Unreached) -> Unopened
        ensures client { result.client ≡ client }
        ensures unreached { result.unreached ≡ unreached }
    {
        Unopened { client, unreached }
    }
}
