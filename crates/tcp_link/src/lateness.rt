//! Which timeout ended a connection; `Link` tells it, and `tcp_relay` counts it.

/// Which timeout is over.
#[derive(Clone, Copy, Debug, PartialEq, Eq)]
pub enum Lateness {
    /// That of a server that hasn't accepted the connection.
    Connect,
    /// That of a silent client.
    Client,
    /// That of a silent server.
    Server,
    /// That of both, once one of them has ended.
    Fin,
}
