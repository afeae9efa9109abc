//! How much is served at once, how long, whom a client is taken for, and of whom a server is told; `stickd` makes it of the command line, and `serve` goes by it.

use crate::Proxies;
use proxy_header::Version;
use tcp_link::{Liveness, Timeouts};

/// How many connections are open at once, how long each may be silent, how the system finds out that a peer is gone, which proxies are
/// believed, and how a server is told of its clients.
#[derive(Clone, Copy, Debug)]
pub struct Limits<'a> {
    /// How many connections are open at once at most, on all threads together. They are shared out evenly; the first threads hold
    /// one more where that leaves a rest. A thread that holds as many as it may accepts none.
    pub connections: u32,
    pub timeouts: Timeouts,
    /// How often a server that refuses a connection is tried again, a second apart each time.
    pub retries: u32,
    /// How the system finds out that a server is gone. Of a client it does as the listener says, of which its socket inherits that.
    pub liveness: Liveness,
    /// By which version of the PROXY protocol a server is told first who its client is. It isn't told without.
    pub told_by: Option<Version>,
    /// Which proxies say of their clients who those are. Each client is taken for itself without.
    pub proxies: Option<Proxies<'a>>,
}
