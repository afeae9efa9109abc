//! What is counted of the whole program; the proxy's workers and service threads name by it what they count.

ghost use Rattle.std.specs.Prelude.{◌≡◌, ◌<◌};
ghost use Rattle.tcp_stats.specs.CountNames.{place};

/// How many counts there are.
pub const COUNTS: usize = 33;

/// What is counted. The variants stand in the order in which a worker publishes them.
#[derive(Clone, Copy, Debug, PartialEq, Eq)]
pub enum Count {
    /// Clients whose connection was accepted.
    Accepted,
    /// Clients that the rules admitted, counted at the verdict.
    Admitted,
    /// Clients that the rules rejected, or whose address couldn't be read.
    Rejected,
    /// Times that no client could be accepted, as no file descriptor was left (`EMFILE`, `ENFILE`).
    NoDescriptors,
    /// Times that no client could be accepted for want of memory (`ENOBUFS`, `ENOMEM`).
    NoMemory,
    /// Times that no client could be accepted for another cause.
    Unaccepted,
    /// Clients that began by a header of the PROXY protocol, and were judged by what it tells.
    Headers,
    /// Clients that were reset as their header hadn't come within `--timeout-header`.
    HeaderLate,
    /// Clients that were reset as they began by something else than a header.
    HeaderWrong,
    /// Clients that ended, or failed, before their header was whole.
    HeaderEnded,
    /// Clients that were reset as they came from no trusted proxy (`--proxies-only`).
    HeaderUntrusted,
    /// Connects to the server that it refused (`ECONNREFUSED`).
    ServerRefused,
    /// Connects to the server that took too long: `--timeout-connect`, or `ETIMEDOUT`.
    ServerTimedOut,
    /// Connects to the server for which no local port was left (`EADDRNOTAVAIL`, `EAGAIN`).
    NoPort,
    /// Connects to the server that failed for another cause.
    ServerFailed,
    /// Connections that ended as the client was silent for `--timeout-client`.
    ClientTimedOut,
    /// Connections that ended as the server was silent for `--timeout-server`.
    ServerSilent,
    /// Connections that ended as one way alone was silent for `--timeout-fin`.
    FinTimedOut,
    /// Connections that were closed at the end of a drain.
    Drained,
    /// Admitted connections that have ended, for whatever cause.
    Ended,
    /// Bytes that clients sent to the server.
    BytesIn,
    /// Bytes that the server sent to clients.
    BytesOut,
    /// Times that a key wasn't tracked, as there was no room in its table.
    UntrackedFull,
    /// Times that a key wasn't tracked, as all references of its table were out.
    UntrackedNoReferences,
    /// Events of connections that a table refused for want of memory.
    EventsNoMemory,
    /// Events of connections that a table refused, as their reference wasn't out.
    EventsStale,
    /// Events of connections that a table refused, as it was at the end of its life.
    EventsExhausted,
    /// Commands that were answered on the sockets.
    Commands,
    /// Times that the rules were read again, and the new ones were taken.
    Reloads,
    /// Times that the rules were to be read again, and stayed as they were.
    ReloadsRefused,
    /// Times that a shard's record was begun again.
    Rolls,
    /// Entries that housekeeping removed as their time was over (`expire`).
    Expiries,
    /// Such work that a shard refused.
    Refusals,
}

impl Count {
    /// All that is counted, in the order of places.
    pub const ALL: [Count; COUNTS] = [
        Count::Accepted,
        Count::Admitted,
        Count::Rejected,
        Count::NoDescriptors,
        Count::NoMemory,
        Count::Unaccepted,
        Count::Headers,
        Count::HeaderLate,
        Count::HeaderWrong,
        Count::HeaderEnded,
        Count::HeaderUntrusted,
        Count::ServerRefused,
        Count::ServerTimedOut,
        Count::NoPort,
        Count::ServerFailed,
        Count::ClientTimedOut,
        Count::ServerSilent,
        Count::FinTimedOut,
        Count::Drained,
        Count::Ended,
        Count::BytesIn,
        Count::BytesOut,
        Count::UntrackedFull,
        Count::UntrackedNoReferences,
        Count::EventsNoMemory,
        Count::EventsStale,
        Count::EventsExhausted,
        Count::Commands,
        Count::Reloads,
        Count::ReloadsRefused,
        Count::Rolls,
        Count::Expiries,
        Count::Refusals,
    ];

    /// The count's place among all of them, from 0.
    pub fn place(self) -> usize
        ensures place { result ≡ place self }
        ensures within { result < COUNTS }
    {
        self as usize
    }
}
