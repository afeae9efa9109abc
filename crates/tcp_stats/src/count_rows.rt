//! How each count is told: its metric, and its words in reports; `metrics` and `report` print by it.

ghost use Rattle.std.specs.Prelude.{◌≡◌, option_map};
ghost use Rattle.tcp_stats.specs.CountRows as spec;
ghost use Rattle.tcp_stats.specs.CountRows.{count_row};

use crate::Count;

impl Count {
    /// The name of its metric, which counts of one kind share.
    pub(crate) fn metric(self) -> &'static str
        ensures { result.now ≡ (count_row self).metric }
    {
        match self {
            Count::Accepted => "stickd_connections_accepted_total",
            Count::Admitted => "stickd_connections_admitted_total",
            Count::Rejected => "stickd_connections_rejected_total",
            Count::NoDescriptors => "stickd_accept_failures_total",
            Count::NoMemory => "stickd_accept_failures_total",
            Count::Unaccepted => "stickd_accept_failures_total",
            Count::Headers => "stickd_headers_total",
            Count::HeaderLate => "stickd_header_failures_total",
            Count::HeaderWrong => "stickd_header_failures_total",
            Count::HeaderEnded => "stickd_header_failures_total",
            Count::HeaderUntrusted => "stickd_header_failures_total",
            Count::ServerRefused => "stickd_connect_failures_total",
            Count::ServerTimedOut => "stickd_connect_failures_total",
            Count::NoPort => "stickd_connect_failures_total",
            Count::ServerFailed => "stickd_connect_failures_total",
            Count::ClientTimedOut => "stickd_timeouts_total",
            Count::ServerSilent => "stickd_timeouts_total",
            Count::FinTimedOut => "stickd_timeouts_total",
            Count::Drained => "stickd_connections_drained_total",
            Count::Ended => "stickd_connections_ended_total",
            Count::BytesIn => "stickd_bytes_total",
            Count::BytesOut => "stickd_bytes_total",
            Count::UntrackedFull => "stickd_untracked_total",
            Count::UntrackedNoReferences => "stickd_untracked_total",
            Count::EventsNoMemory => "stickd_refused_events_total",
            Count::EventsStale => "stickd_refused_events_total",
            Count::EventsExhausted => "stickd_refused_events_total",
            Count::Commands => "stickd_commands_total",
            Count::Reloads => "stickd_reloads_total",
            Count::ReloadsRefused => "stickd_reloads_total",
            Count::Rolls => "stickd_rolls_total",
            Count::Expiries => "stickd_expiries_total",
            Count::Refusals => "stickd_housekeeping_refusals_total",
        }
    }

    /// What is said of the metric, at the first count of it.
    pub(crate) fn help(self) -> Option<&'static str>
        ensures { option_map (λ text. text.now) result ≡ (count_row self).help }
    {
        match self {
            Count::Accepted => Some("Clients whose connection was accepted."),
            Count::Admitted => Some("Clients that the rules admitted."),
            Count::Rejected => Some("Clients that were rejected."),
            Count::NoDescriptors => Some("Times that no client could be accepted."),
            Count::Headers => Some("Clients judged by what a proxy's header tells."),
            Count::HeaderLate => Some("Clients reset for want of a proxy's header."),
            Count::ServerRefused => Some("Connects to the server that failed."),
            Count::ClientTimedOut => Some("Connections that ended as one was silent."),
            Count::Drained => Some("Connections closed at the end of a drain."),
            Count::Ended => Some("Admitted connections that have ended."),
            Count::BytesIn => Some("Bytes in from clients and out to them."),
            Count::UntrackedFull => Some("Times that a key was left untracked."),
            Count::EventsNoMemory => Some("Events of connections that a table refused."),
            Count::Commands => Some("Commands that were answered."),
            Count::Reloads => Some("Times that the rules were to be read again."),
            Count::Rolls => Some("Times that a shard's record began again."),
            Count::Expiries => Some("Entries removed as their time was over."),
            Count::Refusals => Some("Rolls and expiries that were refused."),
            _ => None,
        }
    }

    /// What sets it apart from the others of its metric.
    pub(crate) fn labels(self) -> &'static str
        ensures { result.now ≡ (count_row self).labels }
    {
        match self {
            Count::NoDescriptors => "{cause=\"descriptors\"}",
            Count::NoMemory => "{cause=\"memory\"}",
            Count::Unaccepted => "{cause=\"other\"}",
            Count::HeaderLate => "{cause=\"late\"}",
            Count::HeaderWrong => "{cause=\"wrong\"}",
            Count::HeaderEnded => "{cause=\"ended\"}",
            Count::HeaderUntrusted => "{cause=\"untrusted\"}",
            Count::ServerRefused => "{cause=\"refused\"}",
            Count::ServerTimedOut => "{cause=\"timeout\"}",
            Count::NoPort => "{cause=\"no_port\"}",
            Count::ServerFailed => "{cause=\"other\"}",
            Count::ClientTimedOut => "{timeout=\"client\"}",
            Count::ServerSilent => "{timeout=\"server\"}",
            Count::FinTimedOut => "{timeout=\"fin\"}",
            Count::BytesIn => "{direction=\"in\"}",
            Count::BytesOut => "{direction=\"out\"}",
            Count::UntrackedFull => "{cause=\"full\"}",
            Count::UntrackedNoReferences => "{cause=\"references\"}",
            Count::EventsNoMemory => "{cause=\"memory\"}",
            Count::EventsStale => "{cause=\"stale\"}",
            Count::EventsExhausted => "{cause=\"exhausted\"}",
            Count::Reloads => "{result=\"done\"}",
            Count::ReloadsRefused => "{result=\"refused\"}",
            _ => "",
        }
    }

    /// What stands behind the count's number in a report.
    pub fn words(self) -> &'static str
        ensures { result.now ≡ (count_row self).words }
    {
        match self {
            Count::Accepted => "accepted",
            Count::Admitted => "admitted",
            Count::Rejected => "rejected",
            Count::NoDescriptors => "not accepted for want of descriptors",
            Count::NoMemory => "not accepted for want of memory",
            Count::Unaccepted => "failed to be accepted",
            Count::Headers => "told of by headers",
            Count::HeaderLate => "reset as their header was late",
            Count::HeaderWrong => "reset as they began by no header",
            Count::HeaderEnded => "ended before their header was whole",
            Count::HeaderUntrusted => "reset as no trusted proxy",
            Count::ServerRefused => "refused by the server",
            Count::ServerTimedOut => "timed out at the server",
            Count::NoPort => "without a local port",
            Count::ServerFailed => "failed at the server",
            Count::ClientTimedOut => "ended by a silent client",
            Count::ServerSilent => "ended by a silent server",
            Count::FinTimedOut => "ended half closed",
            Count::Drained => "closed by the drain",
            Count::Ended => "ended",
            Count::BytesIn => "bytes in",
            Count::BytesOut => "bytes out",
            Count::UntrackedFull => "not tracked as a table was full",
            Count::UntrackedNoReferences => "not tracked for want of references",
            Count::EventsNoMemory => "events refused for want of memory",
            Count::EventsStale => "events refused as stale",
            Count::EventsExhausted => "events refused at the end of a table's life",
            Count::Commands => "commands",
            Count::Reloads => "reloads",
            Count::ReloadsRefused => "reloads refused",
            Count::Rolls => "records begun again",
            Count::Expiries => "entries expired",
            Count::Refusals => "refusals of housekeeping",
        }
    }

    /// Whether a report has the count though there was none.
    pub(crate) fn is_always_told(self) -> bool
        ensures { result ≡ spec.is_always_told self }
    {
        matches!(self, Count::Accepted | Count::Admitted | Count::Rejected)
    }

    /// Whether it counts what goes wrong and an operator is to hear of. Rejections count as such where that is asked.
    pub(crate) fn is_trouble(self, tells_rejected: bool) -> bool
        ensures { result ≡ spec.is_trouble tells_rejected self }
    {
        match self {
            Count::Rejected | Count::HeaderUntrusted => tells_rejected,
            Count::NoDescriptors
            | Count::NoMemory
            | Count::Unaccepted
            | Count::HeaderLate
            | Count::HeaderWrong
            | Count::HeaderEnded
            | Count::ServerRefused
            | Count::ServerTimedOut
            | Count::NoPort
            | Count::ServerFailed
            | Count::UntrackedFull
            | Count::UntrackedNoReferences
            | Count::EventsNoMemory
            | Count::EventsStale
            | Count::EventsExhausted
            | Count::Refusals => true,
            _ => false,
        }
    }
}
