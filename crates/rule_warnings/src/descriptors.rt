//! How many descriptors a run wants, and how many it is allowed; `warnings` compares them, and `tcp_proxy` asks the system.

ghost use Rattle.std.specs.Prelude.{◌≡◌};
ghost use Rattle.rule_warnings.specs.Warnings as spec;

use libc::RLIMIT_NOFILE;
use libc::types::rlimit;
use rule_addresses::Endpoint;

/// What a run of the proxy is asked, as far as it is warned of.
#[derive(Clone, Copy, Debug)]
pub struct StartPlan {
    /// How many connections are open at once at most, on all threads together.
    pub connections: u32,
    /// How many threads serve them.
    pub threads: u32,
    /// How many clients the command socket has at once at most.
    pub socket_clients: u32,
    /// How many descriptors the process may have. None where that can't be told.
    pub descriptors: Option<u64>,
    /// Whether a silent client's connection is closed in time.
    pub has_client_timeout: bool,
    /// Whether a silent server's connection is closed in time.
    pub has_server_timeout: bool,
    /// Where metrics are scraped, if they are.
    pub metrics: Option<Endpoint>,
    /// Whether clients come with IPv6 addresses, those of IPv4 with mapped ones: by the sockets at which they really come in.
    pub takes_ipv6: bool,
}

/// The descriptors that a connection takes: its client's and its server's.
const A_CONNECTION: u64 = 2;

/// The descriptors that a thread takes: for what it waits on, for another thread to tell it of more, and for the next server.
const A_THREAD: u64 = 3;

/// The descriptors that a run takes but for those: its listener, its command socket, three standard streams, and ten to spare.
const OTHERS: u64 = 1 + 1 + 3 + 10;

/// How many descriptors a run wants at most.
pub fn descriptors_wanted(plan: &StartPlan) -> u64
    ensures { result ≡ spec.descriptors_wanted plan.now }
{
    let connections = A_CONNECTION * u64::from(plan.connections);
    let threads = A_THREAD * u64::from(plan.threads);
    connections + threads + u64::from(plan.socket_clients) + OTHERS
}

/// How many descriptors the process may have at once: the soft limit of `RLIMIT_NOFILE` (getrlimit(2)). None where the
/// system doesn't tell. Where it sets no limit, it tells 2^64 - 1.
pub fn allowed_descriptors() -> Option<u64> {
    let mut limit = rlimit {
        rlim_cur: 0,
        rlim_max: 0,
    };
    if libc::getrlimit(RLIMIT_NOFILE, &mut limit) == 0 {
        Some(limit.rlim_cur)
    } else {
        None
    }
}
