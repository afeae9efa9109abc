//! What a run of the proxy is asked; `stickd` makes it of the command line, and `running` and `sockets` go by it.

ghost use Rattle.std.specs.Prelude.{◌≡◌, ◌≤◌, ◌*◌, ◌+◌};
ghost use Rattle.tcp_proxy.specs.Watching as spec;

use rule_addresses::Endpoint;
use table_cli::Misfits;
use tcp_relay::Limits;
use tcp_watch::{Level, Purpose, Surroundings, has_handed};

/// How many clients of the stats socket have a place, where that isn't said.
pub const STATS_CLIENTS: u32 = 4;

/// How many places it has at most.
pub const MOST_STATS_CLIENTS: u32 = 32;

/// How many stats sockets there are at most.
pub const MOST_STATS_SOCKETS: usize = 4;

/// How many clients that scrape metrics are answered at once.
pub const METRICS_CLIENTS: u32 = 8;

/// The socket on which commands are answered.
#[derive(Clone, Copy, Debug)]
pub struct SocketPlan<'a> {
    /// Its path.
    pub path: &'a str,
    /// The permissions of its file, up to 0777.
    pub mode: u32,
    /// The group of its file, by its name or its number, where that isn't the program's.
    pub group: Option<&'a str>,
    /// How many clients are answered at once: 1 to 64.
    pub clients: u32,
    /// How long a client may send nothing, or take nothing, in ms.
    pub timeout: u64,
    /// What its clients may do.
    pub level: Level,
}

/// The socket on which HAProxy's tools are answered.
#[derive(Clone, Copy, Debug)]
pub struct StatsPlan<'a> {
    /// Its path.
    pub path: &'a str,
    /// The permissions of its file, up to 0777.
    pub mode: u32,
    /// The group of its file, by its name or its number, where that isn't the program's.
    pub group: Option<&'a str>,
    /// What its clients may do.
    pub level: Level,
}

/// What the program tells of itself.
#[derive(Clone, Copy, Debug)]
pub struct About<'a> {
    /// Its version.
    pub version: &'a str,
    /// The day of its release, as `2026/11/27`.
    pub release_date: &'a str,
    /// The name of the frontend, by which `shutdown frontend` names it.
    pub frontend: &'a str,
    /// The name that the configuration gives the server.
    pub server: &'a str,
}

/// What is told of a run while it goes on, and to whom.
#[derive(Clone, Copy, Debug)]
pub struct WatchPlan<'a> {
    /// How many ms lie between two reports, at least one. None where none are asked for.
    pub report: Option<u64>,
    /// The socket on which HAProxy's tools are answered.
    pub stats: Option<StatsPlan<'a>>,
    /// Further such sockets, three at most.
    pub more_stats: &'a [StatsPlan<'a>],
    /// How many clients of each have a place: 1 to 32.
    pub stats_clients: u32,
    /// Where metrics are scraped by HTTP.
    pub metrics: Option<Endpoint>,
    /// Whether rejected clients are said too, among what goes wrong.
    pub log_rejected: bool,
    pub about: About<'a>,
}

/// The files in which what the tables hold outlasts the run.
#[derive(Clone, Copy, Debug)]
pub struct KeepPlan<'a> {
    /// The file of entries that are made before anything listens.
    pub load: Option<&'a str>,
    /// What becomes of its lines that can't be loaded.
    pub misfits: Misfits,
    /// The file to which the tables are saved at an orderly end, and as that begins.
    pub save: Option<&'a str>,
    /// How many ms lie between two saves while the proxy runs, at least one. None where it saves at its end alone.
    pub save_every: Option<u64>,
}

/// Where the rules came from at the start, and are read again.
#[derive(Clone, Copy, Debug)]
pub enum Source<'a> {
    /// The file of this path.
    File(&'a str),
    /// A pipe or the like, which gives its bytes once.
    NoFile,
    /// A file of HAProxy's, adopted.
    Haproxy,
}

/// What a run of the proxy is asked.
#[derive(Clone, Copy, Debug)]
pub struct Plan<'a> {
    /// Where its rules came from.
    pub source: Source<'a>,
    /// What they were read of.
    pub text: &'a [u8],
    /// The socket on which commands are answered.
    pub socket: SocketPlan<'a>,
    /// How many threads serve connections: 1 to 64.
    pub threads: u32,
    /// How many connections they hold at most, how long a connection may be silent, how silent peers are asked, and who is believed to
    /// say for whom it connects.
    pub limits: Limits<'a>,
    /// Where clients come in besides the `bind` of the configuration.
    pub more_binds: &'a [Endpoint],
    /// How many connections may wait to be accepted at each: 1 to 2^31 - 1.
    pub backlog: u32,
    /// Whether that number was asked for, and isn't the one that serves without a word.
    pub is_backlog_asked: bool,
    /// The number of connections after which the run stops. Then the seats keep receipts, and the tables are settled.
    pub stop_after: Option<u64>,
    /// A shard's record begins again once it has so many calls.
    pub roll_at: u64,
    /// What is loaded and saved.
    pub keep: KeepPlan<'a>,
    /// What is told of the run.
    pub watch: WatchPlan<'a>,
    /// How long open connections go on once the proxy drains, in ms.
    pub drain: u64,
    /// What the service manager hands over, and wants to hear.
    pub manager: &'a Surroundings,
    /// Whether the run is only tried: all that a start looks at is looked at, and nothing is bound.
    pub is_check: bool,
}

impl<'a> WatchPlan<'a> {
    /// The stats socket of this number: the first one's is 0.
    pub(crate) fn stats_at(&self, number: usize) -> Option<StatsPlan<'a>> {
        if number == 0 {
            return self.stats;
        }
        self.more_stats.get(number - 1).copied()
    }
}

impl<'a> Plan<'a> {
    /// Whether there is a stats socket: its own, or one that is handed over.
    pub(crate) fn has_stats(&self) -> bool
        ensures { result ≡ spec.has_stats self.now.watch self.now.manager.now }
    {
        self.watch.stats.is_some() || has_handed(self.manager.handed.as_slice(), Purpose::Stats)
    }

    /// Whether somebody looks at the run while it goes on: then its threads publish what they count, and what goes wrong is said.
    pub(crate) fn is_watched(&self) -> bool
        ensures { result ≡ spec.is_watched self.now.watch self.now.manager.now }
    {
        self.has_stats()
            || self.watch.report.is_some()
            || self.watch.metrics.is_some()
            || self.watch.log_rejected
    }

    /// How many stats sockets there are: with one at least, the further ones too, up to four in all.
    pub(crate) fn stats_sockets(&self) -> u32
        ensures sockets { result ≡ spec.sockets_of self.now.watch self.now.manager.now }
        ensures few { result ≤ 4 }
    {
        if self.has_stats() {
            1 + self.watch.more_stats.len().min(MOST_STATS_SOCKETS - 1) as u32
        } else {
            0
        }
    }

    /// How many places each stats socket has.
    pub(crate) fn stats_places(&self) -> u32
        ensures places { result ≡ spec.places_of self.now.watch.stats_clients }
        ensures few { result ≤ 32 }
    {
        self.watch.stats_clients.max(1).min(MOST_STATS_CLIENTS)
    }

    /// How many threads there are beside the listener and the housekeeping, by what they do. A signal that is blocked is looked for.
    pub(crate) fn duties(&self, is_stop_blocked: bool) -> Duties
        ensures duties { result ≡ spec.duties_of self.now.socket.clients self.now.watch self.now.keep self.now.manager.now is_stop_blocked }
        ensures few { (result.stats ≤ 32) × (result.sockets ≤ 4) × (result.metrics ≤ 8) × (result.saving ≤ 1) × (result.reporting ≤ 1) }
    {
        Duties {
            commands: self.socket.clients,
            stats: self.stats_places(),
            sockets: self.stats_sockets(),
            metrics: if self.watch.metrics.is_some() {
                METRICS_CLIENTS
            } else {
                0
            },
            saving: u32::from(self.keep.save.is_some()),
            reporting: u32::from(
                self.is_watched() || is_stop_blocked || self.manager.notify.is_some(),
            ),
        }
    }
}

/// How many threads there are beside the listener and the housekeeping.
#[derive(Clone, Copy, Debug, PartialEq, Eq)]
pub(crate) struct Duties {
    /// Those that answer commands.
    pub commands: u32,
    /// Those that answer on a stats socket, one for each of its places. One more answers there while all are taken.
    pub stats: u32,
    /// How many stats sockets there are.
    pub sockets: u32,
    /// Those that are scraped.
    pub metrics: u32,
    /// The one that saves the tables.
    pub saving: u32,
    /// The one that reports, looks for signals, and tells the service manager that all threads run, and that they do so still.
    pub reporting: u32,
}

impl Duties {
    /// All of them.
    pub fn sum(&self) -> u32
        requires few { (self.now.commands ≤ 64) × (self.now.stats ≤ 32) × (self.now.sockets ≤ 4) × (self.now.metrics ≤ 8) × (self.now.saving ≤ 1) × (self.now.reporting ≤ 1) }
        ensures { result ≡ self.now.commands + self.now.sockets * (self.now.stats + 1) + self.now.metrics + self.now.saving + self.now.reporting }
    {
        let stats = self.sockets * (self.stats + 1);
        self.commands + stats + self.metrics + self.saving + self.reporting
    }
}
