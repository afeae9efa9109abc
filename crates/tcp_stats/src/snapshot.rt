//! What the texts tell of: the counts of the whole program and what else is known of it at one moment; the proxy's service
//! threads make one for each text.

ghost use Rattle.std.specs.Prelude.{◌≡◌};
ghost use Rattle.tcp_stats.specs.Stat as spec;
ghost use Rattle.tcp_stats.specs.CountValues.{count_of, capped_sum};
ghost use Rattle.tcp_stats.specs.Values.{seen_value};

use crate::value::Value;
use crate::{Count, Counts, Rate};

/// What is told of a table.
#[derive(Clone, Copy)]
pub struct TableFacts<'a> {
    /// Its name in the configuration.
    pub name: &'a str,
    /// The entries that it has room for.
    pub size: u64,
    /// The entries that it has.
    pub used: u64,
    /// The references to its entries that are out.
    pub references: u64,
    /// The entries that went to make room for others, modulo 2^64.
    pub purged: u64,
}

/// What is known of the program at one moment.
#[derive(Clone, Copy)]
pub struct Snapshot<'a> {
    /// The program's version.
    pub version: &'a str,
    /// The day of its release, as `2026/11/27`.
    pub release_date: &'a str,
    /// The number of its process.
    pub pid: u32,
    /// The name of the machine.
    pub node: &'a str,
    /// How long it has run, in ms.
    pub uptime_ms: u64,
    /// The number of the rules' version, 1 at the start.
    pub rules_version: u64,
    /// The threads that serve connections.
    pub threads: u64,
    /// Whether it takes no new clients, and ends once those that it has are gone.
    pub is_draining: bool,
    /// The most connections that may be open at once (`--connections`).
    pub limit: u64,
    /// The connections that are open.
    pub open: u64,
    /// The most that were open at once.
    pub most: u64,
    /// The clients that were accepted in a second.
    pub connection_rate: Rate,
    /// The clients that were admitted in a second.
    pub session_rate: Rate,
    /// What was counted so far.
    pub counts: Counts,
    /// The name of the proxy, which its rows of `show stat` have.
    pub frontend: &'a str,
    /// The address of the server.
    pub server: &'a str,
    /// The name that the configuration gives the server.
    pub server_name: &'a str,
    /// Its tables, in the order of the configuration.
    pub tables: &'a [TableFacts<'a>],
}

impl Snapshot<'_> {
    /// How many there are of a count.
    pub(crate) fn number(&self, count: Count) -> Value<'static>
        ensures { seen_value result ≡ spec.number self.now count }
    {
        Value::Number(self.counts.get(count))
    }

    /// The connects to the server that failed, for whatever cause.
    pub(crate) fn failed_connects(&self) -> u64
        ensures { result ≡ spec.failed_connects self.now }
    {
        let early = self
            .counts
            .get(Count::ServerRefused)
            .saturating_add(self.counts.get(Count::ServerTimedOut));
        let late = self
            .counts
            .get(Count::NoPort)
            .saturating_add(self.counts.get(Count::ServerFailed));
        early.saturating_add(late)
    }
}
