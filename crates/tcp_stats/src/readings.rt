//! What is read of the program and of a table at one moment, each with its metric; `metrics` prints by it.

ghost use Rattle.std.specs.Prelude.{◌≡◌};
ghost use Rattle.tcp_stats.specs.Readings.{reading_row, reading_value, table_kind, table_row, table_value};

use crate::{Snapshot, TableFacts};

/// What is read of the program.
#[derive(Clone, Copy)]
pub(crate) enum Reading {
    /// Connections that are open.
    Open,
    /// The most that were open at once.
    Most,
    /// The most that may be open at once.
    Limit,
    /// Clients whose verdict is to come.
    InHand,
    /// Threads that serve connections.
    Threads,
    /// Whether no new clients are taken.
    Draining,
    /// Seconds since the start.
    Uptime,
    /// The number of the rules' version.
    RulesVersion,
}

impl Reading {
    pub(crate) const ALL: [Reading; 8] = [
        Reading::Open,
        Reading::Most,
        Reading::Limit,
        Reading::InHand,
        Reading::Threads,
        Reading::Draining,
        Reading::Uptime,
        Reading::RulesVersion,
    ];

    /// Its metric's name, and what is said of it.
    pub(crate) fn names(self) -> (&'static str, &'static str)
        ensures metric { result.0.now ≡ (reading_row self).metric }
        ensures help { result.1.now ≡ (reading_row self).help }
    {
        match self {
            Reading::Open => ("stickd_connections", "Connections that are open."),
            Reading::Most => (
                "stickd_connections_peak",
                "The most connections that were open at once.",
            ),
            Reading::Limit => (
                "stickd_connections_limit",
                "The most connections that may be open at once.",
            ),
            Reading::InHand => (
                "stickd_connections_in_hand",
                "Clients that were accepted and neither admitted nor rejected yet.",
            ),
            Reading::Threads => ("stickd_threads", "Threads that serve connections."),
            Reading::Draining => (
                "stickd_draining",
                "Whether no new clients are taken: 1, else 0.",
            ),
            Reading::Uptime => ("stickd_uptime_seconds", "Seconds since the start."),
            Reading::RulesVersion => (
                "stickd_rules_version",
                "The number of the rules' version, 1 at the start.",
            ),
        }
    }

    /// Its value.
    pub(crate) fn value(self, now: &Snapshot<'_>) -> u64
        ensures { result ≡ reading_value now.now self }
    {
        match self {
            Reading::Open => now.open,
            Reading::Most => now.most,
            Reading::Limit => now.limit,
            Reading::InHand => now.counts.in_hand(),
            Reading::Threads => now.threads,
            Reading::Draining => u64::from(now.is_draining),
            Reading::Uptime => now.uptime_ms / 1_000,
            Reading::RulesVersion => now.rules_version,
        }
    }
}

/// What is read of a table.
#[derive(Clone, Copy)]
pub(crate) enum TableReading {
    /// The entries that it has room for.
    Size,
    /// The entries that it has.
    Used,
    /// The references to them that are out.
    References,
    /// The entries that went to make room for others.
    Purged,
}

impl TableReading {
    pub(crate) const ALL: [TableReading; 4] = [
        TableReading::Size,
        TableReading::Used,
        TableReading::References,
        TableReading::Purged,
    ];

    /// Its metric's name, what is said of it, and its type.
    pub(crate) fn names(self) -> (&'static str, &'static str, &'static str)
        ensures metric { result.0.now ≡ (table_row self).metric }
        ensures help { result.1.now ≡ (table_row self).help }
        ensures kind { result.2.now ≡ table_kind self }
    {
        match self {
            TableReading::Size => (
                "stickd_table_size_entries",
                "The entries that a table has room for.",
                "gauge",
            ),
            TableReading::Used => ("stickd_table_entries", "The entries of a table.", "gauge"),
            TableReading::References => (
                "stickd_table_references",
                "The references to a table's entries that are out.",
                "gauge",
            ),
            TableReading::Purged => (
                "stickd_table_purged_entries_total",
                "The entries that a table removed to make room for others.",
                "counter",
            ),
        }
    }

    /// Its value.
    pub(crate) fn value(self, table: &TableFacts<'_>) -> u64
        ensures { result ≡ table_value table.now self }
    {
        match self {
            TableReading::Size => table.size,
            TableReading::Used => table.used,
            TableReading::References => table.references,
            TableReading::Purged => table.purged,
        }
    }
}
