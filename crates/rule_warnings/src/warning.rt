//! A warning, and how it is said; `warnings` makes it, and `tcp_proxy` and `stickd_input` print it.

use rule_addresses::{Address, Endpoint};
use rule_model::{Fetch, Name, Slot};
use std::fmt::{self, Display, Formatter, Write};
use std::net::{Ipv4Addr, Ipv6Addr};
use std::str;
use stick_key::KeyType;
use stored_data::{Field, name};

/// Why a connection may find a table full, so that its slot tracks nothing.
#[derive(Clone, Copy, Debug)]
pub enum Shortage {
    /// Connections may want so many places of one shard, which has fewer.
    Places { wanted: u64, places: u32 },
    /// Connections may want so many references of one shard, which has fewer.
    References { wanted: u64, references: u32 },
    /// The table is `nopurge`: entries that no connection holds keep their places until they expire.
    Unpurged,
}

/// What a criterion reads that no connection has: a criterion that isn't there is false, and a number of a key that isn't is 0.
#[derive(Clone, Copy, Debug)]
pub enum Unread {
    /// By a slot that no rule in front tracks in a table that stores it.
    BySlot(Slot, Fetch),
    /// Of the client's address, in a table that doesn't store it.
    OfSource(Fetch),
    /// Of the client's address, in a table of this type, of which no address is a key.
    NoKey(KeyType),
}

/// What is to be warned of as the proxy starts. It is printed in sentences on one line, the last of which says what to do.
#[derive(Drop)]
pub enum Warning {
    /// A run wants more descriptors than the process is allowed.
    FewDescriptors {
        wanted: u64,
        allowed: u64,
        connections: u32,
        threads: u32,
    },
    /// A silent client's connection, or a silent server's, is never closed.
    NoTimeout {
        client: bool,
        server: bool,
    },
    /// Metrics are scraped at an address that others can reach.
    OpenMetrics {
        place: Endpoint,
    },
    /// A limit by a slot lets in what its table has no room for. `is_always` says whether all connections are tracked there.
    FailsOpen {
        slot: Slot,
        table: Name,
        is_always: bool,
        shortage: Shortage,
    },
    /// A shard of a table has so many places, that to list them takes long. In `shards` none would have too
    /// many; None where 64 are too few.
    WideShards {
        table: Name,
        places: u64,
        shards: Option<u32>,
    },
    /// The rule of this number tracks what is no key in a table of this type.
    NeverKey {
        rule: u64,
        slot: Slot,
        kind: KeyType,
    },
    /// The rule of this number tracks clients in a table of type `ip`, and clients of IPv6 may come.
    UntrackedIpv6 {
        rule: u64,
        slot: Slot,
    },
    /// The rule of this number has a pattern of IPv4 addresses in the form of IPv6, and no client has such an address.
    MappedPattern {
        rule: u64,
    },
    /// The rule of this number has a criterion that reads what no connection has.
    NeverRead {
        rule: u64,
        unread: Unread,
    },
    /// The line of this number begins a section that listens or has rules, and another one is served.
    Unserved {
        line: u64,
    },
    /// The line of this number is a rule or a table in `defaults`.
    InDefaults {
        line: u64,
    },
    /// The line of this number declares an ACL that nothing uses.
    UnusedAcl {
        line: u64,
    },
}

/// A slot's name, as rules write it.
#[derive(Clone, Copy)]
struct Shown(Slot);

impl Display for Shown {
    fn fmt<W: Write>(&self, f: &mut Formatter<W>) -> fmt::Result {
        f.write_str(match self.0 {
            Slot::Sc0 => "sc0",
            Slot::Sc1 => "sc1",
            Slot::Sc2 => "sc2",
        })
    }
}

/// A table's name. Those of a configuration are text.
fn text_of(name: &Name) -> &str {
    str::from_utf8(name.as_slice()).unwrap_or("?")
}

/// What is missing of timeouts, and what that means.
fn write_timeouts<W: Write>(client: bool, server: bool, f: &mut Formatter<W>) -> fmt::Result {
    let (options, peer) = match (client, server) {
        (true, true) => ("--timeout-client and --timeout-server", "peer"),
        (true, false) => ("--timeout-client", "client"),
        _ => ("--timeout-server", "server"),
    };
    write!(
        f,
        "Without {options}, a {peer} that says nothing holds its connection, and its count, for ever. "
    )?;
    write!(
        f,
        "Give {options}; against peers that vanish there is --keepalive too."
    )
}

/// That others can read the metrics.
fn write_open<W: Write>(place: Endpoint, f: &mut Formatter<W>) -> fmt::Result {
    let port = place.port;
    match place.address {
        Address::V4(bytes) => {
            let address = Ipv4Addr::from_octets(bytes);
            write!(
                f,
                "Whoever can connect to {address}:{port} reads the metrics. "
            )?;
        }
        Address::V6(bytes) => {
            let address = Ipv6Addr::from_octets(bytes);
            write!(
                f,
                "Whoever can connect to [{address}]:{port} reads the metrics. "
            )?;
        }
    }
    write!(
        f,
        "Give --metrics 127.0.0.1:{port}, or put a firewall before it."
    )
}

/// That a slot may track nothing in a table, and why.
fn write_shortage<W: Write>(
    slot: Shown,
    table: &str,
    shortage: Shortage,
    f: &mut Formatter<W>,
) -> fmt::Result {
    match shortage {
        Shortage::Places { wanted, places } => {
            write!(
                f,
                "In table {table}, {slot} may want {wanted} places of one shard, which has {places}. "
            )
        }
        Shortage::References { wanted, references } => {
            write!(
                f,
                "In table {table}, {slot} may want {wanted} references of one shard, which has {references}. "
            )
        }
        Shortage::Unpurged => {
            write!(
                f,
                "Table {table} of {slot} is nopurge, so entries without connections can fill it. "
            )
        }
    }
}

/// A limit that fails open.
fn write_failing<W: Write>(
    slot: Shown,
    table: &str,
    is_always: bool,
    shortage: Shortage,
    f: &mut Formatter<W>,
) -> fmt::Result {
    write_shortage(slot, table, shortage, f)?;
    write!(
        f,
        "Where that is full, a connection passes the limits by {slot} uncounted. "
    )?;
    if is_always {
        return write!(
            f,
            "Add 'tcp-request connection reject unless {{ {slot}_tracked }}'."
        );
    }
    write!(
        f,
        "Add a rule that rejects if !{{ {slot}_tracked }}, for those that {slot} is to track."
    )
}

/// Shards that are large.
fn write_wide<W: Write>(
    table: &str,
    places: u64,
    shards: Option<u32>,
    f: &mut Formatter<W>,
) -> fmt::Result {
    write!(
        f,
        "A shard of table {table} has {places} places, and may be locked for long by a listing. "
    )?;
    match shards {
        Some(least) => write!(
            f,
            "Give --shards {least} or more: then none has more than 102400."
        ),
        None => write!(
            f,
            "Give --shards 64, and a size of 6400k or less: then none has more than 102400."
        ),
    }
}

/// A table's type, as a configuration writes it.
fn kind_word(kind: KeyType) -> &'static str {
    match kind {
        KeyType::Ip => "ip",
        KeyType::Ipv6 => "ipv6",
        KeyType::Integer => "integer",
        KeyType::Text(_) => "string",
        KeyType::Binary(_) => "binary",
    }
}

/// What is read, by the name of what a table stores for it.
fn write_read<W: Write>(fetch: Fetch, f: &mut Formatter<W>) -> fmt::Result {
    match fetch {
        Fetch::Datum(datum) | Fetch::Kilobytes(datum) => f.write_str(name(datum)),
        Fetch::Element(Field { datum, index }) => {
            f.write_str(name(datum))?;
            write!(f, "[{index}]")
        }
        Fetch::Trackers => f.write_str("trackers"),
    }
}

/// A criterion that is always false.
fn write_unread<W: Write>(rule: u64, unread: Unread, f: &mut Formatter<W>) -> fmt::Result {
    match unread {
        Unread::BySlot(slot, fetch) => {
            let slot = Shown(slot);
            write!(
                f,
                "Rule {rule}: no rule above it tracks by {slot} in a table that stores "
            )?;
            write_read(fetch, f)?;
            write!(f, ", so a criterion that reads it is always false. ")?;
            write!(
                f,
                "Store it in that table, and put the rule below the track."
            )
        }
        Unread::OfSource(fetch) => {
            write!(f, "Rule {rule}: a criterion reads, by the source, ")?;
            write_read(fetch, f)?;
            write!(
                f,
                " in a table that doesn't store it, so it is always false. "
            )?;
            write!(f, "Store it in that table.")
        }
        Unread::NoKey(kind) => {
            let word = kind_word(kind);
            write!(
                f,
                "Rule {rule}: a criterion reads, by the source, a table of type {word}, of which no address is a key, so it reads 0. "
            )?;
            write!(f, "Give the table a type that takes addresses.")
        }
    }
}

/// A key that is none, or none of some clients.
fn write_keyless<W: Write>(
    rule: u64,
    slot: Shown,
    kind: KeyType,
    f: &mut Formatter<W>,
) -> fmt::Result {
    let word = kind_word(kind);
    write!(
        f,
        "Rule {rule}: what track-{slot} names is never a key of type {word}, so {slot} tracks nothing there, and limits by {slot} let all in. "
    )?;
    write!(
        f,
        "Give the table a type that takes it, or track another key."
    )
}

impl Display for Warning {
    fn fmt<W: Write>(&self, f: &mut Formatter<W>) -> fmt::Result {
        match self {
            Warning::FewDescriptors {
                wanted,
                allowed,
                connections,
                threads,
            } => {
                write!(
                    f,
                    "For {connections} connections on {threads} threads {wanted} descriptors are wanted, and {allowed} are allowed. "
                )?;
                write!(
                    f,
                    "Set 'ulimit -n {wanted}' or 'LimitNOFILE={wanted}', or give a smaller --connections."
                )
            }
            Warning::NoTimeout { client, server } => write_timeouts(*client, *server, f),
            Warning::OpenMetrics { place } => write_open(*place, f),
            Warning::FailsOpen {
                slot,
                table,
                is_always,
                shortage,
            } => write_failing(Shown(*slot), text_of(table), *is_always, *shortage, f),
            Warning::WideShards {
                table,
                places,
                shards,
            } => write_wide(text_of(table), *places, *shards, f),
            Warning::NeverKey { rule, slot, kind } => write_keyless(*rule, Shown(*slot), *kind, f),
            Warning::UntrackedIpv6 { rule, slot } => {
                let slot = Shown(*slot);
                write!(
                    f,
                    "Rule {rule}: track-{slot} tracks no client of IPv6 in a table of type ip, so limits by {slot} let those in. "
                )?;
                write!(f, "Give the table type ipv6, which takes IPv4 too.")
            }
            Warning::MappedPattern { rule } => {
                write!(
                    f,
                    "Rule {rule}: a pattern in ::ffff:0:0/96 matches no client here, and in HAProxy those of IPv4. "
                )?;
                write!(f, "Write the IPv4 address or network.")
            }
            Warning::NeverRead { rule, unread } => write_unread(*rule, *unread, f),
            Warning::Unserved { line } => write!(
                f,
                "Line {line}: this section isn't served: nothing listens at its bind, and its rules judge nothing, since the first frontend or listen section alone is served. Run another stickd for it."
            ),
            Warning::InDefaults { line } => write!(
                f,
                "Line {line}: a rule or a table in defaults is read past, and does nothing. Write it in the section that it is for."
            ),
            Warning::UnusedAcl { line } => write!(
                f,
                "Line {line}: no rule below it uses this acl. Name it behind if or unless, or leave it out."
            ),
        }
    }
}
