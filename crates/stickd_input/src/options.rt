//! The options of `stickd run`, some of which other commands have too; `command_line` gives them to its commands.

use crate::arguments::{count_option, flag_option, value_option};
use clap::{Arg, ArgAction, value_parser};
use std::alloc::Global;

/// The option that says where clients come in too.
pub const BIND: &str = "bind";

/// The option that says how long a server may take to accept a connection.
pub const CONNECT: &str = "timeout-connect";

/// The option that says how long a client may be silent.
pub const CLIENT: &str = "timeout-client";

/// The option that says how long a server may be silent.
pub const SERVER: &str = "timeout-server";

/// The option that says how long a client of the command socket may be silent.
pub const SOCKET: &str = "timeout-socket";

/// The option that says how long a connection may be silent once one side has ended.
pub const FIN: &str = "timeout-fin";

/// The option that says after how long a silent peer is asked whether it is still there.
pub const KEEPALIVE: &str = "keepalive";

/// The option that says how long bytes may stay unacknowledged.
pub const USER_TIMEOUT: &str = "tcp-user-timeout";

/// The option that says how long open connections may go on once the program is to stop.
pub const DRAIN: &str = "drain";

/// The option that says how often a line of counts is written.
pub const REPORT: &str = "report";

/// The option that names the socket on which HAProxy's tools are answered.
pub const STATS: &str = "stats-socket";

/// The option that says where Prometheus is answered.
pub const METRICS: &str = "metrics";

/// The option that has rejected connections told.
pub const LOG_REJECTED: &str = "log-rejected";

/// The option that says what the clients of the command socket may do.
pub const LEVEL: &str = "socket-level";

/// The option by which a run is only tried.
pub const CHECK: &str = "check";

/// The option that says in how many parts each table is kept.
pub(crate) fn shards_option<'a>(alloc: Global) -> Arg<'a> {
    count_option(
        alloc,
        "shards",
        "K",
        64,
        "In how many parts each table is kept, 1 to 64",
    )
    .default_value("1")
}

/// The option that says how many entries go at once where a table is full.
pub(crate) fn purge_option<'a>(alloc: Global) -> Arg<'a> {
    count_option(
        alloc,
        "purge",
        "N",
        1024,
        "How many of its oldest entries a full table removes for a new one, 1 to 1024",
    )
    .default_value("1")
}

/// The option that says how much of an IPv6 source is a key.
pub(crate) fn ipv6_prefix_option<'a>(alloc: Global) -> Arg<'a> {
    count_option(
        alloc,
        "ipv6-prefix",
        "N",
        128,
        "How many of an IPv6 source's first bits count where it is a key, 1 to 128",
    )
    .default_value("128")
}

/// The option that says how much of an IPv4 source is a key.
pub(crate) fn ipv4_prefix_option<'a>(alloc: Global) -> Arg<'a> {
    count_option(
        alloc,
        "ipv4-prefix",
        "N",
        32,
        "How many of an IPv4 source's first bits count where it is a key, 1 to 32",
    )
    .default_value("32")
}

/// The option by which a run is only tried.
pub(crate) fn check_option<'a>(alloc: Global) -> Arg<'a> {
    flag_option(
        alloc,
        CHECK,
        "Look at all that a start looks at, say what it would, and start nothing",
    )
}

/// The option that says how long a server may take to accept a connection.
pub(crate) fn connect_option<'a>(alloc: Global) -> Arg<'a> {
    value_option(
        alloc,
        CONNECT,
        "TIME",
        "How long a server may take to accept a connection, as 1500ms, 5s or 10m",
    )
    .default_value("5s")
}

/// How often a server that refuses is tried again.
pub(crate) fn retries_option<'a>(alloc: Global) -> Arg<'a> {
    value_option(
        alloc,
        "retries",
        "N",
        "How often a server that refuses a connection is tried again, a second apart, 0 to 1000",
    )
    .value_parser(value_parser!(u32).range(0..=1000))
    .default_value("0")
}

/// The option that says how long a client may be silent.
pub(crate) fn client_option<'a>(alloc: Global) -> Arg<'a> {
    value_option(
        alloc,
        CLIENT,
        "TIME",
        "How long a client may be silent [default: for ever]",
    )
}

/// The option that says how long a server may be silent.
pub(crate) fn server_option<'a>(alloc: Global) -> Arg<'a> {
    value_option(
        alloc,
        SERVER,
        "TIME",
        "How long a server may be silent [default: for ever]",
    )
}

/// Where clients come in too.
pub(crate) fn bind_option<'a>(alloc: Global) -> Arg<'a> {
    value_option(
        alloc,
        BIND,
        "ADDRESS:PORT",
        "Listen there too; may be given 16 times. dst_port is the port that a client came to",
    )
    .action(ArgAction::Append)
}

/// The limit of all connections together.
pub(crate) fn connections_option<'a>(alloc: Global) -> Arg<'a> {
    count_option(
        alloc,
        "connections",
        "N",
        u32::MAX,
        "How many connections are open at once at most, on all threads together",
    )
    .default_value("10000")
}

/// When the record of a part of a table begins again.
pub(crate) fn roll_option<'a>(alloc: Global) -> Arg<'a> {
    count_option(
        alloc,
        "roll-at",
        "N",
        u32::MAX,
        "How many calls of a part of a table are recorded, at the latest, before its record begins again",
    )
    .default_value("65536")
}

/// The socket on which commands are answered.
pub(crate) fn socket_option<'a>(alloc: Global) -> Arg<'a> {
    value_option(
        alloc,
        "socket",
        "PATH",
        "The Unix socket on which commands are answered",
    )
    .required(true)
}

/// The permissions of the socket's file.
pub(crate) fn mode_option<'a>(alloc: Global) -> Arg<'a> {
    value_option(
        alloc,
        "socket-mode",
        "MODE",
        "The permissions of the socket's file, in octal, up to 0777",
    )
    .default_value("600")
}

/// The group of the socket's file.
pub(crate) fn group_option<'a>(alloc: Global) -> Arg<'a> {
    value_option(
        alloc,
        "socket-group",
        "GROUP",
        "The group of the socket's file, a name or a number [default: the program's]",
    )
}

/// What the clients of the socket may do.
pub(crate) fn level_option<'a>(alloc: Global) -> Arg<'a> {
    value_option(
        alloc,
        LEVEL,
        "LEVEL",
        "What the socket's clients may do: user (see no keys), operator (see all) or admin (do all) [default: admin]",
    )
}

/// How many clients of the socket are answered at once.
pub(crate) fn clients_option<'a>(alloc: Global) -> Arg<'a> {
    count_option(
        alloc,
        "socket-clients",
        "N",
        64,
        "How many clients of the socket are answered at once, 1 to 64",
    )
    .default_value("4")
}

/// How long a client of the socket may be silent.
pub(crate) fn socket_time_option<'a>(alloc: Global) -> Arg<'a> {
    value_option(
        alloc,
        SOCKET,
        "TIME",
        "How long a client of the socket may send nothing, or take nothing",
    )
    .default_value("10s")
}

/// How many connections may wait to be accepted.
pub(crate) fn backlog_option<'a>(alloc: Global) -> Arg<'a> {
    count_option(
        alloc,
        "backlog",
        "N",
        0x7fff_ffff,
        "How many connections may wait to be accepted [default: as --connections]",
    )
}

/// After how long a silent peer is asked whether it is still there.
pub(crate) fn keepalive_option<'a>(alloc: Global) -> Arg<'a> {
    value_option(
        alloc,
        KEEPALIVE,
        "TIME",
        "Ask silent peers whether they are still there after TIME (TCP keepalive) [default: never]",
    )
}

/// How long bytes may stay unacknowledged.
pub(crate) fn user_timeout_option<'a>(alloc: Global) -> Arg<'a> {
    value_option(
        alloc,
        USER_TIMEOUT,
        "TIME",
        "Give a peer up that acknowledges nothing for TIME (TCP_USER_TIMEOUT) [default: as the system does]",
    )
}

/// How long a connection may be silent once one side has ended.
pub(crate) fn fin_option<'a>(alloc: Global) -> Arg<'a> {
    value_option(
        alloc,
        FIN,
        "TIME",
        "How long a connection may be silent once one side has ended [default: as the other timeouts]",
    )
}

/// How many threads serve connections.
pub(crate) fn threads_option<'a>(alloc: Global) -> Arg<'a> {
    count_option(
        alloc,
        "threads",
        "N",
        64,
        "How many threads serve connections, 1 to 64",
    )
    .required(true)
}

/// After how many connections the proxy stops.
pub(crate) fn stop_option<'a>(alloc: Global) -> Arg<'a> {
    value_option(
        alloc,
        "stop-after",
        "N",
        "Stop once N connections have ended, and settle the tables",
    )
    .value_parser(value_parser!(u64))
}

/// The socket on which HAProxy's tools are answered.
pub(crate) fn stats_option<'a>(alloc: Global) -> Arg<'a> {
    value_option(
        alloc,
        STATS,
        "PATH[,OPTION]",
        "A Unix socket that speaks as HAProxy's stats socket does [default: none]; ,mode=M ,group=G ,level=L; may be given 4 times",
    )
    .action(ArgAction::Append)
}

/// How many clients of the stats socket are answered at once.
pub(crate) fn stats_clients_option<'a>(alloc: Global) -> Arg<'a> {
    count_option(
        alloc,
        "stats-clients",
        "N",
        32,
        "How many clients of each stats socket are answered at once, 1 to 32, and a line of each further one",
    )
    .default_value("4")
}

/// Where Prometheus is answered.
pub(crate) fn metrics_option<'a>(alloc: Global) -> Arg<'a> {
    value_option(
        alloc,
        METRICS,
        "ADDRESS:PORT",
        "Answer GET /metrics there, in Prometheus' text format [default: nowhere]",
    )
}

/// How often a line of counts is written.
pub(crate) fn report_option<'a>(alloc: Global) -> Arg<'a> {
    value_option(
        alloc,
        REPORT,
        "TIME",
        "Write a line of counts to standard error each TIME, and one at the end [default: never]",
    )
}

/// Whether rejected connections are told.
pub(crate) fn rejected_option<'a>(alloc: Global) -> Arg<'a> {
    flag_option(
        alloc,
        LOG_REJECTED,
        "Say on standard error that connections were rejected, at most once a second",
    )
}

/// How long open connections may go on once another program is asked to stop.
pub(crate) fn stop_drain_option<'a>(alloc: Global) -> Arg<'a> {
    value_option(
        alloc,
        DRAIN,
        "TIME",
        "How long open connections may go on [default: as its own --drain says]",
    )
}

/// How long open connections may go on once the program is to stop.
pub(crate) fn drain_option<'a>(alloc: Global) -> Arg<'a> {
    value_option(
        alloc,
        DRAIN,
        "TIME",
        "How long open connections may go on once it is to stop",
    )
    .default_value("30s")
}
