//! What `stickd run` is asked, read from the command line; `main` calls `read_plan` before it runs the proxy.

ghost use Rattle.std.specs.Prelude.{◌≡◌, ◌≤◌, IfOk};

use crate::bad_word::{BadWord, read_timeout};
use crate::client_words::read_proxies;
use crate::socket_words::read_socket;
use clap::ArgMatches;
use proxy_header::Version;
use rule_addresses::{Endpoint, Network, read_bind};
use stickd_ctl::PATIENCE;
use stickd_input::{
    CHECK, CLIENT, CONNECT, DRAIN, FIN, KEEPALIVE, LOAD, LOAD_LENIENT, LOG_REJECTED, METRICS,
    REPORT, SAVE, SAVE_EVERY, SEND_PROXY, SEND_PROXY_V2, SERVER, TIMEOUT, USER_TIMEOUT, VERSION,
};
use table_cli::Misfits;
use tcp_link::{Keepalive, Liveness, Timeouts, UserTimeout};
use tcp_proxy::{About, KeepPlan, Plan, STATS_CLIENTS, Source, StatsPlan, WatchPlan};
use tcp_relay::Limits;
use tcp_watch::Surroundings;

/// How long a server may take to accept a connection where that isn't said, in ms.
const CONNECT_TIME: u64 = 5_000;

/// How many connections may wait to be accepted at most: what listen(2) can be asked.
const MOST_BACKLOG: u32 = 0x7fff_ffff;

/// The day of the program's release, as HAProxy's tools are told it.
const RELEASE_DATE: &str = "2026/11/30";

/// How long open connections may go on once the program is to stop, where that isn't said, in ms.
const DRAIN_TIME: u64 = 30_000;

/// How long a connection may be silent.
fn read_timeouts<'a>(arguments: &ArgMatches<'a>) -> Result<Timeouts, BadWord<'a>> {
    Ok(Timeouts {
        connect: read_timeout(arguments, CONNECT)?.unwrap_or(CONNECT_TIME),
        client: read_timeout(arguments, CLIENT)?,
        server: read_timeout(arguments, SERVER)?,
        fin: read_timeout(arguments, FIN)?,
    })
}

/// How the system finds out that a peer is gone.
fn read_liveness<'a>(arguments: &ArgMatches<'a>) -> Result<Liveness, BadWord<'a>> {
    Ok(Liveness {
        keepalive: read_timeout(arguments, KEEPALIVE)?.map(Keepalive::of),
        user_timeout: read_timeout(arguments, USER_TIMEOUT)?.map(UserTimeout::of),
    })
}

/// By which version of the PROXY protocol the server is told of a client, if it is.
fn read_told_by(arguments: &ArgMatches<'_>) -> Option<Version> {
    if arguments.get_flag(SEND_PROXY_V2) {
        return Some(Version::Two);
    }
    arguments.get_flag(SEND_PROXY).then_some(Version::One)
}

/// Where Prometheus is answered.
fn read_metrics<'a>(arguments: &ArgMatches<'a>) -> Result<Option<Endpoint>, BadWord<'a>> {
    let Some(word) = arguments.get_str(METRICS) else {
        return Ok(None);
    };
    match read_bind(word.as_bytes()) {
        Some(place) => Ok(Some(place)),
        None => Err(BadWord::Bind {
            option: METRICS,
            word,
        }),
    }
}

/// How long open connections may go on once the program is to stop, in ms. None where that isn't said.
pub fn read_drain<'a>(arguments: &ArgMatches<'a>) -> Result<Option<u64>, BadWord<'a>> {
    read_timeout(arguments, DRAIN)
}

/// How long a program may say nothing that is asked, in ms.
pub fn read_patience<'a>(arguments: &ArgMatches<'a>) -> Result<u64, BadWord<'a>> {
    Ok(read_timeout(arguments, TIMEOUT)?.unwrap_or(PATIENCE))
}

/// The files in which what the tables hold outlasts the run.
fn read_keep<'a>(arguments: &ArgMatches<'a>) -> Result<KeepPlan<'a>, BadWord<'a>> {
    let save = arguments.get_str(SAVE);
    let save_every = read_timeout(arguments, SAVE_EVERY)?;
    if save.is_none() && save_every.is_some() {
        return Err(BadWord::NothingToSave);
    }
    Ok(KeepPlan {
        load: arguments.get_str(LOAD),
        misfits: if arguments.get_flag(LOAD_LENIENT) {
            Misfits::Skipped
        } else {
            Misfits::Refused
        },
        save,
        save_every,
    })
}

/// What `stickd run` is asked. That its numbers are in their ranges was seen as the command line was read. The connections are
/// shared out among the threads, of which there are no more than connections.
pub fn read_plan<'a>(
    arguments: &'a ArgMatches<'_>,
    source: Source<'a>,
    more_binds: &'a [Endpoint],
    believed: &'a [Network],
    stats: &'a [StatsPlan<'a>],
    manager: &'a Surroundings,
) -> Result<Plan<'a>, BadWord<'a>>
    ensures threads { IfOk result (λ plan. (1 ≤ plan.threads) × (plan.threads ≤ 64)) }
    ensures backlog { IfOk result (λ plan. (1 ≤ plan.backlog) × (plan.backlog ≤ 2147483647)) }
    ensures clients { IfOk result (λ plan. (1 ≤ plan.socket.clients) × (plan.socket.clients ≤ 64)) }
{
    let connections = arguments
        .get_one::<u32>("connections")
        .unwrap_or(10_000)
        .max(1);
    let threads = arguments
        .get_one::<u32>("threads")
        .unwrap_or(1)
        .min(connections)
        .clamp(1, 64);
    let socket = match read_socket(arguments) {
        Ok(socket) => socket,
        Err(bad) => return Err(bad),
    };
    let backlog = arguments.get_one::<u32>("backlog");
    Ok(Plan {
        source,
        text: &[],
        socket,
        more_binds,
        backlog: backlog.unwrap_or(connections).clamp(1, MOST_BACKLOG),
        is_backlog_asked: backlog.is_some(),
        threads,
        limits: Limits {
            connections,
            timeouts: read_timeouts(arguments)?,
            retries: arguments.get_one::<u32>("retries").unwrap_or(0),
            liveness: read_liveness(arguments)?,
            told_by: read_told_by(arguments),
            proxies: read_proxies(arguments, believed)?,
        },
        stop_after: arguments.get_one::<u64>("stop-after"),
        keep: read_keep(arguments)?,
        watch: WatchPlan {
            report: read_timeout(arguments, REPORT)?,
            stats: stats.first().copied(),
            more_stats: stats.get(1..).unwrap_or(&[]),
            stats_clients: arguments
                .get_one::<u32>("stats-clients")
                .unwrap_or(STATS_CLIENTS),
            metrics: read_metrics(arguments)?,
            log_rejected: arguments.get_flag(LOG_REJECTED),
            about: About {
                version: VERSION,
                release_date: RELEASE_DATE,
                frontend: "",
                server: "",
            },
        },
        drain: read_drain(arguments)?.unwrap_or(DRAIN_TIME),
        manager,
        is_check: arguments.get_flag(CHECK),
        roll_at: u64::from(arguments.get_one::<u32>("roll-at").unwrap_or(65_536)),
    })
}

/// The plan of a run whose rules were read of a text, and that is told of as a frontend and a server of these names.
pub(crate) fn with_names<'a>(
    plan: Plan<'a>,
    text: &'a [u8],
    frontend: &'a str,
    server: &'a str,
) -> Plan<'a>
    ensures text { result.text.now ≡ text.now }
    ensures frontend { result.watch.about.frontend.now ≡ frontend.now }
    ensures server { result.watch.about.server.now ≡ server.now }
    ensures threads { result.threads ≡ plan.entry.threads }
    ensures socket { result.socket ≡ plan.entry.socket }
{
    let about = About {
        frontend,
        server,
        ..plan.watch.about
    };
    let watch = WatchPlan {
        about,
        ..plan.watch
    };
    Plan {
        text,
        watch,
        ..plan
    }
}
