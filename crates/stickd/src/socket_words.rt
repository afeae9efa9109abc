//! The command socket and the stats sockets that `stickd run` is asked for; `run_plan` and `main` call it.

ghost use Rattle.std.specs.Prelude.{◌≤◌, IfOk, IfSome, length};

use crate::bad_word::{BadWord, read_timeout};
use clap::ArgMatches;
use std::alloc::Global;
use stickd_input::{LEVEL, SOCKET, STATS};
use table_socket::read_mode;
use tcp_proxy::{MOST_STATS_SOCKETS, SocketPlan, StatsPlan};
use tcp_watch::{Level, level_named};

/// How long a client of the command socket may be silent where that isn't said, in ms.
const SOCKET_TIME: u64 = 10_000;

/// The permissions of the command socket's file where they aren't said: its owner's alone.
const SOCKET_MODE: u32 = 0o600;

/// The options of a stats socket come once each, so that this many looks are one more than there are options.
const MOST_STATS_OPTIONS: u32 = 4;

/// The permissions of the command socket's file.
fn read_socket_mode<'a>(arguments: &ArgMatches<'a>) -> Result<u32, BadWord<'a>> {
    let Some(word) = arguments.get_str("socket-mode") else {
        return Ok(SOCKET_MODE);
    };
    match read_mode(word) {
        Some(mode) => Ok(mode),
        None => Err(BadWord::Mode(word)),
    }
}

/// The command socket.
pub(crate) fn read_socket<'a>(arguments: &ArgMatches<'a>) -> Result<SocketPlan<'a>, BadWord<'a>>
    ensures { IfOk result (λ socket. (1 ≤ socket.clients) × (socket.clients ≤ 64)) }
{
    let mode = match read_socket_mode(arguments) {
        Ok(mode) => mode,
        Err(bad) => return Err(bad),
    };
    let timeout = match read_timeout(arguments, SOCKET) {
        Ok(timeout) => timeout.unwrap_or(SOCKET_TIME),
        Err(bad) => return Err(bad),
    };
    let level = match read_level(arguments) {
        Ok(level) => level,
        Err(bad) => return Err(bad),
    };
    Ok(SocketPlan {
        level,
        path: arguments.get_str("socket").unwrap_or(""),
        mode,
        group: arguments.get_str("socket-group"),
        clients: arguments
            .get_one::<u32>("socket-clients")
            .unwrap_or(4)
            .clamp(1, 64),
        timeout,
    })
}

/// What follows the path of a stats socket.
#[derive(Clone, Copy)]
struct StatsOptions<'a> {
    mode: Option<u32>,
    group: Option<&'a str>,
    level: Option<Level>,
}

impl<'a> StatsOptions<'a> {
    /// With one option more. None where it is none, or has come already.
    fn with(self, option: &'a str) -> Option<StatsOptions<'a>>
        requires { IfSome self.mode (λ mode. mode ≤ 511) }
        ensures { IfSome result (λ options. IfSome options.mode (λ mode. mode ≤ 511)) }
    {
        match option.split_once('=')? {
            ("mode", mode) if self.mode.is_none() => Some(StatsOptions {
                mode: Some(read_mode(mode)?),
                ..self
            }),
            ("group", group) if self.group.is_none() && !group.is_empty() => Some(StatsOptions {
                group: Some(group),
                ..self
            }),
            ("level", level) if self.level.is_none() => Some(StatsOptions {
                level: Some(level_named(level.as_bytes())?),
                ..self
            }),
            _ => None,
        }
    }
}

/// A stats socket, of which nobody but its owner may connect, and who connects may do all, where it isn't said otherwise.
fn split_stats(word: &str) -> Option<StatsPlan<'_>>
    ensures mode { IfSome result (λ stats. stats.mode ≤ 511) }
{
    let mut options = StatsOptions {
        mode: None,
        group: None,
        level: None,
    };
    let (path, mut rest) = match word.split_once(',') {
        Some((path, rest)) => (path, Some(rest)),
        None => (word, None),
    };
    for _ in 0..MOST_STATS_OPTIONS {
        let Some(some) = rest else {
            return Some(StatsPlan {
                path,
                mode: options.mode.unwrap_or(SOCKET_MODE),
                group: options.group,
                level: options.level.unwrap_or(Level::Admin),
            });
        };
        match some.split_once(',') {
            Some((option, more)) => {
                options = options.with(option)?;
                rest = Some(more);
            }
            None => {
                options = options.with(some)?;
                rest = None;
            }
        }
    }
    None
}

/// The sockets on which HAProxy's tools are answered.
pub(crate) fn read_stats<'a>(
    alloc: Global,
    arguments: &ArgMatches<'a>,
) -> Result<Vec<StatsPlan<'a>>, BadWord<'a>> {
    match arguments.get_strs(STATS) {
        Some(words) => read_each_stats(alloc, words),
        None => Ok(Vec::new(alloc)),
    }
}

/// The stats sockets that these words say, each of which it has to.
fn read_each_stats<'a>(alloc: Global, words: &[&'a str]) -> Result<Vec<StatsPlan<'a>>, BadWord<'a>>
    ensures few { IfOk result (λ stats. length stats.items ≤ 4) }
{
    if words.len() > MOST_STATS_SOCKETS {
        return Err(BadWord::ManyStats);
    }
    let mut each = Vec::new(alloc);
    for word in words {
        let Some(stats) = split_stats(word) else {
            return Err(BadWord::Stats(word));
        };
        if each.push(stats).is_err() {
            return Err(BadWord::Memory);
        }
    }
    Ok(each)
}

/// What the clients of the command socket may do: all, where it isn't said otherwise.
fn read_level<'a>(arguments: &ArgMatches<'a>) -> Result<Level, BadWord<'a>> {
    let Some(word) = arguments.get_str(LEVEL) else {
        return Ok(Level::Admin);
    };
    match level_named(word.as_bytes()) {
        Some(level) => Ok(level),
        None => Err(BadWord::Level(word)),
    }
}
