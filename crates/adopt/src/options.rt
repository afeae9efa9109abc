//! Options of the command line that stand for lines; `adoption` makes them, and `command` and `fates` go by them.

use crate::headers::{proxies_value, send_option};
use crate::keywords::is_one_of;
use crate::listeners::{FurtherBind, first_bind, further_binds, option_value};
use crate::plan::{Plan, begins};
use crate::sections::Kind;
use crate::servers::kept_server;
use crate::texts::{append, append_str, copy_text, is_word, text_of, word_at};
use base_lines::{push_decimal, read_number};
use base_sequence::NoMemory;
use rule_words::read_time;
use std::alloc::Global;

// The options of `stickd run`, as they are spelled.
const CONNECTIONS: &str = "--connections";

const THREADS: &str = "--threads";

const TIMEOUT_CONNECT: &str = "--timeout-connect";

const TIMEOUT_CLIENT: &str = "--timeout-client";

const TIMEOUT_SERVER: &str = "--timeout-server";

const TIMEOUT_FIN: &str = "--timeout-fin";

const KEEPALIVE: &str = "--keepalive";

const BACKLOG: &str = "--backlog";

const BIND: &str = "--bind";

const RETRIES: &str = "--retries";

const IPV4_PREFIX: &str = "--ipv4-prefix";

const IPV6_PREFIX: &str = "--ipv6-prefix";

const STATS_SOCKET: &str = "--stats-socket";

const DRAIN: &str = "--drain";

const USER_TIMEOUT: &str = "--tcp-user-timeout";

const ACCEPT_PROXY: &str = "--accept-proxy";

/// How often HAProxy tries a server again where no line says it.
const USUAL_RETRIES: &str = "3";

/// What HAProxy's tools may do on a stats socket where its line says no level.
const USUAL_LEVEL: &[u8] = b"operator";

/// How many bytes a socket's path may have (unix(7)).
const LONGEST_PATH: usize = 107;

/// The most connections that can be asked for.
const MOST_CONNECTIONS: u64 = 0xffff_ffff;

/// How often a server can be asked to be tried again.
const MOST_RETRIES: u64 = 1_000;

/// The longest backlog that can be asked for.
const MOST_BACKLOG: u64 = 0x7fff_ffff;

/// After how long systems ask a silent peer, unless they are told.
const USUAL_KEEPALIVE: &str = "2h";

/// The most threads of the program.
const MOST_THREADS: u64 = 64;

/// An option of the command line, and the line for which it stands: none where the file doesn't say it.
#[derive(Drop)]
pub struct CommandOption {
    pub flag: &'static str,
    /// The word that follows it, if one does.
    pub value: Option<Vec<u8>>,
    pub line: Option<usize>,
}

/// The options that were found.
#[derive(Drop)]
struct Found {
    options: Vec<CommandOption>,
}

impl Found {
    fn add(&mut self, flag: &'static str, value: Vec<u8>, line: usize) -> Result<(), NoMemory> {
        self.options.push(CommandOption {
            flag,
            value: Some(value),
            line: Some(line),
        })?;
        Ok(())
    }

    /// Adds an option that stands for parts of lines, of which each has a fate of its own.
    fn add_apart(&mut self, flag: &'static str, value: Option<Vec<u8>>) -> Result<(), NoMemory> {
        self.options.push(CommandOption {
            flag,
            value,
            line: None,
        })?;
        Ok(())
    }

    fn has(&self, flag: &str) -> bool {
        for option in &self.options {
            if option.flag == flag {
                return true;
            }
        }
        false
    }

    /// Adds a time, unless it has no end.
    fn add_time(
        &mut self,
        alloc: Global,
        plan: &Plan,
        flag: &'static str,
        line: Option<usize>,
    ) -> Result<(), NoMemory> {
        match line {
            Some(line) => self.add_word(alloc, flag, word_at(plan.words(line), 2), line),
            None => Ok(()),
        }
    }

    /// Adds a time, unless it has no end, or there is one.
    fn add_word(
        &mut self,
        alloc: Global,
        flag: &'static str,
        time: &[u8],
        line: usize,
    ) -> Result<(), NoMemory> {
        if self.has(flag) || read_time(time).is_err() {
            return Ok(());
        }
        self.add(flag, copy_text(alloc, time)?, line)
    }

    /// Adds a number, but no more than `most`.
    fn add_number(
        &mut self,
        alloc: Global,
        flag: &'static str,
        most: u64,
        number: Option<u64>,
        line: usize,
    ) -> Result<(), NoMemory> {
        match number {
            Some(number) if number > 0 && !self.has(flag) => {
                let mut value = Vec::new(alloc);
                push_decimal(&mut value, number.min(most))?;
                self.add(flag, value, line)
            }
            _ => Ok(()),
        }
    }
}

/// The timeouts of the frontend and the backend.
fn add_times(
    alloc: Global,
    plan: &Plan,
    found: &mut Found,
    frontend: usize,
) -> Result<(), NoMemory> {
    let backend = plan.backend.unwrap_or(frontend);
    found.add_time(
        alloc,
        plan,
        TIMEOUT_CONNECT,
        plan.effective(backend, "timeout", "connect"),
    )?;
    // In mode tcp a tunnel begins at once, and its timeout takes the place of both.
    let tunnel = plan.effective(backend, "timeout", "tunnel");
    found.add_time(alloc, plan, TIMEOUT_CLIENT, tunnel)?;
    found.add_time(alloc, plan, TIMEOUT_SERVER, tunnel)?;
    found.add_time(
        alloc,
        plan,
        TIMEOUT_CLIENT,
        plan.effective(frontend, "timeout", "client"),
    )?;
    found.add_time(
        alloc,
        plan,
        TIMEOUT_SERVER,
        plan.effective(backend, "timeout", "server"),
    )?;
    found.add_time(
        alloc,
        plan,
        TIMEOUT_FIN,
        plan.effective(frontend, "timeout", "client-fin"),
    )?;
    found.add_time(
        alloc,
        plan,
        TIMEOUT_FIN,
        plan.effective(backend, "timeout", "server-fin"),
    )
}

/// A limit of connections, and its line.
#[derive(Clone, Copy)]
struct Limit {
    most: u64,
    line: usize,
}

/// The smaller of two limits; one of 0 is none.
fn smaller(limit: Option<Limit>, word: &[u8], line: usize) -> Option<Limit> {
    let Some(most) = read_number(word) else {
        return limit;
    };
    if most == 0 {
        return limit;
    }
    match limit {
        Some(other) if other.most <= most => limit,
        _ => Some(Limit { most, line }),
    }
}

/// The smallest limit of connections.
fn connection_limit(plan: &Plan, frontend: usize) -> Option<Limit> {
    let mut limit = None;
    for section in &plan.sections {
        if section.kind == Kind::Global {
            for number in section.first..section.end {
                let words = plan.words(number);
                if begins(words, "maxconn", "") {
                    limit = smaller(limit, word_at(words, 1), number);
                }
            }
        }
    }
    if let Some(line) = plan.effective(frontend, "maxconn", "") {
        limit = smaller(limit, word_at(plan.words(line), 1), line);
    }
    if let Some(line) = kept_server(plan)
        && let Some(value) = option_value(plan.words(line), "maxconn")
    {
        limit = smaller(limit, value, line);
    }
    if let Some(line) = first_bind(plan)
        && let Some(value) = option_value(plan.words(line), "maxconn")
    {
        limit = smaller(limit, value, line);
    }
    limit
}

/// What lines of `global` say.
fn add_global(alloc: Global, plan: &Plan, found: &mut Found) -> Result<(), NoMemory> {
    for section in &plan.sections {
        if section.kind != Kind::Global {
            continue;
        }
        for number in section.first..section.end {
            add_global_line(alloc, plan.words(number), number, found)?;
        }
    }
    Ok(())
}

/// What a line of `global` says.
fn add_global_line(
    alloc: Global,
    words: &[Vec<u8>],
    line: usize,
    found: &mut Found,
) -> Result<(), NoMemory> {
    if begins(words, "stats", "socket") {
        return add_stats_socket(alloc, words, line, found);
    }
    if begins(words, "hard-stop-after", "") {
        return found.add_word(alloc, DRAIN, word_at(words, 1), line);
    }
    if !begins(words, "nbthread", "") {
        return Ok(());
    }
    match read_number(word_at(words, 1)) {
        Some(threads) if threads <= MOST_THREADS => {
            found.add_number(alloc, THREADS, MOST_THREADS, Some(threads), line)
        }
        _ => Ok(()),
    }
}

/// Whether a word says permissions, as stickd reads them: up to four octal digits, up to 0777.
fn is_mode(word: &[u8]) -> bool {
    let are_octal = word.iter().all(|digit| matches!(*digit, b'0'..=b'7'));
    are_octal && !word.is_empty() && (word.len() < 4 || (word.len() == 4 && word.starts_with(b"0")))
}

/// Whether a word is the path of a socket that stickd can be given, and not an address.
fn is_socket_path(word: &[u8]) -> bool {
    word.starts_with(b"/") && word.len() <= LONGEST_PATH && !word.contains(&b',')
}

/// What clients of a stats socket may do, by its line. An operator may change nothing here, so nobody may do more than in HAProxy.
fn stats_level(words: &[Vec<u8>]) -> &[u8] {
    match option_value(words, "level") {
        Some(level) if is_one_of(level, &["user", "operator", "admin"]) => level,
        Some(_) => b"user",
        None => USUAL_LEVEL,
    }
}

/// Whether a word is a group's name that can stand in the option.
fn is_group(word: &[u8]) -> bool {
    !word.is_empty() && !word.contains(&b',')
}

/// The first stats socket that has a path: it, its mode and its group where they are said, and what its clients may do.
fn add_stats_socket(
    alloc: Global,
    words: &[Vec<u8>],
    line: usize,
    found: &mut Found,
) -> Result<(), NoMemory> {
    let path = word_at(words, 2);
    if found.has(STATS_SOCKET) || !is_socket_path(path) {
        return Ok(());
    }
    let mut value = copy_text(alloc, path)?;
    if let Some(mode) = option_value(words, "mode")
        && is_mode(mode)
    {
        append_str(&mut value, ",mode=")?;
        append(&mut value, mode)?;
    }
    if let Some(group) = option_value(words, "group")
        && is_group(group)
    {
        append_str(&mut value, ",group=")?;
        append(&mut value, group)?;
    }
    append_str(&mut value, ",level=")?;
    append(&mut value, stats_level(words))?;
    found.add(STATS_SOCKET, value, line)
}

/// The line that asks for keepalive of connections, if any.
fn keepalive_line(plan: &Plan, frontend: usize) -> Option<usize> {
    let backend = plan.backend.unwrap_or(frontend);
    for (place, name) in [
        (frontend, "tcpka"),
        (frontend, "clitcpka"),
        (backend, "tcpka"),
        (backend, "srvtcpka"),
    ] {
        if let Some(line) = plan.effective(place, "option", name) {
            return Some(line);
        }
    }
    None
}

/// After how long a silent peer is asked, as a line says, where a number alone is one of seconds; else as systems do.
fn keepalive_time(alloc: Global, plan: &Plan, frontend: usize) -> Result<Vec<u8>, NoMemory> {
    let backend = plan.backend.unwrap_or(frontend);
    let line = match plan.effective(frontend, "clitcpka-idle", "") {
        Some(line) => Some(line),
        None => plan.effective(backend, "srvtcpka-idle", ""),
    };
    let Some(line) = line else {
        return text_of(alloc, USUAL_KEEPALIVE);
    };
    let mut time = copy_text(alloc, word_at(plan.words(line), 1))?;
    if read_number(time.as_slice()).is_some() {
        time.push(b's')?;
    }
    if read_time(time.as_slice()).is_err() {
        return text_of(alloc, USUAL_KEEPALIVE);
    }
    Ok(time)
}

/// Keepalive, how long a peer may acknowledge nothing, and the backlog.
fn add_sockets(
    alloc: Global,
    plan: &Plan,
    found: &mut Found,
    frontend: usize,
) -> Result<(), NoMemory> {
    if let Some(line) = keepalive_line(plan, frontend) {
        found.add(KEEPALIVE, keepalive_time(alloc, plan, frontend)?, line)?;
    }
    for line in [first_bind(plan), kept_server(plan)] {
        if let Some(line) = line
            && let Some(time) = option_value(plan.words(line), "tcp-ut")
        {
            found.add_word(alloc, USER_TIMEOUT, time, line)?;
        }
    }
    if let Some(line) = plan.effective(frontend, "backlog", "") {
        let number = read_number(word_at(plan.words(line), 1));
        found.add_number(alloc, BACKLOG, MOST_BACKLOG, number, line)?;
    }
    if let Some(line) = first_bind(plan)
        && let Some(value) = option_value(plan.words(line), "backlog")
    {
        found.add_number(alloc, BACKLOG, MOST_BACKLOG, read_number(value), line)?;
    }
    Ok(())
}

/// How much of a source counts in the keys of rules. The line is the frontend's first, as the rules' own lines stand.
fn add_prefixes(
    alloc: Global,
    plan: &Plan,
    found: &mut Found,
    frontend: usize,
) -> Result<(), NoMemory> {
    let (Some(mask), Some(section)) = (plan.mask, plan.section(frontend)) else {
        return Ok(());
    };
    if mask.v4 != 32 {
        found.add_number(alloc, IPV4_PREFIX, 32, Some(mask.v4), section.first)?;
    }
    match mask.v6 {
        Some(v6) if v6 != 128 => {
            found.add_number(alloc, IPV6_PREFIX, 128, Some(v6), section.first)
        }
        _ => Ok(()),
    }
}

/// How often a server is tried again. Where no line says it, the backend's first line stands for it.
fn add_retries(alloc: Global, plan: &Plan, found: &mut Found) -> Result<(), NoMemory> {
    let Some(backend) = plan.backend else {
        return Ok(());
    };
    if let Some(line) = plan.effective(backend, "retries", "") {
        let number = read_number(word_at(plan.words(line), 1));
        return found.add_number(alloc, RETRIES, MOST_RETRIES, number, line);
    }
    match plan.section(backend) {
        Some(section) => found.add(RETRIES, text_of(alloc, USUAL_RETRIES)?, section.first),
        None => Ok(()),
    }
}

/// Headers of the PROXY protocol: those that clients begin by, and those by which the server is told of them.
fn add_headers(alloc: Global, plan: &Plan, found: &mut Found) -> Result<(), NoMemory> {
    if let Some(value) = proxies_value(alloc, plan)? {
        found.add_apart(ACCEPT_PROXY, Some(value))?;
    }
    if let Some(line) = kept_server(plan)
        && let Some(flag) = send_option(plan.words(line))
    {
        found.add_apart(flag, None)?;
    }
    Ok(())
}

/// The options that stand for lines of a file.
pub(crate) fn command_options(alloc: Global, plan: &Plan) -> Result<Vec<CommandOption>, NoMemory> {
    let mut found = Found {
        options: Vec::new(alloc),
    };
    add_global(alloc, plan, &mut found)?;
    let Some(frontend) = plan.frontend else {
        return Ok(found.options);
    };
    if let Some(limit) = connection_limit(plan, frontend) {
        let most = Some(limit.most);
        found.add_number(alloc, CONNECTIONS, MOST_CONNECTIONS, most, limit.line)?;
    }
    for FurtherBind { line, endpoint } in further_binds(alloc, plan)? {
        found.add(BIND, endpoint, line)?;
    }
    add_times(alloc, plan, &mut found, frontend)?;
    add_retries(alloc, plan, &mut found)?;
    add_sockets(alloc, plan, &mut found, frontend)?;
    add_prefixes(alloc, plan, &mut found, frontend)?;
    add_headers(alloc, plan, &mut found)?;
    let Found { options } = found;
    Ok(options)
}
