//! The program `stickd`, which operators start: it checks a configuration, replays a script, adopts one of HAProxy, or runs the
//! proxy.
#![tactic(auto)]

ghost use Rattle.std.specs.Prelude.{◌≡◌, ◌≤◌, if◌then◌else◌};
ghost use Rattle.std.specs.Process.{exit_status};
ghost use Rattle.rule_model.specs.Served.{AreTables};
ghost use Rattle.admit_drive.specs.Tables.{CanOpen};

mod adopted_file;
mod asking;
mod bad_word;
mod checking;
mod client_words;
mod run_plan;
mod saved_file;
mod socket_words;

use adopt::{Asked, adopt_file};
use adopted_file::{Start, read_wishes, take_start};
use asking::{ask_named, reload_named, show_greatest, stop_named};
use bad_word::BadWord;
use base_console::{Attended, Console, Lines};
use base_sequence::NoMemory;
use byte_ports::{StreamSink, StreamSource};
use checking::{check, check_haproxy};
use clap::ArgMatches;
use client_words::{read_believed, read_binds};
use log::{Log, error};
use rule_model::{Config, Setup};
use run_plan::{read_plan, with_names};
use saved_file::replay_saved;
use socket_words::read_stats;
use std::alloc::Global;
use std::net::{Net, TcpListener, TcpStream};
use std::process::ExitCode;
use std::random::RandomSource;
use std::rt::{Env, Files};
use std::sync::Wait;
use std::thread::Threads;
use std::time::Clock;
use std::{env, fs, io, str};
use stickd_input::{
    HAPROXY, Keeping, LOAD, frontend_name, open_served, open_setup, read_command_line,
    read_keeping, read_served, read_text, server_name,
};
use stickd_script::{BadLines, FaultKind, ReplayFault, replay_script};
use tcp_proxy::{Plan, ProxyRuntime, Source, run_pooled};
use tcp_watch::{Surroundings, read_surroundings};

/// The status of a bad command line.
const BAD_COMMAND_LINE: u8 = 2;

fn main(rt: HostRuntime) -> ExitCode {
    let words = collect_words(&rt);
    let console = Console::open(&rt);
    let attended = Attended::new(&rt, &console);
    match run(&rt, &attended, words) {
        Ok(status) => status,
        Err(reason) => {
            // Where standard error can't be written either, the status alone tells.
            let _ = eprintln!(rt; "stickd: writing failed: {reason}");
            ExitCode::FAILURE
        }
    }
}

/// Why the words of the command line can't be had.
#[derive(Debug, Clone, Copy)]
enum WordsFault {
    NotUtf8,
    OutOfMemory,
}

/// The words of the command line, the program's name first.
fn collect_words(rt: &HostRuntime) -> Result<Vec<String>, WordsFault> {
    match env::args(rt) {
        Ok(words) => match words.collect(rt.alloc()) {
            Ok(words) => Ok(words),
            Err(_) => Err(WordsFault::OutOfMemory),
        },
        Err(reason) if reason.kind() == io::ErrorKind::InvalidData => Err(WordsFault::NotUtf8),
        Err(_) => Err(WordsFault::OutOfMemory),
    }
}

/// Does what the command line asks, and answers the status. An error is one of writing. The bounds stand one by one, down to `serve`:
/// what that sends to threads may not rest on a trait that has several of them.
fn run<
    R: Net + Clock + Files + Env + Input + Print + Eprint + AllocGlobal,
    A: Net<Listener = TcpListener, Stream = TcpStream>
        + Threads
        + Wait
        + Clock
        + Log
        + Lines
        + Sync
        + RandomSource
        + Files
        + Print
        + Eprint
        + AllocGlobal,
>(rt: &R, attended: &A, words: Result<Vec<String>, WordsFault>) -> io::Result<ExitCode> {
    let words = match words {
        Ok(words) => words,
        Err(WordsFault::NotUtf8) => {
            eprintln!(rt; "stickd: a word of the command line isn't UTF-8")?;
            return Ok(ExitCode::from(BAD_COMMAND_LINE));
        }
        Err(WordsFault::OutOfMemory) => {
            eprintln!(rt; "stickd: out of memory")?;
            return Ok(ExitCode::FAILURE);
        }
    };
    match read_command_line(rt.alloc(), words.as_slice()) {
        Ok(matches) => run_command(rt, attended, &matches, words.as_slice()),
        Err(error) => {
            error.print(rt)?;
            Ok(ExitCode::from(error.exit_code() as u8))
        }
    }
}

/// Does what a command asks. The status is 1 where that fails, which is then said on standard error.
fn run_command<
    R: Net + Clock + Files + Env + Input + Print + Eprint + AllocGlobal,
    A: ProxyRuntime + Files + AllocGlobal + Eprint + RandomSource + Print,
>(rt: &R, attended: &A, matches: &ArgMatches<'_>, words: &[String]) -> io::Result<ExitCode> {
    let done = match matches.subcommand() {
        Some(("adopt", arguments)) => return adopt_named(rt, arguments),
        Some(("check", arguments)) if arguments.get_flag(HAPROXY) => {
            return check_haproxy(rt, arguments);
        }
        Some(("check", arguments)) => check(rt, arguments)?,
        Some(("ctl", arguments)) => return ask_named(rt, arguments),
        Some(("reload", arguments)) => return reload_named(rt, arguments),
        Some(("run", arguments)) if arguments.get_flag(HAPROXY) => {
            return serve_haproxy(rt, attended, arguments, words);
        }
        Some(("run", arguments)) => return Ok(serve(rt, attended, arguments, None)),
        Some(("stop", arguments)) => return stop_named(rt, arguments),
        Some(("top", arguments)) => return show_greatest(rt, arguments),
        Some((_, arguments)) => {
            let path = arguments.get_str("FILE");
            replay(rt, path, arguments.get_str(LOAD), read_keeping(arguments))?
        }
        None => false,
    };
    Ok(status_of(done))
}

/// The status of a command that was done, or wasn't.
fn status_of(is_done: bool) -> ExitCode
    ensures { exit_status result ≡ (if is_done then 0 else 1) }
{
    if is_done {
        ExitCode::SUCCESS
    } else {
        ExitCode::FAILURE
    }
}

/// What `stickd adopt` is asked.
fn read_asked(alloc: Global, arguments: &ArgMatches<'_>) -> Result<Asked, NoMemory> {
    Ok(Asked {
        wishes: read_wishes(alloc, arguments)?,
        anyway: arguments.get_flag("anyway"),
        command: arguments.get_flag("command"),
        verbose: arguments.get_flag("verbose"),
    })
}

/// Writes what stickd runs in place of a configuration of HAProxy.
fn adopt_named<R: Files + Env + Print + Eprint + AllocGlobal>(
    rt: &R,
    arguments: &ArgMatches<'_>,
) -> io::Result<ExitCode> {
    let Ok(asked) = read_asked(rt.alloc(), arguments) else {
        eprintln!(rt; "stickd: out of memory")?;
        return Ok(ExitCode::FAILURE);
    };
    let path = arguments.get_str("FILE").unwrap_or("");
    Ok(ExitCode::from(adopt_file(rt, path, &asked)?))
}

/// Replays the script on standard input on the tables of a configuration, each kept in this way, into which a saved file is loaded
/// first, if one is named.
fn replay<R: Files + Input + Print + Eprint + AllocGlobal>(
    rt: &R,
    path: Option<&str>,
    load: Option<&str>,
    keeping: Keeping,
) -> io::Result<bool>
    requires shards { (1 ≤ keeping.shards) × (keeping.shards ≤ 64) }
    requires purge { (1 ≤ keeping.purge) × (keeping.purge ≤ 1024) }
{
    let Some(setup) = open_setup(rt, path, keeping)? else {
        return Ok(false);
    };
    match load {
        Some(path) => replay_saved(rt, &setup, path),
        None => replay_new(rt, &setup),
    }
}

/// Replays the script on standard input from empty tables.
fn replay_new<R: Input + Print + Eprint + AllocGlobal>(rt: &R, setup: &Setup) -> io::Result<bool>
    requires { CanOpen setup.now }
{
    let mut reader = StreamSource::new(rt.reader());
    let mut writer = StreamSink::new(io::writer(rt));
    let mut bad = BadLines::new();
    let replayed = replay_script(rt.alloc(), setup, &mut reader, &mut writer, &mut bad);
    // What the script is answered stands on standard output: whether this can be told changes no status.
    let _ = report_bad_lines(rt, &bad);
    match replayed {
        Ok(()) => Ok(true),
        Err(fault) => {
            report(rt, fault)?;
            Ok(false)
        }
    }
}

/// Says on standard error which lines of the script were bad: the first ten, and how many where there are more.
pub(crate) fn report_bad_lines<R: Eprint>(rt: &R, bad: &BadLines) -> io::Result<()> {
    let first = bad.first();
    for number in first {
        eprintln!(rt; "stickd: script line {number}: bad line")?;
    }
    let count = bad.count();
    if count > first.len() as u64 {
        eprintln!(rt; "stickd: {count} bad lines in all")?;
    }
    Ok(())
}

/// Runs the proxy of a file of HAProxy, of a command line with these words.
fn serve_haproxy<
    R: Files + Env + Print + Eprint + AllocGlobal,
    A: ProxyRuntime + Files + AllocGlobal + Eprint + RandomSource + Print,
>(rt: &R, attended: &A, arguments: &ArgMatches<'_>, words: &[String]) -> io::Result<ExitCode> {
    let Start { text, words } = match take_start(rt, arguments, words)? {
        Ok(start) => start,
        Err(status) => return Ok(status),
    };
    let matches = match read_command_line(rt.alloc(), words.as_slice()) {
        Ok(matches) => matches,
        Err(error) => {
            error.print(rt)?;
            return Ok(ExitCode::from(error.exit_code() as u8));
        }
    };
    match matches.subcommand() {
        Some((_, arguments)) => Ok(serve(rt, attended, arguments, Some(text))),
        None => Ok(ExitCode::FAILURE),
    }
}

/// Runs the proxy of a configuration, that of the file that is named unless its text is given, and waits meanwhile for nobody who reads
/// what it says. Where its results can't be written, that is said, and the status is 1.
fn serve<
    R: Env + AllocGlobal,
    A: ProxyRuntime + Files + AllocGlobal + Eprint + RandomSource + Print,
>(rt: &R, attended: &A, arguments: &ArgMatches<'_>, given: Option<Vec<u8>>) -> ExitCode {
    let manager = match read_surroundings(rt) {
        Ok(manager) => manager,
        Err(fault) => {
            error!(attended; "{fault}");
            return ExitCode::FAILURE;
        }
    };
    match serve_file(attended, arguments, &manager, given) {
        Ok(status) => status,
        Err(reason) => {
            error!(attended; "writing failed: {reason}");
            ExitCode::FAILURE
        }
    }
}

/// Runs the proxy of a configuration, each of its tables kept as the command line says.
fn serve_file<R: ProxyRuntime + Files + AllocGlobal + Eprint + RandomSource + Print>(
    rt: &R,
    arguments: &ArgMatches<'_>,
    manager: &Surroundings,
    given: Option<Vec<u8>>,
) -> io::Result<ExitCode> {
    let binds = match read_binds(rt.alloc(), arguments) {
        Ok(binds) => binds,
        Err(bad) => return refuse(rt, bad),
    };
    let believed = match read_believed(rt.alloc(), arguments) {
        Ok(believed) => believed,
        Err(bad) => return refuse(rt, bad),
    };
    let stats = match read_stats(rt.alloc(), arguments) {
        Ok(stats) => stats,
        Err(bad) => return refuse(rt, bad),
    };
    let path = arguments.get_str("FILE").unwrap_or("");
    let source = source_of(rt, path, given.is_some());
    let plan = match read_plan(
        arguments,
        source,
        binds.as_slice(),
        believed.as_slice(),
        stats.as_slice(),
        manager,
    ) {
        Ok(plan) => plan,
        Err(bad) => return refuse(rt, bad),
    };
    let read = match given {
        Some(text) => Some(text),
        None => read_text(rt, path)?,
    };
    let Some(text) = read else {
        return Ok(ExitCode::FAILURE);
    };
    match read_served(rt, text.as_slice())? {
        Some(config) => serve_config(rt, text.as_slice(), &config, read_keeping(arguments), plan),
        None => Ok(ExitCode::FAILURE),
    }
}

/// Where the rules of a run come from: a file that can be read again, or one that gives its bytes once; or they were adopted.
fn source_of<'a, R: Files>(rt: &R, path: &'a str, is_adopted: bool) -> Source<'a> {
    if is_adopted {
        return Source::Haproxy;
    }
    match fs::metadata(rt, path) {
        Ok(found) if found.is_file() => Source::File(path),
        _ => Source::NoFile,
    }
}

/// Runs the proxy of a configuration that was read of a text.
fn serve_config<'a, R: ProxyRuntime + Files + AllocGlobal + Eprint + RandomSource + Print>(
    rt: &R,
    text: &'a [u8],
    config: &'a Config,
    keeping: Keeping,
    plan: Plan<'a>,
) -> io::Result<ExitCode>
    requires tables { AreTables config.now.sections }
    requires shards { (1 ≤ keeping.shards) × (keeping.shards ≤ 64) }
    requires purge { (1 ≤ keeping.purge) × (keeping.purge ≤ 1024) }
    requires threads { (1 ≤ plan.threads) × (plan.threads ≤ 64) }
    requires clients { (1 ≤ plan.socket.clients) × (plan.socket.clients ≤ 64) }
{
    let Some(setup) = open_served(rt, config, keeping)? else {
        return Ok(ExitCode::FAILURE);
    };
    // Names are made of ASCII letters, digits and a few signs.
    let frontend = str::from_utf8(frontend_name(config)).unwrap_or("");
    let server = str::from_utf8(server_name(config, text)).unwrap_or("");
    let plan = with_names(plan, text, frontend, server);
    let is_done = run_pooled(rt.alloc(), rt, &setup, plan)?;
    Ok(status_of(is_done))
}

/// Says on standard error what is wrong with the command line.
pub(crate) fn refuse<R: Eprint>(rt: &R, bad: BadWord<'_>) -> io::Result<ExitCode> {
    eprintln!(rt; "stickd: {bad}")?;
    Ok(ExitCode::from(BAD_COMMAND_LINE))
}

/// Says on standard error why the replay stopped.
pub(crate) fn report<R: Eprint>(rt: &R, fault: ReplayFault) -> io::Result<()> {
    let done = fault.done;
    match fault.kind {
        FaultKind::ReadFault => eprintln!(rt; "stickd: reading failed after {done} lines"),
        FaultKind::WriteFault => eprintln!(rt; "stickd: writing failed after {done} lines"),
        FaultKind::Memory => eprintln!(rt; "stickd: out of memory"),
    }
}
