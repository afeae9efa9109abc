//! The input of the program: its command line, its configuration and what is said of faults; `stickd` calls it.
#![tactic(auto)]

ghost use Rattle.std.specs.Prelude.{◌≡◌, ◌≤◌, [], IfOk, IfSome};
ghost use Rattle.std.specs.Option.{option_map, option_map_or};
ghost use Rattle.rule_model.specs.declared.sections.Section.{Section as SectionSpec};
ghost use Rattle.rule_model.specs.Served.{AreTables, AreTableSpecs, proxy_of, setup_of as served_by};
ghost use Rattle.rule_warnings.specs.Warnings.{table_warnings as warnings_for};
ghost use Rattle.admit_drive.specs.Tables.{CanOpen};

mod all_faults;
mod arguments;
mod command_line;
mod declared;
mod expected;
mod explanation;
mod guesses;
mod habits;
mod haproxy_options;
mod header_options;
mod help;
mod hints;
mod keeping;
mod networks;
mod options;
mod saved_options;
mod server_names;
mod suspect_tables;
mod suspect_terms;
mod suspects;

use all_faults::find_faults;
use base_sequence::{NoMemory, Sequence};
pub use command_line::{VERSION, read_command_line};
use explanation::{explain_fault, explain_warnings};
use habits::is_foreign;
pub use haproxy_options::{ANYWAY, FIRST_SERVER, FRONTEND, HAPROXY, names_haproxy};
pub use header_options::{ACCEPT_PROXY, HEADER, PROXIES_ONLY, SEND_PROXY, SEND_PROXY_V2};
pub use keeping::{Keeping, read_checked_keeping, read_keeping};
pub use networks::{NetworksFault, read_networks};
pub use options::{
    BIND, CHECK, CLIENT, CONNECT, DRAIN, FIN, KEEPALIVE, LEVEL, LOG_REJECTED, METRICS, REPORT,
    SERVER, SOCKET, STATS, USER_TIMEOUT,
};
use rule_config::{ConfigFault, read_config};
use rule_model::{Config, Name, NamedSpec, ReadError, Section, Setup};
use rule_warnings::{Warning, file_warnings, table_warnings};
pub use saved_options::{AS, LOAD, LOAD_LENIENT, SAVE, SAVE_EVERY, TIMEOUT, TO};
pub use server_names::server_name;
use std::alloc::Global;
use std::rt::Files;
use std::{fs, io, str};
use stickd_script::built_in_setup;

/// How many connections `stickd run` has at once, and in how many shards it keeps each table, where it isn't told.
const CONNECTIONS: u32 = 10_000;

const SHARDS: u32 = 1;

/// How much is said of what is wrong with a configuration.
#[derive(Clone, Copy, Debug, PartialEq, Eq)]
pub enum Detail {
    /// Its line, and what it is.
    Short,
    /// The same; and behind all lines, what lines say that comes to nothing.
    Started,
    /// The text of the line too, and what commonly causes that, or what is lost; and behind all lines what `stickd run` would
    /// warn of lines, rules and tables.
    Explained,
}

/// Which faults of a configuration are told.
#[derive(Clone, Copy, Debug, PartialEq, Eq)]
pub enum Telling {
    /// The first one.
    First,
    /// All of them.
    All,
}

/// Says what is wrong with a configuration, of which a text declares the names.
fn report_fault<R: Eprint + AllocGlobal>(
    rt: &R,
    text: &[u8],
    declaring: &[u8],
    fault: ConfigFault,
    detail: Detail,
) -> io::Result<()> {
    eprintln!(rt; "stickd: {fault}")?;
    match detail {
        Detail::Short | Detail::Started => Ok(()),
        Detail::Explained => explain_fault(rt, text, declaring, fault),
    }
}

/// Says all that is wrong with a configuration: each fault, and behind them where memory was too short for more.
fn report_all<R: Eprint + AllocGlobal>(rt: &R, text: &[u8], detail: Detail) -> io::Result<()> {
    let Ok(mut left) = Vec::from_slice(rt.alloc(), text) else {
        return eprintln!(rt; "stickd: out of memory");
    };
    let found = find_faults(rt.alloc(), &mut left);
    for fault in found.faults.as_slice() {
        report_fault(rt, text, left.as_slice(), *fault, detail)?;
    }
    match found.short {
        Some(line) => report_fault(rt, text, left.as_slice(), out_of_memory(line), detail),
        None => Ok(()),
    }
}

/// The fault of a line for which memory was short.
fn out_of_memory(line: u64) -> ConfigFault {
    ConfigFault {
        line,
        kind: ReadError::OutOfMemory,
    }
}

/// Says what is wrong with a configuration of which reading told this fault.
fn report<R: Eprint + AllocGlobal>(
    rt: &R,
    text: &[u8],
    fault: ConfigFault,
    telling: Telling,
    detail: Detail,
) -> io::Result<()> {
    if telling == Telling::First || fault.kind == ReadError::OutOfMemory {
        report_fault(rt, text, text, fault, detail)?;
    } else {
        report_all(rt, text, detail)?;
    }
    if is_foreign(fault.kind, text) {
        return eprintln!(rt;
            "stickd: it looks like a file of HAProxy's: 'stickd adopt' writes what stickd runs in its place"
        );
    }
    Ok(())
}

/// Prints a warning for each line that is read past.
fn warn<R: Eprint>(rt: &R, text: &[u8], lines: &[u64], detail: Detail) -> io::Result<()> {
    if detail == Detail::Explained {
        return explain_warnings(rt, text, lines);
    }
    for line in lines {
        eprintln!(rt; "stickd: line {line}: read past")?;
    }
    Ok(())
}

/// Prints warnings on standard error, each on a line of its own.
fn print_warnings<R: Eprint>(rt: &R, warnings: &[Warning]) -> io::Result<()> {
    for warning in warnings {
        eprintln!(rt; "stickd: warning: {warning}")?;
    }
    Ok(())
}

/// Prints what lines of a text without a fault say that comes to nothing. Answers whether there was memory for that; where there
/// wasn't, it is said.
fn warn_of_lines<R: Eprint + AllocGlobal>(rt: &R, text: &[u8]) -> io::Result<bool> {
    let Ok(warnings) = file_warnings(rt.alloc(), text) else {
        eprintln!(rt; "stickd: out of memory")?;
        return Ok(false);
    };
    print_warnings(rt, warnings.as_slice())?;
    Ok(true)
}

/// What `stickd run` would warn of the rules and tables of a configuration, where it isn't told of connections or shards.
fn warnings_unless_told(alloc: Global, config: &Config) -> Result<Sequence<Warning>, NoMemory>
    requires { AreTables config.now.sections }
    ensures { IfOk result (λ warnings. warnings ≡ warnings_for 10000 (served_by config.now 1)) }
{
    let setup = setup_of(alloc, config, SHARDS)?;
    table_warnings(alloc, &setup, CONNECTIONS)
}

/// Prints what `stickd run` would warn of the rules and tables of a configuration. Answers whether there was memory for that; where there
/// wasn't, it is said.
fn warn_of_tables<R: Eprint + AllocGlobal>(rt: &R, config: &Config) -> io::Result<bool>
    requires { AreTables config.now.sections }
{
    match warnings_unless_told(rt.alloc(), config) {
        Ok(warnings) => {
            print_warnings(rt, warnings.as_slice())?;
            Ok(true)
        }
        Err(_) => {
            eprintln!(rt; "stickd: out of memory")?;
            Ok(false)
        }
    }
}

/// Reads the text of a configuration. None where it can't be read, which is said on standard error.
pub fn read_text<R: Files + Eprint + AllocGlobal>(
    rt: &R,
    path: &str,
) -> io::Result<Option<Vec<u8>>> {
    match fs::read(rt, path) {
        Ok(text) => Ok(Some(text)),
        Err(reason) => {
            eprintln!(rt; "stickd: {path} can't be read: {reason}")?;
            Ok(None)
        }
    }
}

/// Reads the configuration in a file, as `read_lines`.
pub fn read_file<R: Files + Eprint + AllocGlobal>(
    rt: &R,
    path: &str,
    telling: Telling,
    detail: Detail,
) -> io::Result<Option<Config>>
    ensures { IfOk result (λ read. IfSome read (λ config. AreTables config.sections)) }
{
    match read_text(rt, path)? {
        Some(text) => read_lines(rt, text.as_slice(), telling, detail),
        None => Ok(None),
    }
}

/// Reads a configuration, and prints a warning for each line that it reads past. None where it has a fault, which is said on standard
/// error.
pub fn read_lines<R: Eprint + AllocGlobal>(
    rt: &R,
    text: &[u8],
    telling: Telling,
    detail: Detail,
) -> io::Result<Option<Config>>
    ensures { IfOk result (λ read. IfSome read (λ config. AreTables config.sections)) }
{
    let config = match read_config(rt.alloc(), text) {
        Ok(config) => config,
        Err(fault) => {
            report(rt, text, fault, telling, detail)?;
            return Ok(None);
        }
    };
    warn(rt, text, config.warnings.as_slice(), detail)?;
    if detail != Detail::Short && !warn_of_lines(rt, text)? {
        return Ok(None);
    }
    if detail == Detail::Explained && !warn_of_tables(rt, &config)? {
        return Ok(None);
    }
    Ok(Some(config))
}

/// What is served by a configuration in so many shards.
#[tactic(auto, unfolding(rule_model::specs::Served::setup_of))]
fn setup_of(alloc: Global, config: &Config, shards: u32) -> Result<Setup, NoMemory>
    requires tables { AreTables config.now.sections }
    requires some { 1 ≤ shards }
    requires few { shards ≤ 64 }
    ensures limits { IfOk result (λ setup. AreTableSpecs setup.tables) }
    ensures shards { IfOk result (λ setup. setup.shards ≡ shards) }
    ensures setup { IfOk result (λ setup. setup ≡ served_by config.now shards) }
{
    config.proxy(alloc, shards)
}

/// Says that a table has fewer places than there are shards, and how much of that is asked: to whoever starts a proxy also both numbers,
/// and what to write.
fn report_narrow<R: Eprint>(
    rt: &R,
    named: &NamedSpec,
    shards: u32,
    detail: Detail,
) -> io::Result<()> {
    let name = str::from_utf8(named.name.as_slice()).unwrap_or("?");
    if detail == Detail::Short {
        return eprintln!(rt; "stickd: table {name} has fewer places than shards");
    }
    let size = named.spec.size;
    eprint!(rt;
        "stickd: table {name} has fewer places than shards: {size}, and there are {shards} shards. "
    )?;
    eprintln!(rt; "Give --shards {size} or fewer, or its stick-table a size of {shards} or more")
}

/// A setup, each table of which is kept in this way. None where there was no memory for it, or a table has fewer places than
/// shards, which is said on standard error.
fn kept_so<R: Eprint>(
    rt: &R,
    made: Result<Setup, NoMemory>,
    keeping: Keeping,
    detail: Detail,
) -> io::Result<Option<Setup>>
    requires purge { (1 ≤ keeping.purge) × (keeping.purge ≤ 1024) }
    requires limits { IfOk made (λ setup. AreTableSpecs setup.tables) }
    requires some { IfOk made (λ setup. 1 ≤ setup.shards) }
    requires few { IfOk made (λ setup. setup.shards ≤ 64) }
    ensures opens { IfOk result (λ opened. IfSome opened CanOpen) }
    ensures prefixes { IfOk result (λ opened. IfSome opened (λ setup. setup.prefixes ≡ keeping.prefixes)) }
{
    let Ok(setup) = made else {
        eprintln!(rt; "stickd: out of memory")?;
        return Ok(None);
    };
    let setup = setup
        .with_purge(keeping.purge)
        .with_prefixes(keeping.prefixes);
    if let Some(narrow) = setup.narrow_table() {
        report_narrow(rt, narrow, setup.shards, detail)?;
        return Ok(None);
    }
    Ok(Some(setup))
}

/// What a script is replayed on: what is served by a configuration, or without one, each table kept in this way. None where that
/// can't be had, which is said on standard error.
pub fn open_setup<R: Files + Eprint + AllocGlobal>(
    rt: &R,
    path: Option<&str>,
    keeping: Keeping,
) -> io::Result<Option<Setup>>
    requires shards { (1 ≤ keeping.shards) × (keeping.shards ≤ 64) }
    requires purge { (1 ≤ keeping.purge) × (keeping.purge ≤ 1024) }
    ensures opens { IfOk result (λ opened. IfSome opened CanOpen) }
    ensures prefixes { IfOk result (λ opened. IfSome opened (λ setup. setup.prefixes ≡ keeping.prefixes)) }
{
    let made = match path {
        Some(path) => match read_file(rt, path, Telling::First, Detail::Short)? {
            Some(config) => setup_of(rt.alloc(), &config, keeping.shards),
            None => return Ok(None),
        },
        None => built_in_setup(rt.alloc(), keeping.shards),
    };
    kept_so(rt, made, keeping, Detail::Short)
}

/// The first section that listens.
fn first_frontend(sections: &[Section]) -> Option<&Section>
    ensures { option_map (λ section. section.now) result ≡ proxy_of sections.now }
{
    for section in sections {
        if section.kind.has_frontend() {
            return Some(section);
        }
    }
    None
}

/// The name of the section that is served: empty where none listens.
pub fn frontend_name(config: &Config) -> &[u8]
    ensures { result.now ≡ option_map_or (λ (section : SectionSpec). section.name) (proxy_of config.now.sections) [] }
{
    match first_frontend(config.sections.as_slice()) {
        Some(section) => section.name.as_slice(),
        None => b"",
    }
}

/// Reads a configuration for the proxy: as `read_file`, and what lines of it say that comes to nothing is said too.
pub fn read_served<R: Eprint + AllocGlobal>(rt: &R, text: &[u8]) -> io::Result<Option<Config>>
    ensures { IfOk result (λ read. IfSome read (λ config. AreTables config.sections)) }
{
    read_lines(rt, text, Telling::First, Detail::Started)
}

/// What the proxy serves of a configuration, each table kept in this way. None where that can't be had, which is said on standard
/// error.
pub fn open_served<R: Eprint + AllocGlobal>(
    rt: &R,
    config: &Config,
    keeping: Keeping,
) -> io::Result<Option<Setup>>
    requires tables { AreTables config.now.sections }
    requires shards { (1 ≤ keeping.shards) × (keeping.shards ≤ 64) }
    requires purge { (1 ≤ keeping.purge) × (keeping.purge ≤ 1024) }
    ensures opens { IfOk result (λ opened. IfSome opened CanOpen) }
    ensures prefixes { IfOk result (λ opened. IfSome opened (λ setup. setup.prefixes ≡ keeping.prefixes)) }
{
    let made = setup_of(rt.alloc(), config, keeping.shards);
    kept_so(rt, made, keeping, Detail::Started)
}
