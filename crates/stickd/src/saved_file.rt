//! A saved file, as `stickd check` compares it with a configuration, and `stickd replay` loads it before a script; `main` calls it.

ghost use Rattle.std.specs.Prelude.{◌≤◌};
ghost use Rattle.rule_model.specs.Served.{AreTables};
ghost use Rattle.admit_drive.specs.Tables.{CanOpen};

use crate::{report, report_bad_lines};
use byte_ports::{MemorySink, MemorySource, StreamSink, StreamSource};
use rule_model::{Config, Setup};
use std::rt::Files;
use std::{fs, io};
use stickd_input::{Keeping, open_served};
use stickd_script::{BadLines, Stopped, replay_loaded};
use table_cli::{LoadFault, Misfits, say_misfits, say_unplaced};

/// Says whether the entries of a saved file fit the tables of a configuration, and if they don't, why.
pub(crate) fn check_saved<R: Files + Print + Eprint + AllocGlobal>(
    rt: &R,
    config: &Config,
    keeping: Keeping,
    path: &str,
) -> io::Result<bool>
    requires tables { AreTables config.now.sections }
    requires shards { (1 ≤ keeping.shards) × (keeping.shards ≤ 64) }
    requires purge { (1 ≤ keeping.purge) × (keeping.purge ≤ 1024) }
{
    let Some(setup) = open_served(rt, config, keeping)? else {
        return Ok(false);
    };
    let Some(saved) = read_saved(rt, path)? else {
        return Ok(false);
    };
    let mut nothing = MemorySource::new(b"", 1, None);
    let mut unread = MemorySink::new(rt.alloc(), 1, None);
    let mut bad = BadLines::new();
    let loaded = replay_loaded(
        rt.alloc(),
        &setup,
        saved.as_slice(),
        Misfits::Skipped,
        &mut nothing,
        &mut unread,
        &mut bad,
    );
    match loaded {
        Ok(skipped) => say_fit(rt, &setup, path, skipped.as_slice()),
        Err(stopped) => say_stopped(rt, path, stopped),
    }
}

/// Says which lines of a saved file don't fit, or that all do.
fn say_fit<R: Print + Eprint>(
    rt: &R,
    setup: &Setup,
    path: &str,
    skipped: &[LoadFault<'_>],
) -> io::Result<bool> {
    if skipped.is_empty() {
        println!(rt; "{path} fits")?;
        return Ok(true);
    }
    say_skipped(rt, setup, path, skipped)?;
    Ok(false)
}

/// Says which lines of a saved file were skipped: of each table how many entries found no place, and those that don't fit.
fn say_skipped<R: Eprint>(
    rt: &R,
    setup: &Setup,
    path: &str,
    skipped: &[LoadFault<'_>],
) -> io::Result<()> {
    for named in setup.tables.as_slice() {
        say_unplaced(rt, path, named.name.as_slice(), skipped)?;
    }
    say_misfits(rt, path, skipped)
}

/// Says why a replay on loaded tables stopped.
fn say_stopped<R: Eprint>(rt: &R, path: &str, stopped: Stopped<'_>) -> io::Result<bool> {
    match stopped {
        Stopped::Unloaded(fault) => eprintln!(rt; "stickd: {path}: {fault}")?,
        Stopped::Replay(fault) => report(rt, fault)?,
    }
    Ok(false)
}

/// A saved file. None where it can't be read, which is said on standard error.
fn read_saved<R: Files + Eprint + AllocGlobal>(rt: &R, path: &str) -> io::Result<Option<Vec<u8>>> {
    match fs::read(rt, path) {
        Ok(saved) => Ok(Some(saved)),
        Err(reason) => {
            eprintln!(rt; "stickd: {path} can't be read: {reason}")?;
            Ok(None)
        }
    }
}

/// Replays the script on standard input on tables into which the file of a path is loaded first. Where it can't be, that is said on
/// standard error.
pub(crate) fn replay_saved<R: Files + Input + Print + Eprint + AllocGlobal>(
    rt: &R,
    setup: &Setup,
    path: &str,
) -> io::Result<bool>
    requires { CanOpen setup.now }
{
    let Some(saved) = read_saved(rt, path)? else {
        return Ok(false);
    };
    let mut reader = StreamSource::new(rt.reader());
    let mut writer = StreamSink::new(io::writer(rt));
    let mut bad = BadLines::new();
    let replayed = replay_loaded(
        rt.alloc(),
        setup,
        saved.as_slice(),
        Misfits::Refused,
        &mut reader,
        &mut writer,
        &mut bad,
    );
    let _ = report_bad_lines(rt, &bad);
    match replayed {
        Ok(skipped) => {
            say_skipped(rt, setup, path, skipped.as_slice())?;
            Ok(true)
        }
        Err(stopped) => say_stopped(rt, path, stopped),
    }
}
