//! What a running stickd is asked: commands, its greatest entries, new rules, its stop; `main` calls it.

use crate::refuse;
use crate::run_plan::{read_drain, read_patience};
use clap::ArgMatches;
use std::io;
use std::net::Net;
use std::process::ExitCode;
use std::rt::{Env, Files};
use std::time::Clock;
use stickd_ctl::{Ctl, Reload, Stop, Top, ask_running, reload_running, show_top, stop_running};
use stickd_input::{AS, STATS, TO};

/// Sends commands to a running stickd, and shows what it answers.
pub(crate) fn ask_named<R: Net + Files + Clock + Env + Print + Eprint + AllocGlobal>(
    rt: &R,
    arguments: &ArgMatches<'_>,
) -> io::Result<ExitCode> {
    let patience = match read_patience(arguments) {
        Ok(patience) => patience,
        Err(bad) => return refuse(rt, bad),
    };
    let path = match arguments.get_str("socket") {
        Some(path) => path,
        None => "",
    };
    // A command line without words isn't read.
    let Some(words) = arguments.get_strs("COMMAND") else {
        return Ok(ExitCode::FAILURE);
    };
    let to = match arguments.get_str(TO) {
        Some(to) => Some(to),
        None => None,
    };
    let form = match arguments.get_str(AS) {
        Some(form) => Some(form),
        None => None,
    };
    let asked = Ctl {
        path,
        words,
        json: arguments.get_flag("json"),
        watch: arguments.get_one::<u32>("watch").map(u64::from),
        to,
        form,
        patience,
    };
    Ok(ExitCode::from(ask_running(rt, &asked)?))
}

/// Shows the entries of a running stickd's table with the greatest numbers.
pub(crate) fn show_greatest<R: Net + Clock + Env + Print + Eprint + AllocGlobal>(
    rt: &R,
    arguments: &ArgMatches<'_>,
) -> io::Result<ExitCode> {
    let asked = Top {
        path: arguments.get_str("socket").unwrap_or(""),
        table: arguments.get_str("table"),
        by: arguments.get_str("by"),
        rows: arguments.get_one::<u32>("rows").unwrap_or(20) as usize,
    };
    Ok(ExitCode::from(show_top(rt, &asked)?))
}

/// Has a running stickd read its rules again.
pub(crate) fn reload_named<R: Net + Print + Eprint + AllocGlobal>(
    rt: &R,
    arguments: &ArgMatches<'_>,
) -> io::Result<ExitCode> {
    let patience = match read_patience(arguments) {
        Ok(patience) => patience,
        Err(bad) => return refuse(rt, bad),
    };
    let asked = Reload {
        path: arguments.get_str(STATS).unwrap_or(""),
        patience,
    };
    Ok(ExitCode::from(reload_running(rt, &asked)?))
}

/// Stops a running stickd.
pub(crate) fn stop_named<R: Net + Clock + Eprint + AllocGlobal>(
    rt: &R,
    arguments: &ArgMatches<'_>,
) -> io::Result<ExitCode> {
    let drain = match read_drain(arguments) {
        Ok(drain) => drain,
        Err(bad) => return refuse(rt, bad),
    };
    let patience = match read_patience(arguments) {
        Ok(patience) => patience,
        Err(bad) => return refuse(rt, bad),
    };
    let asked = Stop {
        path: arguments.get_str(STATS).unwrap_or(""),
        drain,
        patience,
    };
    Ok(ExitCode::from(stop_running(rt, &asked)?))
}
