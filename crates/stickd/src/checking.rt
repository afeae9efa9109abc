//! What a configuration is checked for, stickd's own or one of HAProxy; `main` calls it.
ghost use Rattle.rule_model.specs.Served.{AreTables};

use crate::adopted_file::take_named;
use crate::saved_file::check_saved;
use clap::ArgMatches;
use rule_model::Config;
use std::io;
use std::process::ExitCode;
use std::rt::{Env, Files};
use stickd_input::{Detail, LOAD, Telling, read_checked_keeping, read_file, read_lines};

/// Which faults `stickd check` tells.
fn read_telling(arguments: &ArgMatches<'_>) -> Telling {
    if arguments.get_flag("all") {
        Telling::All
    } else {
        Telling::First
    }
}

/// How much `stickd check` says of them.
fn read_detail(arguments: &ArgMatches<'_>) -> Detail {
    if arguments.get_flag("explain") {
        Detail::Explained
    } else {
        Detail::Short
    }
}

/// Says what a configuration has.
pub(crate) fn check<R: Files + Print + Eprint + AllocGlobal>(
    rt: &R,
    arguments: &ArgMatches<'_>,
) -> io::Result<bool> {
    let path = arguments.get_str("FILE").unwrap_or("");
    match read_file(rt, path, read_telling(arguments), read_detail(arguments))? {
        Some(config) => check_config(rt, arguments, &config),
        None => Ok(false),
    }
}

/// Says what a configuration without a fault has, and whether a saved file fits it, where one is named.
fn check_config<R: Files + Print + Eprint + AllocGlobal>(
    rt: &R,
    arguments: &ArgMatches<'_>,
    config: &Config,
) -> io::Result<bool>
    requires { AreTables config.now.sections }
{
    let tables = config.table_count();
    let rules = config.rule_count();
    println!(rt; "valid: {tables} tables, {rules} rules")?;
    match arguments.get_str(LOAD) {
        Some(saved) => check_saved(rt, config, read_checked_keeping(arguments), saved),
        None => Ok(true),
    }
}

/// Says what a file of HAProxy loses, and what the configuration has that is made of it. The status is 3 where what is served changes.
pub(crate) fn check_haproxy<R: Files + Env + Print + Eprint + AllocGlobal>(
    rt: &R,
    arguments: &ArgMatches<'_>,
) -> io::Result<ExitCode> {
    let adoption = match take_named(rt, arguments, true)? {
        Ok(adoption) => adoption,
        Err(status) => return Ok(status),
    };
    let text = adoption.text.as_slice();
    let read = read_lines(rt, text, read_telling(arguments), read_detail(arguments))?;
    let is_valid = match read {
        Some(config) => check_config(rt, arguments, &config)?,
        None => false,
    };
    if is_valid {
        return Ok(ExitCode::from(adoption.status));
    }
    Ok(ExitCode::FAILURE)
}
