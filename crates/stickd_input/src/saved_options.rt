//! The options that have to do with saved tables, and with asking a running program; `command_line` gives them to its commands.

use crate::arguments::{flag_option, value_option};
use crate::options::STATS;
use clap::Arg;
use std::alloc::Global;

/// The option that names the file of entries that are made first.
pub const LOAD: &str = "load";

/// The option that names the file to which tables are saved.
pub const SAVE: &str = "save";

/// The option that has lines of a saved file skipped that can't be loaded.
pub const LOAD_LENIENT: &str = "load-lenient";

/// The option that says how often tables are saved.
pub const SAVE_EVERY: &str = "save-every";

/// The option that names the file to which `stickd ctl save` writes.
pub const TO: &str = "to";

/// The option that names the form in which `stickd ctl export` writes.
pub const AS: &str = "as";

/// The option that says how long a program may say nothing that is asked.
pub const TIMEOUT: &str = "timeout";

/// The file of entries that are made first.
pub(crate) fn load_option<'a>(alloc: Global) -> Arg<'a> {
    value_option(
        alloc,
        LOAD,
        "FILE",
        "First make the entries of FILE, as 'stickd ctl save' and --save write them",
    )
}

/// The file to which tables are saved.
pub(crate) fn save_option<'a>(alloc: Global) -> Arg<'a> {
    value_option(
        alloc,
        SAVE,
        "FILE",
        "Write what the tables hold to FILE as an orderly end begins, and at that end [default: nowhere]",
    )
}

/// Whether lines of the file of entries that can't be loaded are skipped.
pub(crate) fn lenient_option<'a>(alloc: Global) -> Arg<'a> {
    flag_option(
        alloc,
        LOAD_LENIENT,
        "Skip lines of --load's FILE that can't be loaded, and say which; without it they are refused",
    )
}

/// How often tables are saved.
pub(crate) fn save_every_option<'a>(alloc: Global) -> Arg<'a> {
    value_option(
        alloc,
        SAVE_EVERY,
        "TIME",
        "Write --save's FILE each TIME too, so that a crash loses no more than that [default: never]",
    )
}

/// The saved file that is compared with a configuration.
pub(crate) fn fitting_option<'a>(alloc: Global) -> Arg<'a> {
    value_option(
        alloc,
        LOAD,
        "FILE",
        "Say too whether the entries of the saved file FILE fit the tables, in so many shards",
    )
}

/// The file to which `stickd ctl save` writes.
pub(crate) fn to_option<'a>(alloc: Global) -> Arg<'a> {
    value_option(
        alloc,
        TO,
        "FILE",
        "Write what 'save' answers to FILE, whole or not at all [default: standard output]",
    )
}

/// The form in which `stickd ctl export` writes.
pub(crate) fn form_option<'a>(alloc: Global) -> Arg<'a> {
    value_option(
        alloc,
        AS,
        "FORM",
        "The form in which 'export' writes: csv, json, nft or ipset",
    )
}

/// The socket of the program whose rules are read again.
pub(crate) fn reloaded_option<'a>(alloc: Global) -> Arg<'a> {
    value_option(
        alloc,
        STATS,
        "PATH",
        "The stats socket of the program whose rules are read again",
    )
    .required(true)
}

/// The socket of the program that is to stop.
pub(crate) fn stopped_option<'a>(alloc: Global) -> Arg<'a> {
    value_option(
        alloc,
        STATS,
        "PATH",
        "The stats socket of the program that is to stop",
    )
    .required(true)
}

/// How long a program may say nothing that is asked.
pub(crate) fn patience_option<'a>(alloc: Global) -> Arg<'a> {
    value_option(
        alloc,
        TIMEOUT,
        "TIME",
        "How long the program may say nothing before it is given up",
    )
    .default_value("10s")
}
