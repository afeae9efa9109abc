//! How arguments and options are made, by clap; `options` and `command_line` make theirs by it.

use clap::{Arg, ArgAction, Command, value_parser};
use std::alloc::{AllocError, Global};

/// A command whose one argument yet is its configuration, with what its help says first and last.
pub(crate) fn file_command<'a>(
    alloc: Global,
    name: &'a str,
    about: &'a str,
    help: &'a str,
    file: Arg<'a>,
) -> Result<Command<'a>, AllocError> {
    Command::new(alloc, name)
        .about(about)
        .after_help(help)
        .arg(file)
}

/// Adds an argument to a command, if there was memory for it so far. A command is made by a row of such calls, since each
/// `?` between them, and each clause of clap's that they would carry on, costs its proof more than the call.
pub(crate) fn add_argument<'a>(
    command: Result<Command<'a>, AllocError>,
    argument: Arg<'a>,
) -> Result<Command<'a>, AllocError> {
    command?.arg(argument)
}

/// The configuration that a command reads.
pub(crate) fn file_argument<'a>(alloc: Global, required: bool, help: &'a str) -> Arg<'a> {
    Arg::new(alloc, "FILE").required(required).help(help)
}

/// An option that has no value.
pub(crate) fn flag_option<'a>(alloc: Global, name: &'a str, help: &'a str) -> Arg<'a> {
    Arg::new(alloc, name)
        .long(name)
        .action(ArgAction::SetTrue)
        .help(help)
}

/// An option that has a value.
pub(crate) fn value_option<'a>(
    alloc: Global,
    name: &'a str,
    value: &'a str,
    help: &'a str,
) -> Arg<'a> {
    Arg::new(alloc, name)
        .long(name)
        .value_name(value)
        .help(help)
}

/// An option that has a number, 1 to `most`.
pub(crate) fn count_option<'a>(
    alloc: Global,
    name: &'a str,
    value: &'a str,
    most: u32,
    help: &'a str,
) -> Arg<'a> {
    value_option(alloc, name, value, help).value_parser(value_parser!(u32).range(
        1..=i64::from(most),
    ))
}
