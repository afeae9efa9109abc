//! The commands of the stats socket, read; the stats socket serves by them.

ghost use Rattle.std.specs.Prelude.{◌≡◌};
ghost use Rattle.base_lines.specs.Words.{words_left};
ghost use Rattle.tcp_stats.specs.Commands as spec;
ghost use Rattle.tcp_stats.specs.Commands.{command_of, shutdown_of, words_of};
ghost use Rattle.tcp_stats.specs.SeenCommands.{seen};

use crate::stat_query::{StatQuery, read_info, read_stat};
use crate::typed::Format;
use base_lines::{Blanks, Words, read_number, without_cr};

/// What one command of the stats socket asks (HAProxy Management Guide 2.6, section 9.3).
#[derive(Clone, Copy)]
pub enum StatsCommand<'a> {
    /// `show info`, in a format.
    ShowInfo(Format),
    /// `show stat`, of some rows, in a format.
    ShowStat(StatQuery<'a>),
    /// `show errors`, of which there are never any.
    ShowErrors,
    /// `help`, with the words behind it.
    Help(&'a [u8]),
    /// `prompt`: the socket stays open, with `> ` behind each answer.
    Prompt,
    /// `quit`: the socket closes.
    Quit,
    /// `shutdown frontend NAME`; the name is empty where none was given.
    ShutdownFrontend(&'a [u8]),
    /// `stop [MS]`, which is stickd's own: the program ends, and its connections may go on for so many ms, or for as many as the program
    /// was told as it started.
    Stop(Option<u64>),
    /// `reload`, which is stickd's own: the rules are read again, of the file of the start.
    Reload,
    /// `show table NAME oldest-first`, which is stickd's own: what a table holds, in the order in which its entries go.
    OldestFirst(&'a [u8]),
    /// `show table`, `set table` or `clear table`, whatever else follows.
    Table,
    /// No word.
    Empty,
    /// Anything else.
    Unknown,
}

/// What `shutdown frontend` asks with these words behind it.
fn read_shutdown(mut rest: Words<'_>) -> StatsCommand<'_>
    ensures { seen result ≡ shutdown_of (words_left rest.entry) }
{
    let Some(name) = rest.next() else {
        return StatsCommand::ShutdownFrontend(b"");
    };
    if rest.next().is_some() {
        return StatsCommand::Unknown;
    }
    StatsCommand::ShutdownFrontend(name)
}

/// What `stop` asks with these words behind it: a number of ms, and nothing else.
fn read_stop<'a>(time: &[u8], mut rest: Words<'a>) -> StatsCommand<'a>
    ensures { seen result ≡ spec.stop_of time.now (words_left rest.entry) }
{
    if rest.next().is_some() {
        return StatsCommand::Unknown;
    }
    match read_number(time) {
        Some(ms) => StatsCommand::Stop(Some(ms)),
        None => StatsCommand::Unknown,
    }
}

/// What `show errors` asks with these words behind it: nothing else may follow.
fn read_errors(mut rest: Words<'_>) -> StatsCommand<'_>
    ensures { seen result ≡ spec.errors_of (words_left rest.entry) }
{
    if rest.next().is_some() {
        return StatsCommand::Unknown;
    }
    StatsCommand::ShowErrors
}

/// What `show` asks with this word behind it, and these behind that.
fn read_show<'a>(noun: &[u8], rest: Words<'a>) -> StatsCommand<'a>
    ensures { seen result ≡ spec.show_of noun.now (words_left rest.entry) }
{
    if noun == b"info".as_slice() {
        return read_info(rest);
    }
    if noun == b"stat".as_slice() {
        return read_stat(rest);
    }
    if noun == b"errors".as_slice() {
        return read_errors(rest);
    }
    StatsCommand::Unknown
}

/// Whether the word begins a command on a table.
fn is_of_tables(verb: &[u8]) -> bool
    ensures { result ≡ spec.is_of_tables verb.now }
{
    verb == b"show".as_slice() || verb == b"set".as_slice() || verb == b"clear".as_slice()
}

/// What `show table` asks with these words behind it: one form is stickd's own, and all others are those of the command socket.
fn read_show_table(mut rest: Words<'_>) -> StatsCommand<'_>
    ensures { seen result ≡ spec.show_table_of (words_left rest.entry) }
{
    let Some(name) = rest.next() else {
        return StatsCommand::Table;
    };
    let Some(order) = rest.next() else {
        return StatsCommand::Table;
    };
    if rest.next().is_none() && order == b"oldest-first".as_slice() {
        return StatsCommand::OldestFirst(name);
    }
    StatsCommand::Table
}

/// What a word asks of tables, with these words behind `table`.
fn read_table<'a>(verb: &[u8], rest: Words<'a>) -> StatsCommand<'a>
    ensures { seen result ≡ spec.table_of verb.now (words_left rest.entry) }
{
    if verb == b"show".as_slice() {
        return read_show_table(rest);
    }
    StatsCommand::Table
}

/// What a single word asks.
fn read_single(verb: &[u8]) -> StatsCommand<'static>
    ensures { seen result ≡ spec.single_of verb.now }
{
    if verb == b"prompt".as_slice() {
        return StatsCommand::Prompt;
    }
    if verb == b"quit".as_slice() {
        return StatsCommand::Quit;
    }
    if verb == b"stop".as_slice() {
        return StatsCommand::Stop(None);
    }
    if verb == b"reload".as_slice() {
        return StatsCommand::Reload;
    }
    StatsCommand::Unknown
}

/// What two words and those behind them ask.
fn read_pair<'a>(verb: &[u8], noun: &[u8], rest: Words<'a>) -> StatsCommand<'a>
    ensures { seen result ≡ spec.pair_of verb.now noun.now (words_left rest.entry) }
{
    if noun == b"table".as_slice() && is_of_tables(verb) {
        return read_table(verb, rest);
    }
    if noun == b"frontend".as_slice() && verb == b"shutdown".as_slice() {
        return read_shutdown(rest);
    }
    if verb == b"stop".as_slice() {
        return read_stop(noun, rest);
    }
    if verb == b"show".as_slice() {
        return read_show(noun, rest);
    }
    StatsCommand::Unknown
}

/// What a word asks with these behind it.
fn read_behind<'a>(verb: &[u8], mut rest: Words<'a>) -> StatsCommand<'a>
    ensures { seen result ≡ spec.behind_verb verb.now (words_left rest.entry) }
{
    let Some(noun) = rest.next() else {
        return read_single(verb);
    };
    read_pair(verb, noun, rest)
}

/// Reads one command. Spaces and tabs part words, and a carriage return at the end is no part of it.
pub fn read_command(line: &[u8]) -> StatsCommand<'_>
    ensures { seen result ≡ command_of (words_of line.now) }
{
    let mut words = Words::new(without_cr(line), Blanks::SpacesAndTabs);
    let Some(verb) = words.next() else {
        return StatsCommand::Empty;
    };
    if verb == b"help".as_slice() {
        return StatsCommand::Help(words.rest());
    }
    read_behind(verb, words)
}
