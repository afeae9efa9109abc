//! What is said of the other socket behind the answer to `help`; `asking` shows it.

ghost use Rattle.std.specs.Prelude.{◌≡◌};
ghost use Rattle.base_lines.specs.Words.{is_blank, words};
ghost use Rattle.base_lines.specs.declared.words.Blanks.TheVariants.{SpacesAndTabs};
ghost use Rattle.stickd_ctl.specs.Hints as spec;

use base_lines::{Blanks, Words};

/// What the command socket answers, and what the stats socket has beside that.
#[tactic(auto, unfolding(crate::specs::Hints::at_commands))]
fn at_commands() -> &'static str
    ensures { result.now ≡ spec.at_commands }
{
    "The socket of --socket answers
  show table [<table> [<filter>]]         : the tables, or what one of them holds (filter: data/key)
  set table <table> key <k> [data.* <v>]* : update or create a table entry's data
  clear table <table> [<filter>]          : remove entries from a table (filter: data/key)
line after line. That of --stats-socket also answers show info, show stat, stop and others: ask it for help.
"
}

/// What the stats socket leaves to the command socket.
#[tactic(auto, unfolding(crate::specs::Hints::at_stats))]
fn at_stats() -> &'static str
    ensures { result.now ≡ spec.at_stats }
{
    "The socket of --socket answers show table, set table and clear table alone, line after line.
"
}

/// Whether a command asks for help.
pub(crate) fn asks_for_help(command: &[u8]) -> bool
    ensures { result ≡ spec.asks_for_help (words (is_blank SpacesAndTabs) command.now) }
{
    match Words::new(command, Blanks::SpacesAndTabs).next() {
        Some(word) => word == b"help".as_slice(),
        None => false,
    }
}

/// What is said behind the answer to `help`: of the command socket, which doesn't know that word, what it answers; and each points to
/// the other.
pub(crate) fn hint(is_known: bool) -> &'static str
    ensures { result.now ≡ spec.hint is_known }
{
    if is_known { at_stats() } else { at_commands() }
}
