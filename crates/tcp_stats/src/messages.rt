//! The answers of the stats socket that are the same each time, in HAProxy's words, and its help; the stats socket gives them.

ghost use Rattle.std.specs.Prelude.{◌≡◌, ◌++◌, OnOk};
ghost use Rattle.std.specs.List.{flat_map, list_any};
ghost use Rattle.tcp_stats.specs.Messages as spec;
ghost use Rattle.tcp_stats.specs.Messages.{asked_lines, line_if, line_words, matching_lines, message_text, tells};

use base_lines::{Blanks, Parts, Words};
use base_sequence::NoMemory;

/// An answer that is the same each time.
#[derive(Clone, Copy, Debug, PartialEq, Eq)]
pub enum StatsMessage {
    /// To what is no command, and to an empty one: the commands.
    Unknown,
    /// To what was done or has nothing to tell: an empty line.
    Done,
    /// To `shutdown frontend` without a name.
    FrontendExpected,
    /// To `shutdown frontend` with the name of no frontend.
    NoSuchFrontend,
    /// To `shutdown frontend` of one that takes no clients any more.
    AlreadyShutDown,
    /// To `show stat` of what is no proxy.
    NoSuchProxy,
    /// To what the socket's level doesn't permit.
    PermissionDenied,
}

impl StatsMessage {
    /// Its words, in front of the list of commands where one follows.
    fn words(self) -> &'static str
        ensures { result.now ≡ spec.message_words self }
    {
        match self {
            StatsMessage::Unknown =>
                "Unknown command. Please enter one of the following commands only:\n",
            StatsMessage::Done => "",
            StatsMessage::FrontendExpected => "A frontend name is expected.\n",
            StatsMessage::NoSuchFrontend => "No such frontend.\n",
            StatsMessage::AlreadyShutDown => "Frontend was already shut down.\n",
            StatsMessage::NoSuchProxy => "No such proxy.\n",
            StatsMessage::PermissionDenied => "Permission denied\n",
        }
    }

    /// Whether the list of commands follows its words.
    fn lists_commands(self) -> bool
        ensures { result ≡ spec.lists_commands self }
    {
        matches!(self, StatsMessage::Unknown)
    }

    /// Appends the answer, with the empty line that ends it.
    pub fn push(self, text: &mut Vec<u8>) -> Result<(), NoMemory>
        ensures { OnOk result (text.new.items ≡ text.old.items ++ message_text self) }
    {
        text.extend_from_slice(self.words().as_bytes())?;
        push_commands_if(text, self.lists_commands())?;
        text.push(b'\n')?;
        Ok(())
    }
}

/// The commands, a line each, in the order and the form of HAProxy's help, but those of `common_list`.
#[tactic(auto, unfolding(crate::specs::Messages::command_list))]
fn command_list() -> &'static str
    ensures { result.now ≡ spec.command_list }
{
    "  clear table <table> [<filter>]*         : remove an entry from a table (filter: data/key)
  reload                                  : read the rules again, of the file of the start
  set table <table> key <k> [data.* <v>]* : update or create a table entry's data
  show errors                             : report last request and/or response errors for each proxy
  show info [json|typed]*                 : report information about the running process
  show stat [json|no-maint|typed|up]*     : report counters for each proxy and server
  show stat <iid> <type> <sid> [json|..]* : report counters of a proxy (-1: any), of types (1, 2, 4; -1: any), of a server (-1: any)
  show table <table> [<filter>]*          : report table usage stats or dump this table's contents (filter: data/key)
  show table <table> oldest-first         : dump this table's contents in the order in which entries go
  shutdown frontend <frontend>            : stop a specific frontend
  stop [<ms>]                             : end the program; open connections may go on for so long"
}

/// The commands that stand behind each list.
#[tactic(auto, unfolding(crate::specs::Messages::common_list))]
fn common_list() -> &'static str
    ensures { result.now ≡ spec.common_list }
{
    "  help [<command>]                        : list matching or all commands
  prompt                                  : toggle interactive mode with prompt
  quit                                    : disconnect
"
}

/// What stands before the commands in the answer to `help`.
#[tactic(auto, unfolding(crate::specs::Messages::help_heading))]
fn help_heading() -> &'static str
    ensures { result.now ≡ spec.help_heading }
{
    "The following commands are valid at this level:\n"
}

/// Appends the list of commands, or nothing.
fn push_commands_if(text: &mut Vec<u8>, is_listed: bool) -> Result<(), NoMemory>
    ensures { OnOk result (text.new.items ≡ text.old.items ++ spec.commands_if is_listed) }
{
    if is_listed {
        push_matching(text, b"")?;
        text.extend_from_slice(common_list().as_bytes())?;
        return Ok(());
    }
    Ok(())
}

/// Whether the words of a line begin with those that are asked about, of which each may be the beginning of one.
fn begin_with(line: &[u8], asked: &[u8]) -> bool
    ensures { result ≡ tells (line_words asked.now) line.now }
{
    let mut own = Words::new(line, Blanks::SpacesAndTabs);
    let mut words = Words::new(asked, Blanks::SpacesAndTabs);
    while let Some(word) = words.next() {
        let Some(first) = own.next() else {
            return false;
        };
        if !first.starts_with(word) {
            return false;
        }
    }
    true
}

/// Whether a command begins with the words that are asked about.
fn is_any_told(mut lines: Parts<'_>, asked: &[u8]) -> bool
    ensures { result ≡ list_any (tells (line_words asked.now)) lines.entry }
{
    while let Some(line) = lines.next() {
        if begin_with(line, asked) {
            return true;
        }
    }
    false
}

/// Appends a line, where its command begins with the words that are asked about.
fn push_line_if(text: &mut Vec<u8>, line: &[u8], asked: &[u8]) -> Result<(), NoMemory>
    ensures { OnOk result (text.new.items ≡ text.old.items ++ line_if (line_words asked.now) line.now) }
{
    if !begin_with(line, asked) {
        return Ok(());
    }
    text.extend_from_slice(line)?;
    text.push(b'\n')?;
    Ok(())
}

/// Appends those of some lines whose commands begin with the words that are asked about.
fn push_lines(text: &mut Vec<u8>, mut lines: Parts<'_>, asked: &[u8]) -> Result<(), NoMemory>
    ensures { OnOk result (text.new.items ≡ text.old.items ++ flat_map (line_if (line_words asked.now)) lines.entry) }
{
    while let Some(line) = lines.next() {
        push_line_if(text, line, asked)?;
    }
    Ok(())
}

/// Appends the commands that begin with the words that are asked about.
fn push_matching(text: &mut Vec<u8>, asked: &[u8]) -> Result<(), NoMemory>
    ensures { OnOk result (text.new.items ≡ text.old.items ++ matching_lines (line_words asked.now)) }
{
    push_lines(text, Parts::new(command_list().as_bytes(), b'\n'), asked)
}

/// Appends the commands that begin with the words that are asked about, or all where none does.
#[tactic(auto, unfolding(crate::specs::Messages::asked_lines))]
fn push_asked(text: &mut Vec<u8>, asked: &[u8]) -> Result<(), NoMemory>
    ensures { OnOk result (text.new.items ≡ text.old.items ++ asked_lines (line_words asked.now)) }
{
    if is_any_told(Parts::new(command_list().as_bytes(), b'\n'), asked) {
        return push_matching(text, asked);
    }
    push_matching(text, b"")
}

/// Appends the answer to `help` with these words behind it: the commands that begin so, or all where none does.
#[tactic(auto, unfolding(crate::specs::Messages::help_text))]
pub fn push_help(text: &mut Vec<u8>, asked: &[u8]) -> Result<(), NoMemory>
    ensures { OnOk result (text.new.items ≡ text.old.items ++ spec.help_text (line_words asked.now)) }
{
    text.extend_from_slice(help_heading().as_bytes())?;
    push_asked(text, asked)?;
    text.extend_from_slice(common_list().as_bytes())?;
    text.push(b'\n')?;
    Ok(())
}
