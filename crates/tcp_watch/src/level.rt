//! What the clients of a socket may do, by its level; `StatsService` and `LimitedService` ask it before each command.

ghost use Rattle.std.specs.Prelude.{◌≡◌};
ghost use Rattle.table_texts.specs.Form.{form_of};
ghost use Rattle.table_texts.specs.Seen.{seen_choice, seen_request, words_of};
ghost use Rattle.tcp_stats.specs.SeenCommands.{seen};
ghost use Rattle.tcp_watch.specs.Levels as spec;

use table_cli::Deed;
use table_texts::{Choice, Form, Request, read_form};
use tcp_stats::StatsCommand;

/// What the clients of a socket may do (HAProxy Configuration Manual 2.6, `level`).
#[derive(Clone, Copy, Debug, PartialEq, Eq)]
pub enum Level {
    /// They see counts, and no key of a table.
    User,
    /// They see all, and change nothing.
    Operator,
    /// They do all.
    Admin,
}

/// How much of a command on tables is answered.
#[derive(Clone, Copy, Debug, PartialEq, Eq)]
pub enum Permission {
    /// All of it.
    All,
    /// The header of its table.
    HeaderAlone,
    /// Nothing: it is refused.
    Nothing,
}

/// The level of a name.
pub fn level_named(word: &[u8]) -> Option<Level>
    ensures { result ≡ spec.level_of word.now }
{
    if word == b"user".as_slice() {
        return Some(Level::User);
    }
    if word == b"operator".as_slice() {
        return Some(Level::Operator);
    }
    if word == b"admin".as_slice() {
        return Some(Level::Admin);
    }
    None
}

/// How much clients of a level are shown of these entries of a table.
fn shown_to(level: Level, choice: Choice<'_>) -> Permission
    ensures { result ≡ spec.shown_to level (seen_choice choice.entry) }
{
    match (level, choice) {
        (Level::User, Choice::Key(_)) => Permission::Nothing,
        (Level::User, Choice::Everything | Choice::Compare(_, _, _)) => Permission::HeaderAlone,
        (Level::Operator | Level::Admin, _) => Permission::All,
    }
}

/// How much clients of a level may change of a table.
fn changed_by(level: Level) -> Permission
    ensures { result ≡ spec.changed_by level }
{
    match level {
        Level::User | Level::Operator => Permission::Nothing,
        Level::Admin => Permission::All,
    }
}

/// How much clients of a level are shown of the entries that several filters mean: as much as of those that one does.
fn shown_by_filters(level: Level) -> Permission
    ensures { result ≡ spec.shown_by_filters level }
{
    match level {
        Level::User => Permission::HeaderAlone,
        Level::Operator | Level::Admin => Permission::All,
    }
}

/// How much is done for clients of a level with the entries that several filters mean.
pub fn permission_of_filters(level: Level, deed: Deed) -> Permission
    ensures { result ≡ spec.permission_of_filters level deed }
{
    match deed {
        Deed::Show => shown_by_filters(level),
        Deed::Remove => changed_by(level),
    }
}

/// How much of a request clients of a level are answered.
fn request_by(level: Level, request: Request<'_>) -> Permission
    ensures { result ≡ spec.request_by level (seen_request request.entry) }
{
    match request {
        Request::Show(choice) => shown_to(level, choice),
        Request::Clear(_) | Request::Set(_, _) => changed_by(level),
    }
}

/// How much of a command on tables clients of a level are answered. A command that is none is answered that it isn't.
pub fn permission_of(level: Level, command: &[u8]) -> Permission
    ensures { result ≡ spec.permission_of level (form_of (words_of command.now)) }
{
    match read_form(command) {
        Form::Nothing | Form::Unknown | Form::Tables => Permission::All,
        Form::Of(_, request) => request_by(level, request),
    }
}

/// Whether clients of a level may ask this on the stats socket. Of commands on tables `permission_of` says how much.
pub fn may_ask(level: Level, command: StatsCommand<'_>) -> bool
    ensures { result ≡ spec.may_ask level (seen command.entry) }
{
    match command {
        StatsCommand::ShowErrors | StatsCommand::OldestFirst(_) => {
            matches!(level, Level::Operator | Level::Admin)
        }
        StatsCommand::ShutdownFrontend(_) | StatsCommand::Stop(_) | StatsCommand::Reload => {
            matches!(level, Level::Admin)
        }
        _ => true,
    }
}
