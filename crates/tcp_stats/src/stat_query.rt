//! What `show stat` asks for; `command` reads it, and `stat` answers it.

ghost use Rattle.std.specs.Prelude.{◌≡◌, ◌<◌, option_map};
ghost use Rattle.base_lines.specs.Words.{words_left};
ghost use Rattle.tcp_stats.specs.StatQueries as spec;
ghost use Rattle.tcp_stats.specs.StatQueries.{seen_query};
ghost use Rattle.tcp_stats.specs.SeenCommands.{seen};

use crate::command::StatsCommand;
use crate::stat_row::StatRow;
use crate::typed::Format;
use base_lines::{Words, read_number};

/// HAProxy's number of the one proxy: that of the first section that listens.
const PROXY: u64 = 2;

/// Which numbers are meant.
#[derive(Clone, Copy, Debug, PartialEq, Eq)]
pub enum Bound {
    /// Every one, which `-1` stands for.
    Any,
    Only(u64),
}

/// What `show stat` asks for (HAProxy Management Guide 2.6, section 9.3).
#[derive(Clone, Copy)]
pub struct StatQuery<'a> {
    /// The proxy, by its number or its name. `-1` stands for every one.
    pub proxy: &'a [u8],
    /// Kinds of rows: the sum of 1 for the listening side, 2 for all servers together, and 4 for each server.
    pub kinds: Bound,
    /// The number of the server among those of its proxy. It binds rows of servers alone.
    pub server: Bound,
    pub format: Format,
}

/// What `show stat` without more words asks for: every row, in columns.
pub const EVERYTHING: StatQuery<'static> = StatQuery {
    proxy: b"-1",
    kinds: Bound::Any,
    server: Bound::Any,
    format: Format::Plain,
};

impl Bound {
    /// Reads `-1` or a number.
    fn read(word: &[u8]) -> Option<Bound>
        ensures { result ≡ spec.bound_of word.now }
    {
        if word == b"-1".as_slice() {
            return Some(Bound::Any);
        }
        match read_number(word) {
            Some(number) => Some(Bound::Only(number)),
            None => None,
        }
    }

    /// Whether this number is meant.
    fn admits(self, number: u64) -> bool
        ensures { result ≡ spec.admits self number }
    {
        match self {
            Bound::Any => true,
            Bound::Only(only) => only == number,
        }
    }

    /// Whether such a power of two is among those whose sum this is.
    fn has_power(self, power: u64) -> bool
        requires { 0 < power }
        ensures { result ≡ spec.has_power self power }
    {
        match self {
            Bound::Any => true,
            Bound::Only(sum) => sum / power % 2 == 1,
        }
    }
}

/// The format behind a further word. None where the word isn't known.
pub(crate) fn format_after(format: Format, word: &[u8]) -> Option<Format>
    ensures { result ≡ spec.format_after format word.now }
{
    if word == b"typed".as_slice() {
        return Some(Format::Typed);
    }
    if word == b"json".as_slice() {
        return Some(Format::Json);
    }
    None
}

/// Whether a word leaves rows out that aren't here: of servers that are down, or in maintenance.
fn is_about_states(word: &[u8]) -> bool
    ensures { result ≡ spec.is_about_states word.now }
{
    word == b"up".as_slice() || word == b"no-maint".as_slice()
}

/// Whether a word is this number.
fn is_number(number: u64, word: &[u8]) -> bool
    ensures { result ≡ spec.is_number number word.now }
{
    match read_number(word) {
        Some(found) => found == number,
        None => false,
    }
}

impl<'a> StatQuery<'a> {
    /// The query behind a further word. None where the word isn't known.
    fn after(self, word: &[u8]) -> Option<StatQuery<'a>>
        ensures { option_map seen_query result ≡ spec.query_after (seen_query self.entry) word.now }
    {
        if is_about_states(word) {
            return Some(self);
        }
        match format_after(self.format, word) {
            Some(format) => Some(StatQuery { format, ..self }),
            None => None,
        }
    }

    /// What `show stat` asks with these further words.
    fn with_words(self, mut rest: Words<'_>) -> Option<StatQuery<'a>>
        ensures { option_map seen_query result ≡ spec.query_with (seen_query self.entry) (words_left rest.entry) }
    {
        let mut query = self;
        while let Some(word) = rest.next() {
            let Some(next) = query.after(word) else {
                return None;
            };
            query = next;
        }
        Some(query)
    }

    /// Whether the proxy of this name is meant, which has the number 2.
    pub fn names(&self, frontend: &[u8]) -> bool
        ensures { result ≡ spec.names_proxy (seen_query self.now) frontend.now }
    {
        self.proxy == b"-1".as_slice() || self.proxy == frontend || is_number(PROXY, self.proxy)
    }

    /// Whether there may be such a proxy, as one of this name is served: each number but 0 may be one's.
    pub fn may_name(&self, frontend: &[u8]) -> bool
        ensures { result ≡ spec.may_name (seen_query self.now) frontend.now }
    {
        if self.names(frontend) {
            return true;
        }
        match read_number(self.proxy) {
            Some(number) => number != 0,
            None => false,
        }
    }

    /// Whether a row is asked for, of the proxy of this name.
    pub(crate) fn shows(&self, frontend: &[u8], row: StatRow) -> bool
        ensures { result ≡ spec.shows (seen_query self.now) frontend.now row }
    {
        if !self.names(frontend) {
            return false;
        }
        match row {
            StatRow::Frontend => self.kinds.has_power(1),
            StatRow::Backend => self.kinds.has_power(2),
            StatRow::Server => self.kinds.has_power(4) && self.server.admits(1),
        }
    }
}

/// What `show stat` asks with these words behind it, where the first of them bounds the rows.
fn read_bounded<'a>(proxy: &'a [u8], mut rest: Words<'a>) -> Option<StatQuery<'a>>
    ensures { option_map seen_query result ≡ spec.bounded proxy.now (words_left rest.entry) }
{
    let (Some(kinds), Some(server)) = (rest.next(), rest.next()) else {
        return None;
    };
    let (Some(kinds), Some(server)) = (Bound::read(kinds), Bound::read(server)) else {
        return None;
    };
    let query = StatQuery {
        proxy,
        kinds,
        server,
        format: Format::Plain,
    };
    query.with_words(rest)
}

/// What `show stat` asks with these words behind it.
fn read_query<'a>(mut rest: Words<'a>) -> Option<StatQuery<'a>>
    ensures { option_map seen_query result ≡ spec.query_of (words_left rest.entry) }
{
    let Some(first) = rest.next() else {
        return Some(EVERYTHING);
    };
    match EVERYTHING.after(first) {
        Some(query) => query.with_words(rest),
        None => read_bounded(first, rest),
    }
}

/// What `show stat` asks with these words behind it: `IID TYPE SID` or none of them, and then what it is to look like.
pub(crate) fn read_stat(rest: Words<'_>) -> StatsCommand<'_>
    ensures { seen result ≡ spec.stat_of (words_left rest.entry) }
{
    match read_query(rest) {
        Some(query) => StatsCommand::ShowStat(query),
        None => StatsCommand::Unknown,
    }
}

/// What `show info` asks with these words behind it: what it is to look like.
pub(crate) fn read_info(mut rest: Words<'_>) -> StatsCommand<'_>
    ensures { seen result ≡ spec.info_of (words_left rest.entry) }
{
    let mut format = Format::Plain;
    while let Some(word) = rest.next() {
        match format_after(format, word) {
            Some(next) => format = next,
            None => return StatsCommand::Unknown,
        }
    }
    StatsCommand::ShowInfo(format)
}
