//! What a line of a section says, by its keyword; `reading` calls it.

ghost use Rattle.std.specs.Prelude.{◌≡◌};
ghost use Rattle.base_lines.specs.Words.{words_left};
ghost use Rattle.rule_model.specs.Reading.{Gives};
ghost use Rattle.rule_config.specs.Statements as spec;
ghost use Rattle.rule_config.specs.Statements.{acl_says, bind_says, default_backend_says, keyword_says, mode_says, server_says, stick_table_says, tcp_request_says};

use crate::actions::read_rule;
use base_lines::Words;
use base_sequence::Sequence;
use rule_addresses::{Endpoint, read_bind, read_server};
use rule_model::{Acl, Fault, Name, ReadError, Rule, Section, SectionKind, TableSpec};
use rule_words::{demand, is_name, next_or_empty, read_criterion, read_table};
use std::alloc::Global;

/// What a line says.
#[derive(Drop)]
pub enum Statement {
    /// Nothing that is kept: an empty line, `mode tcp`, or a line of a section that is read past.
    Nothing,
    /// A line that is read past with a warning.
    ReadPast,
    /// `global`, `defaults`: a section that is read past, with a warning.
    PassesSection,
    /// `frontend`, `backend`, `listen`.
    Opens(SectionKind, Name),
    /// `stick-table`.
    StickTable(TableSpec),
    /// `bind`.
    Bind(Endpoint),
    /// `server`, and whether further words are read past with a warning.
    Server(Endpoint, bool),
    /// `default_backend`.
    DefaultBackend(Name),
    /// `acl`.
    Acl(Acl),
    /// `tcp-request connection`.
    Rule(Rule),
}

/// A section that is being read.
#[derive(Drop)]
pub struct OpenSection {
    pub section: Section,
    /// The ACLs that its lines declared so far.
    pub acls: Sequence<Acl>,
}

/// Nothing may follow.
pub(crate) fn no_more(words: &mut Words<'_>) -> Result<(), ReadError>
    ensures { Gives result (spec.no_more (words_left words.old)) }
{
    match words.next() {
        None => Ok(()),
        Some(_) => Err(ReadError::Wrong(Fault::UnknownKeyword)),
    }
}

/// Reads the words behind `mode`.
#[tactic(auto, unfolding(crate::specs::Statements::mode_says))]
fn read_mode(words: &mut Words<'_>) -> Result<Statement, ReadError>
    ensures { Gives result (mode_says (words_left words.old)) }
{
    let mode = next_or_empty(words);
    demand(mode != b"http".as_slice(), Fault::ModeHttp)?;
    demand(mode == b"tcp".as_slice(), Fault::UnknownKeyword)?;
    no_more(words)?;
    Ok(Statement::Nothing)
}

/// Reads the words behind `bind`.
#[tactic(auto, unfolding(crate::specs::Statements::bind_says))]
fn read_bind_line(section: &Section, words: &mut Words<'_>) -> Result<Statement, ReadError>
    ensures { Gives result (bind_says section.now (words_left words.old)) }
{
    demand(section.kind.has_frontend(), Fault::UnknownKeyword)?;
    demand(section.bind.is_none(), Fault::UnknownKeyword)?;
    let Some(endpoint) = read_bind(next_or_empty(words)) else {
        return Err(ReadError::Wrong(Fault::UnknownKeyword));
    };
    no_more(words)?;
    Ok(Statement::Bind(endpoint))
}

/// Reads the words behind `server`.
#[tactic(auto, unfolding(crate::specs::Statements::server_says))]
fn read_server_line(section: &Section, words: &mut Words<'_>) -> Result<Statement, ReadError>
    ensures { Gives result (server_says section.now (words_left words.old)) }
{
    demand(section.kind.has_backend(), Fault::UnknownKeyword)?;
    demand(section.server.is_none(), Fault::SecondServer)?;
    demand(is_name(next_or_empty(words)), Fault::UnknownKeyword)?;
    let Some(endpoint) = read_server(next_or_empty(words)) else {
        return Err(ReadError::Wrong(Fault::UnknownKeyword));
    };
    Ok(Statement::Server(endpoint, words.next().is_some()))
}

/// Reads the words behind `default_backend`.
#[tactic(auto, unfolding(crate::specs::Statements::default_backend_says))]
fn read_default_backend(
    alloc: Global,
    section: &Section,
    words: &mut Words<'_>,
) -> Result<Statement, ReadError>
    ensures { Gives result (default_backend_says section.now (words_left words.old)) }
{
    demand(section.kind.has_frontend(), Fault::UnknownKeyword)?;
    demand(section.default_backend.is_none(), Fault::UnknownKeyword)?;
    let name = next_or_empty(words);
    demand(is_name(name), Fault::UnknownKeyword)?;
    no_more(words)?;
    Ok(Statement::DefaultBackend(Sequence::from_slice(alloc, name)?))
}

/// Reads the words behind `stick-table`.
#[tactic(auto, unfolding(crate::specs::Statements::stick_table_says))]
fn read_stick_table(
    alloc: Global,
    section: &Section,
    words: &mut Words<'_>,
) -> Result<Statement, ReadError>
    ensures { Gives result (stick_table_says section.now (words_left words.old)) }
{
    demand(section.table.is_none(), Fault::SecondName)?;
    Ok(Statement::StickTable(read_table(alloc, words)?))
}

/// Reads the words behind `acl`.
#[tactic(auto, unfolding(crate::specs::Statements::acl_says))]
fn read_acl(alloc: Global, section: &Section, words: &mut Words<'_>) -> Result<Statement, ReadError>
    ensures { Gives result (acl_says section.now (words_left words.old)) }
{
    demand(section.kind.has_frontend(), Fault::UnknownKeyword)?;
    let name = next_or_empty(words);
    demand(is_name(name), Fault::UnknownKeyword)?;
    let criterion = read_criterion(alloc, section.name.as_slice(), words)?;
    let name = Sequence::from_slice(alloc, name)?;
    Ok(Statement::Acl(Acl { name, criterion }))
}

/// Reads the words behind `tcp-request`.
#[tactic(auto, unfolding(crate::specs::Statements::tcp_request_says))]
fn read_tcp_request(
    alloc: Global,
    current: &OpenSection,
    words: &mut Words<'_>,
) -> Result<Statement, ReadError>
    ensures { Gives result (tcp_request_says current.now (words_left words.old)) }
{
    let section = &current.section;
    demand(section.kind.has_frontend(), Fault::UnknownKeyword)?;
    let is_connection = next_or_empty(words) == b"connection".as_slice();
    demand(is_connection, Fault::UnknownKeyword)?;
    let acls = current.acls.as_slice();
    Ok(Statement::Rule(read_rule(alloc, section.name.as_slice(), acls, words)?))
}

/// Reads the words behind a keyword of a section.
#[tactic(auto, unfolding(crate::specs::Statements::keyword_says))]
pub(crate) fn read_statement(
    alloc: Global,
    current: &OpenSection,
    keyword: &[u8],
    words: &mut Words<'_>,
) -> Result<Statement, ReadError>
    ensures { Gives result (keyword_says current.now keyword.now (words_left words.old)) }
{
    let section = &current.section;
    if keyword == b"mode".as_slice() {
        return read_mode(words);
    }
    if keyword == b"bind".as_slice() {
        return read_bind_line(section, words);
    }
    if keyword == b"server".as_slice() {
        return read_server_line(section, words);
    }
    if keyword == b"default_backend".as_slice() {
        return read_default_backend(alloc, section, words);
    }
    if keyword == b"stick-table".as_slice() {
        return read_stick_table(alloc, section, words);
    }
    if keyword == b"acl".as_slice() {
        return read_acl(alloc, section, words);
    }
    if keyword == b"tcp-request".as_slice() {
        return read_tcp_request(alloc, current, words);
    }
    Err(ReadError::Wrong(Fault::UnknownKeyword))
}

/// Whether a keyword begins a section that is read past.
pub(crate) fn is_passed_section(keyword: &[u8]) -> bool
    ensures { result ≡ spec.is_passed_section keyword.now }
{
    keyword == b"global".as_slice() || keyword == b"defaults".as_slice()
}

/// Whether a keyword begins a line that is read past.
pub(crate) fn is_passed_line(keyword: &[u8]) -> bool
    ensures { result ≡ spec.is_passed_line keyword.now }
{
    keyword == b"option".as_slice()
        || keyword == b"timeout".as_slice()
        || keyword == b"balance".as_slice()
        || keyword == b"maxconn".as_slice()
        || keyword == b"log".as_slice()
}

/// The section that a keyword begins.
#[tactic(auto, unfolding(crate::specs::Statements::section_kind))]
pub(crate) fn section_kind(keyword: &[u8]) -> Option<SectionKind>
    ensures { result ≡ spec.section_kind keyword.now }
{
    if keyword == b"frontend".as_slice() {
        Some(SectionKind::Frontend)
    } else if keyword == b"backend".as_slice() {
        Some(SectionKind::Backend)
    } else if keyword == b"listen".as_slice() {
        Some(SectionKind::Listen)
    } else {
        None
    }
}
