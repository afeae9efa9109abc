//! What was read of a configuration, and what a line adds; `read_config` calls it line by line.

ghost use Rattle.std.specs.Prelude.{◌≡◌, ◌++◌, OnOk, map};
ghost use Rattle.std.specs.List.{flat_map, list_any};
ghost use Rattle.std.specs.Str.{bytes_eq};
ghost use Rattle.base_lines.specs.Words.{words_left};
ghost use Rattle.rule_model.specs.Reading.{Gives, Leaves};
ghost use Rattle.rule_config.specs.Config.{nothing_read};
ghost use Rattle.rule_config.specs.Lines as spec;
ghost use Rattle.rule_config.specs.Lines.{declared_by, declared_in, line_says, new_section, open_section, says_in, section_says, sections_of, warnings_of, with_declared, with_line, with_statement, words_say};

use crate::needs::{Need, push_needs};
use crate::statements::{
    OpenSection, Statement, is_passed_line, is_passed_section, no_more, read_statement,
    section_kind,
};
use base_lines::{Blanks, Words};
use base_sequence::{NoMemory, Sequence};
use rule_model::{Fault, Name, ReadError, Section, SectionKind};
use rule_words::{before_comment, demand, is_name, is_plain, is_text, next_or_empty};
use std::alloc::Global;
use std::mem;

/// Where a line stands.
#[derive(Drop)]
pub enum Place {
    /// Before the first section.
    Outside,
    /// In a section that is read past.
    Passed,
    /// In a section that is read.
    Inside(OpenSection),
}

/// What was read of a configuration so far.
#[derive(Drop)]
pub struct Reading {
    /// The sections that have ended.
    pub sections: Sequence<Section>,
    pub place: Place,
    /// The lines that were read past with a warning.
    pub warnings: Sequence<u64>,
    pub needs: Sequence<Need>,
}

/// Whether a section has the name.
fn is_named(sections: &[Section], name: &[u8]) -> bool
    ensures { result ≡ list_any (λ section. bytes_eq section.name name.now) sections.now }
{
    sections
        .iter()
        .any(|section| section.name.as_slice() == name)
}

impl Place {
    /// Whether the open section has the name.
    fn is_named(&self, name: &[u8]) -> bool
        ensures { result ≡ list_any (λ section. bytes_eq section.name name.now) (open_section self.now) }
    {
        match self {
            Place::Inside(current) => current.section.name.as_slice() == name,
            Place::Outside => false,
            Place::Passed => false,
        }
    }

    /// Reads a line with this first word that begins no section.
    fn read_words(
        &self,
        alloc: Global,
        plain: bool,
        word: &[u8],
        words: &mut Words<'_>,
    ) -> Result<Statement, ReadError>
        ensures { Gives result (says_in self.now plain word.now (words_left words.old)) }
    {
        match self {
            Place::Outside => Err(ReadError::Wrong(Fault::UnknownKeyword)),
            Place::Passed => Ok(Statement::Nothing),
            Place::Inside(current) => {
                if is_passed_line(word) {
                    return Ok(Statement::ReadPast);
                }
                demand(plain, Fault::UnknownKeyword)?;
                read_statement(alloc, current, word, words)
            }
        }
    }

    /// Takes what a line declares, where a section is open.
    fn declare(&mut self, statement: Statement) -> Result<(), NoMemory>
        ensures { OnOk result (self.new ≡ declared_in self.old statement) }
    {
        match self {
            Place::Inside(current) => current.declare(statement),
            Place::Outside => Ok(()),
            Place::Passed => Ok(()),
        }
    }
}

impl OpenSection {
    fn new(alloc: Global, kind: SectionKind, name: Name) -> Self
        ensures { result ≡ new_section kind name }
    {
        let section = Section {
            kind,
            name,
            table: None,
            rules: Sequence::new(alloc),
            bind: None,
            server: None,
            default_backend: None,
        };
        OpenSection {
            section,
            acls: Sequence::new(alloc),
        }
    }

    /// Takes what a line declares.
    fn declare(&mut self, statement: Statement) -> Result<(), NoMemory>
        ensures { OnOk result (self.new ≡ with_declared self.old statement) }
    {
        match statement {
            Statement::StickTable(table) => {
                self.section.table = Some(table);
                Ok(())
            }
            Statement::Bind(endpoint) => {
                self.section.bind = Some(endpoint);
                Ok(())
            }
            Statement::Server(endpoint, _) => {
                self.section.server = Some(endpoint);
                Ok(())
            }
            Statement::DefaultBackend(name) => {
                self.section.default_backend = Some(name);
                Ok(())
            }
            Statement::Acl(acl) => self.acls.push(acl),
            Statement::Rule(rule) => self.section.rules.push(rule),
            Statement::Nothing => Ok(()),
            Statement::ReadPast => Ok(()),
            Statement::PassesSection => Ok(()),
            Statement::Opens(_, _) => Ok(()),
        }
    }
}

impl Statement {
    /// Whether it is read past with a warning.
    fn is_warned(&self) -> bool
        ensures { result ≡ spec.is_warned self.now }
    {
        match self {
            Statement::ReadPast | Statement::PassesSection => true,
            Statement::Server(_, has_more) => *has_more,
            _ => false,
        }
    }
}

impl Reading {
    /// What was read before the first line.
    pub(crate) fn new(alloc: Global) -> Self
        ensures { result ≡ nothing_read }
    {
        Reading {
            sections: Sequence::new(alloc),
            place: Place::Outside,
            warnings: Sequence::new(alloc),
            needs: Sequence::new(alloc),
        }
    }

    fn has_name(&self, name: &[u8]) -> bool
        ensures { result ≡ spec.has_name self.now name.now }
    {
        is_named(self.sections.as_slice(), name) || self.place.is_named(name)
    }

    /// Reads the words behind a section's keyword.
    #[tactic(auto, unfolding(crate::specs::Lines::section_says))]
    fn read_section(
        &self,
        alloc: Global,
        kind: SectionKind,
        words: &mut Words<'_>,
    ) -> Result<Statement, ReadError>
        ensures { Gives result (section_says self.now kind (words_left words.old)) }
    {
        let name = next_or_empty(words);
        demand(is_name(name), Fault::UnknownKeyword)?;
        demand(!self.has_name(name), Fault::SecondName)?;
        no_more(words)?;
        Ok(Statement::Opens(kind, Sequence::from_slice(alloc, name)?))
    }

    /// Reads the words of a line.
    #[tactic(auto, unfolding(crate::specs::Lines::words_say))]
    fn read_words(
        &self,
        alloc: Global,
        plain: bool,
        words: &mut Words<'_>,
    ) -> Result<Statement, ReadError>
        ensures { Gives result (words_say self.now plain (words_left words.old)) }
    {
        let Some(word) = words.next() else {
            return Ok(Statement::Nothing);
        };
        if is_passed_section(word) {
            return Ok(Statement::PassesSection);
        }
        match section_kind(word) {
            Some(kind) => {
                demand(plain, Fault::UnknownKeyword)?;
                self.read_section(alloc, kind, words)
            }
            None => self.place.read_words(alloc, plain, word, words),
        }
    }

    /// Reads the next line, without its end.
    #[tactic(auto, unfolding(crate::specs::Lines::line_says))]
    pub(crate) fn read_line(&self, alloc: Global, line: &[u8]) -> Result<Statement, ReadError>
        ensures { Gives result (line_says self.now line.now) }
    {
        demand(is_text(line), Fault::NotUtf8)?;
        let mut words = Words::new(before_comment(line), Blanks::SpacesAndTabs);
        self.read_words(alloc, is_plain(line), &mut words)
    }

    /// Ends the open section, if there is one.
    pub(crate) fn end_section(&mut self) -> Result<(), NoMemory>
        ensures { OnOk result (self.new ≡ record self.old { sections = sections_of self.old; place = Place.Outside }) }
    {
        match mem::replace(&mut self.place, Place::Outside) {
            Place::Inside(current) => {
                let OpenSection { section, acls: _ } = current;
                self.sections.push(section)
            }
            Place::Outside => Ok(()),
            Place::Passed => Ok(()),
        }
    }

    /// Notes a line that is read past with a warning.
    fn warn(&mut self, number: u64, statement: &Statement) -> Result<(), NoMemory>
        ensures { OnOk result (self.new ≡ record self.old { warnings = self.old.warnings ++ warnings_of number statement.now }) }
    {
        if statement.is_warned() {
            return self.warnings.push(number);
        }
        Ok(())
    }

    /// Takes what a line declares.
    fn declare(&mut self, alloc: Global, statement: Statement) -> Result<(), NoMemory>
        ensures { OnOk result (self.new ≡ declared_by self.old statement) }
    {
        match statement {
            Statement::PassesSection => {
                self.end_section()?;
                self.place = Place::Passed;
                Ok(())
            }
            Statement::Opens(kind, name) => {
                self.end_section()?;
                self.place = Place::Inside(OpenSection::new(alloc, kind, name));
                Ok(())
            }
            declared => self.place.declare(declared),
        }
    }

    /// Takes what the line of this number says.
    #[tactic(auto, unfolding(crate::specs::Lines::with_statement))]
    pub(crate) fn take(
        &mut self,
        alloc: Global,
        number: u64,
        statement: Statement,
    ) -> Result<(), NoMemory>
        ensures { OnOk result (self.new ≡ with_statement number self.old statement) }
    {
        self.warn(number, &statement)?;
        push_needs(&mut self.needs, alloc, number, &statement)?;
        self.declare(alloc, statement)
    }

    /// Reads the line of this number, and takes what it says.
    pub(crate) fn read_on(
        &mut self,
        alloc: Global,
        number: u64,
        line: &[u8],
    ) -> Result<(), ReadError>
        ensures { Leaves result self.new (with_line number self.old line.now) }
    {
        let statement = self.read_line(alloc, line)?;
        self.take(alloc, number, statement)?;
        Ok(())
    }
}
