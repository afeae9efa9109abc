//! A file, what is served of it, and what its rules track; `choices` makes it, and the conversions read it.

use crate::lexer::SourceLine;
use crate::sections::Section;
use crate::texts::{Words, copy_text, is_word, word_at};
use base_sequence::NoMemory;
use std::alloc::Global;

/// A file of patterns that `-f` names. None where it can't be read.
#[derive(Drop)]
pub struct PatternFile {
    pub name: Vec<u8>,
    pub text: Option<Vec<u8>>,
}

/// What whoever adopts a file wants.
#[derive(Drop)]
pub struct Wishes {
    /// The frontend that is to be served; else the first.
    pub frontend: Option<Vec<u8>>,
    /// Whether the first of several servers is kept.
    pub first_server: bool,
}

/// What a rule tracks.
#[derive(Drop)]
pub struct Track {
    pub slot: u8,
    /// The section whose table it is.
    pub table: Option<usize>,
    /// Whether the key is the client's address.
    pub is_source: bool,
    /// Whether the rule has no condition, and no rule before it asks by a key.
    pub is_sure: bool,
}

/// A rule of the frontend that is served.
#[derive(Drop)]
pub struct RuleAt {
    pub line: usize,
    /// The section in which it stands.
    pub origin: usize,
    /// 1 for `connection`, 2 for `session`, 3 for the frontend's `content`, 4 for the backend's.
    pub phase: u8,
    /// The line behind which it has to stand: its own where it may stay.
    pub place: usize,
}

/// How many bits of a source count in the keys of all rules that track it.
#[derive(Clone, Copy, Debug)]
pub struct SharedMask {
    pub v4: u64,
    /// None where each of their tables has keys of IPv4 alone.
    pub v6: Option<u64>,
}

/// A file, and what is served of it.
#[derive(Drop)]
pub struct Plan {
    pub lines: Vec<SourceLine>,
    pub sections: Vec<Section>,
    /// The frontend that is served.
    pub frontend: Option<usize>,
    /// The section whose server it has.
    pub backend: Option<usize>,
    /// The line that names that section.
    pub names_backend: Option<usize>,
    /// The rules that run, in their order.
    pub rules: Vec<RuleAt>,
    pub tracks: Vec<Track>,
    /// What options of the command line stand for in the keys of the rules.
    pub mask: Option<SharedMask>,
    /// Whether a table stores `gpc_rate`.
    pub stores_rates: bool,
    /// The slot by which all connections of the frontend are counted together, where a rule asks how many there are.
    pub counts_all: Option<u8>,
    pub first_server: bool,
    pub files: Vec<PatternFile>,
    /// The networks from which clients begin by a header of the PROXY protocol.
    pub proxies: Words,
}

impl Plan {
    /// The name of the frontend that is served.
    pub(crate) fn frontend_name(&self) -> &[u8] {
        match self.frontend {
            Some(place) => self.new_name(place),
            None => b"",
        }
    }

    /// The words of a line.
    pub(crate) fn words(&self, line: usize) -> &[Vec<u8>] {
        match self.lines.get(line) {
            Some(source) => source.words.as_slice(),
            None => &[],
        }
    }

    /// The section at a place.
    pub(crate) fn section(&self, place: usize) -> Option<&Section> {
        self.sections.get(place)
    }

    /// The name that a section has in what is written.
    pub(crate) fn new_name(&self, place: usize) -> &[u8] {
        match self.sections.get(place) {
            Some(section) => section.new_name.as_slice(),
            None => b"",
        }
    }

    /// Whether the section at a place is the frontend that is served.
    pub(crate) fn is_frontend(&self, place: usize) -> bool {
        self.frontend == Some(place)
    }

    /// Whether the section at a place is the one whose server it has.
    pub(crate) fn is_backend(&self, place: usize) -> bool {
        self.backend == Some(place)
    }

    /// The section of this name that has a table.
    pub(crate) fn table_section(&self, name: &[u8]) -> Option<usize> {
        for (place, section) in self.sections.iter().enumerate() {
            if section.has_table && section.name.as_slice() == name {
                return Some(place);
            }
        }
        None
    }

    /// The last line of a section, or of the defaults that it has, which begins with these words; any second word
    /// where that is empty.
    pub(crate) fn effective(&self, place: usize, keyword: &str, second: &str) -> Option<usize> {
        let mut at = Some(place);
        for _ in 0..self.sections.len() {
            let here = at?;
            if let Some(line) = self.last_line(here, keyword, second) {
                return Some(line);
            }
            at = self.sections.get(here)?.defaults;
        }
        None
    }

    fn last_line(&self, place: usize, keyword: &str, second: &str) -> Option<usize> {
        let section = self.sections.get(place)?;
        let mut last = None;
        for (number, line) in self.lines.iter().enumerate() {
            if number > section.first
                && number < section.end
                && begins(line.words.as_slice(), keyword, second)
            {
                last = Some(number);
            }
        }
        last
    }
}

/// Whether words begin with these two; any second word where that is empty.
pub(crate) fn begins(words: &[Vec<u8>], keyword: &str, second: &str) -> bool {
    is_word(word_at(words, 0), keyword) && (second.is_empty() || is_word(word_at(words, 1), second))
}

/// The names of the files of patterns that a file's lines name by `-f`.
pub(crate) fn pattern_files(alloc: Global, lines: &[SourceLine]) -> Result<Vec<Vec<u8>>, NoMemory> {
    let mut names = Vec::new(alloc);
    for line in lines {
        let mut is_next = false;
        for word in &line.words {
            if is_next {
                names.push(copy_text(alloc, word.as_slice())?)?;
            }
            is_next = is_word(word.as_slice(), "-f");
        }
    }
    Ok(names)
}
