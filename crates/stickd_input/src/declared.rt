//! The names that a file declares.

use crate::expected::Expected;
use crate::guesses::{Near, or_next};
use crate::suspects::{Suspect, is_among, word_at};
use base_lines::{Blanks, Words, before_parenthesis, inside};
use base_sequence::NoMemory;
use rule_words::{Lines, before_comment, next_or_empty};
use std::alloc::Global;

/// What a line declares.
#[derive(Clone, Copy, Debug, PartialEq, Eq)]
pub(crate) enum Kind {
    Frontend,
    /// A section that has a server, `listen` among them.
    Backend,
    /// A section's table, which has the section's name.
    Table,
    Acl,
}

/// A name that a line declares.
#[derive(Clone, Copy)]
struct Name<'a> {
    kind: Kind,
    line: u64,
    text: &'a [u8],
}

/// The names that a file declares, seen from a line.
#[derive(Drop)]
pub(crate) struct Declared<'a> {
    names: Vec<Name<'a>>,
    /// The name of the section that was declared last.
    last: &'a [u8],
    /// The line's number.
    line: u64,
}

impl<'a> Declared<'a> {
    /// What a text declares, seen from the line of this number.
    pub(crate) fn of(alloc: Global, text: &'a [u8], line: u64) -> Result<Self, NoMemory> {
        let mut declared = Declared {
            names: Vec::new(alloc),
            last: b"",
            line,
        };
        let mut lines = Lines::new(text);
        for others in 0..=text.len() {
            let Some(next) = lines.next() else {
                return Ok(declared);
            };
            declared.note(others as u64 + 1, next)?;
        }
        Ok(declared)
    }

    /// Notes what the line of this number declares.
    fn note(&mut self, number: u64, line: &'a [u8]) -> Result<(), NoMemory> {
        let mut words = Words::new(before_comment(line), Blanks::SpacesAndTabs);
        let keyword = next_or_empty(&mut words);
        let name = next_or_empty(&mut words);
        if keyword == b"frontend".as_slice() {
            self.last = name;
            return self.push(Kind::Frontend, number, name);
        }
        if is_among(keyword, &["backend", "listen"]) {
            self.last = name;
            return self.push(Kind::Backend, number, name);
        }
        if keyword == b"stick-table".as_slice() {
            return self.push(Kind::Table, number, self.last);
        }
        if keyword == b"acl".as_slice() {
            return self.push(Kind::Acl, number, name);
        }
        Ok(())
    }

    fn push(&mut self, kind: Kind, line: u64, text: &'a [u8]) -> Result<(), NoMemory> {
        self.names.push(Name { kind, line, text })?;
        Ok(())
    }

    /// The line's section: its name, and the number of the line that begins it.
    fn section(&self) -> (&'a [u8], u64) {
        let mut found: (&[u8], u64) = (b"", 0);
        for name in &self.names {
            let is_heading = matches!(name.kind, Kind::Frontend | Kind::Backend);
            if is_heading && name.line <= self.line {
                found = (name.text, name.line);
            }
        }
        found
    }

    /// Whether a name of this kind may stand in the line: of ACLs those that are declared above, in its section.
    fn may_name(&self, name: &Name<'_>, kind: Kind) -> bool {
        let (_, first) = self.section();
        let is_near = name.line > first && name.line < self.line;
        name.kind == kind && (kind != Kind::Acl || is_near)
    }

    /// Whether a name of this kind is declared.
    fn has(&self, kind: Kind, text: &[u8]) -> bool {
        for name in &self.names {
            if name.text == text && self.may_name(name, kind) {
                return true;
            }
        }
        false
    }

    /// The declared name of this kind that is nearest to a word.
    pub(crate) fn nearest(
        &self,
        alloc: Global,
        kind: Kind,
        word: &[u8],
    ) -> Result<Option<Near<'a>>, NoMemory> {
        let mut best = None;
        for name in &self.names {
            if self.may_name(name, kind) {
                best = or_next(alloc, word, best, name.text)?;
            }
        }
        Ok(best)
    }
}

/// The word of a line that means a table which isn't there.
pub(crate) fn wrong_table<'a>(words: &[&'a [u8]], declared: &Declared<'_>) -> Option<Suspect<'a>> {
    let (own, _) = declared.section();
    let has_own = declared.has(Kind::Table, own);
    let is_track = word_at(words, 2).starts_with(b"track-sc".as_slice());
    if is_track && word_at(words, 4) == b"table".as_slice() {
        let name = word_at(words, 5);
        if !declared.has(Kind::Table, name) {
            return Some(Suspect::new(name, Expected::Table));
        }
    } else if is_track && !has_own {
        return Some(Suspect::new(word_at(words, 2), Expected::OwnTable));
    }
    for word in words {
        let (base, rest) = before_parenthesis(word);
        if !base.starts_with(b"src_".as_slice()) || is_among(word, &["src_port"]) {
            continue;
        }
        match inside(rest) {
            Some(name) if !declared.has(Kind::Table, name) => {
                return Some(Suspect::new(name, Expected::Table));
            }
            None if !has_own => return Some(Suspect::new(word, Expected::OwnTable)),
            _ => {}
        }
    }
    None
}

/// The word of a condition that should be an ACL's name and isn't.
pub(crate) fn wrong_acl<'a>(words: &[&'a [u8]], declared: &Declared<'_>) -> Option<Suspect<'a>> {
    let mut is_open = false;
    for word in words {
        let bare = word.strip_prefix(b"!".as_slice()).unwrap_or(word);
        if is_open || bare == b"{".as_slice() {
            is_open = *word != b"}".as_slice();
            continue;
        }
        if bare.is_empty() || is_among(bare, &["or", "||", "TRUE", "FALSE"]) {
            continue;
        }
        if !declared.has(Kind::Acl, bare) {
            let is_brace = bare.starts_with(b"{".as_slice());
            let expected = if is_brace {
                Expected::Brace
            } else {
                Expected::Acl
            };
            return Some(Suspect::new(bare, expected));
        }
    }
    None
}
