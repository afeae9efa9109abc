//! The sections of a file; `choices` reads them, and the plan has them.

use crate::lexer::SourceLine;
use crate::plan::begins;
use crate::texts::{append_str, copy_text, is_word, word_at};
use base_sequence::NoMemory;
use std::alloc::Global;

/// What a section is.
#[derive(Clone, Copy, PartialEq, Eq)]
pub enum Kind {
    Global,
    Defaults,
    Frontend,
    Backend,
    Listen,
    Other,
}

/// A section.
#[derive(Drop)]
pub struct Section {
    pub kind: Kind,
    pub name: Vec<u8>,
    /// Its name in what is written.
    pub new_name: Vec<u8>,
    /// The line that begins it.
    pub first: usize,
    /// The line behind its last one.
    pub end: usize,
    /// The section `defaults` that it has.
    pub defaults: Option<usize>,
    pub is_http: bool,
    pub is_off: bool,
    pub has_table: bool,
    pub has_bind: bool,
    pub has_server: bool,
}

/// The kinds of sections by their keywords.
const KINDS: [(&str, Kind); 20] = [
    ("global", Kind::Global),
    ("defaults", Kind::Defaults),
    ("frontend", Kind::Frontend),
    ("backend", Kind::Backend),
    ("listen", Kind::Listen),
    ("peers", Kind::Other),
    ("mailers", Kind::Other),
    ("program", Kind::Other),
    ("userlist", Kind::Other),
    ("resolvers", Kind::Other),
    ("cache", Kind::Other),
    ("ring", Kind::Other),
    ("http-errors", Kind::Other),
    ("fcgi-app", Kind::Other),
    ("log-forward", Kind::Other),
    ("log-profile", Kind::Other),
    ("traces", Kind::Other),
    ("crt-store", Kind::Other),
    ("acme", Kind::Other),
    ("haterm", Kind::Other),
];

/// The kind of section that a word begins.
pub(crate) fn kind_of(word: &[u8]) -> Option<Kind> {
    for (text, kind) in &KINDS {
        if is_word(word, text) {
            return Some(*kind);
        }
    }
    None
}

impl Section {
    /// Whether it is a frontend, or a listen section.
    pub(crate) fn has_frontend(&self) -> bool {
        matches!(self.kind, Kind::Frontend | Kind::Listen)
    }

    /// Whether it is a backend, or a listen section.
    pub(crate) fn has_backend(&self) -> bool {
        matches!(self.kind, Kind::Backend | Kind::Listen)
    }
}

/// The section that a line begins, up to the end of the file yet.
fn open_section(
    alloc: Global,
    kind: Kind,
    line: &SourceLine,
    first: usize,
    end: usize,
) -> Result<Section, NoMemory> {
    let words = line.words.as_slice();
    let named = word_at(words, 1);
    let name = if is_word(named, "from") && kind == Kind::Defaults {
        b""
    } else {
        named
    };
    Ok(Section {
        kind,
        name: copy_text(alloc, name)?,
        new_name: copy_text(alloc, name)?,
        first,
        end,
        defaults: None,
        is_http: false,
        is_off: false,
        has_table: false,
        has_bind: false,
        has_server: false,
    })
}

/// The sections, in order, without what their defaults say.
fn find_sections(alloc: Global, lines: &[SourceLine]) -> Result<Vec<Section>, NoMemory> {
    let mut sections: Vec<Section> = Vec::new(alloc);
    for (number, line) in lines.iter().enumerate() {
        let Some(kind) = kind_of(word_at(line.words.as_slice(), 0)) else {
            continue;
        };
        if let Some(last) = sections.last_mut() {
            last.end = number;
        }
        sections.push(open_section(alloc, kind, line, number, lines.len())?)?;
    }
    Ok(sections)
}

/// The name behind `from` in a section's first line.
fn parent_name(words: &[Vec<u8>]) -> Option<&[u8]> {
    if is_word(word_at(words, 2), "from") {
        return Some(word_at(words, 3));
    }
    if is_word(word_at(words, 0), "defaults") && is_word(word_at(words, 1), "from") {
        return Some(word_at(words, 2));
    }
    None
}

/// The last section `defaults` before a section: of this name where there is one.
fn defaults_before(sections: &[Section], place: usize, name: Option<&[u8]>) -> Option<usize> {
    let mut found = None;
    for (number, section) in sections.iter().enumerate() {
        if number >= place || section.kind != Kind::Defaults {
            continue;
        }
        match name {
            Some(name) => {
                if section.name.as_slice() == name {
                    found = Some(number);
                }
            }
            None => found = Some(number),
        }
    }
    found
}

/// The section `defaults` that a section has.
fn defaults_of(lines: &[SourceLine], sections: &[Section], place: usize) -> Option<usize> {
    let section = sections.get(place)?;
    let line = lines.get(section.first)?;
    let parent = parent_name(line.words.as_slice());
    match section.kind {
        Kind::Defaults => {
            parent?;
            defaults_before(sections, place, parent)
        }
        Kind::Frontend | Kind::Backend | Kind::Listen => defaults_before(sections, place, parent),
        Kind::Global | Kind::Other => None,
    }
}

/// Whether a section has a line that begins so.
fn has_line(lines: &[SourceLine], section: &Section, keyword: &str) -> bool {
    for (number, line) in lines.iter().enumerate() {
        if number > section.first
            && number < section.end
            && begins(line.words.as_slice(), keyword, "")
        {
            return true;
        }
    }
    false
}

/// What a section itself says by `mode`: whether that is http.
fn own_mode(lines: &[SourceLine], section: &Section) -> Option<bool> {
    let mut is_http = None;
    for (number, line) in lines.iter().enumerate() {
        if number > section.first
            && number < section.end
            && begins(line.words.as_slice(), "mode", "")
        {
            is_http = Some(is_word(word_at(line.words.as_slice(), 1), "http"));
        }
    }
    is_http
}

/// Fills in what the lines of a section and its defaults say.
fn fill_section(lines: &[SourceLine], sections: &mut Vec<Section>, place: usize) {
    let defaults = defaults_of(lines, sections.as_slice(), place);
    let inherits_http = match defaults {
        Some(parent) => match sections.get(parent) {
            Some(section) => section.is_http,
            None => false,
        },
        None => false,
    };
    let Some(section) = sections.get_mut(place) else {
        return;
    };
    let is_http = own_mode(lines, section).unwrap_or(inherits_http);
    let is_off = has_line(lines, section, "disabled");
    let has_table = has_line(lines, section, "stick-table");
    let has_bind = has_line(lines, section, "bind");
    let has_server = has_line(lines, section, "server");
    section.defaults = defaults;
    section.is_http = is_http;
    section.is_off = is_off;
    section.has_table = has_table;
    section.has_bind = has_bind;
    section.has_server = has_server;
}

/// Whether a frontend or a listen section has this name.
fn is_taken(sections: &[Section], name: &[u8]) -> bool {
    for section in sections {
        if section.name.as_slice() == name {
            return true;
        }
    }
    false
}

/// A name for a backend whose own a frontend has.
fn free_name(alloc: Global, sections: &[Section], name: &[u8]) -> Result<Vec<u8>, NoMemory> {
    let mut free = copy_text(alloc, name)?;
    append_str(&mut free, "_backend")?;
    for _ in 0..sections.len() {
        if !is_taken(sections, free.as_slice()) {
            return Ok(free);
        }
        append_str(&mut free, "_")?;
    }
    Ok(free)
}

/// Whether a frontend or listen section has the name of this backend.
fn is_frontends_name(sections: &[Section], name: &[u8]) -> bool {
    for section in sections {
        if section.has_frontend() && section.name.as_slice() == name {
            return true;
        }
    }
    false
}

/// Gives a backend another name where a frontend has its own.
fn rename(alloc: Global, sections: &mut Vec<Section>, place: usize) -> Result<(), NoMemory> {
    let Some(section) = sections.get(place) else {
        return Ok(());
    };
    if section.kind != Kind::Backend
        || !is_frontends_name(sections.as_slice(), section.name.as_slice())
    {
        return Ok(());
    }
    let name = free_name(alloc, sections.as_slice(), section.name.as_slice())?;
    if let Some(section) = sections.get_mut(place) {
        section.new_name = name;
    }
    Ok(())
}

/// The sections of a file, in order.
pub(crate) fn read_sections(alloc: Global, lines: &[SourceLine]) -> Result<Vec<Section>, NoMemory> {
    let mut sections = find_sections(alloc, lines)?;
    for place in 0..sections.len() {
        fill_section(lines, &mut sections, place);
        rename(alloc, &mut sections, place)?;
    }
    Ok(sections)
}
