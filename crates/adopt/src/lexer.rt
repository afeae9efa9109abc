//! The words of a line, as HAProxy reads them; `source_lines` calls `read_line`, and the plan keeps its lines.
//!
//! Quotes, escapes and variables are resolved (HAProxy Configuration Manual 2.6, sections 2.2 and 2.3).

ghost use Rattle.std.specs.Prelude.{◌≡◌, IfOk};

use crate::texts::{Words, copy_text};
use crate::variables::{Variable, value_of};
use base_sequence::NoMemory;
use std::alloc::Global;
use std::mem;

/// A line of a file.
#[derive(Drop)]
pub struct SourceLine {
    /// The line without its end.
    pub raw: Vec<u8>,
    /// Its words, without quotes, escapes and variables.
    pub words: Words,
    /// Its comment, from `#` on; empty where there is none.
    pub comment: Vec<u8>,
    /// Whether no quote, apostrophe, backslash or `$` stands before the comment.
    pub is_plain: bool,
    /// Whether each quote is closed.
    pub is_whole: bool,
}

/// What the byte in hand stands in.
#[derive(Clone, Copy)]
enum Quoting {
    Unquoted,
    Double,
    Single,
}

/// A line that is being read.
#[derive(Drop)]
struct Lexer {
    words: Words,
    word: Vec<u8>,
    /// Whether a word has begun, which an empty pair of quotes does too.
    has_word: bool,
    quoting: Quoting,
    is_plain: bool,
    comment: Vec<u8>,
}

fn is_blank(byte: u8) -> bool {
    byte == b' ' || byte == b'\t'
}

fn byte_at(line: &[u8], place: usize) -> u8 {
    match line.get(place) {
        Some(byte) => *byte,
        None => 0,
    }
}

/// The value of a hexadecimal digit.
fn hex_value(digit: u8) -> Option<u8> {
    match digit {
        b'0'..=b'9' => Some(digit - b'0'),
        b'a'..=b'f' => Some(digit - b'a' + 10),
        b'A'..=b'F' => Some(digit - b'A' + 10),
        _ => None,
    }
}

/// The byte of two hexadecimal digits.
fn hex_byte(first: u8, second: u8) -> Option<u8> {
    let high = hex_value(first)?;
    let low = hex_value(second)?;
    Some(high.wrapping_mul(16).wrapping_add(low))
}

/// The byte that stands for itself, or for another, behind a backslash.
fn escaped(byte: u8) -> Option<u8> {
    match byte {
        b'n' => Some(b'\n'),
        b'r' => Some(b'\r'),
        b't' => Some(b'\t'),
        b' ' | b'\\' | b'#' | b'"' | b'\'' | b'$' => Some(byte),
        _ => None,
    }
}

/// Where the name of a variable ends that begins here.
fn name_end(line: &[u8], start: usize) -> usize {
    for (place, byte) in line.iter().enumerate() {
        let in_name = byte.is_ascii_alphanumeric() || *byte == b'_' || *byte == b'.';
        if place >= start && !in_name {
            return place;
        }
    }
    line.len()
}

/// Where a byte stands next.
fn next_place(line: &[u8], start: usize, wanted: u8) -> Option<usize> {
    for (place, byte) in line.iter().enumerate() {
        if place >= start && *byte == wanted {
            return Some(place);
        }
    }
    None
}

/// The part of a line from a place up to another.
fn part_of(line: &[u8], start: usize, end: usize) -> &[u8] {
    if start <= end && end <= line.len() {
        &line[start..end]
    } else {
        b""
    }
}

impl Lexer {
    fn new(alloc: Global) -> Lexer {
        Lexer {
            words: Vec::new(alloc),
            word: Vec::new(alloc),
            has_word: false,
            quoting: Quoting::Unquoted,
            is_plain: true,
            comment: Vec::new(alloc),
        }
    }

    fn push(&mut self, byte: u8) -> Result<(), NoMemory> {
        self.has_word = true;
        self.word.push(byte)?;
        Ok(())
    }

    fn end_word(&mut self, alloc: Global) -> Result<(), NoMemory> {
        if !self.has_word {
            return Ok(());
        }
        self.has_word = false;
        let word = mem::replace(&mut self.word, Vec::new(alloc));
        self.words.push(word)?;
        Ok(())
    }

    /// Reads an escape, and answers the place behind it.
    fn read_escape(&mut self, line: &[u8], place: usize) -> Result<usize, NoMemory> {
        self.is_plain = false;
        let next = byte_at(line, place.saturating_add(1));
        if next == b'x' {
            let first = byte_at(line, place.saturating_add(2));
            let second = byte_at(line, place.saturating_add(3));
            if let Some(byte) = hex_byte(first, second) {
                self.push(byte)?;
                return Ok(place.saturating_add(4));
            }
        }
        if let Some(byte) = escaped(next) {
            self.push(byte)?;
            return Ok(place.saturating_add(2));
        }
        self.push(b'\\')?;
        Ok(place.saturating_add(1))
    }

    /// Puts a variable's value in. `several` makes each of its words a word.
    fn push_value(&mut self, alloc: Global, value: &[u8], several: bool) -> Result<(), NoMemory> {
        for byte in value {
            if several && is_blank(*byte) {
                self.end_word(alloc)?;
            } else {
                self.push(*byte)?;
            }
        }
        Ok(())
    }

    /// Reads a variable, and answers the place behind it.
    fn read_variable(
        &mut self,
        alloc: Global,
        line: &[u8],
        place: usize,
        variables: &[Variable],
    ) -> Result<usize, NoMemory> {
        self.is_plain = false;
        let behind = place.saturating_add(1);
        if byte_at(line, behind) != b'{' {
            let end = name_end(line, behind);
            let name = part_of(line, behind, end);
            self.push_value(alloc, value_of(variables, name).unwrap_or(b""), false)?;
            return Ok(end);
        }
        let start = behind.saturating_add(1);
        let Some(closing) = next_place(line, start, b'}') else {
            return Ok(line.len());
        };
        let end = name_end(line, start);
        let name = part_of(line, start, end);
        let rest = part_of(line, end, closing);
        let several = rest == b"[*]".as_slice();
        let fallback = match rest.split_first() {
            Some((first, other)) if *first == b'-' => other,
            _ => b"".as_slice(),
        };
        self.push_value(
            alloc,
            value_of(variables, name).unwrap_or(fallback),
            several,
        )?;
        Ok(closing.saturating_add(1))
    }

    /// Reads what stands outside of quotes, and answers the place behind it.
    fn read_unquoted(
        &mut self,
        alloc: Global,
        line: &[u8],
        place: usize,
    ) -> Result<usize, NoMemory> {
        let byte = byte_at(line, place);
        if byte == b'#' {
            self.comment = copy_text(alloc, part_of(line, place, line.len()))?;
            return Ok(line.len());
        }
        if byte == b'"' || byte == b'\'' {
            self.is_plain = false;
            self.has_word = true;
            self.quoting = if byte == b'"' {
                Quoting::Double
            } else {
                Quoting::Single
            };
            return Ok(place.saturating_add(1));
        }
        if byte == b'\\' {
            return self.read_escape(line, place);
        }
        if byte == b'$' {
            self.is_plain = false;
        }
        if is_blank(byte) {
            self.end_word(alloc)?;
            return Ok(place.saturating_add(1));
        }
        self.push(byte)?;
        Ok(place.saturating_add(1))
    }

    /// Reads the byte at a place, with what belongs to it, and answers the place behind.
    fn read(
        &mut self,
        alloc: Global,
        line: &[u8],
        place: usize,
        variables: &[Variable],
    ) -> Result<usize, NoMemory> {
        let byte = byte_at(line, place);
        match self.quoting {
            Quoting::Unquoted => return self.read_unquoted(alloc, line, place),
            Quoting::Single => {
                if byte == b'\'' {
                    self.quoting = Quoting::Unquoted;
                    return Ok(place.saturating_add(1));
                }
            }
            Quoting::Double => {
                if byte == b'"' {
                    self.quoting = Quoting::Unquoted;
                    return Ok(place.saturating_add(1));
                }
                if byte == b'\\' {
                    return self.read_escape(line, place);
                }
                if byte == b'$' {
                    return self.read_variable(alloc, line, place, variables);
                }
            }
        }
        self.push(byte)?;
        Ok(place.saturating_add(1))
    }

    fn finish(mut self, alloc: Global, raw: Vec<u8>) -> Result<SourceLine, NoMemory>
        ensures { IfOk result (λ line. line.raw ≡ raw) }
    {
        self.end_word(alloc)?;
        let Lexer {
            words,
            word: _,
            has_word: _,
            quoting,
            is_plain,
            comment,
        } = self;
        Ok(SourceLine {
            raw,
            words,
            comment,
            is_plain,
            is_whole: matches!(quoting, Quoting::Unquoted),
        })
    }
}

/// The words of a line.
pub(crate) fn read_line(
    alloc: Global,
    line: &[u8],
    variables: &[Variable],
) -> Result<SourceLine, NoMemory>
    ensures { IfOk result (λ read. read.raw.items ≡ line.now) }
{
    let mut lexer = Lexer::new(alloc);
    let mut next = 0;
    for place in 0..line.len() {
        if place >= next {
            next = lexer.read(alloc, line, place, variables)?;
        }
    }
    lexer.finish(alloc, copy_text(alloc, line)?)
}
