//! `stickd ctl save`: what a running stickd's tables hold, as the lines that `--load` reads; `asking` calls `save_tables`.

ghost use Rattle.std.specs.Prelude.{◌≡◌};
ghost use Rattle.std.specs.List.{list_all};
ghost use Rattle.stickd_ctl.specs.Names as spec;

use crate::client::{BAD_WORDS, DONE, FAILED, Peer, answer_told, say_no_memory, show};
use crate::errors::is_error;
use crate::lines::{read_header, split_at_first};
use crate::replacing::{replace_file, try_to_replace};
use crate::saved::Saved;
use crate::show_table::{oldest_first_command, show_command};
use base_lines::Parts;
use base_sequence::NoMemory;
use std::alloc::Global;
use std::net::Net;
use std::rt::Files;
use std::time::Clock;
use std::{io, str};

/// What asks for the headers of all tables.
const SHOW: &[u8] = b"show table";

/// Whether a byte parts no words, commands or lines.
fn parts_none(byte: u8) -> bool
    ensures { result ≡ spec.parts_none byte }
{
    byte != b' ' && byte != b'\t' && byte != b'\n' && byte != b';'
}

/// Whether no byte of a text parts words, commands or lines.
fn is_one_word(word: &[u8]) -> bool
    ensures { result ≡ list_all spec.parts_none word.now }
{
    word.iter().all(|byte| parts_none(*byte))
}

/// Whether a text can be sent as a table's name: it is one word of one command.
pub fn is_name(word: &[u8]) -> bool
    ensures { result ≡ spec.is_name word.now }
{
    !word.is_empty() && is_one_word(word)
}

/// The names of the tables whose lines stand in an answer.
fn names_in(alloc: Global, answer: &[u8]) -> Result<Vec<&[u8]>, NoMemory> {
    let mut names = Vec::new(alloc);
    let mut lines = Parts::new(answer, b'\n');
    while let Some(line) = lines.next() {
        if let Some(header) = read_header(line) {
            names.push(header.name)?;
        }
    }
    Ok(names)
}

/// The names that words are.
fn names_of<'a>(alloc: Global, words: &[&'a str]) -> Result<Vec<&'a [u8]>, NoMemory> {
    let mut names = Vec::new(alloc);
    for word in words {
        names.push(word.as_bytes())?;
    }
    Ok(names)
}

/// Why a table wasn't saved or exported, with the status that this comes to.
pub(crate) enum Unsaved {
    /// It is said already.
    Said(u8),
    Memory,
    Output(io::Error),
}

impl From<NoMemory> for Unsaved {
    fn from(_refused: NoMemory) -> Unsaved {
        Unsaved::Memory
    }
}

impl From<io::Error> for Unsaved {
    fn from(reason: io::Error) -> Unsaved {
        Unsaved::Output(reason)
    }
}

/// What a command is answered, where it did something.
pub(crate) fn asked<R: Net + Clock + Eprint + AllocGlobal>(
    rt: &R,
    peer: Peer<'_>,
    command: &[u8],
) -> Result<Vec<u8>, Unsaved> {
    let Some(answer) = answer_told(rt, peer, command)? else {
        return Err(Unsaved::Said(FAILED));
    };
    if is_error(&answer) {
        let (said, _rest) = split_at_first(&answer, b'\n');
        let (command, said) = (str::from_utf8(command), str::from_utf8(said));
        eprintln!(rt;
            "stickd: '{}' is answered '{}'",
            command.unwrap_or("?"),
            said.unwrap_or("?")
        )?;
        return Err(Unsaved::Said(FAILED));
    }
    if !answer.ends_with(b"\n\n") {
        let path = peer.path;
        eprintln!(rt; "stickd: {path} was closed before the answer's end")?;
        return Err(Unsaved::Said(FAILED));
    }
    Ok(answer)
}

/// What a table of this name holds, in the order in which its entries go. None where nobody there tells that, as a command socket, or
/// a stickd that is older; then `show table` tells the rest, or why it doesn't.
fn asked_oldest_first<R: Net + Clock + Eprint + AllocGlobal>(
    rt: &R,
    peer: Peer<'_>,
    name: &[u8],
) -> Result<Option<Vec<u8>>, Unsaved> {
    let command = oldest_first_command(rt.alloc(), name)?;
    let Some(answer) = answer_told(rt, peer, command.as_slice())? else {
        return Err(Unsaved::Said(FAILED));
    };
    if is_error(&answer) || !answer.ends_with(b"\n\n") {
        return Ok(None);
    }
    Ok(Some(answer))
}

/// Adds what a table holds.
fn save_table<R: Net + Clock + Eprint + AllocGlobal>(
    rt: &R,
    peer: Peer<'_>,
    name: &[u8],
    saved: &mut Saved,
) -> Result<(), Unsaved> {
    if let Some(listing) = asked_oldest_first(rt, peer, name)? {
        saved.add(name, listing.as_slice(), true)?;
        return Ok(());
    }
    let command = show_command(rt.alloc(), name)?;
    let listing = asked(rt, peer, command.as_slice())?;
    saved.add(name, listing.as_slice(), false)?;
    Ok(())
}

/// Adds what each of these tables holds.
fn save_each<R: Net + Clock + Eprint + AllocGlobal>(
    rt: &R,
    peer: Peer<'_>,
    names: &[&[u8]],
    saved: &mut Saved,
) -> Result<(), Unsaved> {
    for name in names {
        save_table(rt, peer, name, saved)?;
    }
    Ok(())
}

/// What the tables of these names hold; of all, where none are named.
fn saved_text<R: Net + Clock + Eprint + AllocGlobal>(
    rt: &R,
    peer: Peer<'_>,
    words: &[&str],
) -> Result<Vec<u8>, Unsaved> {
    let mut saved = Saved::new(rt.alloc());
    if words.is_empty() {
        let headers = asked(rt, peer, SHOW)?;
        let names = names_in(rt.alloc(), headers.as_slice())?;
        save_each(rt, peer, names.as_slice(), &mut saved)?;
    } else {
        let names = names_of(rt.alloc(), words)?;
        save_each(rt, peer, names.as_slice(), &mut saved)?;
    }
    Ok(saved.into_text()?)
}

/// The first of some words that is no table's name.
fn first_bad<'a>(words: &[&'a str]) -> Option<&'a str> {
    for word in words {
        if !is_name(word.as_bytes()) {
            return Some(word);
        }
    }
    None
}

/// Writes a text to a file, whole, or says why that can't be done. Answers the status.
fn save_to<R: Files + Eprint + AllocGlobal>(rt: &R, path: &str, text: &[u8]) -> io::Result<u8> {
    let written = match try_to_replace(rt.alloc(), rt, path) {
        Ok(()) => replace_file(rt.alloc(), path, text),
        Err(reason) => Err(reason),
    };
    match written {
        Ok(()) => Ok(DONE),
        Err(reason) => {
            eprintln!(rt; "stickd: {path} can't be written: {reason}")?;
            Ok(FAILED)
        }
    }
}

/// Writes what the tables of these names hold, or all tables, to a file or else to standard output, as lines that `--load` reads.
/// Answers the status: 0; 1 where nobody answers, there is no such table, or the file can't be written, which is said on standard
/// error, and nothing is written; 2 where a word is no table's name.
pub(crate) fn save_tables<R: Net + Files + Clock + Print + Eprint + AllocGlobal>(
    rt: &R,
    peer: Peer<'_>,
    words: &[&str],
    to: Option<&str>,
) -> io::Result<u8> {
    if let Some(word) = first_bad(words) {
        eprintln!(rt; "stickd: '{word}' is no table's name")?;
        return Ok(BAD_WORDS);
    }
    let text = match saved_text(rt, peer, words) {
        Ok(text) => text,
        Err(Unsaved::Said(status)) => return Ok(status),
        Err(Unsaved::Memory) => return say_no_memory(rt),
        Err(Unsaved::Output(reason)) => return Err(reason),
    };
    let Some(path) = to else {
        show(rt, text.as_slice())?;
        return Ok(DONE);
    };
    save_to(rt, path, text.as_slice())
}
