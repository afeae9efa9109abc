//! `stickd top`: the entries of a table with the greatest numbers.

use crate::client::{DONE, FAILED, answer_of, is_on_terminal, say_no_memory, show};
use crate::columns::{Texts, columns};
use crate::errors::is_error;
use crate::lines::{bare_name, is_row, key_of, name_of, number_of_word, read_header, value_of};
use crate::ranking::greatest;
use crate::show_table::show_command;
use crate::terminal::{HOME, read_window};
use crate::window::Window;
use base_lines::{Parts, before_parenthesis, push_decimal};
use base_sequence::NoMemory;
use std::alloc::Global;
use std::net::Net;
use std::rt::Env;
use std::time::{Clock, Duration};
use std::{io, str, thread};

/// What is shown where no terminal bounds it.
const UNBOUNDED: Window = Window {
    lines: usize::MAX,
    columns: usize::MAX,
};

/// What `stickd top` is asked.
#[derive(Clone, Copy, Drop)]
pub struct Top<'a> {
    /// Where stickd answers commands.
    pub path: &'a str,
    /// The table, which may be left out where there is one.
    pub table: Option<&'a str>,
    /// The number by which entries are shown.
    pub by: Option<&'a str>,
    /// How many entries are shown at most.
    pub rows: usize,
}

/// What a picture of a table is.
#[derive(Drop)]
enum Picture {
    /// Its entries with the greatest numbers, as lines.
    Lines(Vec<u8>),
    /// Its entries have no such number, but these.
    NoSuchNumber(Vec<u8>),
}

/// The parts of a text round a byte.
fn parts_of(alloc: Global, text: &[u8], separator: u8) -> Result<Vec<&[u8]>, NoMemory> {
    let mut all = Vec::new(alloc);
    let mut parts = Parts::new(text, separator);
    while let Some(part) = parts.next() {
        all.push(part)?;
    }
    Ok(all)
}

/// The lines of an answer that are entries.
fn rows_of(alloc: Global, answer: &[u8]) -> Result<Vec<&[u8]>, NoMemory> {
    let mut rows = Vec::new(alloc);
    for line in parts_of(alloc, answer, b'\n')? {
        if is_row(line) {
            rows.push(line)?;
        }
    }
    Ok(rows)
}

/// The names of tables that an answer shows.
fn tables_of(alloc: Global, answer: &[u8]) -> Result<Vec<&[u8]>, NoMemory> {
    let mut names = Vec::new(alloc);
    for line in parts_of(alloc, answer, b'\n')? {
        if let Some(header) = read_header(line) {
            names.push(header.name)?;
        }
    }
    Ok(names)
}

/// Texts with a comma and a blank between any two.
fn listed(alloc: Global, texts: &[&[u8]]) -> Result<Vec<u8>, NoMemory> {
    let mut list = Vec::new(alloc);
    for (place, text) in texts.iter().enumerate() {
        if place > 0 {
            list.extend_from_slice(b", ")?;
        }
        list.extend_from_slice(text)?;
    }
    Ok(list)
}

/// The numbers of an entry with their names: its words but for the address and the key.
fn numbers_of(alloc: Global, row: &[u8]) -> Result<Vec<&[u8]>, NoMemory> {
    let mut numbers = Vec::new(alloc);
    for (place, word) in parts_of(alloc, row, b' ')?.into_iter().enumerate() {
        if place >= 2 {
            numbers.push(word)?;
        }
    }
    Ok(numbers)
}

/// The number by which entries are shown where none is asked for: `conn_cur` where they have it, else the first that the
/// table stores, else their connections.
fn usual_number<'a>(words: &[&'a [u8]]) -> &'a [u8] {
    for word in words {
        if bare_name(word) == b"conn_cur".as_slice() {
            return b"conn_cur";
        }
    }
    match words.get(2) {
        Some(word) => bare_name(word),
        None => b"use",
    }
}

/// The headings of columns.
fn heading(alloc: Global, words: &[&[u8]]) -> Result<Texts, NoMemory> {
    let mut texts = Vec::new(alloc);
    texts.push(Vec::from_slice(alloc, b"key")?)?;
    for word in words {
        texts.push(Vec::from_slice(alloc, name_of(word))?)?;
    }
    Ok(texts)
}

/// A number as it is shown: what is left of a life in seconds.
fn shown_number(alloc: Global, word: &[u8]) -> Result<Vec<u8>, NoMemory> {
    let number = number_of_word(word).unwrap_or(0);
    let shown = if name_of(word) == b"exp".as_slice() {
        number / 1000
    } else {
        number
    };
    let mut text = Vec::new(alloc);
    push_decimal(&mut text, shown)?;
    Ok(text)
}

/// The texts of an entry.
fn texts_of(alloc: Global, row: &[u8]) -> Result<Texts, NoMemory> {
    let mut texts = Vec::new(alloc);
    texts.push(Vec::from_slice(alloc, key_of(row))?)?;
    for word in numbers_of(alloc, row)? {
        texts.push(shown_number(alloc, word)?)?;
    }
    Ok(texts)
}

/// The entries with the greatest numbers of this name, below their headings.
fn grid(
    alloc: Global,
    rows: &[&[u8]],
    words: &[&[u8]],
    name: &[u8],
    most: usize,
) -> Result<Vec<Texts>, NoMemory> {
    let mut values = Vec::new(alloc);
    for row in rows {
        values.push(value_of(row, name).unwrap_or(0))?;
    }
    let mut lines = Vec::new(alloc);
    lines.push(heading(alloc, words)?)?;
    for ranked in &greatest(alloc, &values, most)? {
        if let Some(row) = rows.get(ranked.place) {
            lines.push(texts_of(alloc, row)?)?;
        }
    }
    Ok(lines)
}

/// A picture of the table that an answer shows, with no more entries than a window has room for.
fn draw(
    alloc: Global,
    answer: &[u8],
    asked: &Top<'_>,
    window: Window,
) -> Result<Picture, NoMemory> {
    let rows = rows_of(alloc, answer)?;
    let words = match rows.first() {
        Some(row) => numbers_of(alloc, row)?,
        None => parts_of(alloc, b"use exp", b' ')?,
    };
    let (name, _period) = match asked.by {
        Some(name) => before_parenthesis(name.as_bytes()),
        None => before_parenthesis(usual_number(&words)),
    };
    if !rows.is_empty() && !words.iter().any(|word| bare_name(word) == name) {
        return Ok(Picture::NoSuchNumber(names_of(alloc, &words)?));
    }
    let most = asked.rows.min(window.entries());
    let lines = grid(alloc, &rows, &words, name, most)?;
    Ok(Picture::Lines(columns(alloc, &lines, window.columns)?))
}

/// The names of numbers, as a list.
fn names_of(alloc: Global, words: &[&[u8]]) -> Result<Vec<u8>, NoMemory> {
    let mut names = Vec::new(alloc);
    for word in words {
        names.push(bare_name(word))?;
    }
    listed(alloc, &names)
}

/// Says on standard error something that ends in a text, and answers the status.
fn say<R: Eprint>(rt: &R, before: &str, text: &[u8]) -> io::Result<u8> {
    let text = str::from_utf8(text).unwrap_or("?");
    eprintln!(rt; "stickd: {before}{text}")?;
    Ok(FAILED)
}

/// The name of the only table. None where there are more, or none, which is then said.
fn only_table<R: Net + Eprint + AllocGlobal>(rt: &R, path: &str) -> io::Result<Option<Vec<u8>>> {
    let Some(answer) = answer_of(rt, path, b"show table")? else {
        return Ok(None);
    };
    let Ok(names) = tables_of(rt.alloc(), &answer) else {
        say_no_memory(rt)?;
        return Ok(None);
    };
    let chosen = match names.as_slice() {
        [name] => show_command(rt.alloc(), name),
        _ => {
            match listed(rt.alloc(), &names) {
                Ok(list) => say(rt, "--table names one of its tables: ", &list)?,
                Err(_) => say_no_memory(rt)?,
            };
            return Ok(None);
        }
    };
    match chosen {
        Ok(command) => Ok(Some(command)),
        Err(_) => {
            say_no_memory(rt)?;
            Ok(None)
        }
    }
}

/// The command that shows the table. None where there is no such one, which is then said.
fn table_command<R: Net + Eprint + AllocGlobal>(
    rt: &R,
    asked: &Top<'_>,
) -> io::Result<Option<Vec<u8>>> {
    let Some(table) = asked.table else {
        return only_table(rt, asked.path);
    };
    match show_command(rt.alloc(), table.as_bytes()) {
        Ok(command) => Ok(Some(command)),
        Err(_) => {
            say_no_memory(rt)?;
            Ok(None)
        }
    }
}

/// Shows the entries once, in place or plain, and answers the status.
fn show_once<R: Net + Env + Print + Eprint + AllocGlobal>(
    rt: &R,
    asked: &Top<'_>,
    command: &[u8],
    in_place: bool,
) -> io::Result<u8> {
    let Some(answer) = answer_of(rt, asked.path, command)? else {
        return Ok(FAILED);
    };
    if is_error(&answer) {
        return say(rt, "", answer.trim_ascii_end());
    }
    let window = if in_place { read_window(rt) } else { UNBOUNDED };
    match draw(rt.alloc(), &answer, asked, window) {
        Ok(Picture::Lines(lines)) => {
            if in_place {
                show(rt, HOME)?;
            }
            show(rt, &lines)?;
            Ok(DONE)
        }
        Ok(Picture::NoSuchNumber(names)) => say(
            rt,
            "its entries have no such number, but ",
            &names,
        ),
        Err(_) => say_no_memory(rt),
    }
}

/// Shows the entries of a running stickd's table with the greatest numbers, and answers the status: on a terminal in place, each
/// second, until nobody answers; else once.
pub fn show_top<R: Net + Clock + Env + Print + Eprint + AllocGlobal>(
    rt: &R,
    asked: &Top<'_>,
) -> io::Result<u8> {
    let Some(command) = table_command(rt, asked)? else {
        return Ok(FAILED);
    };
    if !is_on_terminal() {
        return show_once(rt, asked, &command, false);
    }
    for _turn in 0..u64::MAX {
        let status = show_once(rt, asked, &command, true)?;
        if status != DONE {
            return Ok(status);
        }
        thread::sleep(rt, Duration::from_secs(1));
    }
    Ok(DONE)
}
