//! Lines `stick-table` in stickd's spelling; `proxy_lines` calls it.

use crate::keywords::{is_one_of, left_of};
use crate::manual::STICK_TABLE;
use crate::reasons::{Refusal, Why};
use crate::rules::Converted;
use crate::texts::{
    Words, append, append_str, copy_text, is_word, split_at_byte, text_of, word_at,
};
use base_lines::read_number;
use base_sequence::NoMemory;
use std::alloc::Global;
use stored_data::read_datum;

/// What is read of a line `stick-table`.
#[derive(Drop)]
struct Reading {
    words: Words,
    columns: Words,
    /// Whether the last `store` goes on in the next word.
    goes_on: bool,
    altered: Option<Why>,
    /// What the next word is for: 0 a keyword, 1 a value that is kept, 2 one that is left out, 3 columns.
    next: u8,
}

/// The name of a column, without its parentheses.
fn column_name(column: &[u8]) -> &[u8] {
    for (place, byte) in column.iter().enumerate() {
        if *byte == b'(' {
            let (name, _) = column.split_at(place);
            return name;
        }
    }
    column
}

fn has_column(columns: &[Vec<u8>], name: &[u8]) -> bool {
    for column in columns {
        if column_name(column.as_slice()) == name {
            return true;
        }
    }
    false
}

/// Whether an array that a table stores stands for a column.
fn is_in_array(columns: &[Vec<u8>], name: &[u8]) -> bool {
    let is_counter = is_word(name, "gpc0") || is_word(name, "gpc1");
    (is_counter && has_column(columns, b"gpc"))
        || (is_word(name, "gpt0") && has_column(columns, b"gpt"))
}

/// `gpc0_rate(PERIOD)` and its kin.
fn rate_column(alloc: Global, name: &str, period: &[u8]) -> Result<Vec<u8>, NoMemory> {
    let mut column = text_of(alloc, name)?;
    column.push(b'(')?;
    append(&mut column, period)?;
    column.push(b')')?;
    Ok(column)
}

impl Reading {
    /// Adds a column, unless it is there.
    fn add_column(&mut self, column: Vec<u8>) -> Result<(), NoMemory> {
        if !has_column(self.columns.as_slice(), column_name(column.as_slice())) {
            self.columns.push(column)?;
        }
        Ok(())
    }

    /// Adds the rates of the first two counters of an array, from `gpc_rate(nb,period)`.
    fn add_rates(&mut self, alloc: Global, count: &[u8], period: &[u8]) -> Result<(), NoMemory> {
        self.add_column(rate_column(alloc, "gpc0_rate", period)?)?;
        if read_number(count) != Some(1) {
            self.add_column(rate_column(alloc, "gpc1_rate", period)?)?;
        }
        Ok(())
    }

    /// Takes the pieces of a column that commas part: `gpc_rate(2` and `10s)` are one.
    fn take_columns(&mut self, alloc: Global, word: &[u8]) -> Result<(), NoMemory> {
        let pieces = split_at_byte(alloc, word, b',')?;
        let mut count: Vec<u8> = Vec::new(alloc);
        let mut is_rate = false;
        for piece in &pieces {
            let piece = piece.as_slice();
            if is_rate {
                let period = piece.strip_suffix(b")".as_slice()).unwrap_or(piece);
                self.add_rates(alloc, count.as_slice(), period)?;
                is_rate = false;
                continue;
            }
            if let Some(first) = piece.strip_prefix(b"gpc_rate(".as_slice()) {
                count = copy_text(alloc, first)?;
                is_rate = true;
                continue;
            }
            let name = column_name(piece);
            if read_datum(name).is_some() {
                self.add_column(copy_text(alloc, piece)?)?;
            }
        }
        self.goes_on = word.last() == Some(&b',');
        Ok(())
    }

    /// Takes a keyword.
    fn take_keyword(&mut self, alloc: Global, word: &[u8]) -> Result<(), NoMemory> {
        if self.goes_on || word.first() == Some(&b',') {
            self.goes_on = false;
            return self.take_columns(alloc, word);
        }
        if is_one_of(word, &["type", "len", "size", "expire"]) {
            self.words.push(copy_text(alloc, word)?)?;
            self.next = 1;
            return Ok(());
        }
        if is_word(word, "nopurge") {
            self.words.push(copy_text(alloc, word)?)?;
            return Ok(());
        }
        if is_word(word, "store") {
            self.next = 3;
            return Ok(());
        }
        let told = left_of(word, &STICK_TABLE);
        if told.matters {
            self.altered = Some(told.why);
        }
        if is_one_of(word, &["peers", "srvkey", "write-to", "brates-factor"]) {
            self.next = 2;
        }
        Ok(())
    }

    fn take(&mut self, alloc: Global, word: &[u8]) -> Result<(), NoMemory> {
        let next = self.next;
        self.next = 0;
        match next {
            1 => {
                self.words.push(copy_text(alloc, word)?)?;
                Ok(())
            }
            2 => Ok(()),
            3 => self.take_columns(alloc, word),
            _ => self.take_keyword(alloc, word),
        }
    }

    /// The columns that no array stands for, with commas.
    fn written_columns(&self, alloc: Global) -> Result<Vec<u8>, NoMemory> {
        let mut text = Vec::new(alloc);
        for column in &self.columns {
            if is_in_array(self.columns.as_slice(), column_name(column.as_slice())) {
                continue;
            }
            if !text.is_empty() {
                append_str(&mut text, ",")?;
            }
            append(&mut text, column.as_slice())?;
        }
        Ok(text)
    }
}

/// Whether a line `stick-table` is in stickd's spelling as it stands: it has its columns behind one `store`, at its end.
fn keeps_columns(words: &[Vec<u8>], columns: &[u8]) -> bool {
    for at in 0..words.len() {
        if is_word(word_at(words, at), "store") {
            return word_at(words, at.saturating_add(1)) == columns;
        }
    }
    columns.is_empty()
}

/// A line `stick-table` in stickd's spelling. Where nothing is left out, its words stay in their order.
pub(crate) fn convert_table(alloc: Global, words: &[Vec<u8>]) -> Result<Converted, Refusal> {
    let mut reading = Reading {
        words: Vec::new(alloc),
        columns: Vec::new(alloc),
        goes_on: false,
        altered: None,
        next: 0,
    };
    let Some((first, rest)) = words.split_first() else {
        return Err(Refusal::Lost(Why::UnreadableLine));
    };
    reading.words.push(copy_text(alloc, first.as_slice())?)?;
    for word in rest {
        reading.take(alloc, word.as_slice())?;
    }
    let columns = reading.written_columns(alloc)?;
    let has_store = !columns.is_empty();
    let wanted = reading
        .words
        .len()
        .saturating_add(if has_store { 2 } else { 0 });
    if words.len() == wanted && keeps_columns(words, columns.as_slice()) {
        return Ok(Converted {
            words: crate::texts::copy_words(alloc, words)?,
            altered: reading.altered,
        });
    }
    let Reading {
        words: mut written,
        columns: _,
        goes_on: _,
        altered,
        next: _,
    } = reading;
    if has_store {
        written.push(text_of(alloc, "store")?)?;
        written.push(columns)?;
    }
    Ok(Converted {
        words: written,
        altered,
    })
}
