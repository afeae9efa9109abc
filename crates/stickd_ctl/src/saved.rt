//! What tables hold, as the lines that `--load` reads: `saving` makes them of a running stickd's listings, and `tcp_proxy` of its
//! own as it stops.

ghost use Rattle.std.specs.Prelude.{◌≡◌, ◌+◌, ◌&&◌, ◌++◌, true, List, ℕ, [], IfOk, OnOk, length};
ghost use Rattle.std.specs.List.{flat_map};
ghost use Rattle.table_cli.specs.SavedEnd.{last_text};
ghost use Rattle.stickd_ctl.specs.Json.{numbers_of};
ghost use Rattle.stickd_ctl.specs.Saving as spec;
ghost use Rattle.stickd_ctl.specs.Saving.{AreOf, AreOrdered, IsSavedAs, entry_text, head_text, is_lost, loss_text, lost_lines, lost_text, order_note, pair_text, saved_lines, whole_text};

use crate::lines::{is_row, key_of, read_header, split_at_first, value_of};
use base_lines::{Parts, push_decimal};
use base_sequence::NoMemory;
use std::alloc::Global;
use std::marker::Model;
use stored_data::settable;
use table_cli::{END_MARK, FIRST_LINE};
use table_texts::read_field;

/// The longest life of an entry, in ms.
const LONGEST_LIFE: u64 = 0x7fff_ffff;

/// What isn't saved of any table.
const FIRST_NOTES: &[u8] = b"\
# each line has the ms that an entry has left, and the command that makes it
# not saved: rates, and which connections hold an entry
";

/// What isn't known where a listing stands in the order of its keys.
const ORDER_NOTE: &[u8] = b"\
# not known: which of two entries goes first that have the same time left, as all of a table without expire
";

/// A line of a listing, and the ms that its entry has left.
#[derive(Clone, Copy, Drop)]
pub struct Entry<'a> {
    pub left: u64,
    pub line: &'a [u8],
}

/// The ms that an entry has left: its whole life where nothing but a connection keeps it, since it is refreshed when that ends.
fn time_of(line: &[u8]) -> u64
    ensures { result ≡ spec.time_of line.now }
{
    let refs = value_of(line, b"use").unwrap_or(0);
    let left = value_of(line, b"exp").unwrap_or(0);
    if left == 0 && refs > 0 {
        return LONGEST_LIFE;
    }
    left
}

/// Whether a number of this name can be set.
fn can_set(name: &[u8]) -> bool
    ensures { result ≡ spec.can_set name.now }
{
    match read_field(name) {
        Some(field) => settable(field.datum),
        None => false,
    }
}

/// Appends a number of an entry as a pair of a command, where it can be set.
fn push_pair(text: &mut Vec<u8>, word: &[u8]) -> Result<(), NoMemory>
    ensures { OnOk result (text.new.items ≡ text.old.items ++ pair_text word.now) }
{
    let (name, value) = split_at_first(word, b'=');
    if !can_set(name) {
        return Ok(());
    }
    text.extend_from_slice(b" data.")?;
    text.extend_from_slice(name)?;
    text.push(b' ')?;
    text.extend_from_slice(value)?;
    Ok(())
}

/// Appends the numbers that are left.
fn push_pairs(text: &mut Vec<u8>, words: &mut Parts<'_>) -> Result<(), NoMemory>
    ensures { OnOk result (text.new.items ≡ text.old.items ++ flat_map pair_text words.old) }
{
    while let Some(word) = words.next() {
        push_pair(text, word)?;
    }
    Ok(())
}

/// Appends the numbers of an entry's line.
fn push_numbers(text: &mut Vec<u8>, line: &[u8]) -> Result<(), NoMemory>
    ensures { OnOk result (text.new.items ≡ text.old.items ++ flat_map pair_text (numbers_of line.now)) }
{
    let mut words = Parts::new(line, b' ');
    let Some(_address) = words.next() else {
        return Ok(());
    };
    let Some(_key) = words.next() else {
        return Ok(());
    };
    match push_pairs(text, &mut words) {
        Ok(()) => Ok(()),
        Err(error) => Err(error),
    }
}

/// Appends the time that an entry has left, and the command that makes it, up to its key.
fn push_head(text: &mut Vec<u8>, left: u64, table: &[u8], key: &[u8]) -> Result<(), NoMemory>
    ensures { OnOk result (text.new.items ≡ text.old.items ++ head_text left table.now key.now) }
{
    push_decimal(text, left)?;
    text.extend_from_slice(b" cmd set table ")?;
    text.extend_from_slice(table)?;
    text.extend_from_slice(b" key ")?;
    text.extend_from_slice(key)?;
    Ok(())
}

/// Appends the line that makes an entry.
fn push_entry(text: &mut Vec<u8>, table: &[u8], entry: &Entry<'_>) -> Result<(), NoMemory>
    ensures { OnOk result (text.new.items ≡ text.old.items ++ entry_text table.now entry.now) }
{
    push_head(text, entry.left, table, key_of(entry.line))?;
    push_numbers(text, entry.line)?;
    text.extend_from_slice(b"\n")?;
    Ok(())
}

/// Appends the lines that make entries, in their order.
fn push_entries(text: &mut Vec<u8>, table: &[u8], entries: &[Entry<'_>]) -> Result<(), NoMemory>
    ensures { OnOk result (text.new.items ≡ text.old.items ++ flat_map (entry_text table.now) entries.now) }
{
    for entry in entries {
        push_entry(text, table, entry)?;
    }
    Ok(())
}

/// Whether a command can write a key.
fn can_write(key: &[u8]) -> bool
    ensures { result ≡ spec.can_write key.now }
{
    key.iter().all(|byte| *byte != b';' && *byte != b'\\')
}

/// Whether a line is one of an entry that a command can make.
fn is_saved(line: &[u8]) -> bool
    ensures { result ≡ spec.is_saved line.now }
{
    is_row(line) && can_write(key_of(line))
}

/// Whether a line is one of an entry that no command can make.
fn is_lost_line(line: &[u8]) -> bool
    ensures { result ≡ is_lost line.now }
{
    is_row(line) && !can_write(key_of(line))
}

/// The entries of a listing that commands can make, as they stand there.
fn entries_of(alloc: Global, listing: &[u8]) -> Result<Vec<Entry<'_>>, NoMemory>
    ensures { IfOk result (λ entries. AreOf entries.items (saved_lines listing.now)) }
{
    let mut entries = Vec::new(alloc);
    let mut lines = Parts::new(listing, b'\n');
    while let Some(line) = lines.next() {
        if !is_saved(line) {
            continue;
        }
        entries.push(Entry {
            left: time_of(line),
            line,
        })?;
    }
    Ok(entries)
}

/// Puts entries with less time left first.
fn order(alloc: Global, entries: &mut Vec<Entry<'_>>) -> Result<(), NoMemory>
    ensures { OnOk result (AreOrdered entries.old.items entries.new.items) }
{
    entries.sort_by_key(|entry| entry.left)?;
    Ok(())
}

/// How many entries of a listing no command can make.
fn count_lost(listing: &[u8]) -> u64
    ensures { result ≡ length (lost_lines listing.now) }
{
    let mut lines = Parts::new(listing, b'\n');
    let mut count = 0;
    while let Some(line) = lines.next() {
        if !is_lost_line(line) {
            continue;
        }
        count += 1;
    }
    count
}

/// Appends how many entries of a table aren't saved, if any.
fn push_loss(text: &mut Vec<u8>, table: &[u8], count: u64) -> Result<(), NoMemory>
    ensures { OnOk result (text.new.items ≡ text.old.items ++ loss_text table.now count) }
{
    if count == 0 {
        return Ok(());
    }
    match push_lost(text, table, count) {
        Ok(()) => Ok(()),
        Err(error) => Err(error),
    }
}

/// Appends that so many entries of a table aren't saved.
fn push_lost(text: &mut Vec<u8>, table: &[u8], count: u64) -> Result<(), NoMemory>
    ensures { OnOk result (text.new.items ≡ text.old.items ++ lost_text table.now count) }
{
    text.extend_from_slice(b"# not saved of table ")?;
    text.extend_from_slice(table)?;
    text.extend_from_slice(b": ")?;
    push_decimal(text, count)?;
    text.extend_from_slice(b" entries, whose keys no command can write\n")?;
    Ok(())
}

/// Appends the entries of a listing, in the order in which they go, and answers how many there are.
fn push_listing(
    alloc: Global,
    text: &mut Vec<u8>,
    table: &[u8],
    listing: &[u8],
) -> Result<u64, NoMemory>
    ensures lines { OnOk result ((lines : List ℕ) × IsSavedAs table.now listing.now lines × (text.new.items ≡ text.old.items ++ lines)) }
    ensures count { IfOk result (λ count. count ≡ length (saved_lines listing.now)) }
{
    let mut entries = entries_of(alloc, listing)?;
    let count = entries.as_slice().len() as u64;
    order(alloc, &mut entries)?;
    push_entries(text, table, entries.as_slice())?;
    Ok(count)
}

/// Appends the last line, which says how many entries there are.
fn push_end(text: &mut Vec<u8>, entries: u64) -> Result<(), NoMemory>
    ensures { OnOk result (text.new.items ≡ text.old.items ++ last_text entries) }
{
    text.extend_from_slice(END_MARK)?;
    push_decimal(text, entries)?;
    text.extend_from_slice(b"\n")?;
    Ok(())
}

/// Appends what isn't known, where the order of some entries isn't.
fn push_order(text: &mut Vec<u8>, is_known: bool) -> Result<(), NoMemory>
    ensures { OnOk result (text.new.items ≡ text.old.items ++ order_note is_known) }
{
    if is_known {
        return Ok(());
    }
    text.extend_from_slice(ORDER_NOTE)?;
    Ok(())
}

/// What tables held, so far. Contracts see whether the order of all entries is known, what isn't saved, the lines of the others, and how
/// many these are.
#[derive(Drop)]
pub struct Saved {
    alloc: Global,
    order_known: bool,
    losses: Vec<u8>,
    lines: Vec<u8>,
    entries: u64,
}

impl Model for Saved {
    ghost use Rattle.stickd_ctl.specs.Saving.{SavedText};

    ghost Value = { SavedText };

    ghost view = { λ saved. record { order_known = saved.order_known; losses = saved.losses.items; lines = saved.lines.items; entries = saved.entries } };
}

impl Saved {
    /// No table yet.
    pub fn new(alloc: Global) -> Saved
        ensures { result ≡ record { order_known = true; losses = []; lines = []; entries = 0 } }
    {
        Saved {
            alloc,
            order_known: true,
            losses: Vec::new(alloc),
            lines: Vec::new(alloc),
            entries: 0,
        }
    }

    /// One table more, by its listing, which stands in the order in which its entries go, or doesn't. Nothing is promised of what a
    /// table's line doesn't stand before.
    pub fn add(
        &mut self,
        table: &[u8],
        listing: &[u8],
        is_oldest_first: bool,
    ) -> Result<(), NoMemory>
        ensures order { OnOk result (self.new.order_known ≡ (self.old.order_known && is_oldest_first)) }
        ensures losses { OnOk result (self.new.losses ≡ self.old.losses ++ loss_text table.now (length (lost_lines listing.now))) }
        ensures lines { OnOk result ((lines : List ℕ) × IsSavedAs table.now listing.now lines × (self.new.lines ≡ self.old.lines ++ lines)) }
        ensures entries { OnOk result (self.new.entries ≡ self.old.entries + length (saved_lines listing.now)) }
    {
        push_loss(&mut self.losses, table, count_lost(listing))?;
        let count = push_listing(self.alloc, &mut self.lines, table, listing)?;
        // Each entry has a line in memory, so that there are never as many.
        let Some(entries) = self.entries.checked_add(count) else {
            return Err(NoMemory);
        };
        self.entries = entries;
        self.order_known = self.order_known && is_oldest_first;
        Ok(())
    }

    /// The whole text: what isn't saved or known, the lines of the entries, and how many these are.
    pub fn into_text(self) -> Result<Vec<u8>, NoMemory>
        ensures { IfOk result (λ text. text.items ≡ whole_text self) }
    {
        let Saved {
            alloc,
            order_known,
            losses,
            lines,
            entries,
        } = self;
        let mut text = Vec::new(alloc);
        text.extend_from_slice(FIRST_LINE)?;
        text.extend_from_slice(FIRST_NOTES)?;
        push_order(&mut text, order_known)?;
        text.extend_from_slice(losses.as_slice())?;
        text.extend_from_slice(lines.as_slice())?;
        push_end(&mut text, entries)?;
        Ok(text)
    }
}
