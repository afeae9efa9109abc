//! Rows as a table gathers them under its lock: packed, in any order. `listed_rows` puts them in order, behind the lock.

ghost use Rattle.std.specs.Prelude.{◌≡◌, ◌+◌, ◌≤◌, ◌++◌, length, OnOk, vec_len, vec_capacity};
ghost use Rattle.stored_data.specs.Words.{width as specified_width};
ghost use Rattle.stick_model.specs.Gathered.{AreCut, rows_in};

use crate::packed_row::PackedRow;
use crate::row_room::RowRoom;
use base_sequence::NoMemory;
use std::alloc::Global;
use std::marker::Model;
use stick_key::StickKey;
use stored_data::{StoredSet, words};

/// What is gathered of an entry beside its key and its data.
#[derive(Clone, Copy)]
pub(crate) struct Head {
    /// How many bytes its key has.
    pub(crate) size: u32,
    pub(crate) refs: u32,
    pub(crate) left: u64,
}

/// Rows as a table gathers them, in any order: of each entry the key's bytes, the references, the time left, and the words of its
/// data. What they show is reckoned later. Contracts see the columns, the moment that is shown, and the rows so far.
#[derive(Drop)]
pub struct Gathering {
    columns: StoredSet,
    clock: u64,
    heads: Vec<Head>,
    bytes: Vec<u8>,
    words: Vec<u64>,
}

impl Model for Gathering {
    ghost use Rattle.stored_data.specs.Words.{width as specified_width};
    ghost use Rattle.stick_model.specs.Gathered.{AreCut, Gathered, gathered, rows_in};

    ghost Value = { Gathered };

    ghost view = { λ g. gathered g.columns g.clock (rows_in g.columns g.clock g.heads.items g.bytes.items g.words.items) };

    ghost invariant = { λ g. AreCut (specified_width g.columns) g.heads.items g.bytes.items g.words.items };
}

// Adds items for which there is room.
#[inline(always)]
fn append<T: Copy>(list: &mut Vec<T>, more: &[T])
    requires { vec_len list.old + length more.now ≤ vec_capacity list.old }
    ensures { list.new.items ≡ list.old.items ++ more.now }
{
    for item in more {
        list.push_reserved(*item);
    }
}

/// Appends the rows of these heads, in their order.
fn unpack<'a>(
    columns: &'a StoredSet,
    clock: u64,
    heads: &[Head],
    bytes: &[u8],
    words: &'a [u64],
    rows: &mut Vec<PackedRow<'a>>,
) -> Result<(), NoMemory>
    requires { AreCut (specified_width columns.now) heads.now bytes.now words.now }
    ensures { OnOk result (rows.new.items ≡ rows.old.items ++ rows_in columns.now clock heads.now bytes.now words.now) }
{
    let alloc = *rows.allocator();
    let wide = words::width(columns.columns());
    let mut keys_left = bytes;
    let mut words_left = words;
    rows.reserve(heads.len())?;
    for head in heads {
        let (key, later_keys) = keys_left.split_at(head.size as usize);
        let (row, later_words) = words_left.split_at(wide);
        let key = StickKey::from_bytes(alloc, key)?;
        rows.push(PackedRow::new(columns, clock, key, head.refs, head.left, row))?;
        keys_left = later_keys;
        words_left = later_words;
    }
    Ok(())
}

impl Gathering {
    ghost use Rattle.std.specs.Prelude.{◌≡◌, ◌++◌, [], length, IfOk, OnOk, OnErr};
    ghost use Rattle.stored_data.specs.Words.{fields_in, width as specified_width};
    ghost use Rattle.stick_model.specs.Gathered.{gathered, row_with, with_row};

    /// No row yet, of a table with these columns, as it is at a moment. So many rows have their place, in memory that was taken
    /// before, and in more where they need more.
    pub fn in_room(
        room: RowRoom,
        columns: &StoredSet,
        clock: u64,
        rows: u32,
    ) -> Result<Gathering, NoMemory>
        ensures { IfOk result (λ g. g ≡ gathered columns.now clock []) }
    {
        let columns = columns.copy()?;
        let wide = words::width(columns.columns());
        let Some(all) = (rows as usize).checked_mul(wide) else {
            return Err(NoMemory);
        };
        let RowRoom {
            mut heads,
            bytes,
            mut words,
        } = room;
        heads.reserve(rows as usize)?;
        words.reserve(all)?;
        Ok(Gathering {
            columns,
            clock,
            heads,
            bytes,
            words,
        })
    }

    /// Adds the row of a key with so many references, so many ms left, and these words of its data. Where a growth is refused,
    /// nothing changes.
    #[inline(always)]
    pub fn push(
        &mut self,
        key: &StickKey,
        refs: u32,
        left: u64,
        words: &[u64],
    ) -> Result<(), NoMemory>
        requires { length words.now ≡ specified_width self.old.columns }
        ensures ok { OnOk result (self.new ≡ with_row self.old (row_with self.old.columns self.old.clock key.now refs left (fields_in self.old.columns words.now))) }
        ensures err { OnErr result (self.new ≡ self.old) }
    {
        let bytes = key.bytes();
        let Ok(size) = u32::try_from(bytes.len()) else {
            return Err(NoMemory);
        };
        self.bytes.reserve(bytes.len())?;
        self.words.reserve(words.len())?;
        self.heads.reserve(1)?;
        self.heads.push_reserved(Head { size, refs, left });
        append(&mut self.bytes, bytes);
        append(&mut self.words, words);
        Ok(())
    }

    /// Appends the rows, where they lie, in the order in which they came.
    pub(crate) fn push_rows<'a>(&'a self, rows: &mut Vec<PackedRow<'a>>) -> Result<(), NoMemory>
        ensures { OnOk result (rows.new.items ≡ rows.old.items ++ self.now.rows) }
    {
        unpack(
            &self.columns,
            self.clock,
            self.heads.as_slice(),
            self.bytes.as_slice(),
            self.words.as_slice(),
            rows,
        )
    }
}
