//! A row that a table gathered, where it lies; `listed_rows` puts them in order, and `table_texts` prints them.

ghost use Rattle.std.specs.Prelude.{◌≡◌, ◌++◌, length, map, OnOk};
ghost use Rattle.stored_data.specs.Fields.{fields_of};
ghost use Rattle.stored_data.specs.Words.{fields_in, width as specified_width};
ghost use Rattle.stick_model.specs.Gathered.{cell_of};

use crate::rows::{Cell, Row};
use base_sequence::{NoMemory, Sequence};
use std::alloc::Global;
use std::marker::Model;
use stick_key::StickKey;
use stored_data::{StoredSet, words};

/// A row that a table gathered. Its key is a copy, and its data are where the table has put them: what they show is reckoned when it
/// is asked for. Contracts see the row.
#[derive(Drop)]
pub struct PackedRow<'a> {
    columns: &'a StoredSet,
    clock: u64,
    key: StickKey,
    refs: u32,
    left: u64,
    words: &'a [u64],
}

impl<'a> Model for PackedRow<'a> {
    ghost use Rattle.std.specs.Prelude.{◌≡◌, length};
    ghost use Rattle.stored_data.specs.Words.{fields_in, width as specified_width};
    ghost use Rattle.stick_model.specs.Gathered.{row_with};
    ghost use Rattle.stick_model.specs.declared.rows.Row.{Row as ItsRow};

    ghost Value = { ItsRow };

    ghost view = { λ row. row_with row.columns.now row.clock row.key row.refs row.left (fields_in row.columns.now row.words.now) };

    ghost invariant = { λ row. length row.words.now ≡ specified_width row.columns.now };
}

/// Appends the fields of these columns, and what they show of these words of an entry with so many references.
fn push_cells(
    columns: &StoredSet,
    clock: u64,
    refs: u32,
    words: &[u64],
    cells: &mut Vec<Cell>,
) -> Result<(), NoMemory>
    requires { length words.now ≡ specified_width columns.now }
    ensures { OnOk result (cells.new.items ≡ cells.old.items ++ map (cell_of clock refs (fields_in columns.now words.now)) (fields_of columns.now)) }
{
    let fields = columns.fields();
    for place in 0..fields.len() {
        let shown = columns.shown(place, words, clock);
        cells.push(Cell {
            field: fields[place],
            value: shown.unwrap_or(u64::from(refs)),
        })?;
    }
    Ok(())
}

impl<'a> PackedRow<'a> {
    ghost use Rattle.std.specs.Prelude.{◌≡◌, length, IfOk, OnOk};
    ghost use Rattle.stored_data.specs.Words.{fields_in, width as specified_width};
    ghost use Rattle.stick_model.specs.Gathered.{row_with};

    /// The row of a key with so many references, so many ms left, and these words of its data, at a moment.
    #[inline(always)]
    pub(crate) fn new(
        columns: &'a StoredSet,
        clock: u64,
        key: StickKey,
        refs: u32,
        left: u64,
        words: &'a [u64],
    ) -> PackedRow<'a>
        requires { length words.now ≡ specified_width columns.now }
        ensures { result ≡ row_with columns.now clock key refs left (fields_in columns.now words.now) }
    {
        PackedRow {
            columns,
            clock,
            key,
            refs,
            left,
            words,
        }
    }

    /// The key of the entry.
    pub fn key(&self) -> &StickKey
        ensures { result.now ≡ self.now.key }
    {
        &self.key
    }

    /// How many references the entry has.
    pub fn refs(&self) -> u32
        ensures { result ≡ self.now.refs }
    {
        self.refs
    }

    /// How many ms are left of the entry's life.
    pub fn left(&self) -> u64
        ensures { result ≡ self.now.left }
    {
        self.left
    }

    /// Puts the fields that the row shows, and their values, in place of these.
    pub fn show_cells(&self, cells: &mut Vec<Cell>) -> Result<(), NoMemory>
        ensures { OnOk result (cells.new.items ≡ self.now.cells) }
    {
        cells.clear();
        push_cells(self.columns, self.clock, self.refs, self.words, cells)
    }

    /// The row in memory of its own.
    pub(crate) fn into_row(self, alloc: Global) -> Result<Row, NoMemory>
        ensures { IfOk result (λ row. row ≡ self.entry) }
    {
        let mut cells = Vec::with_capacity(alloc, self.columns.fields().len())?;
        self.show_cells(&mut cells)?;
        Ok(Row {
            key: self.key,
            refs: self.refs,
            left: self.left,
            cells: Sequence::from_vec(cells),
        })
    }
}
