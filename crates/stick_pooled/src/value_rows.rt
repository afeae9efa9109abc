//! The data of many keys in one block of words: a row of the same columns for each slot; `entry_store` keeps it.

ghost use Rattle.std.specs.Prelude.{◌≡◌, ◌+◌, ◌*◌, ◌<◌, ◌≤◌, length, IfOk};
ghost use Rattle.stored_data.specs.Acts.{acted, answer, with_value, zero_of};
ghost use Rattle.stored_data.specs.Stored.{HavePeriods};
ghost use Rattle.stored_data.specs.Words.{width as specified_width, fields_in};
ghost use Rattle.stick_pooled.specs.Cut.{words_at, with_words};

use base_sequence::NoMemory;
use std::alloc::Global;
use std::marker::Model;
use stored_data::{Act, Column, Field, StoredSet, Values, words};

/// A row of data for each slot, all of the same columns. Contracts see the columns, and each row as the list of its
/// fields. Only `new` and `values` take memory: for each row one word a number or an
/// element of an array, and two a rate.
#[derive(Drop)]
pub struct Rows {
    alloc: Global,
    columns: StoredSet,
    words: Vec<u64>,
    width: usize,
    count: u32,
}

impl Model for Rows {
    ghost use Rattle.std.specs.Prelude.{◌≡◌, ◌*◌, length};
    ghost use Rattle.stored_data.specs.Words.{width as specified_width};
    ghost use Rattle.stick_pooled.specs.Grid.{Grid, grid};

    ghost Value = { Grid };

    ghost use Rattle.stick_pooled.specs.Cut.{rows_in};

    ghost view = { λ r. grid r.columns (rows_in r.columns r.count r.width r.words.items) };

    ghost invariant = { λ r. (r.width ≡ specified_width r.columns) × (length r.words.items ≡ r.count * r.width) };
}

/// The words of a row.
pub(crate) fn row_in(words: &[u64], at: usize, width: usize) -> &[u64]
    requires { at * width + width ≤ length words.now }
    ensures row { result.now ≡ words_at words.now at width }
    ensures sized { length result.now ≡ width }
{
    let from = at * width;
    &words[from..from + width]
}

// Does an act to the data in the words of a row.
fn act_in(
    words: &mut Vec<u64>,
    at: usize,
    width: usize,
    columns: &[Column],
    now: u64,
    act: Act,
) -> Option<u64>
    requires within { at * width + width ≤ length words.old.items }
    requires periods { HavePeriods columns.now }
    requires width { width ≡ specified_width columns.now }
    ensures sized { length (words_at words.new.items at width) ≡ width }
    ensures elsewhere { words.new.items ≡ with_words words.old.items at width (words_at words.new.items at width) }
    ensures data { fields_in columns.now (words_at words.new.items at width) ≡ acted (fields_in columns.now (words_at words.old.items at width)) now act }
    ensures answer { result ≡ answer (fields_in columns.now (words_at words.old.items at width)) now act }
{
    let from = at * width;
    words::act(columns, &mut words[from..from + width], now, act)
}

// Puts a value into a field in the words of a row.
#[inline(always)]
fn put_in(
    words: &mut Vec<u64>,
    at: usize,
    width: usize,
    columns: &[Column],
    field: Field,
    value: u64,
)
    requires within { at * width + width ≤ length words.old.items }
    requires periods { HavePeriods columns.now }
    requires width { width ≡ specified_width columns.now }
    ensures sized { length (words_at words.new.items at width) ≡ width }
    ensures elsewhere { words.new.items ≡ with_words words.old.items at width (words_at words.new.items at width) }
    ensures data { fields_in columns.now (words_at words.new.items at width) ≡ with_value (fields_in columns.now (words_at words.old.items at width)) field value }
{
    let from = at * width;
    words::put(columns, &mut words[from..from + width], field, value);
}

// Makes the words of a row those of a new key.
fn clear_in(words: &mut Vec<u64>, at: usize, width: usize, columns: &[Column])
    requires within { at * width + width ≤ length words.old.items }
    ensures sized { length (words_at words.new.items at width) ≡ width }
    ensures elsewhere { words.new.items ≡ with_words words.old.items at width (words_at words.new.items at width) }
    ensures data { fields_in columns.now (words_at words.new.items at width) ≡ zero_of columns.now }
{
    let from = at * width;
    words::clear(&mut words[from..from + width]);
}

impl Rows {
    ghost use Rattle.std.specs.Prelude.{◌≡◌, ◌<◌, length, IfOk};
    ghost use Rattle.stored_data.specs.Acts.{acted, answer, value_at, with_value, zero_of};
    ghost use Rattle.stick_pooled.specs.Grid.{row_at, with_row, zero_rows};

    /// So many rows of these columns with nothing counted. It takes the memory of them all.
    pub fn new(alloc: Global, count: u32, columns: StoredSet) -> Result<Rows, NoMemory>
        ensures { IfOk result (λ rows. rows ≡ zero_rows count columns) }
    {
        let width = words::width(columns.columns());
        let Some(all) = (count as usize).checked_mul(width) else {
            return Err(NoMemory);
        };
        let words = Vec::from_elem(alloc, 0, all)?;
        Ok(Rows {
            alloc,
            columns,
            words,
            width,
            count,
        })
    }

    /// The columns of each row.
    pub fn columns(&self) -> &StoredSet
        ensures { result.now ≡ self.now.columns }
    {
        &self.columns
    }

    /// What a field of a row shows at a moment in ms: none where it isn't stored, and for the current connections.
    pub fn get(&self, at: u32, field: Field, now: u64) -> Option<u64>
        requires { at < length self.now.rows }
        ensures { result ≡ value_at (row_at self.now at) field now }
    {
        let row = row_in(self.words.as_slice(), at as usize, self.width);
        words::get(self.columns.columns(), row, field, now)
    }

    /// How many words a row has.
    pub fn width(&self) -> usize
        ensures { result ≡ specified_width self.now.columns }
    {
        self.width
    }

    /// The words of a row.
    pub fn row(&self, at: u32) -> &[u64]
        requires { at < length self.now.rows }
        ensures data { fields_in self.now.columns result.now ≡ row_at self.now at }
        ensures sized { length result.now ≡ specified_width self.now.columns }
    {
        row_in(self.words.as_slice(), at as usize, self.width)
    }

    /// A copy of the data in the words of a row, where there is memory.
    pub fn values_in(&self, row: &[u64]) -> Result<Values, NoMemory>
        requires { length row.now ≡ specified_width self.now.columns }
        ensures { IfOk result (λ values. values ≡ fields_in self.now.columns row.now) }
    {
        words::values(self.alloc, self.columns.columns(), row)
    }

    /// Makes a row that of a new key: numbers are 0, and nothing is counted in a rate.
    pub fn clear(&mut self, at: u32)
        requires { at < length self.old.rows }
        ensures { self.new ≡ with_row self.old at (zero_of self.old.columns) }
    {
        clear_in(
            &mut self.words,
            at as usize,
            self.width,
            self.columns.columns(),
        );
    }

    /// Puts a value into a field of a row, as `Values::put`.
    #[inline(always)]
    pub fn put(&mut self, at: u32, field: Field, value: u64)
        requires { at < length self.old.rows }
        ensures { self.new ≡ with_row self.old at (with_value (row_at self.old at) field value) }
    {
        put_in(
            &mut self.words,
            at as usize,
            self.width,
            self.columns.columns(),
            field,
            value,
        );
    }

    /// Does an act to a row at a moment in ms, as `Values::act`, and answers what that answers.
    pub fn act(&mut self, at: u32, now: u64, act: Act) -> Option<u64>
        requires { at < length self.old.rows }
        ensures row { self.new ≡ with_row self.old at (acted (row_at self.old at) now act) }
        ensures answer { result ≡ answer (row_at self.old at) now act }
    {
        act_in(
            &mut self.words,
            at as usize,
            self.width,
            self.columns.columns(),
            now,
            act,
        )
    }

    /// A copy of a row, where there is memory.
    pub fn values(&self, at: u32) -> Result<Values, NoMemory>
        requires { at < length self.now.rows }
        ensures { IfOk result (λ values. values ≡ row_at self.now at) }
    {
        self.values_in(self.row(at))
    }
}
