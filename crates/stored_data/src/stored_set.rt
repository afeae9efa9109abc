//! The columns of a table; `rule_words` makes them of a `stick-table` line, and tables keep data by them.
ghost use Rattle.std.specs.Prelude.{◌≡◌, ◌↔◌, ◌+◌, ◌<◌, ◌≤◌, ◌^◌, ◌++◌, List, length, map, IfOk, OnOk};

use crate::words::{shown_at, words_each, words_of};
use crate::{Datum, Field};
use base_sequence::NoMemory;
use std::alloc::Global;
use std::marker::Model;

/// A datum that a table stores. A rate has a period of 1 to 2,147,483,647 ms, and all else the
/// period 0; an array has a count of 1 to 100 elements, and all else the count 0.
#[derive(Clone, Copy, Debug, PartialEq, Eq)]
pub struct Column {
    pub datum: Datum,
    pub period: u32,
    pub count: u32,
}

impl Column {
    ghost use Rattle.std.specs.Prelude.{◌≡◌};
    ghost use Rattle.stored_data.specs.Fields.{size};

    /// How many fields it has: an array as many as its count says, all else one.
    pub fn size(self) -> u32
        ensures { result ≡ size self }
    {
        if self.datum.is_array() { self.count } else { 1 }
    }
}

/// Where a field's words begin in a row, and how they are read.
#[derive(Clone, Copy)]
struct Place {
    datum: Datum,
    period: u32,
    at: usize,
}

/// The columns of a table, in the order of printing, each datum once, and none beside an array that
/// excludes it. Contracts see it as the list of its columns.
#[derive(Drop)]
pub struct StoredSet {
    columns: Vec<Column>,
    /// Their fields, which every row shows.
    fields: Vec<Field>,
    /// Of each field where its words are, so that a row is shown without a search.
    places: Vec<Place>,
}

impl Model for StoredSet {
    ghost use Rattle.std.specs.Prelude.{List};
    ghost use Rattle.stored_data.specs.declared.stored_set.Column.{Column};

    ghost Value = { List Column };

    ghost use Rattle.std.specs.Prelude.{◌≡◌};
    ghost use Rattle.stored_data.specs.Fields.{fields_of};
    ghost use Rattle.stored_data.specs.Places.{places_of};
    ghost use Rattle.stored_data.specs.Stored.{IsSound};

    ghost view = { λ set. set.columns.items };

    ghost invariant = { λ set. IsSound set.columns.items × (set.fields.items ≡ fields_of set.columns.items) × (set.places.items ≡ places_of set.columns.items) };
}

ghost use Rattle.stored_data.specs.Fields.{is_field, elements_of, fields_of};
ghost use Rattle.stored_data.specs.Data.{is_rate};
ghost use Rattle.stored_data.specs.Places.{IsKeptThere, placed_from, places_of, shown_there};
ghost use Rattle.stored_data.specs.Stored.{IsPeriod, IsSound, is_column, is_excluded};
ghost use Rattle.stored_data.specs.Words.{taken, words_in};

/// Whether some column is that of the datum.
fn has_column(columns: &[Column], datum: Datum) -> bool
    ensures { result ≡ is_column columns.now datum }
{
    columns
        .iter()
        .any(|column| column.datum.place() == datum.place())
}

/// Whether some column's fields have this one.
fn has_field(columns: &[Column], field: Field) -> bool
    ensures { result ≡ is_field columns.now field }
{
    columns.iter().any(|column| column.datum.place() == field.datum.place()
        && field.index < column.size())
}

/// Whether some column rules the datum out, or is ruled out by it.
fn rules_out(columns: &[Column], datum: Datum) -> bool
    ensures { result ≡ is_excluded columns.now datum }
{
    columns.iter().any(|column| column.datum.excludes(datum) || datum.excludes(column.datum))
}

/// Adds the fields of a column.
fn push_elements(fields: &mut Vec<Field>, column: Column) -> Result<(), NoMemory>
    ensures { OnOk result (fields.new.items ≡ fields.old.items ++ map (λ element. element.field) (elements_of column)) }
{
    for index in 0..column.size() {
        fields.push(Field {
            datum: column.datum,
            index,
        })?;
    }
    Ok(())
}

/// The fields of columns, in the order of printing.
fn spread(alloc: Global, columns: &[Column]) -> Result<Vec<Field>, NoMemory>
    ensures { IfOk result (λ fields. fields.items ≡ fields_of columns.now) }
{
    let mut fields = Vec::new(alloc);
    for column in columns {
        push_elements(&mut fields, *column)?;
    }
    Ok(fields)
}

/// What the field at a place shows of these words at a moment in ms: none for the current connections.
fn show_there(there: Place, words: &[u64], now: u64) -> Option<u64>
    requires period { IsPeriod (is_rate there.datum) there.period }
    requires within { IsKeptThere there → there.at + taken there.datum ≤ length words.now }
    ensures { result ≡ shown_there there words.now now }
{
    if there.datum.place() == Datum::ConnCur.place() {
        return None;
    }
    Some(shown_at(there.datum, there.period, words, there.at, now))
}

/// Adds the places of a column's fields, whose words begin at `at`.
fn push_places(places: &mut Vec<Place>, column: Column, at: usize) -> Result<(), NoMemory>
    requires { at + words_in (elements_of column) < 2 ^ 32 }
    ensures { OnOk result (places.new.items ≡ places.old.items ++ placed_from (elements_of column) at) }
{
    let each = words_each(column);
    let mut next = at;
    for _index in 0..column.size() {
        places.push(Place {
            datum: column.datum,
            period: column.period,
            at: next,
        })?;
        next += each;
    }
    Ok(())
}

/// The places of the fields of columns.
fn place_all(alloc: Global, columns: &[Column]) -> Result<Vec<Place>, NoMemory>
    requires { IsSound columns.now }
    ensures { IfOk result (λ places. places.items ≡ places_of columns.now) }
{
    let mut places = Vec::new(alloc);
    let mut at = 0;
    for column in columns {
        push_places(&mut places, *column, at)?;
        at += words_of(*column);
    }
    Ok(places)
}

impl StoredSet {
    ghost use Rattle.std.specs.Prelude.{◌≡◌, ◌↔◌, ◌<◌, ◌≤◌, [], ◌∷◌, ◌++◌, length, count_by, insert, nat_lt, List, IsTrue, Some, false, slice_get, OnOk, OnErr, IfOk};
    ghost use Rattle.stored_data.specs.Acts.{value_at};
    ghost use Rattle.stored_data.specs.Words.{fields_in, width};
    ghost use Rattle.stored_data.specs.declared.field.Field.{Field as AField};
    ghost use Rattle.stored_data.specs.Data.{place, is_rate, is_array};
    ghost use Rattle.stored_data.specs.Fields.{Stores, fields_of, is_field, if_stored, field_for};
    ghost use Rattle.stored_data.specs.Stored.{IsSound, Holds, is_column, is_excluded, with_column, IsPeriod, IsCount};

    /// A table with no columns, which takes no memory.
    pub fn new(alloc: Global) -> StoredSet
        ensures { result ≡ [] }
    {
        StoredSet {
            columns: Vec::new(alloc),
            fields: Vec::new(alloc),
            places: Vec::new(alloc),
        }
    }

    /// How many columns stand before the datum.
    fn place_of(&self, datum: Datum) -> usize
        ensures place { result ≡ count_by (λ column. nat_lt (place column.datum) (place datum)) self.now }
        ensures within { result ≤ length self.now }
    {
        self.columns
            .iter()
            .filter(|column| column.datum.place() < datum.place())
            .count()
    }

    /// Adds a column at its place. Where its growth is refused, the columns stay.
    pub fn add(&mut self, column: Column) -> Result<(), NoMemory>
        requires absent { ¬ (Holds self.old column.datum) }
        requires apart { is_excluded self.old column.datum ≡ false }
        requires period { IsPeriod (is_rate column.datum) column.period }
        requires count { IsCount (is_array column.datum) column.count }
        ensures ok { OnOk result (self.new ≡ with_column self.old column) }
        ensures err { OnErr result (self.new ≡ self.old) }
    {
        let at = self.place_of(column.datum);
        let mut columns = Vec::from_slice(*self.columns.allocator(), self.columns.as_slice())?;
        columns.insert(at, column)?;
        let fields = spread(*self.columns.allocator(), columns.as_slice())?;
        self.places = place_all(*self.columns.allocator(), columns.as_slice())?;
        self.fields = fields;
        self.columns = columns;
        Ok(())
    }

    /// The columns, in the order of printing.
    pub fn columns(&self) -> &[Column]
        ensures columns { result.now ≡ self.now }
        ensures sound { IsSound self.now }
    {
        self.columns.as_slice()
    }

    /// The fields of the columns, in the order of printing: one for each element of an array.
    pub fn fields(&self) -> &[Field]
        ensures { result.now ≡ fields_of self.now }
    {
        self.fields.as_slice()
    }

    /// What the field at this place of `fields` shows of the words of a row at a moment in ms: none for the current connections.
    pub fn shown(&self, place: usize, words: &[u64], now: u64) -> Option<u64>
        requires { width self.now ≤ length words.now }
        ensures { (field : AField) → slice_get (fields_of self.now) place ≡ Some field → result ≡ value_at (fields_in self.now words.now) field now }
    {
        let there = self.places.as_slice().get(place)?;
        show_there(*there, words, now)
    }

    /// Whether the table stores the datum.
    pub fn holds(&self, datum: Datum) -> bool
        ensures by_place { result ≡ is_column self.now datum }
        ensures holds { IsTrue result ↔ Holds self.now datum }
    {
        has_column(self.columns.as_slice(), datum)
    }

    /// Whether the table stores something that rules the datum out, or is ruled out by it: an array and a
    /// counter or tag in whose place it stands.
    pub fn excludes(&self, datum: Datum) -> bool
        ensures { result ≡ is_excluded self.now datum }
    {
        rules_out(self.columns.as_slice(), datum)
    }

    /// Whether the table stores the field: an index at or above an array's count isn't stored.
    pub fn stores(&self, field: Field) -> bool
        ensures by_place { result ≡ is_field self.now field }
        ensures stores { IsTrue result ↔ Stores self.now field }
    {
        has_field(self.columns.as_slice(), field)
    }

    /// The field, where it is stored.
    fn if_stored(&self, field: Field) -> Option<Field>
        ensures { result ≡ if_stored self.now field }
    {
        if self.stores(field) {
            Some(field)
        } else {
            None
        }
    }

    /// The stored field that acts and fetches of a datum mean: its own, or else the element of an array
    /// that stands for it.
    pub fn field_for(&self, datum: Datum) -> Option<Field>
        ensures { result ≡ field_for self.now datum }
    {
        if let Some(field) = self.if_stored(Field::plain(datum)) {
            return Some(field);
        }
        match datum.stand_in() {
            Some(element) => self.if_stored(element),
            None => None,
        }
    }

    /// The same columns once more, where there is memory.
    pub fn copy(&self) -> Result<StoredSet, NoMemory>
        ensures { IfOk result (λ set. set ≡ self.now) }
    {
        Ok(StoredSet {
            columns: Vec::from_slice(*self.columns.allocator(), self.columns.as_slice())?,
            fields: Vec::from_slice(*self.columns.allocator(), self.fields.as_slice())?,
            places: Vec::from_slice(*self.columns.allocator(), self.places.as_slice())?,
        })
    }
}
