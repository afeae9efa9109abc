//! The data of one key; `stick_table` keeps one per record, and `stick_pooled` for copies and new entries.
ghost use Rattle.std.specs.Prelude.{List};

use crate::act::{Act, Change};
use crate::{Column, Datum, Field, StoredSet};
use base_sequence::NoMemory;
use rate_window::Meter;
use std::alloc::Global;
use std::marker::Model;

/// What is kept of a datum.
#[derive(Clone, Copy)]
pub enum Content {
    /// The number of a counter or of the tag.
    Number(u64),
    /// What was counted for a rate.
    Rate(Meter),
}

/// A field and what is kept of it.
#[derive(Clone, Copy)]
pub struct StoredValue {
    /// The datum, or the element of an array.
    pub field: Field,
    /// What is kept of it.
    pub content: Content,
}

/// The data of one key, in the order of the columns; of the current connections nothing is kept.
/// Contracts see it as the list of its fields. Once made, it takes no more memory.
#[derive(Drop)]
pub struct Values {
    fields: Vec<StoredValue>,
}

impl Model for Values {
    ghost use Rattle.std.specs.Prelude.{List};
    ghost use Rattle.stored_data.specs.declared.values.StoredValue.{StoredValue};

    ghost Value = { List StoredValue };

    ghost view = { λ values. values.fields.items };
}

impl Content {
    ghost use Rattle.std.specs.Prelude.{◌≡◌};
    ghost use Rattle.stored_data.specs.Acts.{put_content};

    /// The content with a value put into it, which leaves a rate as it is.
    fn with_value(self, value: u64) -> Content
        ensures { result ≡ put_content value self }
    {
        match self {
            Content::Number(_) => Content::Number(value),
            Content::Rate(meter) => Content::Rate(meter),
        }
    }
}

impl StoredValue {
    ghost use Rattle.std.specs.Prelude.{◌≡◌};
    ghost use Rattle.stored_data.specs.Acts.{changed, shown, changed_field, put_field};

    /// The content after a change at a moment.
    pub(crate) fn changed(self, now: u64, change: Change) -> Content
        ensures { result ≡ changed now self.field.datum change self.content }
    {
        match (change, self.content) {
            (Change::Keep, content) => content,
            (Change::Add(amount), Content::Number(number)) => {
                Content::Number(
                    number
                        .saturating_add(amount)
                        .min(self.field.datum.greatest()),
                )
            }
            (Change::Add(amount), Content::Rate(mut meter)) => {
                meter.count(now, amount);
                Content::Rate(meter)
            }
            (Change::Set(number), Content::Number(_)) => Content::Number(number),
            (Change::Set(_), Content::Rate(meter)) => Content::Rate(meter),
        }
    }

    /// The field after an act.
    pub(crate) fn acted(self, now: u64, act: Act) -> StoredValue
        ensures { result ≡ changed_field now act self }
    {
        StoredValue {
            field: self.field,
            content: self.changed(now, act.change_at(self.field)),
        }
    }

    /// What is kept of it with a value put into a field.
    pub(crate) fn with_value(self, field: Field, value: u64) -> StoredValue
        ensures { result ≡ put_field field value self }
    {
        if self.field.is(field) {
            StoredValue {
                field: self.field,
                content: self.content.with_value(value),
            }
        } else {
            self
        }
    }

    /// What the field shows at a moment.
    pub(crate) fn shown(&self, now: u64) -> u64
        ensures { result ≡ shown now self.now.content }
    {
        match self.content {
            Content::Number(number) => number,
            Content::Rate(meter) => u64::from(meter.rate(now)),
        }
    }
}

/// The data after an act.
fn change_fields(fields: &mut [StoredValue], now: u64, act: Act)
    ensures { fields.new ≡ acted fields.old now act }
{
    for stored in fields.iter_mut() {
        *stored = stored.acted(now, act);
    }
}

ghost use Rattle.std.specs.Prelude.{◌≡◌, ◌++◌, [], ◌∷◌, map, filter, IfOk, OnOk};
ghost use Rattle.stored_data.specs.Acts.{acted, told as specified_told, value_at, with_value, is_kept, zero_field, zero_of};
ghost use Rattle.stored_data.specs.Data.{is_rate};
ghost use Rattle.stored_data.specs.Fields.{element, elements_of};
ghost use Rattle.stored_data.specs.Stored.{IsPeriod, HavePeriods};

/// What a field shows at a moment, where it is stored.
fn value_in(fields: &[StoredValue], field: Field, now: u64) -> Option<u64>
    ensures { result ≡ value_at fields.now field now }
{
    for stored in fields {
        if stored.field.is(field) {
            return Some(stored.shown(now));
        }
    }
    None
}

/// What the field that an act answers for shows, or, where it isn't stored, the element that stands for it.
fn told(fields: &[StoredValue], act: Act, now: u64) -> Option<u64>
    ensures { result ≡ specified_told fields.now act now }
{
    let subject = act.subject();
    if let Some(value) = value_in(fields, subject, now) {
        return Some(value);
    }
    match subject.datum.stand_in() {
        Some(element) => value_in(fields, element, now),
        None => None,
    }
}

/// Puts a value into a field.
fn put_field(fields: &mut [StoredValue], field: Field, value: u64)
    ensures { fields.new ≡ with_value fields.old field value }
{
    for stored in fields.iter_mut() {
        *stored = stored.with_value(field, value);
    }
}

/// Adds one field of a column.
fn push_zero(fields: &mut Vec<StoredValue>, column: Column, index: u32) -> Result<(), NoMemory>
    requires { IsPeriod (is_rate column.datum) column.period }
    ensures { OnOk result (fields.new.items ≡ fields.old.items ++ zero_field (element column index) ∷ []) }
{
    let content = if column.datum.is_rate() {
        Content::Rate(Meter::new(column.period))
    } else {
        Content::Number(0)
    };
    fields.push(StoredValue {
        field: Field {
            datum: column.datum,
            index,
        },
        content,
    })?;
    Ok(())
}

/// Adds the fields of a column.
fn push_zeros(fields: &mut Vec<StoredValue>, column: Column) -> Result<(), NoMemory>
    requires { IsPeriod (is_rate column.datum) column.period }
    ensures { OnOk result (fields.new.items ≡ fields.old.items ++ map zero_field (filter is_kept (elements_of column))) }
{
    if column.datum.place() == Datum::ConnCur.place() {
        return Ok(());
    }
    for index in 0..column.size() {
        push_zero(fields, column, index)?;
    }
    Ok(())
}

/// The fields of columns, with nothing counted.
fn zero_fields(alloc: Global, columns: &[Column]) -> Result<Vec<StoredValue>, NoMemory>
    requires { HavePeriods columns.now }
    ensures { IfOk result (λ fields. fields.items ≡ zero_of columns.now) }
{
    let mut fields = Vec::new(alloc);
    for column in columns {
        push_zeros(&mut fields, *column)?;
    }
    Ok(fields)
}

impl Values {
    ghost use Rattle.std.specs.Prelude.{◌≡◌, ◌≤◌, IsSome, IsTrue, IfOk};
    ghost use Rattle.stored_data.specs.Data.{is_settable, greatest};
    ghost use Rattle.stored_data.specs.Acts.{acted, answer, value_at, content_of, with_value, zero_of};

    /// The data of a new key: numbers are 0, and nothing is counted in a rate.
    pub fn zero(alloc: Global, set: &StoredSet) -> Result<Values, NoMemory>
        ensures { IfOk result (λ values. values ≡ zero_of set.now) }
    {
        Ok(Values {
            fields: zero_fields(alloc, set.columns())?,
        })
    }

    /// The data that these fields are.
    pub(crate) fn from_fields(fields: Vec<StoredValue>) -> Values
        ensures { result ≡ fields.items }
    {
        Values { fields }
    }

    /// Puts a value into a field, and counts in no rate. Where the field isn't stored, or is a rate,
    /// all stays. The value isn't cut: callers test `settable` and `in_range`.
    pub fn put(&mut self, field: Field, value: u64)
        ensures { self.new ≡ with_value self.old field value }
    {
        put_field(self.fields.as_mut_slice(), field, value);
    }

    /// Does an act at a moment in ms, and answers the new value of its counter or tag, of a clear the
    /// value before it; none where neither that nor the element that stands for it is stored. Counters stop at their greatest value, and what
    /// their rates are is defined for moments in order.
    pub fn act(&mut self, now: u64, act: Act) -> Option<u64>
        ensures data { self.new ≡ acted self.old now act }
        ensures answer { result ≡ answer self.old now act }
    {
        if act.answers_before() {
            let before = told(self.fields.as_slice(), act, now);
            change_fields(self.fields.as_mut_slice(), now, act);
            return before;
        }
        change_fields(self.fields.as_mut_slice(), now, act);
        told(self.fields.as_slice(), act, now)
    }

    /// The same data once more, where there is memory.
    pub fn copy(&self) -> Result<Values, NoMemory>
        ensures { IfOk result (λ values. values ≡ self.now) }
    {
        Ok(Values {
            fields: Vec::from_slice(*self.fields.allocator(), self.fields.as_slice())?,
        })
    }

    /// What a field shows at a moment in ms: none where it isn't stored, and for the current
    /// connections, which are the references to the key.
    pub fn get(&self, field: Field, now: u64) -> Option<u64>
        ensures { result ≡ value_at self.now field now }
    {
        value_in(self.fields.as_slice(), field, now)
    }
}
