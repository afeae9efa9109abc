//! The data of a key in a slice of words, by the columns of its table; `stick_pooled`'s `value_rows` calls it.
//!
//! It is for tables that keep the data of all keys in one block. Whoever keeps the words says where those of a key are.
ghost use Rattle.std.specs.Prelude.{◌≡◌, ℕ, ◌+◌, ◌<◌, ◌≤◌, ◌⊎◌, ◌++◌, List, length, map, replicate, slice_index, IsTrue, IfOk, OnOk, ◌∷◌, ◌^◌, []};
ghost use Rattle.stored_data.specs.Data.{is_rate};
ghost use Rattle.stored_data.specs.Fields.{element, elements_of, size};
ghost use Rattle.stored_data.specs.Stored.{IsPeriod, HavePeriods, IsSound};
ghost use Rattle.rate_window.specs.Rate.{with_count};
ghost use Rattle.rate_window.specs.Words.{tally_in};
ghost use Rattle.stored_data.specs.Acts.{acted, answer, changed, shown, told as specified_told, value_at, with_value, zero_of, is_kept as specified_kept};
ghost use Rattle.stored_data.specs.Words.{is_kept_in as specified_kept_in, words_of as specified_words, words_in, width as specified_width, field_at as specified_field, fields_from, fields_in, content_at, taken, edited, edited_index, edited_change, edited_moment};
ghost use Rattle.stored_data.specs.declared.stored_set.Column.{Column};
ghost use Rattle.stored_data.specs.declared.values.Content.TheVariants.{Number};

use crate::act::{Act, Change};
use crate::values::{Content, StoredValue, Values};
use crate::{Column, Datum, Field};
use base_sequence::NoMemory;
use rate_window::Meter;
use std::alloc::Global;

/// What is done to each field of a row.
#[derive(Clone, Copy)]
enum Edit {
    /// An act at a moment.
    Do(u64, Act),
    /// A value is put into a field.
    Put(Field, u64),
}

impl Edit {
    ghost use Rattle.std.specs.Prelude.{◌≡◌};
    ghost use Rattle.stored_data.specs.Words.{edited_change, edited_index, edited_moment};

    /// What it does to the field of a datum that it is done to.
    fn change(self, datum: Datum) -> Change
        ensures { result ≡ edited_change self datum }
    {
        match self {
            Edit::Do(_, act) => act.change(datum),
            Edit::Put(field, value) if datum.place() == field.datum.place() => Change::Set(value),
            Edit::Put(..) => Change::Keep,
        }
    }

    /// The moment in ms at which it counts; of a put, which counts nothing, 0.
    fn moment(self) -> u64
        ensures { result ≡ edited_moment self }
    {
        match self {
            Edit::Do(now, _) => now,
            Edit::Put(..) => 0,
        }
    }

    /// The index of the field of a datum that it is done to.
    fn index_in(self, datum: Datum) -> u32
        ensures { result ≡ edited_index self datum }
    {
        match self {
            Edit::Do(_, act) => act.index_of(datum),
            Edit::Put(field, _) => field.index,
        }
    }
}

/// Whether anything is kept of a column.
fn is_kept(column: Column) -> bool
    ensures { result ≡ specified_kept (element column 0) }
{
    column.datum.place() != Datum::ConnCur.place()
}

/// How many words each field of a column takes.
pub(crate) fn words_each(column: Column) -> usize
    ensures { result ≡ specified_words (element column 0) }
{
    if !is_kept(column) {
        return 0;
    }
    if column.datum.is_rate() { 2 } else { 1 }
}

/// How many words a column takes.
pub(crate) fn words_of(column: Column) -> usize
    ensures { result ≡ words_in (elements_of column) }
{
    if !is_kept(column) {
        return 0;
    }
    if column.datum.is_rate() {
        2
    } else {
        column.size() as usize
    }
}

/// How many words the data of a key take: one for a number and for each element of an array, two for a rate, and
/// none for the current connections.
pub fn width(columns: &[Column]) -> usize
    requires { IsSound columns.now }
    ensures { result ≡ specified_width columns.now }
{
    let mut width = 0;
    for column in columns {
        width += words_of(*column);
    }
    width
}

/// What a field of a datum, whose words begin at `at`, shows at a moment in ms.
pub(crate) fn shown_at(datum: Datum, period: u32, words: &[u64], at: usize, now: u64) -> u64
    requires period { IsPeriod (is_rate datum) period }
    requires within { at + taken datum ≤ length words.now }
    ensures { result ≡ shown now (content_at datum period words.now at) }
{
    if datum.is_rate() {
        u64::from(Meter::from_words(period, words[at], words[at + 1]).rate(now))
    } else {
        words[at]
    }
}

/// Counts at a moment in ms in the rate of a period whose words begin at `at`.
fn count_at(period: u32, words: &mut [u64], at: usize, now: u64, amount: u64)
    requires period { (1 ≤ period) × (period < 2 ^ 31) }
    requires within { at + 2 ≤ length words.old }
    ensures sized { length words.new ≡ length words.old }
    ensures rate { tally_in period (slice_index words.new at) (slice_index words.new (at + 1)) ≡ with_count (tally_in period (slice_index words.old at) (slice_index words.old (at + 1))) (record { moment = now; amount = amount }) }
    ensures elsewhere { (k : ℕ) → (k < at) ⊎ (at + 2 ≤ k) → slice_index words.new k ≡ slice_index words.old k }
{
    let mut meter = Meter::from_words(period, words[at], words[at + 1]);
    meter.count(now, amount);
    let (window, sums) = meter.words();
    words[at] = window;
    words[at + 1] = sums;
}

/// A number after a change: what is added stays below the greatest of its datum.
fn number_after(datum: Datum, number: u64, change: Change) -> u64
    ensures { (now : ℕ) → Number result ≡ changed now datum change (Number number) }
{
    match change {
        Change::Keep => number,
        Change::Add(amount) => number.saturating_add(amount).min(datum.greatest()),
        Change::Set(value) => value,
    }
}

/// Does a change at a moment in ms to a column's field whose words begin at `at`.
#[inline(always)]
fn change_at(column: Column, words: &mut [u64], at: usize, now: u64, change: Change)
    requires period { IsPeriod (is_rate column.datum) column.period }
    requires kept { IsTrue (specified_kept (element column 0)) }
    requires within { at + specified_words (element column 0) ≤ length words.old }
    ensures sized { length words.new ≡ length words.old }
    ensures content { content_at column.datum column.period words.new at ≡ changed now column.datum change (content_at column.datum column.period words.old at) }
    ensures elsewhere { (k : ℕ) → (k < at) ⊎ (at + specified_words (element column 0) ≤ k) → slice_index words.new k ≡ slice_index words.old k }
{
    if !column.datum.is_rate() {
        words[at] = number_after(column.datum, words[at], change);
        return;
    }
    if let Change::Add(amount) = change {
        count_at(column.period, words, at, now, amount);
    }
}

/// Does it to the fields of a column whose words begin at `at`: to one of them, and all others stay.
#[inline(always)]
fn edit_column(column: Column, words: &mut [u64], at: usize, edit: Edit)
    requires period { IsPeriod (is_rate column.datum) column.period }
    requires within { at + words_in (elements_of column) ≤ length words.old }
    ensures sized { length words.new ≡ length words.old }
    ensures fields { fields_from (elements_of column) words.new at ≡ map (edited edit) (fields_from (elements_of column) words.old at) }
    ensures elsewhere { (k : ℕ) → (k < at) ⊎ (at + words_in (elements_of column) ≤ k) → slice_index words.new k ≡ slice_index words.old k }
{
    let change = edit.change(column.datum);
    if change.keeps() {
        return;
    }
    if !is_kept(column) {
        return;
    }
    let index = edit.index_in(column.datum);
    if index >= column.size() {
        return;
    }
    change_at(column, words, at + index as usize, edit.moment(), change);
}

/// Does it to each field.
///
/// It is put into its callers, as each knows whether it puts or acts, which is asked for each column else.
#[inline(always)]
fn edit_fields(columns: &[Column], words: &mut [u64], edit: Edit)
    requires periods { HavePeriods columns.now }
    requires sized { specified_width columns.now ≤ length words.old }
    ensures sized { length words.new ≡ length words.old }
    ensures data { fields_in columns.now words.new ≡ map (edited edit) (fields_in columns.now words.old) }
{
    let mut at = 0;
    for column in columns {
        edit_column(*column, words, at, edit);
        at += words_of(*column);
    }
}

/// Whether it is a field of the column, and anything is kept of it.
fn is_kept_in(column: Column, field: Field) -> bool
    ensures { result ≡ specified_kept_in column field }
{
    column.datum.place() == field.datum.place() && field.index < column.size() && is_kept(column)
}

/// What a field shows at a moment in ms: none where it isn't stored, and for the current connections.
pub fn get(columns: &[Column], words: &[u64], field: Field, now: u64) -> Option<u64>
    requires periods { HavePeriods columns.now }
    requires sized { specified_width columns.now ≤ length words.now }
    ensures { result ≡ value_at (fields_in columns.now words.now) field now }
{
    let mut at = 0;
    for column in columns {
        if is_kept_in(*column, field) {
            let from = at + field.index as usize;
            return Some(shown_at(column.datum, column.period, words, from, now));
        }
        at += words_of(*column);
    }
    None
}

/// What the field that an act answers for shows, or, where it isn't stored, the element that stands for it.
fn told(columns: &[Column], words: &[u64], act: Act, now: u64) -> Option<u64>
    requires periods { HavePeriods columns.now }
    requires sized { specified_width columns.now ≤ length words.now }
    ensures { result ≡ specified_told (fields_in columns.now words.now) act now }
{
    let subject = act.subject();
    if let Some(value) = get(columns, words, subject, now) {
        return Some(value);
    }
    match subject.datum.stand_in() {
        Some(element) => get(columns, words, element, now),
        None => None,
    }
}

/// Puts a value into a field, and counts in no rate. Where the field isn't stored, or is a rate, all
/// stays. The value isn't cut: callers test `settable` and `in_range`.
pub fn put(columns: &[Column], words: &mut [u64], field: Field, value: u64)
    requires periods { HavePeriods columns.now }
    requires sized { specified_width columns.now ≤ length words.old }
    ensures sized { length words.new ≡ length words.old }
    ensures data { fields_in columns.now words.new ≡ with_value (fields_in columns.now words.old) field value }
{
    edit_fields(columns, words, Edit::Put(field, value));
}

/// Does an act at a moment in ms, and answers the new value of its counter or tag, of a clear the
/// value before it; none where neither that nor the element that stands for it is stored.
pub fn act(columns: &[Column], words: &mut [u64], now: u64, act: Act) -> Option<u64>
    requires periods { HavePeriods columns.now }
    requires sized { specified_width columns.now ≤ length words.old }
    ensures sized { length words.new ≡ length words.old }
    ensures data { fields_in columns.now words.new ≡ acted (fields_in columns.now words.old) now act }
    ensures answer { result ≡ answer (fields_in columns.now words.old) now act }
{
    if act.answers_before() {
        let before = told(columns, words, act, now);
        edit_fields(columns, words, Edit::Do(now, act));
        return before;
    }
    edit_fields(columns, words, Edit::Do(now, act));
    told(columns, words, act, now)
}

/// Makes them the data of a new key: all words are 0.
pub fn clear(words: &mut [u64])
    ensures zero { words.new ≡ replicate (length words.old) 0 }
    ensures data { (columns : List Column) → fields_in columns words.new ≡ zero_of columns }
{
    words.fill(0);
}

/// Adds a column's field whose words begin at `at`.
fn push_field(
    fields: &mut Vec<StoredValue>,
    column: Column,
    index: u32,
    words: &[u64],
    at: usize,
) -> Result<(), NoMemory>
    requires period { IsPeriod (is_rate column.datum) column.period }
    requires kept { IsTrue (specified_kept (element column index)) }
    requires within { at + specified_words (element column index) ≤ length words.now }
    ensures { OnOk result (fields.new.items ≡ fields.old.items ++ specified_field (element column index) words.now at ∷ []) }
{
    let content = if column.datum.is_rate() {
        Content::Rate(Meter::from_words(column.period, words[at], words[at + 1]))
    } else {
        Content::Number(words[at])
    };
    fields.push(StoredValue {
        field: Field {
            datum: column.datum,
            index,
        },
        content,
    })?;
    Ok(())
}

/// Adds the fields of a column whose words begin at `at`.
fn push_fields(
    fields: &mut Vec<StoredValue>,
    column: Column,
    words: &[u64],
    at: usize,
) -> Result<(), NoMemory>
    requires period { IsPeriod (is_rate column.datum) column.period }
    requires within { at + words_in (elements_of column) ≤ length words.now }
    ensures { OnOk result (fields.new.items ≡ fields.old.items ++ fields_from (elements_of column) words.now at) }
{
    if !is_kept(column) {
        return Ok(());
    }
    for index in 0..column.size() {
        push_field(fields, column, index, words, at + index as usize)?;
    }
    Ok(())
}

/// How many fields are kept, so that a copy takes memory for just those: what no contract sees.
fn count_kept(columns: &[Column]) -> usize {
    let mut count: usize = 0;
    for column in columns {
        if is_kept(*column) {
            count = count.saturating_add(column.size() as usize);
        }
    }
    count
}

/// A copy of the data, where there is memory.
pub fn values(alloc: Global, columns: &[Column], words: &[u64]) -> Result<Values, NoMemory>
    requires periods { HavePeriods columns.now }
    requires sized { specified_width columns.now ≤ length words.now }
    ensures { IfOk result (λ values. values ≡ fields_in columns.now words.now) }
{
    let mut fields = Vec::with_capacity(alloc, count_kept(columns))?;
    let mut at = 0;
    for column in columns {
        push_fields(&mut fields, *column, words, at)?;
        at += words_of(*column);
    }
    Ok(Values::from_fields(fields))
}
