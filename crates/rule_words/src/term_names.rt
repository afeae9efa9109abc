//! What the first word of a criterion asks; `criteria` and `conditions` call it.

ghost use Rattle.std.specs.Prelude.{◌≡◌, map, ok_or, option_map};
ghost use Rattle.rule_model.specs.Reading.{Gives};
ghost use Rattle.rule_model.specs.declared.faults.Fault.TheVariants.{BadCondition};
ghost use Rattle.rule_words.specs.TermNames as spec;
ghost use Rattle.rule_words.specs.TermNames.{fetch_of, named};

use crate::elements::read_element;
use base_lines::{before_parenthesis, has_closing, inside, read_number};
use base_sequence::Sequence;
use rule_model::{Fault, Fetch, Measure, ReadError, Slot};
use std::alloc::Global;
use stored_data::{Act, Datum, Field, read_fetch};

/// What a criterion asks: all of it but the values.
#[derive(Drop)]
pub(crate) enum Subject {
    /// It is always true, or always false.
    Always(bool),
    /// Whether the slot holds a reference.
    IsTracked(Slot),
    /// Whether the client's address is in one of the networks that follow.
    Source,
    /// Whether this integer matches one of the patterns that follow.
    Integer(Measure),
}

/// What stands beside a name in a table.
pub(crate) fn value_of<T: Copy>(name: &[u8], rows: &[(&str, T)]) -> Option<T>
    ensures { result ≡ named name.now (map (λ row. (row.0.now, row.1)) rows.now) }
{
    for (text, value) in rows {
        if name == text.as_bytes() {
            return Some(*value);
        }
    }
    None
}

/// What is read of a datum: of bytes their kilobytes.
fn fetch_by(datum: Datum) -> Fetch
    ensures { result ≡ spec.fetch_by datum }
{
    if datum.counts_bytes() {
        Fetch::Kilobytes(datum)
    } else {
        Fetch::Datum(datum)
    }
}

/// What is read of an entry by this name.
#[tactic(auto, unfolding(crate::specs::TermNames::fetch_of))]
fn fetch_named(name: &[u8]) -> Option<Fetch>
    ensures { result ≡ fetch_of name.now }
{
    let Some(datum) = read_fetch(name) else {
        return None;
    };
    Some(fetch_by(datum))
}

/// The rest of a text that begins so.
fn behind<'a>(prefix: &[u8], text: &'a [u8]) -> Option<&'a [u8]>
    ensures { option_map (λ rest. rest.now) result ≡ spec.behind prefix.now text.now }
{
    text.strip_prefix(prefix)
}

/// The rest of a text that ends so.
fn before<'a>(end: &[u8], text: &'a [u8]) -> Option<&'a [u8]>
    ensures { option_map (λ rest. rest.now) result ≡ spec.before end.now text.now }
{
    text.strip_suffix(end)
}

/// What is asked by a name that stands alone.
#[tactic(auto, unfolding(crate::specs::TermNames::plain_subject))]
fn plain_subject(name: &[u8]) -> Option<Subject>
    ensures { result ≡ spec.plain_subject name.now }
{
    if name == b"always_true".as_slice() {
        return Some(Subject::Always(true));
    }
    if name == b"always_false".as_slice() {
        return Some(Subject::Always(false));
    }
    if name == b"src".as_slice() {
        return Some(Subject::Source);
    }
    if name == b"src_port".as_slice() {
        return Some(Subject::Integer(Measure::SourcePort));
    }
    if name == b"dst_port".as_slice() {
        return Some(Subject::Integer(Measure::DestinationPort));
    }
    None
}

/// The acts that a criterion can do to a slot's entry, by their names.
const ACTS: [(&str, Act); 4] = [
    ("inc_gpc0", Act::IncGpc0),
    ("inc_gpc1", Act::IncGpc1),
    ("clr_gpc0", Act::ClrGpc0),
    ("clr_gpc1", Act::ClrGpc1),
];

/// What X of `sc0_X` and of `sc_X(0)` asks of the slot.
#[tactic(auto, unfolding(crate::specs::TermNames::slot_subject))]
fn slot_subject(slot: Slot, name: &[u8]) -> Option<Subject>
    ensures { result ≡ spec.slot_subject slot name.now }
{
    if name == b"tracked".as_slice() {
        return Some(Subject::IsTracked(slot));
    }
    if name == b"trackers".as_slice() {
        return Some(Subject::Integer(Measure::Tracked(slot, Fetch::Trackers)));
    }
    if let Some(act) = value_of(name, &ACTS) {
        return Some(Subject::Integer(Measure::Counted(slot, act)));
    }
    let Some(fetch) = fetch_named(name) else {
        return None;
    };
    Some(Subject::Integer(Measure::Tracked(slot, fetch)))
}

/// A slot's number, as it stands in parentheses.
fn slot_number(slot: Slot) -> u64
    ensures { result ≡ spec.slot_number slot }
{
    match slot {
        Slot::Sc0 => 0,
        Slot::Sc1 => 1,
        Slot::Sc2 => 2,
    }
}

/// X of `sc_X(n)`, where n is the slot's number.
fn with_number(slot: Slot, text: &[u8]) -> Option<&[u8]>
    ensures { option_map (λ name. name.now) result ≡ spec.with_number slot text.now }
{
    let (name, rest) = before_parenthesis(text);
    let Some(inner) = inside(rest) else {
        return None;
    };
    let Some(number) = read_number(inner) else {
        return None;
    };
    if number != slot_number(slot) {
        return None;
    }
    behind(b"sc_", name)
}

/// X of `sc0_X` and of `sc_X(0)`.
#[tactic(auto, unfolding(crate::specs::TermNames::on_slot))]
fn on_slot(slot: Slot, text: &[u8]) -> Option<&[u8]>
    ensures { option_map (λ name. name.now) result ≡ spec.on_slot slot text.now }
{
    let prefix = match slot {
        Slot::Sc0 => b"sc0_",
        Slot::Sc1 => b"sc1_",
        Slot::Sc2 => b"sc2_",
    };
    if let Some(name) = behind(prefix, text) {
        return Some(name);
    }
    with_number(slot, text)
}

/// What a name asks of a slot, if it names this one.
fn of_slot(slot: Slot, text: &[u8]) -> Option<Subject>
    ensures { result ≡ spec.of_slot slot text.now }
{
    let Some(name) = on_slot(slot, text) else {
        return None;
    };
    slot_subject(slot, name)
}

/// What X(i,n) asks of an element of an array in the entry of a slot.
#[tactic(auto, unfolding(crate::specs::TermNames::element_subject))]
fn element_subject(text: &[u8]) -> Option<Subject>
    ensures { result ≡ spec.element_subject text.now }
{
    let (name, rest) = before_parenthesis(text);
    let Some(inner) = inside(rest) else {
        return None;
    };
    let Some(element) = read_element(inner) else {
        return None;
    };
    let index = element.index;
    if name == b"sc_get_gpc".as_slice() {
        let fetch = Fetch::Element(Field {
            datum: Datum::Gpc,
            index,
        });
        return Some(Subject::Integer(Measure::Tracked(element.slot, fetch)));
    }
    if name == b"sc_get_gpt".as_slice() {
        let fetch = Fetch::Element(Field {
            datum: Datum::Gpt,
            index,
        });
        return Some(Subject::Integer(Measure::Tracked(element.slot, fetch)));
    }
    if name == b"sc_inc_gpc".as_slice() {
        let act = Act::IncGpc(index);
        return Some(Subject::Integer(Measure::Counted(element.slot, act)));
    }
    None
}

/// T of `(T)`: some text without a closing parenthesis.
#[tactic(auto, unfolding(crate::specs::TermNames::table_in))]
fn table_in(text: &[u8]) -> Option<&[u8]>
    ensures { option_map (λ table. table.now) result ≡ spec.table_in text.now }
{
    let Some(rest) = behind(b"(", text) else {
        return None;
    };
    let Some(table) = before(b")", rest) else {
        return None;
    };
    if table.is_empty() || has_closing(table) {
        return None;
    }
    Some(table)
}

/// The own section's table, or that of `(T)`.
fn table_of<'a>(own: &'a [u8], text: &'a [u8]) -> Option<&'a [u8]>
    ensures { option_map (λ table. table.now) result ≡ spec.table_of own.now text.now }
{
    if text.is_empty() {
        return Some(own);
    }
    table_in(text)
}

/// What X and X(T) of `src_X` and `src_X(T)` ask, in the section of this name.
#[tactic(auto, unfolding(crate::specs::TermNames::source_subject))]
fn read_source(alloc: Global, own: &[u8], text: &[u8]) -> Result<Subject, ReadError>
    ensures { Gives result (ok_or (spec.source_subject own.now text.now) BadCondition) }
{
    let (name, rest) = before_parenthesis(text);
    let Some(fetch) = fetch_named(name) else {
        return Err(ReadError::Wrong(Fault::BadCondition));
    };
    let Some(table) = table_of(own, rest) else {
        return Err(ReadError::Wrong(Fault::BadCondition));
    };
    let table = Sequence::from_slice(alloc, table)?;
    Ok(Subject::Integer(Measure::Source(table, fetch)))
}

/// What a criterion's name asks, in the section of this name.
#[tactic(auto, unfolding(crate::specs::TermNames::subject_of))]
pub(crate) fn read_subject(alloc: Global, own: &[u8], name: &[u8]) -> Result<Subject, ReadError>
    ensures { Gives result (ok_or (spec.subject_of own.now name.now) BadCondition) }
{
    if let Some(subject) = plain_subject(name) {
        return Ok(subject);
    }
    if let Some(subject) = of_slot(Slot::Sc0, name) {
        return Ok(subject);
    }
    if let Some(subject) = of_slot(Slot::Sc1, name) {
        return Ok(subject);
    }
    if let Some(subject) = of_slot(Slot::Sc2, name) {
        return Ok(subject);
    }
    if let Some(subject) = element_subject(name) {
        return Ok(subject);
    }
    let Some(rest) = behind(b"src_", name) else {
        return Err(ReadError::Wrong(Fault::BadCondition));
    };
    read_source(alloc, own, rest)
}
