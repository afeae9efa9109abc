//! What is drawn at random.

ghost use Rattle.std.specs.Prelude.{◌≡◌, ◌≤◌, ◌<◌, ◌^◌, All, IfOk};
ghost use Rattle.stored_data.specs.Data.{greatest};
ghost use Rattle.stick_model.specs.Limits.{IsTableEvent, IsTableSpec};
ghost use Rattle.stick_model.specs.declared.rows.Cell.{Cell};

use crate::random_numbers::Random;
use base_sequence::{NoMemory, Sequence};
use std::alloc::Global;
use stick_key::{KeyType, Sample, StickKey, convert};
use stick_table::{Cell, Cells, Event, Filter, Op, Spec, Ticket};
use stored_data::{Act, Column, Datum, Field, StoredSet};

/// The data that the tables store.
const DATA: [Datum; 3] = [Datum::Gpc0, Datum::ConnCnt, Datum::ConnCur];

/// The ms for which an entry lives.
const EXPIRE: u32 = 500;

/// How many entries go at once where a table is full.
const PURGE: u32 = 3;

/// What a table of integers is made with, whose entries live for 500 ms.
pub fn spec(alloc: Global, size: u32, max_refs: u32, life: u64) -> Result<Spec, NoMemory>
    requires size { (1 ≤ size) × (size ≤ 2 ^ 30) }
    requires max_refs { (1 ≤ max_refs) × (max_refs ≤ 2 ^ 20) }
    requires life { life ≤ 2 ^ 62 }
    ensures limits { IfOk result IsTableSpec }
    ensures size { IfOk result (λ spec. spec.size ≡ size) }
{
    let mut columns = StoredSet::new(alloc);
    for datum in DATA {
        if !columns.holds(datum) && !columns.excludes(datum) {
            columns.add(Column {
                datum,
                period: 0,
                count: 0,
            })?;
        }
    }
    Ok(Spec {
        kind: KeyType::Integer,
        size,
        expire: Some(EXPIRE),
        nopurge: false,
        purge: PURGE,
        columns,
        max_refs,
        life,
        seed: 0,
    })
}

/// The key of a number.
pub fn key(alloc: Global, number: u32) -> Result<StickKey, NoMemory> {
    match convert(alloc, &Sample::Number(number), KeyType::Integer) {
        Ok(Some(key)) => Ok(key),
        _ => Err(NoMemory),
    }
}

/// A key below a number.
fn drawn_key(alloc: Global, random: &mut Random, keys: u32) -> Result<StickKey, NoMemory> {
    key(alloc, random.below(keys.max(1)))
}

/// An act, mostly on a datum that is stored.
fn act(random: &mut Random) -> Act {
    match random.below(6) {
        0..=2 => Act::IncGpc0,
        3 => Act::ClrGpc0,
        4 => Act::Session,
        _ => Act::Connection,
    }
}

/// No pair, or one that can be put, mostly.
fn pairs(alloc: Global, random: &mut Random) -> Result<Cells, NoMemory>
    ensures { IfOk result (λ cells. All (λ (pair : Cell). pair.value ≤ greatest pair.field.datum) cells) }
{
    let datum = match random.below(12) {
        0 => return Ok(Sequence::new(alloc)),
        1 => Datum::ConnCur,
        2 => Datum::Gpc1,
        3 => Datum::ConnCnt,
        _ => Datum::Gpc0,
    };
    let value = u64::from(random.below(6)).min(datum.greatest());
    let field = Field::plain(datum);
    Sequence::from_slice(alloc, &[Cell { field, value }])
}

/// A filter of any kind.
pub fn filter(alloc: Global, random: &mut Random, keys: u32) -> Result<Filter, NoMemory> {
    match random.below(5) {
        0 => Ok(Filter::Everything),
        1 => Ok(Filter::Nothing),
        2 => Ok(Filter::Key(drawn_key(alloc, random, keys)?)),
        3 => Ok(Filter::Compare(Field::plain(Datum::Gpc1), Op::Ge, 1)),
        _ => {
            let bound = u64::from(random.below(5));
            Ok(Filter::Compare(Field::plain(Datum::Gpc0), Op::Lt, bound))
        }
    }
}

/// An event at this moment, of any kind: of a key below a number, or of this ticket.
pub fn event(
    alloc: Global,
    random: &mut Random,
    keys: u32,
    now: u64,
    ticket: Ticket,
) -> Result<Event, NoMemory>
    requires { now < 2 ^ 62 }
    ensures { IfOk result IsTableEvent }
{
    match random.below(24) {
        0..=1 => Ok(Event::Get(now, drawn_key(alloc, random, keys)?)),
        2..=6 => Ok(Event::Track(now, drawn_key(alloc, random, keys)?)),
        7..=8 => Ok(Event::Look(now, ticket)),
        9..=11 => Ok(Event::Count(now, ticket, act(random))),
        12..=15 => Ok(Event::Release(now, ticket)),
        16..=18 => {
            let key = drawn_key(alloc, random, keys)?;
            Ok(Event::Put(now, key, pairs(alloc, random)?))
        }
        19 => Ok(Event::Clear(now, drawn_key(alloc, random, keys)?)),
        20 => Ok(Event::ClearWhere(now, filter(alloc, random, keys)?)),
        21..=22 => Ok(Event::List(now, filter(alloc, random, keys)?)),
        _ => Ok(Event::Expire(now)),
    }
}
