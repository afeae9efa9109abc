//! Worked examples of tables, event by event: what is asked at a moment, and what is told of it.

ghost use Rattle.std.specs.Prelude.{◌≤◌, ◌<◌, ◌^◌, IfOk, IfSome};
ghost use Rattle.stick_model.specs.Limits.{IsTableEvent, IsTableSpec};

use crate::calls::Answer;
use base_sequence::{NoMemory, Sequence};
use std::alloc::Global;
use stick_key::{KeyType, StickKey, read_key};
use stick_table::{Cell, Event, Filter, Op, Refusal, Reply, Row, Rows, Spec, Ticket};
use stored_data::{Act, Column, Datum, Field, StoredSet};

/// Keys, in their order, which lie in memory of their own.
const ANNA: &str = "anna, of a long name, and";

const BERT: &str = "bert, of a long name, too";

const CARL: &str = "carl, who isn't there yet";

/// What is asked: of a key, or of the ticket that was told last.
#[derive(Clone, Copy)]
pub enum Ask {
    Get(&'static str),
    Track(&'static str),
    Look,
    IncGpc0,
    Release,
    /// Sets gpc0.
    Put(&'static str, u32),
    Clear(&'static str),
    /// By what gpc0 is compared with.
    ClearWhere(Op, u64),
    List(Op, u64),
    ListAll,
    Expire,
}

/// What a row shows: the key, its references, what is left of its life in ms, and gpc0.
pub type Shown = (&'static str, u32, u64, u64);

/// What is told.
#[derive(Clone, Copy)]
pub enum Tell {
    Absent,
    Row(Shown),
    NoRefs,
    /// The number of the ticket, and what is shown.
    Tracked(u64, Shown),
    Value(u64),
    Released,
    /// The entry was made.
    Created,
    InUse,
    Cleared(u64, u64),
    /// How many entries there are, and those that are shown.
    Rows(u64, &'static [Shown]),
    Expired(u64),
    Refused(Refusal),
}

/// A moment in ms, what is asked at it, and what is told of it.
pub type Told = (u32, Ask, Tell);

/// What a table of one reference is made with, and what it is asked and tells, one after another.
pub struct Example {
    pub size: u32,
    pub expire: Option<u32>,
    pub life: u64,
    pub rows: &'static [Told],
}

/// Each event on a table of two entries. The third key takes the place of the second, since the first is tracked.
pub static EACH_EVENT: Example = Example {
    size: 2,
    expire: Some(30_000),
    life: 1_000,
    rows: &[
        (0, Ask::Get(ANNA), Tell::Absent),
        (0, Ask::Put(ANNA, 7), Tell::Created),
        (20_000, Ask::Get(ANNA), Tell::Row((ANNA, 0, 10_000, 7))),
        (
            29_999,
            Ask::Track(ANNA),
            Tell::Tracked(4, (ANNA, 1, 30_000, 7)),
        ),
        (29_999, Ask::Track(BERT), Tell::NoRefs),
        (30_000, Ask::IncGpc0, Tell::Value(8)),
        (30_999, Ask::Look, Tell::Row((ANNA, 1, 29_000, 8))),
        (31_000, Ask::Put(BERT, 0), Tell::Created),
        (
            31_000,
            Ask::List(Op::Ge, 1),
            Tell::Rows(2, &[(ANNA, 1, 28_999, 8)]),
        ),
        (31_000, Ask::Put(CARL, 1), Tell::Created),
        (
            31_000,
            Ask::ListAll,
            Tell::Rows(2, &[(ANNA, 1, 28_999, 8), (CARL, 0, 30_000, 1)]),
        ),
        (31_000, Ask::Clear(ANNA), Tell::InUse),
        (31_000, Ask::Clear(BERT), Tell::Absent),
        (31_000, Ask::ClearWhere(Op::Eq, 1), Tell::Cleared(1, 0)),
        (40_000, Ask::Release, Tell::Released),
        (70_000, Ask::Expire, Tell::Expired(1)),
    ],
};

/// The table has one event left for the release. No configuration makes a table of so short a life.
pub static END_OF_LIFE: Example = Example {
    size: 10,
    expire: None,
    life: 4,
    rows: &[
        (0, Ask::Look, Tell::Refused(Refusal::Stale)),
        (0, Ask::IncGpc0, Tell::Refused(Refusal::Stale)),
        (0, Ask::Track(ANNA), Tell::Tracked(1, (ANNA, 1, 0, 0))),
        (0, Ask::Get(ANNA), Tell::Row((ANNA, 1, 0, 0))),
        (0, Ask::Look, Tell::Row((ANNA, 1, 0, 0))),
        (0, Ask::Get(ANNA), Tell::Refused(Refusal::Exhausted)),
        (0, Ask::Release, Tell::Released),
        (0, Ask::Release, Tell::Refused(Refusal::Stale)),
        (0, Ask::Expire, Tell::Refused(Refusal::Exhausted)),
    ],
};

/// The ticket of no reference.
pub const NO_TICKET: Ticket = Ticket { number: 9, slot: 0 };

/// A life of entries that a table can have, near that of an example.
fn expire(example: &Example) -> Option<u32>
    ensures { IfSome result (λ ms. (1 ≤ ms) × (ms ≤ 1000000)) }
{
    match example.expire {
        Some(life) => Some(life.clamp(1, 1_000_000)),
        None => None,
    }
}

/// What the table of an example is made with. It stores gpc0.
pub fn spec(alloc: Global, example: &Example) -> Result<Spec, NoMemory>
    ensures { IfOk result IsTableSpec }
{
    let mut columns = StoredSet::new(alloc);
    columns.add(Column {
        datum: Datum::Gpc0,
        period: 0,
        count: 0,
    })?;
    Ok(Spec {
        kind: KeyType::Text(32),
        size: example.size.clamp(1, 100),
        expire: expire(example),
        nopurge: false,
        purge: 1,
        columns,
        max_refs: 1,
        life: example.life.min(1_000),
        seed: 0,
    })
}

/// The key of a text.
fn key(alloc: Global, text: &str) -> Result<StickKey, NoMemory> {
    match read_key(alloc, KeyType::Text(32), text.as_bytes()) {
        Ok(key) => Ok(key),
        Err(_) => Err(NoMemory),
    }
}

/// Sets gpc0 of a key.
fn put(alloc: Global, now: u64, key: StickKey, gpc0: u32) -> Result<Event, NoMemory>
    requires { now < 2 ^ 62 }
    ensures { IfOk result IsTableEvent }
{
    let pair = Cell {
        field: Field::plain(Datum::Gpc0),
        value: u64::from(gpc0),
    };
    Ok(Event::Put(now, key, Sequence::from_slice(alloc, &[pair])?))
}

fn by_gpc0(op: Op, bound: u64) -> Filter {
    Filter::Compare(Field::plain(Datum::Gpc0), op, bound)
}

/// What is asked in a row, as an event.
pub fn event_of(alloc: Global, row: &Told, ticket: Ticket) -> Result<Event, NoMemory>
    ensures { IfOk result IsTableEvent }
{
    let now = u64::from(row.0);
    match row.1 {
        Ask::Get(text) => Ok(Event::Get(now, key(alloc, text)?)),
        Ask::Track(text) => Ok(Event::Track(now, key(alloc, text)?)),
        Ask::Look => Ok(Event::Look(now, ticket)),
        Ask::IncGpc0 => Ok(Event::Count(now, ticket, Act::IncGpc0)),
        Ask::Release => Ok(Event::Release(now, ticket)),
        Ask::Put(text, gpc0) => put(alloc, now, key(alloc, text)?, gpc0),
        Ask::Clear(text) => Ok(Event::Clear(now, key(alloc, text)?)),
        Ask::ClearWhere(op, bound) => Ok(Event::ClearWhere(now, by_gpc0(op, bound))),
        Ask::List(op, bound) => Ok(Event::List(now, by_gpc0(op, bound))),
        Ask::ListAll => Ok(Event::List(now, Filter::Everything)),
        Ask::Expire => Ok(Event::Expire(now)),
    }
}

/// Whether a row shows that.
fn is_row(row: &Row, shown: Shown) -> bool {
    row.key.bytes() == shown.0.as_bytes()
        && (row.refs, row.left) == (shown.1, shown.2)
        && matches!(row.cells.as_slice(), [cell] if cell.field == Field::plain(Datum::Gpc0) && cell.value == shown.3)
}

/// Whether these rows show that, one after another.
fn are_rows(rows: &[Row], shown: &[Shown]) -> bool {
    for (row, shown) in rows.iter().zip(shown) {
        if !is_row(row, *shown) {
            return false;
        }
    }
    rows.len() == shown.len()
}

/// Whether a listing shows that, row by row.
fn is_listed(rows: &Rows, shown: &[Shown]) -> bool {
    match rows.read() {
        Ok(reading) => are_rows(reading.as_slice(), shown),
        Err(_) => false,
    }
}

/// Whether a reply tells that.
fn is_told(reply: &Reply, tell: Tell) -> bool {
    match (reply, tell) {
        (Reply::Row(row), Tell::Row(shown)) => is_row(row, shown),
        (Reply::Tracked { ticket, row }, Tell::Tracked(number, shown)) => ticket.number == number
            && is_row(row, shown),
        (Reply::Value(value), Tell::Value(wanted)) => *value == Some(wanted),
        (Reply::Written { created }, Tell::Created) => *created,
        (Reply::Cleared { removed, kept }, Tell::Cleared(gone, left)) => (*removed, *kept)
            == (gone, left),
        (Reply::Rows { used, rows }, Tell::Rows(count, shown)) => *used == count
            && is_listed(rows, shown),
        (Reply::Expired(count), Tell::Expired(wanted)) => *count == wanted,
        (Reply::Absent, Tell::Absent)
        | (Reply::NoRefs, Tell::NoRefs)
        | (Reply::InUse, Tell::InUse)
        | (Reply::Released, Tell::Released) => true,
        _ => false,
    }
}

/// Whether that is the answer.
pub fn is_answer(answer: &Answer, tell: Tell) -> bool {
    match answer {
        Ok(reply) => is_told(reply, tell),
        Err(refusal) => matches!(tell, Tell::Refused(wanted) if *refusal == wanted),
    }
}
