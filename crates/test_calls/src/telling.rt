//! What is asked of a table, and what it tells, by values that can be copied: so that whoever asks often has nothing to
//! drop on the way.

ghost use Rattle.std.specs.Prelude.{IfOk};
ghost use Rattle.stick_model.specs.Limits.{IsTableEvent};

use crate::draws::key;
use base_sequence::{NoMemory, Sequence};
use std::alloc::Global;
use stick_table::{Cell, Event, Filter, Refusal, Reply, Row, Ticket};
use stored_data::{Act, Datum, Field};

/// What is asked of a table by the number of a key, or by the place of a reference among those that are held; and last at
/// which moment in ms.
#[derive(Clone, Copy)]
pub enum Asked {
    Get(u32, u32),
    Track(u32, u32),
    /// That gpc0 of a key is set to 3 at the moment 0.
    Put(u32),
    Clear(u32, u32),
    List(u32),
    Expire(u32),
    /// A look at the first reference.
    Look(u32),
    /// That gpc0 of the entry of the first reference is counted up.
    Count(u32),
    Release(usize, u32),
}

/// What is told.
#[derive(Clone, Copy, PartialEq)]
pub enum Told {
    /// A row, also of an entry that is tracked: how many references, how many ms left, and gpc0.
    Row(u32, u64, u64),
    Value(Option<u64>),
    /// Whether an entry was made.
    Written(bool),
    Removed,
    Released,
    /// How many entries there are.
    Listed(u64),
    /// How many entries went.
    Expired(u64),
    Refused(Refusal),
    Other,
}

/// That gpc0 of the key of a number is set to 3.
fn put(alloc: Global, number: u32) -> Result<Event, NoMemory>
    ensures { IfOk result IsTableEvent }
{
    let pair = Cell {
        field: Field::plain(Datum::Gpc0),
        value: 3,
    };
    let pairs = Sequence::from_slice(alloc, &[pair])?;
    Ok(Event::Put(0, key(alloc, number)?, pairs))
}

impl Asked {
    /// Whether it is asked by a reference.
    pub fn is_of_reference(self) -> bool {
        matches!(
            self,
            Asked::Look(_) | Asked::Count(_) | Asked::Release(_, _)
        )
    }

    /// The place of its reference.
    pub fn place(self) -> usize {
        match self {
            Asked::Release(place, _) => place,
            _ => 0,
        }
    }

    /// The event that is asked, by the ticket of its reference.
    pub fn event(self, alloc: Global, ticket: Ticket) -> Result<Event, NoMemory>
        ensures { IfOk result IsTableEvent }
    {
        match self {
            Asked::Get(number, now) => Ok(Event::Get(u64::from(now), key(alloc, number)?)),
            Asked::Track(number, now) => Ok(Event::Track(u64::from(now), key(alloc, number)?)),
            Asked::Put(number) => put(alloc, number),
            Asked::Clear(number, now) => Ok(Event::Clear(u64::from(now), key(alloc, number)?)),
            Asked::List(now) => Ok(Event::List(u64::from(now), Filter::Everything)),
            Asked::Expire(now) => Ok(Event::Expire(u64::from(now))),
            Asked::Look(now) => Ok(Event::Look(u64::from(now), ticket)),
            Asked::Count(now) => Ok(Event::Count(u64::from(now), ticket, Act::IncGpc0)),
            Asked::Release(_, now) => Ok(Event::Release(u64::from(now), ticket)),
        }
    }
}

/// What a row tells: its gpc0 is 0 where it shows none.
fn told_by(row: &Row) -> Told {
    let mut gpc0 = 0;
    for cell in row.cells.as_slice() {
        if cell.field == Field::plain(Datum::Gpc0) {
            gpc0 = cell.value;
        }
    }
    Told::Row(row.refs, row.left, gpc0)
}

/// What an answer tells.
pub fn told_of(answer: Result<Reply, Refusal>) -> Told {
    match answer {
        Ok(Reply::Row(row)) => told_by(&row),
        Ok(Reply::Tracked { row, .. }) => told_by(&row),
        Ok(Reply::Value(value)) => Told::Value(value),
        Ok(Reply::Written { created }) => Told::Written(created),
        Ok(Reply::Removed) => Told::Removed,
        Ok(Reply::Released) => Told::Released,
        Ok(Reply::Rows { used, .. }) => Told::Listed(used),
        Ok(Reply::Expired(count)) => Told::Expired(count),
        Ok(_) => Told::Other,
        Err(refusal) => Told::Refused(refusal),
    }
}
