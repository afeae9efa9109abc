//! What a table is asked; commands and connections make events, and tables and books take them.
ghost use Rattle.std.specs.Prelude.{◌≡◌, IfOk};
ghost use Rattle.stick_model.specs.Refusals.{life_taken as life_taken_by};

use crate::{Cells, Filter, Ticket};
use base_sequence::NoMemory;
use stick_key::StickKey;
use stored_data::Act;

/// What a table is asked, at a moment in ms.
#[derive(Drop)]
pub enum Event {
    /// What is shown of a key.
    Get(u64, StickKey),
    /// One more reference to the entry of a key, which is made where it isn't there, and refreshed.
    Track(u64, StickKey),
    /// What is shown of the key of a ticket.
    Look(u64, Ticket),
    /// An act on the data of a ticket's key.
    Count(u64, Ticket, Act),
    /// A ticket is given back.
    Release(u64, Ticket),
    /// Data of a key are set, the first to the last; the entry is made where it isn't there, and refreshed.
    Put(u64, StickKey, Cells),
    /// The entry of a key is removed.
    Clear(u64, StickKey),
    /// The untracked entries that are meant are removed.
    ClearWhere(u64, Filter),
    /// What is shown of the entries that are meant.
    List(u64, Filter),
    /// Nothing but that the moment has come.
    Expire(u64),
}

impl Event {
    /// An equal event.
    pub fn copy(&self) -> Result<Event, NoMemory>
        ensures { IfOk result (λ event. event ≡ self.now) }
    {
        match self {
            Event::Get(now, key) => Ok(Event::Get(*now, key.copy()?)),
            Event::Track(now, key) => Ok(Event::Track(*now, key.copy()?)),
            Event::Look(now, ticket) => Ok(Event::Look(*now, *ticket)),
            Event::Count(now, ticket, act) => Ok(Event::Count(*now, *ticket, *act)),
            Event::Release(now, ticket) => Ok(Event::Release(*now, *ticket)),
            Event::Put(now, key, cells) => Ok(Event::Put(*now, key.copy()?, cells.copy()?)),
            Event::Clear(now, key) => Ok(Event::Clear(*now, key.copy()?)),
            Event::ClearWhere(now, filter) => Ok(Event::ClearWhere(*now, filter.copy()?)),
            Event::List(now, filter) => Ok(Event::List(*now, filter.copy()?)),
            Event::Expire(now) => Ok(Event::Expire(*now)),
        }
    }

    /// How many events of a table's life it takes: two for a `Track`, whose release is to come, and so none for a `Release`.
    pub fn life_taken(&self) -> u64
        ensures { result ≡ life_taken_by self.now }
    {
        match self {
            Event::Track(_, _) => 2,
            Event::Release(_, _) => 0,
            _ => 1,
        }
    }
}

/// An event, and the slot that its reply told where that is `Tracked`: enough to make the step again.
#[derive(Drop)]
pub struct Stored {
    pub event: Event,
    pub slot: Option<u32>,
}
