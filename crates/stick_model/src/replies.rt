//! What a table answers; tables make replies, and books, commands and connections read them.
ghost use Rattle.std.specs.Prelude.{◌≡◌, IfOk, IsOk, false};
ghost use Rattle.stick_model.specs.Step.{shows_rows, slot_of};
ghost use Rattle.stick_model.specs.declared.replies.Refusal.TheVariants.{Memory};

use crate::{Row, Rows, Ticket};
use base_sequence::NoMemory;
use std::alloc::{AllocFailed, Global};
use stored_data::Field;
use thiserror::Error;

/// What an event is answered.
#[derive(Drop)]
pub enum Reply {
    /// The key has no entry.
    Absent,
    Row(Row),
    /// As many references are out as the table may have.
    NoRefs,
    /// There is no room for a new entry.
    Full,
    /// The new reference, and what is shown of its entry.
    Tracked { ticket: Ticket, row: Row },
    /// What the act answered.
    Value(Option<u64>),
    Released,
    /// The field's datum can't be set.
    NotSettable(Field),
    /// The table doesn't store the field.
    NotStored(Field),
    /// The data are set, in an entry that was made for them or was there.
    Written { created: bool },
    /// The entry has references.
    InUse,
    Removed,
    /// How many matched and were removed, and how many matched and were tracked.
    Cleared { removed: u64, kept: u64 },
    /// How many entries there are, and what is shown of those that match.
    Rows { used: u64, rows: Rows },
    /// How many entries' dates were reached.
    Expired(u64),
}

impl Reply {
    /// The slot of the reference that it tells, where it is `Tracked`.
    pub fn slot(&self) -> Option<u32>
        ensures { result ≡ slot_of self.now }
    {
        match self {
            Reply::Tracked { ticket, .. } => Some(ticket.slot),
            _ => None,
        }
    }

    /// An equal reply. One that shows no row takes no memory.
    pub fn copy(&self, alloc: Global) -> Result<Reply, NoMemory>
        ensures equal { IfOk result (λ reply. reply ≡ self.now) }
        ensures memory { shows_rows self.now ≡ false → IsOk result }
    {
        match self {
            Reply::Absent => Ok(Reply::Absent),
            Reply::Row(row) => Ok(Reply::Row(row.copy()?)),
            Reply::NoRefs => Ok(Reply::NoRefs),
            Reply::Full => Ok(Reply::Full),
            Reply::Tracked { ticket, row } => Ok(Reply::Tracked {
                ticket: *ticket,
                row: row.copy()?,
            }),
            Reply::Value(value) => Ok(Reply::Value(*value)),
            Reply::Released => Ok(Reply::Released),
            Reply::NotSettable(field) => Ok(Reply::NotSettable(*field)),
            Reply::NotStored(field) => Ok(Reply::NotStored(*field)),
            Reply::Written { created } => Ok(Reply::Written { created: *created }),
            Reply::InUse => Ok(Reply::InUse),
            Reply::Removed => Ok(Reply::Removed),
            Reply::Cleared { removed, kept } => Ok(Reply::Cleared {
                removed: *removed,
                kept: *kept,
            }),
            Reply::Rows { used, rows } => Ok(Reply::Rows {
                used: *used,
                rows: rows.copy(alloc)?,
            }),
            Reply::Expired(count) => Ok(Reply::Expired(*count)),
        }
    }
}

/// Why an event was refused. A refusal changes nothing and is no event.
#[derive(Clone, Copy, Debug, PartialEq, Eq, Error)]
pub enum Refusal {
    /// The ticket isn't outstanding.
    #[error("the reference is not outstanding")]
    Stale,
    /// The table is at the end of its life: it numbers no more events.
    #[error("the table is at the end of its life")]
    Exhausted,
    #[error("out of memory")]
    Memory,
    /// The table has counted fewer events than its caller has seen.
    #[error("the table has counted {count} events, and its caller has seen {front}")]
    Behind { count: u64, front: u64 },
}

impl From<NoMemory> for Refusal {
    ghost from_gives = { λ _ refusal. refusal ≡ Memory };

    fn from(_refused: NoMemory) -> Refusal {
        Refusal::Memory
    }
}

impl<T: Drop> From<AllocFailed<T>> for Refusal {
    ghost from_gives = { λ _ refusal. refusal ≡ Memory };

    fn from(_refused: AllocFailed<T>) -> Refusal {
        Refusal::Memory
    }
}
