//! Whether two replies are the same; `shard_settling` compares receipts with replayed replies by it.
ghost use Rattle.std.specs.Prelude.{◌≡◌, ◌↔◌, true, IsTrue, IfOk, OnErr};
ghost use Rattle.stick_model.specs.Step.{shows_rows};

use crate::equal_rows::{same_row, same_rows};
use crate::replies::Reply;
use base_sequence::NoMemory;

/// Whether two replies tell the same. Only rows that a table gathered take memory.
pub fn same_reply(reply: &Reply, other: &Reply) -> Result<bool, NoMemory>
    ensures same { IfOk result (λ same. IsTrue same ↔ (reply.now ≡ other.now)) }
    ensures memory { OnErr result (shows_rows reply.now ≡ true) }
{
    match (reply, other) {
        (Reply::Absent, Reply::Absent) => Ok(true),
        (Reply::NoRefs, Reply::NoRefs) => Ok(true),
        (Reply::Full, Reply::Full) => Ok(true),
        (Reply::Released, Reply::Released) => Ok(true),
        (Reply::InUse, Reply::InUse) => Ok(true),
        (Reply::Removed, Reply::Removed) => Ok(true),
        (Reply::Row(row), Reply::Row(another)) => Ok(same_row(row, another)),
        (
            Reply::Tracked { ticket, row },
            Reply::Tracked {
                ticket: another,
                row: row_2,
            },
        ) => Ok(ticket == another && same_row(row, row_2)),
        (Reply::Value(value), Reply::Value(another)) => Ok(value == another),
        (Reply::NotSettable(field), Reply::NotSettable(another)) => Ok(field == another),
        (Reply::NotStored(field), Reply::NotStored(another)) => Ok(field == another),
        (Reply::Written { created }, Reply::Written { created: another }) => {
            Ok(created == another)
        }
        (
            Reply::Cleared { removed, kept },
            Reply::Cleared {
                removed: gone,
                kept: left,
            },
        ) => Ok(removed == gone && kept == left),
        (
            Reply::Rows { used, rows },
            Reply::Rows {
                used: count,
                rows: others,
            },
        ) => {
            let are_same = same_rows(rows, others)?;
            Ok(used == count && are_same)
        }
        (Reply::Expired(count), Reply::Expired(another)) => Ok(count == another),
        _ => Ok(false),
    }
}
