//! What the replies of a shard tell; the ports here and in `shard_locks` read them so.

ghost use Rattle.std.specs.Prelude.{◌≡◌, true};
ghost use Rattle.stick_model.specs.declared.replies.Reply.TheVariants.{Row as Shown, Value};
ghost use Rattle.shard_port.specs.Books.{books_meaning, is_of_count, is_of_look, is_of_get};
ghost use Rattle.shard_port.specs.Port.{came_with, is_tracking, row_reply};

use crate::Reference;
use stick_table::{Reply, Row};

/// The row that a reply to a Get shows, if there is one.
pub fn row_or_none(reply: Reply) -> Option<Row>
    requires { is_of_get reply ≡ true }
    ensures { row_reply result ≡ reply }
{
    match reply {
        Reply::Row(row) => Some(row),
        Reply::Absent => None,
        _ => unreachable!(),
    }
}

/// The reference that comes with a reply to a Track, if one does.
pub(crate) fn reference_in(reply: &Reply, shard: u32) -> Option<Reference>
    requires { is_tracking reply.now ≡ true }
    ensures { result ≡ came_with books_meaning shard reply.now }
{
    match reply {
        Reply::Tracked { ticket, .. } => Some(Reference {
            shard,
            ticket: *ticket,
        }),
        _ => None,
    }
}

/// The row that a reply to a Look shows.
pub fn shown_row(reply: Reply) -> Row
    requires { is_of_look reply ≡ true }
    ensures { Shown result ≡ reply }
{
    match reply {
        Reply::Row(row) => row,
        _ => unreachable!(),
    }
}

/// The value of a reply to an act.
pub fn counted_value(reply: &Reply) -> Option<u64>
    requires { is_of_count reply.now ≡ true }
    ensures { Value result ≡ reply.now }
{
    match reply {
        Reply::Value(value) => *value,
        _ => unreachable!(),
    }
}
