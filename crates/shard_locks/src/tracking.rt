//! What a track is answered, read from a shard's reply; `Shards` makes it, and its port reads it.

ghost use Rattle.std.specs.Prelude.{◌≡◌};
ghost use Rattle.shard_locks.specs.Shared.{IsGiven};
ghost use Rattle.shard_locks.specs.Tracking.{IsAt, IsTracking, reply_of};

use crate::SharedRef;
use shard_record::{Naming, Token};
use stick_table::{Reply, Row};

/// What tracking a key is answered. It can't be dropped, as a reference can't.
pub enum Tracking<R> {
    /// The new reference, and what is shown of its entry.
    Tracked(R, Row),
    /// There is no room for a new entry.
    Full,
    /// As many references are out as the shard may have.
    NoRefs,
}

/// A shard's reply to a track, its ticket as a reference, with the token that came with the reply.
pub(crate) fn tracking_of<J: Naming>(
    reply: Reply,
    shard: u32,
    book: u32,
    token: Token<J>,
) -> Tracking<SharedRef<J>>
    requires tracking { IsTracking reply }
    requires given { IsGiven book reply token }
    ensures reply { reply_of result ≡ reply }
    ensures at { IsAt shard result }
{
    match reply {
        Reply::Tracked { ticket, row } => {
            Tracking::Tracked(SharedRef::new(shard, book, ticket, token), row)
        }
        Reply::Full => Tracking::Full,
        Reply::NoRefs => Tracking::NoRefs,
        _ => unreachable!(),
    }
}
