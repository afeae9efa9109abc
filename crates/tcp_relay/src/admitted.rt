//! The sign that a connection was admitted; `visiting` has it of the rules' verdict, and `opening` connects no client without it.

ghost use Rattle.std.specs.Prelude.{◌≡◌, true, is_some, IfSome};
ghost use Rattle.admit_core.specs.Conn.{needed};
ghost use Rattle.admit_core.specs.Left.{is_rest};

use admit_core::Conn;
use shard_locks::SharedRef;
use shard_record::Naming;
use std::snapshot::Snapshot;

/// The sign that its rules have admitted a connection, which rests until it is closed. It takes no bytes, and can't be copied: one
/// sign opens one link at most. Nothing makes it but `of`, and that of no connection that was rejected.
#[derive(Drop)]
pub(crate) struct Admitted<'a, J: Naming> {
    /// The connection, as it was admitted. It is there for contracts alone.
    conn: Snapshot<Conn<'a, SharedRef<J>>>,
    ghost rests: { is_rest (needed conn.value) ≡ true },
}

impl<'a, J: Naming> Admitted<'a, J> {
    /// The sign of a connection that was judged, if it rests: whoever judged it knows that already.
    #[inline(always)]
    pub(crate) fn of(conn: &Conn<'a, SharedRef<J>>, rests: bool) -> Option<Admitted<'a, J>>
        requires rests { rests ≡ is_rest (needed conn.now) }
        ensures exact { is_some result ≡ is_rest (needed conn.now) }
        ensures conn { IfSome result (λ admitted. admitted.conn.value ≡ conn.now) }
    {
        if rests {
            return Some(Admitted {
                conn: Snapshot::of(conn),
            });
        }
        None
    }
}
