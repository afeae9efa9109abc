//! A connection of a world, with the bytes that it will have had; `World` keeps them and closes one that rests.

ghost use Rattle.std.specs.Prelude.{◌≡◌, false, is_some};
ghost use Rattle.admit_core.specs.Conn.{progress_of, Stands};
ghost use Rattle.admit_core.specs.Connection.{Connection};
ghost use Rattle.admit_world.specs.World.{woken};
ghost use Rattle.shard_port.specs.declared.reference.Reference.{Reference as ItsReference};

use crate::{Reference, Visit};
use admit_core::Conn;

/// A connection, and the bytes that it will have had when it closes.
#[derive(Drop)]
pub(crate) struct Visitor<'a> {
    pub visit: Visit,
    pub conn: Conn<'a, Reference>,
}

/// Closes a connection that rests, after the bytes of its visit.
pub(crate) fn wake(visitor: &mut Visitor<'_>)
    requires { is_some (progress_of visitor.old.conn).given ≡ false }
    ensures visit { visitor.new.visit ≡ visitor.old.visit }
    ensures given { is_some (progress_of visitor.new.conn).given ≡ false }
    ensures held { (progress_of visitor.new.conn).held ≡ (progress_of visitor.old.conn).held }
    ensures stands { (connection : Connection ItsReference) → Stands visitor.old.conn connection → Stands visitor.new.conn (woken visitor.old.visit connection) }
{
    if visitor.conn.rests() {
        visitor
            .conn
            .close(visitor.visit.bytes_in, visitor.visit.bytes_out);
    }
}
