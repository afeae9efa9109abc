//! One move of a connection on its table's book; `admit_world` calls `advance`, and `stickd_script` `advance_to_rest`.

ghost use Rattle.std.specs.Prelude.{◌≡◌, ◌<◌, ◌≤◌, ◌+◌, ◌^◌, true, false, is_some};
ghost use Rattle.admit_core.specs.Conn.{judged_by, needed, progress_of};
ghost use Rattle.admit_core.specs.Left.{is_still};
ghost use Rattle.admit_drive.specs.Balance.{IsCovered};
ghost use Rattle.admit_drive.specs.DriveCode.{HasMoved, HasComeToRest, IsLiving, moves_left};
ghost use Rattle.admit_drive.specs.Tables.{AreTablesOf, table_states};

use admit_core::Conn;
use admit_port::Moved;
use shard_book::{Books, Named};
use shard_port::Reference;
use std::alloc::Global;
use stick_table::Table;

/// Does what a connection wants next, at a moment in ms: an event of one shard, or its change of phase. One that rests,
/// or is finished, stays as it is. Whether it was refused: for want of memory, or as a shard's life is over; then the
/// tables stay, and the connection goes on without the event, as it says of `refused`.
pub fn advance<T: Table>(
    alloc: Global,
    tables: &mut [Named<Books<T>>],
    conn: &mut Conn<'_, Reference>,
    moment: u64,
) -> bool
    requires moment { moment < 2 ^ 62 }
    requires tables { AreTablesOf (judged_by conn.old) (table_states tables.old) }
    requires given { is_some (progress_of conn.old).given ≡ false }

    // What it holds is out.
    requires covered { IsCovered (table_states tables.old) (progress_of conn.old).held }

    ensures given { is_some (progress_of conn.new).given ≡ false }
    ensures left { is_still (needed conn.old) ≡ false → moves_left conn.new + 1 ≤ moves_left conn.old }
    ensures moved { HasMoved moment (table_states tables.old) conn.old (table_states tables.new) conn.new result }
{
    if conn.is_still() {
        return false;
    }
    match admit_port::advance(alloc, tables, conn, moment) {
        Moved::Answered | Moved::Turned => false,
        Moved::Refused => true,
        Moved::Kept => unreachable!(),
    }
}

/// Has a connection go on, at one moment in ms, until it rests or is finished.
pub fn advance_to_rest<T: Table>(
    alloc: Global,
    tables: &mut [Named<Books<T>>],
    conn: &mut Conn<'_, Reference>,
    moment: u64,
)
    requires moment { moment < 2 ^ 62 }
    requires tables { AreTablesOf (judged_by conn.old) (table_states tables.old) }
    requires given { is_some (progress_of conn.old).given ≡ false }
    requires covered { IsCovered (table_states tables.old) (progress_of conn.old).held }
    requires living { IsLiving conn.old }
    ensures still { is_still (needed conn.new) ≡ true }
    ensures given { is_some (progress_of conn.new).given ≡ false }
    ensures rested { HasComeToRest moment (table_states tables.old) conn.old (table_states tables.new) conn.new }
{
    while !conn.is_still() {
        let _refused = advance(alloc, tables, conn, moment);
    }
}
