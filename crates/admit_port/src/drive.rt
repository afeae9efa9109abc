//! A connection goes on by one event of a port, or by one change of phase.

ghost use Rattle.std.specs.Prelude.{◌≡◌, ◌≢◌, ◌+◌, ◌≤◌, ◌<◌, ◌^◌, false, is_some, map};
ghost use Rattle.admit_core.specs.Conn.{needed, progress_of};
ghost use Rattle.admit_core.specs.Left.{is_still};
ghost use Rattle.admit_port.specs.DriveCode.{CanGoOn, HasMoved, IsConnection, IsReleaseRefused, moves_left};
ghost use Rattle.admit_port.specs.Ports.{parts_of};
ghost use Rattle.admit_port.specs.declared.moved.Moved.TheVariants.{Kept};

use crate::Moved;
use crate::asking::{ask, count, look, release, track};
use crate::hearing::skip;
use admit_core::{Conn, Need};
use shard_port::Port;
use std::alloc::Global;

/// Does what a connection wants next, at a moment in ms: one event of the port and the shard of its key or of its reference,
/// or its change of phase. Where an event is refused no port changes, and the connection goes on without it; but a reference
/// whose release is refused is held again.
pub fn advance<P: Port>(
    alloc: Global,
    ports: &mut [P],
    conn: &mut Conn<'_, P::Reference>,
    moment: u64,
) -> Moved
    requires moment { moment < 2 ^ 62 }
    requires wants { is_still (needed conn.old) ≡ false }
    requires ready { CanGoOn P.meaning (map P.state ports.old) conn.old }
    ensures ready { IsConnection conn.old → CanGoOn P.meaning (map P.state ports.new) conn.new }
    ensures given { is_some (progress_of conn.new).given ≡ false }
    ensures moved { HasMoved P.meaning moment (map P.state ports.old) conn.old (map P.state ports.new) conn.new result }
    ensures kept { result ≡ Kept → IsReleaseRefused P.meaning moment (map P.state ports.old) conn.old }
    ensures parts { parts_of P.meaning.parts (map P.state ports.new) ≡ parts_of P.meaning.parts (map P.state ports.old) }
    ensures left { result ≢ Kept → moves_left conn.new + 1 ≤ moves_left conn.old }
{
    let Ok(need) = conn.want(alloc) else {
        skip(conn);
        return Moved::Refused;
    };
    match need {
        Need::Get { table, key } => ask(ports, conn, table, key, moment),
        Need::Track { slot, table, key } => track(ports, conn, slot, table, key, moment),
        Need::Look { slot } => look(ports, conn, slot, moment),
        Need::Count { slot, act } => count(ports, conn, slot, act, moment),
        Need::Release { slot } => release(ports, conn, slot, moment),
        Need::Turn => {
            conn.turn();
            Moved::Turned
        }
        Need::Rest | Need::Finished => unreachable!(),
    }
}
