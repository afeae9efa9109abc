//! A connection is judged, and goes on until it stands still, each of its moves at the moment that a clock shows then.

ghost use Rattle.std.specs.Prelude.{◌≡◌, ◌≢◌, ◌+◌, ◌≤◌, true, false, map};
ghost use Rattle.admit_core.specs.Conn.{needed, progress_of};
ghost use Rattle.admit_core.specs.Connection.{is_judged as is_being_judged};
ghost use Rattle.admit_core.specs.Left.{is_rest, is_still};
ghost use Rattle.admit_core.specs.declared.need.Need.TheVariants.{Rest};
ghost use Rattle.admit_port.specs.DriveCode.{CanGoOn, IsConnection, moves_left};
ghost use Rattle.admit_port.specs.Ports.{parts_of};
ghost use Rattle.admit_port.specs.Visit.{HasGoneJudged, HasMovedOnce, HasRested};
ghost use Rattle.admit_port.specs.declared.moved.Moved.TheVariants.{Kept};

use crate::{Moved, Rested, advance};
use admit_core::{Conn, Phase};
use base_clock::Clock;
use shard_port::Port;
use std::alloc::Global;

/// Whether its rules are looked at, or its sessions counted.
fn is_judged<R>(conn: &Conn<'_, R>) -> bool
    ensures { result ≡ is_being_judged (progress_of conn.now).phase }
{
    match conn.phase() {
        Phase::New | Phase::Judging => true,
        Phase::Admitted | Phase::Rejected | Phase::Ended => false,
    }
}

/// Has a connection that isn't still go on by one move, at the moment that the clock shows then.
fn move_once<P: Port, C: Clock>(
    alloc: Global,
    ports: &mut [P],
    conn: &mut Conn<'_, P::Reference>,
    clock: &mut C,
) -> Moved
    requires wants { is_still (needed conn.old) ≡ false }
    requires ready { CanGoOn P.meaning (map P.state ports.old) conn.old }
    ensures ready { IsConnection conn.old → CanGoOn P.meaning (map P.state ports.new) conn.new }
    ensures moved { HasMovedOnce P.meaning C.shows (map P.state ports.old) conn.old (C.state clock.old) (map P.state ports.new) conn.new (C.state clock.new) result }
    ensures parts { parts_of P.meaning.parts (map P.state ports.new) ≡ parts_of P.meaning.parts (map P.state ports.old) }
    ensures left { result ≢ Kept → moves_left conn.new + 1 ≤ moves_left conn.old }
{
    let moment = clock.now();
    advance(alloc, ports, conn, moment)
}

/// Has a connection go on until its rules have judged it, each move at the moment that the clock shows then; answers whether
/// it is admitted, and waits to be closed. A rejected one still holds its references.
pub fn judge<P: Port, C: Clock>(
    alloc: Global,
    ports: &mut [P],
    conn: &mut Conn<'_, P::Reference>,
    clock: &mut C,
) -> bool
    requires living { IsConnection conn.old }
    requires ready { CanGoOn P.meaning (map P.state ports.old) conn.old }
    ensures living { IsConnection conn.new }
    ensures ready { CanGoOn P.meaning (map P.state ports.new) conn.new }
    ensures gone { HasGoneJudged P.meaning C.shows (map P.state ports.old) conn.old (C.state clock.old) (map P.state ports.new) conn.new (C.state clock.new) }
    ensures parts { parts_of P.meaning.parts (map P.state ports.new) ≡ parts_of P.meaning.parts (map P.state ports.old) }
    ensures judged { is_being_judged (progress_of conn.new).phase ≡ false }
    ensures admitted { result ≡ is_rest (needed conn.new) }
    ensures rests { result ≡ true → needed conn.new ≡ Rest }
{
    while is_judged(conn) {
        match move_once(alloc, ports, conn, clock) {
            Moved::Kept => unreachable!(),
            Moved::Answered | Moved::Turned | Moved::Refused => {}
        }
    }
    conn.rests()
}

/// Has a connection go on until it rests or is finished, each move at the moment that the clock shows then; or until the
/// release of a reference is refused: that isn't tried again, and the connection still holds it.
pub fn finish<P: Port, C: Clock>(
    alloc: Global,
    ports: &mut [P],
    conn: &mut Conn<'_, P::Reference>,
    clock: &mut C,
) -> Rested
    requires living { IsConnection conn.old }
    requires ready { CanGoOn P.meaning (map P.state ports.old) conn.old }
    ensures living { IsConnection conn.new }
    ensures ready { CanGoOn P.meaning (map P.state ports.new) conn.new }
    ensures rested { HasRested P.meaning C.shows (map P.state ports.old) conn.old (C.state clock.old) (map P.state ports.new) conn.new (C.state clock.new) result }
    ensures parts { parts_of P.meaning.parts (map P.state ports.new) ≡ parts_of P.meaning.parts (map P.state ports.old) }
{
    while !conn.is_still() {
        match move_once(alloc, ports, conn, clock) {
            Moved::Kept => return Rested::Kept,
            Moved::Answered | Moved::Turned | Moved::Refused => {}
        }
    }
    Rested::Still
}
