//! What a connection wants is asked of its port.

ghost use Rattle.std.specs.Prelude.{◌≡◌, ◌≢◌, ◌+◌, ◌≤◌, ◌<◌, ◌^◌, false, is_some, map};
ghost use Rattle.admit_core.specs.Conn.{needed, progress_of};
ghost use Rattle.admit_core.specs.declared.need.Need.TheVariants as needs;
ghost use Rattle.admit_port.specs.Answers.{row_answer, tracking_answer};
ghost use Rattle.admit_port.specs.DriveCode.{CanGoOn, HasMoved, IsConnection, IsReleaseRefused, moves_left};
ghost use Rattle.admit_port.specs.Ports.{parts_of};
ghost use Rattle.admit_port.specs.declared.moved.Moved.TheVariants.{Kept};

use crate::Moved;
use crate::hearing::{skip, take};
use admit_core::Conn;
use rule_eval::Answer;
use rule_model::Slot;
use shard_port::Port;
use stick_key::StickKey;
use stick_table::Row;
use stored_data::Act;

/// What the rules hear of a row, or that there is none.
fn row_or_absent(row: Option<Row>) -> Answer
    ensures { result ≡ row_answer row }
{
    match row {
        Some(row) => Answer::Row(row),
        None => Answer::Absent,
    }
}

/// What the rules hear of tracking a key.
fn tracked_or_not<R>(reference: &Option<R>) -> Answer
    ensures { result ≡ tracking_answer reference.now }
{
    match reference {
        Some(_) => Answer::Tracked,
        None => Answer::Untracked,
    }
}

/// Asks what is shown of a key.
pub(crate) fn ask<P: Port>(
    ports: &mut [P],
    conn: &mut Conn<'_, P::Reference>,
    table: u32,
    key: StickKey,
    moment: u64,
) -> Moved
    requires moment { moment < 2 ^ 62 }
    requires needs { needed conn.old ≡ needs.Get table key }
    requires ready { CanGoOn P.meaning (map P.state ports.old) conn.old }
    ensures ready { IsConnection conn.old → CanGoOn P.meaning (map P.state ports.new) conn.new }
    ensures given { is_some (progress_of conn.new).given ≡ false }
    ensures moved { HasMoved P.meaning moment (map P.state ports.old) conn.old (map P.state ports.new) conn.new result }
    ensures parts { parts_of P.meaning.parts (map P.state ports.new) ≡ parts_of P.meaning.parts (map P.state ports.old) }
    ensures left { moves_left conn.new + 1 ≤ moves_left conn.old }
    ensures goes { result ≢ Kept }
{
    match ports[table as usize].ask(key, moment) {
        Ok(row) => {
            take(conn, row_or_absent(row), None);
            Moved::Answered
        }
        Err(_) => {
            skip(conn);
            Moved::Refused
        }
    }
}

/// Has a key tracked for a slot.
pub(crate) fn track<P: Port>(
    ports: &mut [P],
    conn: &mut Conn<'_, P::Reference>,
    slot: Slot,
    table: u32,
    key: StickKey,
    moment: u64,
) -> Moved
    requires moment { moment < 2 ^ 62 }
    requires needs { needed conn.old ≡ needs.Track slot table key }
    requires ready { CanGoOn P.meaning (map P.state ports.old) conn.old }
    ensures ready { IsConnection conn.old → CanGoOn P.meaning (map P.state ports.new) conn.new }
    ensures given { is_some (progress_of conn.new).given ≡ false }
    ensures moved { HasMoved P.meaning moment (map P.state ports.old) conn.old (map P.state ports.new) conn.new result }
    ensures parts { parts_of P.meaning.parts (map P.state ports.new) ≡ parts_of P.meaning.parts (map P.state ports.old) }
    ensures left { moves_left conn.new + 1 ≤ moves_left conn.old }
    ensures goes { result ≢ Kept }
{
    match ports[table as usize].track(key, moment) {
        Ok(reference) => {
            let answer = tracked_or_not(&reference);
            take(conn, answer, reference);
            Moved::Answered
        }
        Err(_) => {
            skip(conn);
            Moved::Refused
        }
    }
}

/// Asks what is shown of the entry that a slot refers to.
pub(crate) fn look<P: Port>(
    ports: &mut [P],
    conn: &mut Conn<'_, P::Reference>,
    slot: Slot,
    moment: u64,
) -> Moved
    requires moment { moment < 2 ^ 62 }
    requires needs { needed conn.old ≡ needs.Look slot }
    requires ready { CanGoOn P.meaning (map P.state ports.old) conn.old }
    ensures ready { IsConnection conn.old → CanGoOn P.meaning (map P.state ports.new) conn.new }
    ensures given { is_some (progress_of conn.new).given ≡ false }
    ensures moved { HasMoved P.meaning moment (map P.state ports.old) conn.old (map P.state ports.new) conn.new result }
    ensures parts { parts_of P.meaning.parts (map P.state ports.new) ≡ parts_of P.meaning.parts (map P.state ports.old) }
    ensures left { moves_left conn.new + 1 ≤ moves_left conn.old }
    ensures goes { result ≢ Kept }
{
    let Some((table, reference)) = conn.held(slot) else {
        unreachable!();
    };
    match ports[table as usize].look(reference, moment) {
        Ok(row) => {
            take(conn, Answer::Row(row), None);
            Moved::Answered
        }
        Err(_) => {
            skip(conn);
            Moved::Refused
        }
    }
}

/// Does an act on the data of the entry that a slot refers to.
pub(crate) fn count<P: Port>(
    ports: &mut [P],
    conn: &mut Conn<'_, P::Reference>,
    slot: Slot,
    act: Act,
    moment: u64,
) -> Moved
    requires moment { moment < 2 ^ 62 }
    requires needs { needed conn.old ≡ needs.Count slot act }
    requires ready { CanGoOn P.meaning (map P.state ports.old) conn.old }
    ensures ready { IsConnection conn.old → CanGoOn P.meaning (map P.state ports.new) conn.new }
    ensures given { is_some (progress_of conn.new).given ≡ false }
    ensures moved { HasMoved P.meaning moment (map P.state ports.old) conn.old (map P.state ports.new) conn.new result }
    ensures parts { parts_of P.meaning.parts (map P.state ports.new) ≡ parts_of P.meaning.parts (map P.state ports.old) }
    ensures left { moves_left conn.new + 1 ≤ moves_left conn.old }
    ensures goes { result ≢ Kept }
{
    let Some((table, reference)) = conn.held(slot) else {
        unreachable!();
    };
    match ports[table as usize].count(reference, act, moment) {
        Ok(value) => {
            take(conn, Answer::Value(value), None);
            Moved::Answered
        }
        Err(_) => {
            skip(conn);
            Moved::Refused
        }
    }
}

/// Gives back the reference of a slot. Where that is refused, the slot holds it again.
pub(crate) fn release<P: Port>(
    ports: &mut [P],
    conn: &mut Conn<'_, P::Reference>,
    slot: Slot,
    moment: u64,
) -> Moved
    requires moment { moment < 2 ^ 62 }
    requires needs { needed conn.old ≡ needs.Release slot }
    requires ready { CanGoOn P.meaning (map P.state ports.old) conn.old }
    ensures ready { IsConnection conn.old → CanGoOn P.meaning (map P.state ports.new) conn.new }
    ensures given { is_some (progress_of conn.new).given ≡ false }
    ensures moved { HasMoved P.meaning moment (map P.state ports.old) conn.old (map P.state ports.new) conn.new result }
    ensures parts { parts_of P.meaning.parts (map P.state ports.new) ≡ parts_of P.meaning.parts (map P.state ports.old) }
    ensures left { result ≢ Kept → moves_left conn.new + 1 ≤ moves_left conn.old }
    ensures kept { result ≡ Kept → IsReleaseRefused P.meaning moment (map P.state ports.old) conn.old }
{
    let Some((table, _)) = conn.held(slot) else {
        unreachable!();
    };
    let reference = conn.give();
    match ports[table as usize].release(reference, moment) {
        Ok(()) => {
            conn.take(Answer::Released, None);
            Moved::Answered
        }
        Err((reference, _)) => {
            conn.refused(Some(reference));
            Moved::Kept
        }
    }
}
