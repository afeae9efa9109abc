//! The wants of connections, one letter each, in the order that HAProxy's manual has for tracking, counting and giving
//! back. Expected values come from its words: a session is counted where it is accepted, bytes once it is closed. What they
//! hold are references that can't be dropped, so that each has to come back.

ghost use Rattle.std.specs.Prelude.{◌≡◌, false, is_some};
ghost use Rattle.admit_core.specs.Conn.{progress_of};

use crate::setups::setup_of;
use admit_core::{Conn, Need, Phase};
use rule_addresses::Address;
use rule_eval::{Answer, Samples};
use std::alloc::Global;

/// A table of addresses, and the rules `track-sc0 src` and perhaps `reject`.
const ACCEPTING: &[u8] =
    b"listen t\nstick-table type ip size 10\ntcp-request connection track-sc0 src\n";

const REJECTING: &[u8] =
    b"listen t\nstick-table type ip size 10\ntcp-request connection track-sc0 src\n\
    tcp-request connection reject\n";

/// A reference. It isn't `Drop`: who has it has to take it apart, or to hand it on.
struct Reference {
    table: u32,
}

impl Reference {
    /// The number of its table, once it is given back.
    fn end(self) -> u32 {
        let Reference { table } = self;
        table
    }
}

/// Answers what a connection wants, as a table with room does, and shows what it was. The first releases are refused.
fn drive(alloc: Global, conn: &mut Conn<'_, Reference>, refusals: &mut u32) -> u8
    requires { is_some (progress_of conn.old).given ≡ false }
    ensures { is_some (progress_of conn.new).given ≡ false }
{
    match conn.want(alloc) {
        Ok(Need::Get { .. }) => {
            conn.take(Answer::Absent, None);
            b'g'
        }
        Ok(Need::Track { table, .. }) => {
            conn.take(Answer::Tracked, Some(Reference { table }));
            b't'
        }
        Ok(Need::Count { .. }) => {
            conn.take(Answer::Value(None), None);
            b'c'
        }
        Ok(Need::Release { .. }) => {
            let reference = conn.give();
            if let Some(left) = refusals.checked_sub(1) {
                *refusals = left;
                conn.refused(Some(reference));
                return b'x';
            }
            conn.take(Answer::Released, None);
            if reference.end() == 0 { b'r' } else { b'?' }
        }
        Ok(Need::Rest) => {
            conn.close(100, 200);
            b'-'
        }
        Ok(Need::Turn) => {
            conn.turn();
            b'>'
        }
        Ok(Need::Look { .. }) => {
            conn.refused(None);
            b'l'
        }
        Ok(Need::Finished) => b'.',
        Err(_) => {
            conn.refused(None);
            b'!'
        }
    }
}

/// Whether nothing was held; what was is taken apart.
fn is_none(held: Option<(u32, Reference)>) -> bool {
    match held {
        None => true,
        Some((table, reference)) => {
            let _same = reference.end() == table;
            false
        }
    }
}

/// Whether a connection ends with nothing held.
fn has_ended(conn: Conn<'_, Reference>) -> bool {
    let is_ended = conn.phase() == Phase::Ended;
    let (sc0, sc1, sc2) = conn.end();
    let (first, second, third) = (is_none(sc0), is_none(sc1), is_none(sc2));
    is_ended && first && second && third
}

/// Whether a connection's wants are these, its first releases being refused, until it ends with nothing held.
fn lives(alloc: Global, text: &[u8], refused: u32, wanted: &[u8]) -> bool {
    let Some(setup) = setup_of(alloc, text, 1) else {
        return false;
    };
    let samples = Samples {
        src: Address::V4([10, 0, 0, 1]),
        src_port: 5000,
        dst_port: 0,
    };
    let mut conn = Conn::new(&setup, samples);
    let mut refusals = refused;
    let mut same = true;
    for want in wanted {
        same = drive(alloc, &mut conn, &mut refusals) == *want && same;
    }
    has_ended(conn) && same
}

#[test]
fn connections_want_what_the_manual_has(rt: HostRuntime) {
    let alloc = rt.alloc();
    // One that is accepted counts its session and its bytes; one that is rejected counts nothing.
    assert!(rt; lives(alloc, ACCEPTING, 0, b"tc>-ccr>."));
    assert!(rt; lives(alloc, REJECTING, 0, b"t>r>."));
    // A release that is refused is wanted again.
    assert!(rt; lives(alloc, ACCEPTING, 2, b"tc>-ccxxr>."));
    assert!(rt; lives(alloc, REJECTING, 1, b"t>xr>."));
}
