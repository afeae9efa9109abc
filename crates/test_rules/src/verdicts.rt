//! Rules, the answers to what they ask, and the wants in between, as HAProxy's manual has them: rules run in order, terms
//! from left to right until the outcome is known, `unless` negates the whole, and what a slot doesn't track is false.

use crate::setups::setup_of;
use base_lines::{Blanks, Parts, Words};
use base_sequence::{NoMemory, Sequence};
use rule_addresses::Address;
use rule_eval::{Answer, Eval, Samples, Verdict, Want};
use rule_model::{Setup, Slot};
use std::alloc::Global;
use stick_key::{KeyType, Sample, StickKey, convert};
use stick_model::{Cell, Row};
use stored_data::{Datum, Field};

/// The tables of each case are those of the section a, of IPv4 addresses, and of n, s and v: of numbers, of texts of four
/// bytes and of IPv6 addresses, which store less.
const SECTION: &[u8] = b"listen a\nstick-table type ip size 10 store conn_cur,gpc0,bytes_in_cnt\n";

const OTHERS: &[u8] = b"backend n\nstick-table type integer size 10 store gpc0\n\
    backend s\nstick-table type string len 4 size 10 store gpc0\n\
    backend v\nstick-table type ipv6 size 10\n";

/// Rules without their first words, the answers, and the wants before, between and after them.
///
/// - Answers are tracked (t), untracked (u), absent (a), released (r), no value (n), the value 0 (z), and a row that shows one number
///   for all that is in it, 0 to 9 or 2047 (k).
/// - Wants are `t`, `g`, `l` or `c` with the slot and the place of the table, in `s` with the key too, and `ok` or `no` at the end.
const FROM_FOUR: &[&str] = &[
    "||ok ",
    "accept; reject||ok ",
    "reject; accept||no ",
    "track-sc0 src; reject if { sc0_conn_cur gt 5 }|t6|t00 l0 no ",
    "track-sc0 src; reject if { sc0_conn_cur gt 5 }|t5|t00 l0 ok ",
    "track-sc0 src; reject if { sc0_tracked }|t|t00 no ",
    "track-sc0 src; reject if { sc0_tracked }|u|t00 ok ",
    // A slot that tracks stays as it is; one that doesn't is asked for again.
    "track-sc0 src; track-sc0 dst_port table n|t|t00 ok ",
    "track-sc0 src; track-sc0 dst_port table n|ut|t00 t01 ok ",
    "track-sc1 dst_port table s; track-sc2 str(text) table s|tu|t12=80 t22=text ok ",
    // Keys of texts are the printed forms, cut.
    "track-sc0 src table s|t|t02=10.0 ok ",
    "track-sc0 src_port table s|t|t02=5000 ok ",
    "track-sc0 int(70000) table s|t|t02=7000 ok ",
    "reject if { src_get_gpc0(s) eq 1 }|1|g2=10.0 no ",
    // A key that can't be converted tracks nothing.
    "track-sc0 src table n||ok ",
    "track-sc0 dst_port||ok ",
    "track-sc0 str(text) table n||ok ",
    // A datum that isn't stored isn't looked at; references are, in every table.
    "track-sc0 src table v; reject if { sc0_conn_cur ge 0 }|t|t03 ok ",
    "track-sc0 src table v; reject if { sc0_trackers eq 2 }|t2|t03 l0 no ",
    // Whatever an act answers, evaluation goes on; in a criterion, no value is false.
    "sc-inc-gpc0(0)||ok ",
    "track-sc0 src; sc-inc-gpc0(0); sc-set-gpt0(0) 5; reject|tzn|t00 c0 c0 no ",
    "track-sc0 src; reject if { sc0_inc_gpc0 ge 0 }|tz|t00 c0 no ",
    "track-sc0 src; reject if { sc0_inc_gpc0 ge 0 }|tn|t00 c0 ok ",
    "track-sc0 src; reject if !{ sc0_inc_gpc0 ge 0 }|tn|t00 c0 no ",
    // A key without an entry reads as 0.
    "reject if { src_get_gpc0 eq 0 }|a|g0 no ",
    "reject if { src_get_gpc0 eq 0 }|1|g0 ok ",
    // Nothing is asked of a slot that doesn't track, for a datum that isn't stored, or for a source that is no key: the
    // first two are false before negation, the last reads as 0.
    "reject if { sc0_tracked }||ok ",
    "reject if { sc0_conn_cur ge 0 } or { sc0_inc_gpc0 ge 0 } or { src_get_gpc0(v) ge 0 }||ok ",
    "reject if !{ sc0_conn_cur ge 0 } !{ sc0_inc_gpc0 ge 0 } !{ src_get_gpc0(v) ge 0 }||no ",
    "reject if { src_get_gpc0(n) eq 0 }||no ",
    // Nothing is asked once the outcome is known.
    "track-sc0 src; reject if { sc0_conn_cur gt 5 } { sc0_inc_gpc0 ge 0 }|t5|t00 l0 ok ",
    "track-sc0 src; reject if { sc0_conn_cur gt 5 } or { sc0_inc_gpc0 ge 0 }|t6|t00 l0 no ",
    "track-sc0 src; accept unless { sc0_conn_cur gt 5 } or { sc0_inc_gpc0 ge 0 }; reject|t5z|t00 l0 c0 no ",
    "acl x sc0_conn_cur gt 5; acl x src_get_gpc0 eq 0; track-sc0 src; reject if x|t6|t00 l0 no ",
    "acl x sc0_conn_cur gt 5; acl x src_get_gpc0 eq 0; track-sc0 src; reject if !x|t51|t00 l0 g0 no ",
    // Each criterion asks once, however many values it has, and each rule asks anew.
    "track-sc0 src; reject if { sc0_conn_cur eq 1 eq 3 }|t3|t00 l0 no ",
    "track-sc0 src; reject if { sc0_conn_cur gt 5 }; reject if { sc0_conn_cur ge 0 }|t50|t00 l0 l0 no ",
    "track-sc0 src; reject if { sc0_kbytes_in eq 1 }|tk|t00 l0 no ",
    // An answer of another kind rejects, and nothing comes after a verdict.
    "track-sc0 src|n|t00 no ",
    "track-sc0 src; reject if { sc0_conn_cur gt 5 }|ta|t00 l0 no ",
    "reject if { src_get_gpc0 eq 0 }|r|g0 no ",
    "accept|t1|ok ok ok ",
];

/// The same from ::ffff:10.0.0.1 and from 2001:db8::1: the first alone is a key of a table of IPv4 addresses.
const FROM_MAPPED: &[&str] = &["track-sc0 src|t|t00 ok "];

const FROM_SIX: &[&str] = &[
    "track-sc0 src; reject if { src_get_gpc0 eq 0 }||no ",
    "track-sc0 src table v|t|t03 ok ",
];

const FOUR: Address = Address::V4([10, 0, 0, 1]);

const MAPPED: Address = Address::V6([0, 0, 0, 0, 0, 0, 0, 0, 0, 0, 255, 255, 10, 0, 0, 1]);

const SIX: Address = Address::V6([32, 1, 13, 184, 0, 0, 0, 0, 0, 0, 0, 0, 0, 0, 0, 1]);

/// The text of a configuration with these rules.
fn text_of(alloc: Global, rules: &str) -> Result<Vec<u8>, NoMemory> {
    let mut text = Vec::from_slice(alloc, SECTION)?;
    let mut parts = Parts::new(rules.as_bytes(), b';');
    for _ in 0..8usize {
        let Some(part) = parts.next() else {
            break;
        };
        let first = Words::new(part, Blanks::Spaces).next();
        if first.is_some() && first != Some(b"acl".as_slice()) {
            text.extend_from_slice(b"tcp-request connection ")?;
        }
        text.extend_from_slice(part)?;
        text.push(b'\n')?;
    }
    text.extend_from_slice(OTHERS)?;
    Ok(text)
}

/// A row that shows this number of each datum, and as many references.
fn row(alloc: Global, number: u32) -> Result<Row, NoMemory> {
    let value = u64::from(number);
    let data = [Datum::Gpc0, Datum::ConnCur, Datum::BytesInCnt];
    let mut cells = Sequence::new(alloc);
    for datum in data {
        cells.push(Cell {
            field: Field::plain(datum),
            value,
        })?;
    }
    match convert(alloc, &Sample::Number(number), KeyType::Integer) {
        Ok(Some(key)) => Ok(Row {
            key,
            refs: number,
            left: 0,
            cells,
        }),
        _ => Err(NoMemory),
    }
}

/// The answer of a letter.
fn answer(alloc: Global, letter: u8) -> Result<Answer, NoMemory> {
    match letter {
        b't' => Ok(Answer::Tracked),
        b'u' => Ok(Answer::Untracked),
        b'a' => Ok(Answer::Absent),
        b'r' => Ok(Answer::Released),
        b'n' => Ok(Answer::Value(None)),
        b'z' => Ok(Answer::Value(Some(0))),
        b'k' => Ok(Answer::Row(row(alloc, 2047)?)),
        _ => Ok(Answer::Row(row(alloc, u32::from(letter.saturating_sub(b'0')))?)),
    }
}

fn digit(slot: Slot) -> u8 {
    match slot {
        Slot::Sc0 => b'0',
        Slot::Sc1 => b'1',
        Slot::Sc2 => b'2',
    }
}

/// Adds a table's place, and a key that is a text.
fn show_key(text: &mut Vec<u8>, table: u32, key: &StickKey) -> Result<(), NoMemory> {
    text.push(b'0'.saturating_add(table.min(9) as u8))?;
    if table == 2 {
        text.push(b'=')?;
        text.extend_from_slice(key.bytes())?;
    }
    text.push(b' ')?;
    Ok(())
}

fn add(text: &mut Vec<u8>, more: &[u8]) -> Result<(), NoMemory> {
    text.extend_from_slice(more)?;
    Ok(())
}

/// Adds a want's letters.
fn show(text: &mut Vec<u8>, want: &Want) -> Result<(), NoMemory> {
    match want {
        Want::Get { table, key } => {
            text.push(b'g')?;
            show_key(text, *table, key)
        }
        Want::Track { slot, table, key } => {
            text.extend_from_slice(&[b't', digit(*slot)])?;
            show_key(text, *table, key)
        }
        Want::Look { slot } => add(text, &[b'l', digit(*slot), b' ']),
        Want::Count { slot, .. } => add(text, &[b'c', digit(*slot), b' ']),
        Want::Done(Verdict::Accept) => add(text, b"ok "),
        Want::Done(Verdict::Reject) => add(text, b"no "),
    }
}

/// The letters of what rules want of a connection.
fn wants(alloc: Global, setup: &Setup, src: Address, answers: &[u8]) -> Result<Vec<u8>, NoMemory> {
    let samples = Samples {
        src,
        src_port: 5000,
        dst_port: 80,
    };
    let mut eval = Eval::new(setup, samples);
    let mut text = Vec::new(alloc);
    show(&mut text, &eval.want(alloc)?)?;
    for letter in answers {
        eval.take(answer(alloc, *letter)?);
        show(&mut text, &eval.want(alloc)?)?;
    }
    Ok(text)
}

/// Whether the rules of a case want that.
fn is_wanted(alloc: Global, src: Address, rules: &str, answers: &[u8], wanted: &[u8]) -> bool {
    let Ok(text) = text_of(alloc, rules) else {
        return false;
    };
    let Some(setup) = setup_of(alloc, &text, 1) else {
        return false;
    };
    match wants(alloc, &setup, src, answers) {
        Ok(shown) => shown.as_slice() == wanted,
        Err(_) => false,
    }
}

/// Whether a case's rules want of a connection what it has.
fn is_right(alloc: Global, src: Address, case: &str) -> bool {
    let Some((rules, rest)) = case.split_once('|') else {
        return false;
    };
    match rest.split_once('|') {
        Some((answers, wanted)) => {
            is_wanted(alloc, src, rules, answers.as_bytes(), wanted.as_bytes())
        }
        None => false,
    }
}

#[test]
fn rules_want_what_the_manual_has(rt: HostRuntime) {
    for (src, cases) in [(FOUR, FROM_FOUR), (MAPPED, FROM_MAPPED), (SIX, FROM_SIX)] {
        for case in cases {
            assert!(rt; is_right(rt.alloc(), src, case), "{case}");
        }
    }
}
