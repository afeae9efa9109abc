//! The tables of a setup are settled once nobody calls them; `running` calls it.

ghost use Rattle.std.specs.Prelude.{◌≡◌, ◌&&◌, Err, IfErr, IfOk, is_ok};
ghost use Rattle.shard_locks.specs.Shared.{seats_of};
ghost use Rattle.shard_locks.specs.ShardsState.{parts_of};
ghost use Rattle.tcp_proxy.specs.Ending.{CountsSettled, IsFound};

use crate::table_end::{TableEnd, Tally, tally_of};
use rule_model::Setup;
use shard_locks::{Shards, SharedRef, SharedSeat};
use shard_record::Naming;
use shard_settling::{Fault, Unsettled, settle};
use std::alloc::Global;
use std::{io, mem, str};
use stick_table::Table;

/// What callers of the tables of a setup leave: of each table its seats, and the references that are out.
pub(crate) struct Left<J: Naming> {
    pub seats: Vec<Vec<SharedSeat<J>>>,
    pub refs: Vec<Vec<SharedRef<J>>>,
}

/// The references are given up: their tickets stay out.
pub(crate) fn give_up<J: Naming>(mut refs: Vec<SharedRef<J>>) {
    while let Some(reference) = refs.pop() {
        reference.abandon();
    }
    refs.destroy_empty();
}

/// All references of all tables are given up.
pub(crate) fn give_up_all<J: Naming>(mut refs: Vec<Vec<SharedRef<J>>>) {
    while let Some(of_table) = refs.pop() {
        give_up(of_table);
    }
    refs.destroy_empty();
}

/// Settles a table by the seats and the references that its callers left. What was counted of it, or what it lacks.
fn settle_table<T: Table, J: Naming>(
    alloc: Global,
    table: Shards<T, J>,
    seats: Vec<SharedSeat<J>>,
    refs: Vec<SharedRef<J>>,
) -> Result<Tally, Fault>
    ensures settled { IfOk result (λ tally. CountsSettled (parts_of table) table.keep (seats_of seats.items) refs.items tally) }
    ensures fault { IfErr result (λ fault. IsFound (parts_of table) table.keep (seats_of seats.items) refs.items fault) }
{
    match settle(alloc, table, seats, refs) {
        Ok(settled) => Ok(tally_of(&settled)),
        Err(unsettled) => {
            let Unsettled {
                fault,
                found: _,
                shards: _,
                seats: _,
                refs,
            } = unsettled;
            give_up(refs);
            Err(fault)
        }
    }
}

/// The name of the table of a place, as it is printed.
fn name_at(setup: &Setup, place: usize) -> &str {
    match setup.tables.as_slice().get(place) {
        Some(named) => str::from_utf8(named.name.as_slice()).unwrap_or("?"),
        None => "?",
    }
}

/// Takes the list of a place out of a list of lists.
fn take_list<T>(alloc: Global, lists: &mut Vec<Vec<T>>, place: usize) -> Vec<T> {
    match lists.get_mut(place) {
        Some(list) => mem::replace(list, Vec::new(alloc)),
        None => Vec::new(alloc),
    }
}

/// Settles each table of a setup by the seats and the references that its callers left, and prints, in order of declaration,
/// `settled NAME: C calls, R references`, or `unsettled NAME: S1` and its kin on standard error. Answers whether all were
/// settled.
pub(crate) fn settle_all<T: Table, J: Naming, R: Print + Eprint>(
    alloc: Global,
    rt: &R,
    setup: &Setup,
    tables: Vec<Shards<T, J>>,
    left: Left<J>,
) -> io::Result<bool> {
    let Left {
        mut seats,
        mut refs,
    } = left;
    let mut all = Ok(true);
    for (place, table) in tables.into_iter().enumerate() {
        let seats = take_list(alloc, &mut seats, place);
        let refs = take_list(alloc, &mut refs, place);
        let outcome = settle_table(alloc, table, seats, refs);
        all = print_end(rt, name_at(setup, place), outcome, all);
    }
    give_up_all(refs);
    all
}

/// Prints how the table of a name ended, on standard output where it is settled and else on standard error, unless printing failed
/// before. Answers whether all are settled so far.
fn print_end<R: Print + Eprint>(
    rt: &R,
    name: &str,
    outcome: Result<Tally, Fault>,
    before: io::Result<bool>,
) -> io::Result<bool>
    // Once printing has failed, nothing more is printed.
    ensures failed { IfErr before (λ reason. result ≡ Err reason) }
    // All are settled where this one is, and those before are.
    ensures settled { IfOk before (λ all. IfOk result (λ now. now ≡ (is_ok outcome && all))) }
{
    let all = match before {
        Ok(all) => all,
        Err(reason) => return Err(reason),
    };
    let end = TableEnd { name, outcome };
    if outcome.is_err() {
        return match eprintln!(rt; "{end}") {
            Ok(()) => Ok(false),
            Err(reason) => Err(reason),
        };
    }
    match println!(rt; "{end}") {
        Ok(()) => Ok(all),
        Err(reason) => Err(reason),
    }
}
