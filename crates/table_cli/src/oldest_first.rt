//! The answer to `show table NAME oldest-first`: what a table holds, in the order in which its entries go; the stats socket of
//! `tcp_watch` asks it, and `tcp_proxy` as it saves.
//!
//! It is no event of the table: a plain copy of each shard is asked what it shows, and then forgotten.

ghost use Rattle.std.specs.Prelude.{◌≡◌, ◌≤◌, ◌<◌, ◌^◌, ◌++◌, ℕ, List, MatchResult, IfOk, IfErr, IfSome, OnOk, OnErr, length, position};
ghost use Rattle.std.specs.Str.{bytes_eq};
ghost use Rattle.byte_ports.specs.Bytes.{Grows, GrowsInPart, IsOneMore};
ghost use Rattle.stick_model.specs.declared.rows.Row.{Row as ItsRow};
ghost use Rattle.shard_book.specs.NamedTables.{state_of, states_of};
ghost use Rattle.table_cli.specs.OldestFirst.{EndsShow, ShowFirst, ShowsAt, ShowsNamed, ShowsOldestFirst};
ghost use Rattle.table_texts.specs.Bytes.{bytes_of};

use crate::serve::place_of;
use crate::stamped::{oldest_first, push_rows};
use base_clock::Clock;
use base_sequence::Sequence;
use byte_ports::{Failed, Sink, write_all};
use shard_book::{Keeper, Named};
use std::alloc::Global;
use stick_model::{Reply, Row, Rows};
use table_texts::{Answer, Message};

/// Appends the rows of a shard, those whose entries were refreshed before others first.
fn push_shard<K: Keeper>(
    alloc: Global,
    keeper: &K,
    shard: u32,
    moment: u64,
    rows: &mut Vec<Row>,
) -> Result<(), Message>
    requires shard { shard < K.parts keeper.now }
    requires moment { moment < 2 ^ 62 }
    ensures ok { OnOk result ((here : List ItsRow) × ShowsAt K.holds moment (K.state keeper.now) shard here × (rows.new.items ≡ rows.old.items ++ here)) }
    ensures err { IfErr result (EndsShow K.holds moment (K.state keeper.now) (K.parts keeper.now)) }
{
    let mut table = match keeper.copied(shard) {
        Ok(table) => table,
        Err(_) => return Err(Message::OutOfMemory),
    };
    let all = match oldest_first(alloc, &mut table, moment) {
        Ok(all) => all,
        Err(refusal) => return Err(Message::of_refusal(refusal)),
    };
    match push_rows(rows, all) {
        Ok(()) => Ok(()),
        Err(_) => Err(Message::OutOfMemory),
    }
}

/// The rows of all shards, one shard behind the other.
fn all_rows<K: Keeper>(alloc: Global, keeper: &K, moment: u64) -> Result<Vec<Row>, Message>
    requires { moment < 2 ^ 62 }
    ensures ok { IfOk result (λ rows. ShowFirst K.holds moment (K.state keeper.now) (K.parts keeper.now) rows.items) }
    ensures err { IfErr result (EndsShow K.holds moment (K.state keeper.now) (K.parts keeper.now)) }
{
    let mut rows = Vec::new(alloc);
    for shard in 0..keeper.shards() {
        match push_shard(alloc, keeper, shard, moment, &mut rows) {
            Ok(()) => {}
            Err(message) => return Err(message),
        }
    }
    Ok(rows)
}

/// What a table holds, as an answer.
fn show_of<K: Keeper>(alloc: Global, named: &Named<K>, moment: u64) -> Answer
    requires { moment < 2 ^ 62 }
    ensures { ShowsOldestFirst K.holds moment (state_of K.table K.parts K.state named.now) (bytes_of result) }
{
    let rows = match all_rows(alloc, &named.keeper, moment) {
        Ok(rows) => rows,
        Err(message) => return Answer::Message(message),
    };
    let used = rows.as_slice().len() as u64;
    let rows = Rows::from(Sequence::from_vec(rows));
    let reply = Reply::Rows { used, rows };
    match Answer::of_reply(alloc, named.name.as_slice(), named.keeper.spec(), &reply) {
        Ok(answer) => answer,
        Err(_) => Answer::Message(Message::OutOfMemory),
    }
}

/// What the table of a name holds at a moment: the answer to `show table NAME`, but that the rows of each shard stand in the order in
/// which their entries go, one shard behind the other. Nothing changes.
pub fn show_oldest_first<K: Keeper>(
    alloc: Global,
    tables: &[Named<K>],
    moment: u64,
    name: &[u8],
) -> Answer
    requires { moment < 2 ^ 62 }
    ensures { ShowsNamed K.holds moment name.now (states_of K.table K.parts K.state tables.now) (bytes_of result) }
{
    match place_of(tables, name) {
        Some(place) => show_of(alloc, &tables[place], moment),
        None => Answer::Message(Message::NoSuchTable),
    }
}

/// Writes what the table of a name holds at the moment that the clock shows, as `show_oldest_first`.
pub fn answer_oldest_first<K: Keeper, C: Clock, W: Sink>(
    alloc: Global,
    tables: &[Named<K>],
    clock: &mut C,
    name: &[u8],
    writer: &mut W,
) -> Result<(), Failed>
    ensures answer { (moment : ℕ) × (text : List ℕ) × C.shows (C.state clock.old) moment (C.state clock.new)
        × ShowsNamed K.holds moment name.now (states_of K.table K.parts K.state tables.now) text
        × MatchResult result (λ _. Grows W.tells (W.written writer.old) (W.written writer.new) text)
        (λ _. GrowsInPart W.tells (W.written writer.old) (W.written writer.new) text) }
    ensures ok { OnOk result (W.failures writer.new ≡ W.failures writer.old) }
    ensures err { OnErr result (IsOneMore (W.failures writer.old) (W.failures writer.new)) }
{
    let moment = clock.now();
    let answer = show_oldest_first(alloc, tables, moment, name);
    match write_all(writer, answer.bytes()) {
        Ok(()) => Ok(()),
        Err(_) => Err(Failed),
    }
}
