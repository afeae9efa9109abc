//! What is to be done with the entries that match several filters, and how they are removed; `show_matching` calls it.
//!
//! What matches is listed, and then each of those entries is cleared by itself: one that is tracked stays.

ghost use Rattle.std.specs.Prelude.{◌≡◌, ◌<◌, ◌^◌, ◌||◌, IfOk};
ghost use Rattle.table_cli.specs.Matching as spec;
ghost use Rattle.table_cli.specs.Matching.{ClearsBy, ClearsEach, RemovesBy, cleared_text, rows_listed};
ghost use Rattle.table_texts.specs.Bytes.{bytes_of};

use crate::matching::matching;
use crate::shards::ask;
use base_sequence::NoMemory;
use shard_book::Keeper;
use std::alloc::Global;
use stick_model::{Event, Filter, Reply, Row};
use table_texts::{Answer, Comparison, Message};

/// What is to be done with the entries that match.
#[derive(Clone, Copy, Debug, PartialEq, Eq)]
pub enum Deed {
    /// They are shown.
    Show,
    /// They go.
    Remove,
}

/// The rows of a reply that match all filters.
fn rows_of(alloc: Global, reply: Reply, others: &[Comparison]) -> Result<Vec<Row>, NoMemory>
    ensures { IfOk result (λ rows. rows.items ≡ rows_listed (spec.narrowed others.now reply)) }
{
    match reply {
        Reply::Rows { used: _, rows } => matching(rows, others),
        _ => Ok(Vec::new(alloc)),
    }
}

/// Whether an entry that was to go stays.
fn is_kept(reply: &Reply) -> bool
    ensures { result ≡ spec.is_kept reply.now }
{
    matches!(reply, Reply::InUse)
}

/// Whether an entry stays: one before, or that of a reply.
fn stays_after(before: bool, reply: &Reply) -> bool
    ensures { result ≡ (before || spec.is_kept reply.now) }
{
    before || is_kept(reply)
}

/// Clears the entry of each row, one after another, until a shard refuses. Whether one of them stays.
fn clear_each<K: Keeper>(keeper: &mut K, moment: u64, rows: Vec<Row>) -> Result<bool, Message>
    requires { moment < 2 ^ 62 }
    ensures clears { ClearsEach K.answers K.refuses moment (K.parts keeper.old) rows.items (K.state keeper.old) result (K.state keeper.new) }
    ensures table { K.table keeper.new ≡ K.table keeper.old }
    ensures parts { K.parts keeper.new ≡ K.parts keeper.old }
{
    let mut stays = false;
    for row in rows {
        let Row {
            key,
            refs: _,
            left: _,
            cells: _,
        } = row;
        let reply = match ask(keeper, Event::Clear(moment, key)) {
            Ok(reply) => reply,
            Err(message) => return Err(message),
        };
        stays = stays_after(stays, &reply);
    }
    Ok(stays)
}

/// Clears the entries of a table that the first filter means and all others match. Whether one of them stays.
fn clear_by<K: Keeper>(
    alloc: Global,
    keeper: &mut K,
    moment: u64,
    first: Filter,
    others: &[Comparison],
) -> Result<bool, Message>
    requires { moment < 2 ^ 62 }
    ensures clears { ClearsBy K.answers K.refuses moment first others.now (K.parts keeper.old) (K.state keeper.old) result (K.state keeper.new) }
    ensures table { K.table keeper.new ≡ K.table keeper.old }
    ensures parts { K.parts keeper.new ≡ K.parts keeper.old }
{
    let reply = match ask(keeper, Event::List(moment, first)) {
        Ok(reply) => reply,
        Err(message) => return Err(message),
    };
    let rows = match rows_of(alloc, reply, others) {
        Ok(rows) => rows,
        Err(_) => return Err(Message::OutOfMemory),
    };
    clear_each(keeper, moment, rows)
}

/// What clearing entries is answered: an empty line, that one of them stays, or why it ended.
fn answer_cleared(cleared: Result<bool, Message>) -> Answer
    ensures { bytes_of result ≡ cleared_text cleared }
{
    match cleared {
        Ok(false) => Answer::Done,
        Ok(true) => Answer::Message(Message::InUse),
        Err(message) => Answer::Message(message),
    }
}

/// Removes the entries of a table that the first filter means and all others match.
pub(crate) fn remove_by<K: Keeper>(
    alloc: Global,
    keeper: &mut K,
    moment: u64,
    first: Filter,
    others: &[Comparison],
) -> Answer
    requires { moment < 2 ^ 62 }
    ensures removes { RemovesBy K.answers K.refuses moment first others.now (K.parts keeper.old) (K.state keeper.old) (bytes_of result) (K.state keeper.new) }
    ensures table { K.table keeper.new ≡ K.table keeper.old }
    ensures parts { K.parts keeper.new ≡ K.parts keeper.old }
{
    let cleared = clear_by(alloc, keeper, moment, first, others);
    answer_cleared(cleared)
}
