//! The answers to `show table T` and `clear table T` with several filters, all of which an entry has to match; the stats socket of
//! `tcp_watch` asks it.
//!
//! The table itself picks the entries that match the first filter, and of their rows those are meant that match the others too.

ghost use Rattle.std.specs.Prelude.{◌≡◌, ◌<◌, ◌^◌, ℕ, List, Result, MatchResult, IfOk, OnOk, OnErr};
ghost use Rattle.byte_ports.specs.Bytes.{Grows, GrowsInPart, IsOneMore};
ghost use Rattle.shard_book.specs.NamedTables.{state_of, states_of};
ghost use Rattle.table_cli.specs.Matching as specified;
ghost use Rattle.table_cli.specs.Matching.{AnswersFiltered, DoesIfStored, DoesMatching, DoesRead, ShowsBy};
ghost use Rattle.table_texts.specs.Bytes.{bytes_of};
ghost use Rattle.table_texts.specs.Comparisons.{ReadsComparisons};
ghost use Rattle.table_texts.specs.Filters.{seen_filtered};
ghost use Rattle.table_texts.specs.Seen.{words_of};
ghost use Rattle.table_texts.specs.Texts.{reply_text};
ghost use Rattle.table_texts.specs.declared.comparisons.Comparison.{Comparison as ItsComparison};
ghost use Rattle.table_texts.specs.declared.message.Message.{Message as ItsMessage};

use crate::clear_matching::{Deed, remove_by};
use crate::matching::{are_stored, first_filter, narrowed, other_filters};
use crate::serve::place_of;
use crate::shards::ask;
use base_clock::Clock;
use base_sequence::NoMemory;
use byte_ports::{Failed, Sink, write_all};
use shard_book::{Keeper, Named};
use std::alloc::Global;
use stick_model::{Event, Filter, Reply, Spec};
use table_texts::{Answer, Comparison, Filtered, Message, read_comparisons};

/// What a table's reply is answered, with those of its rows alone that match these filters.
fn answer_of(
    alloc: Global,
    table: &[u8],
    spec: &Spec,
    reply: Reply,
    others: &[Comparison],
) -> Result<Answer, NoMemory>
    ensures { IfOk result (λ answer. bytes_of answer ≡ reply_text table.now spec.now (specified.narrowed others.now reply)) }
{
    let left = narrowed(reply, others)?;
    Answer::of_reply(alloc, table, spec, &left)
}

/// Shows the entries of a table that the first filter means and all others match.
fn show_by<K: Keeper>(
    alloc: Global,
    name: &[u8],
    keeper: &mut K,
    moment: u64,
    first: Filter,
    others: &[Comparison],
) -> Answer
    requires { moment < 2 ^ 62 }
    ensures shows { ShowsBy K.answers K.refuses moment first others.now (record { name = name.now; spec = K.table keeper.old; shards = K.parts keeper.old; state = K.state keeper.old }) (bytes_of result) (K.state keeper.new) }
    ensures table { K.table keeper.new ≡ K.table keeper.old }
    ensures parts { K.parts keeper.new ≡ K.parts keeper.old }
{
    match ask(keeper, Event::List(moment, first)) {
        Ok(reply) => match answer_of(alloc, name, keeper.spec(), reply, others) {
            Ok(answer) => answer,
            Err(_) => Answer::Message(Message::OutOfMemory),
        },
        Err(message) => Answer::Message(message),
    }
}

/// Does it with the entries of a table that match all filters.
fn do_matching<K: Keeper>(
    alloc: Global,
    name: &[u8],
    keeper: &mut K,
    moment: u64,
    deed: Deed,
    all: &[Comparison],
) -> Answer
    requires { moment < 2 ^ 62 }
    ensures does { DoesMatching K.answers K.refuses moment deed all.now (record { name = name.now; spec = K.table keeper.old; shards = K.parts keeper.old; state = K.state keeper.old }) (bytes_of result) (K.state keeper.new) }
    ensures table { K.table keeper.new ≡ K.table keeper.old }
    ensures parts { K.parts keeper.new ≡ K.parts keeper.old }
{
    let first = first_filter(all);
    let others = other_filters(all);
    match deed {
        Deed::Show => show_by(alloc, name, keeper, moment, first, others),
        Deed::Remove => remove_by(alloc, keeper, moment, first, others),
    }
}

/// Does it where the table stores what each filter compares.
fn do_if_stored<K: Keeper>(
    alloc: Global,
    name: &[u8],
    keeper: &mut K,
    moment: u64,
    deed: Deed,
    all: &[Comparison],
) -> Answer
    requires { moment < 2 ^ 62 }
    ensures does { DoesIfStored K.answers K.refuses moment (specified.are_stored (K.table keeper.old).columns all.now) deed all.now (record { name = name.now; spec = K.table keeper.old; shards = K.parts keeper.old; state = K.state keeper.old }) (bytes_of result) (K.state keeper.new) }
    ensures table { K.table keeper.new ≡ K.table keeper.old }
    ensures parts { K.parts keeper.new ≡ K.parts keeper.old }
{
    if are_stored(&keeper.spec().columns, all) {
        return do_matching(alloc, name, keeper, moment, deed, all);
    }
    Answer::Message(Message::NotStored)
}

/// Does it with the entries of a table that match all filters of these words.
fn do_read<K: Keeper>(
    alloc: Global,
    named: &mut Named<K>,
    moment: u64,
    deed: Deed,
    filters: &[u8],
) -> Answer
    requires { moment < 2 ^ 62 }
    ensures name { named.new.name ≡ named.old.name }
    ensures table { K.table named.new.keeper ≡ K.table named.old.keeper }
    ensures parts { K.parts named.new.keeper ≡ K.parts named.old.keeper }
    ensures does { (read : Result (List ItsComparison) ItsMessage) × ReadsComparisons (words_of filters.now) read
        × DoesRead K.answers K.refuses moment deed read (state_of K.table K.parts K.state named.old) (bytes_of result) (K.state named.new.keeper) }
{
    match read_comparisons(alloc, filters) {
        Ok(all) => do_if_stored(
            alloc,
            named.name.as_slice(),
            &mut named.keeper,
            moment,
            deed,
            all.as_slice(),
        ),
        Err(message) => Answer::Message(message),
    }
}

/// Does it with the entries of a table that match several filters: all of a command but the writing.
fn do_filtered<K: Keeper>(
    alloc: Global,
    tables: &mut [Named<K>],
    moment: u64,
    deed: Deed,
    filtered: Filtered<'_>,
) -> Answer
    requires { moment < 2 ^ 62 }
    ensures { AnswersFiltered K.answers K.refuses moment deed (seen_filtered filtered.entry) (states_of K.table K.parts K.state tables.old) (bytes_of result) (states_of K.table K.parts K.state tables.new) }
{
    match place_of(tables, filtered.table) {
        Some(place) => do_read(alloc, &mut tables[place], moment, deed, filtered.filters),
        None => Answer::Message(Message::NoSuchTable),
    }
}

/// Shows or removes the entries of a table that match several filters at the moment that the clock shows, and writes what `show table T`
/// or `clear table T` with all of them is answered.
pub fn answer_filtered<K: Keeper, C: Clock, W: Sink>(
    alloc: Global,
    tables: &mut [Named<K>],
    clock: &mut C,
    deed: Deed,
    filtered: Filtered<'_>,
    writer: &mut W,
) -> Result<(), Failed>
    ensures answer { (moment : ℕ) × (text : List ℕ) × C.shows (C.state clock.old) moment (C.state clock.new)
        × AnswersFiltered K.answers K.refuses moment deed (seen_filtered filtered.entry) (states_of K.table K.parts K.state tables.old) text (states_of K.table K.parts K.state tables.new)
        × MatchResult result (λ _. Grows W.tells (W.written writer.old) (W.written writer.new) text)
        (λ _. GrowsInPart W.tells (W.written writer.old) (W.written writer.new) text) }
    ensures ok { OnOk result (W.failures writer.new ≡ W.failures writer.old) }
    ensures err { OnErr result (IsOneMore (W.failures writer.old) (W.failures writer.new)) }
{
    let moment = clock.now();
    let answer = do_filtered(alloc, tables, moment, deed, filtered);
    match write_all(writer, answer.bytes()) {
        Ok(()) => Ok(()),
        Err(_) => Err(Failed),
    }
}
