//! The headers of all tables, for `show table` alone, and how many entries a table has; `answer` calls it, and the stats of
//! `tcp_watch`.

ghost use Rattle.std.specs.Prelude.{◌≡◌, ◌<◌, ◌^◌, ◌++◌, List, Option, Some, None, MatchResult};
ghost use Rattle.std.specs.List.{range_with_len};
ghost use Rattle.table_texts.specs.Text.{header_text};
ghost use Rattle.stick_model.specs.declared.events.Event.TheVariants.{List as ListRows};
ghost use Rattle.stick_model.specs.declared.filters.Filter.TheVariants as filters;
ghost use Rattle.stick_model.specs.declared.replies.Reply.{Reply as ItsReply};
ghost use Rattle.table_cli.specs.Answers.{ShowsTables, used_of as specified_used};
ghost use Rattle.shard_book.specs.Total.{total};
ghost use Rattle.table_cli.specs.Shards.{AsksInTurn};
ghost use Rattle.shard_book.specs.NamedTables.{states_of};
ghost use Rattle.table_texts.specs.Bytes.{bytes_of};
ghost use Rattle.table_texts.specs.declared.message.Message.{Message as ItsMessage};

use crate::shards::ask;
use shard_book::{Keeper, Named};
use std::alloc::Global;
use stick_model::{Event, Filter, Reply};
use table_texts::{Answer, Message, push_header};

/// How many entries a listing tells.
fn used_of(reply: &Reply) -> u64
    ensures { result ≡ specified_used reply.now }
{
    match reply {
        Reply::Rows { used, .. } => *used,
        _ => 0,
    }
}

/// How many entries a table has: each of its shards is asked in turn.
pub fn count_entries<K: Keeper>(keeper: &mut K, moment: u64) -> Result<u64, Message>
    requires { moment < 2 ^ 62 }
    ensures table { K.table keeper.new ≡ K.table keeper.old }
    ensures parts { K.parts keeper.new ≡ K.parts keeper.old }
    ensures asks { (replies : List ItsReply) × (end : Option ItsMessage)
        × AsksInTurn K.answers K.refuses (ListRows moment filters.Nothing) (range_with_len 0 (K.parts keeper.old)) (K.state keeper.old) replies end (K.state keeper.new)
        × MatchResult result (λ used. (end ≡ None) × (used ≡ specified_used (total replies))) (λ message. end ≡ Some message) }
{
    match ask(keeper, Event::List(moment, Filter::Nothing)) {
        Ok(reply) => Ok(used_of(&reply)),
        Err(message) => Err(message),
    }
}

/// Asks all shards of a table how many entries they have, and appends its header.
fn push_head<K: Keeper>(
    named: &mut Named<K>,
    moment: u64,
    text: &mut Vec<u8>,
) -> Result<(), Message>
    requires { moment < 2 ^ 62 }
    ensures name { named.new.name ≡ named.old.name }
    ensures table { K.table named.new.keeper ≡ K.table named.old.keeper }
    ensures parts { K.parts named.new.keeper ≡ K.parts named.old.keeper }
    ensures asks { (replies : List ItsReply) × (end : Option ItsMessage)
        × AsksInTurn K.answers K.refuses (ListRows moment filters.Nothing) (range_with_len 0 (K.parts named.old.keeper)) (K.state named.old.keeper) replies end (K.state named.new.keeper)
        × MatchResult result (λ _. (end ≡ None) × (text.new.items ≡ text.old.items ++ header_text named.old.name (K.table named.old.keeper).kind (K.table named.old.keeper).size (specified_used (total replies))))
        (λ message. end ≡ Some message) }
{
    let used = match count_entries(&mut named.keeper, moment) {
        Ok(used) => used,
        Err(message) => return Err(message),
    };
    let spec = named.keeper.spec();
    match push_header(
        text,
        named.name.as_slice(),
        spec.kind,
        u64::from(spec.size),
        used,
    ) {
        Ok(()) => Ok(()),
        Err(_) => Err(Message::OutOfMemory),
    }
}

/// The headers of all tables. Where a table ends it, those behind it aren't asked.
pub(crate) fn show_tables<K: Keeper>(alloc: Global, tables: &mut [Named<K>], moment: u64) -> Answer
    requires { moment < 2 ^ 62 }
    ensures { ShowsTables K.answers K.refuses moment (states_of K.table K.parts K.state tables.old) (bytes_of result) (states_of K.table K.parts K.state tables.new) }
{
    let mut text = Vec::new(alloc);
    for place in 0..tables.len() {
        match push_head(&mut tables[place], moment, &mut text) {
            Ok(()) => {}
            Err(message) => return Answer::Message(message),
        }
    }
    match text.extend_from_slice(b"\n") {
        Ok(()) => Answer::Listing(text),
        Err(_) => Answer::Message(Message::OutOfMemory),
    }
}
