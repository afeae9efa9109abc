//! The question to the shards of a table, and what their replies come to; `serve` asks it for an event, `tables` for a count.

ghost use Rattle.std.specs.Prelude.{◌≡◌, ◌≤◌, ◌<◌, List, Option, Some, None, IfOk, IfErr, OnErr, MatchResult};
ghost use Rattle.std.specs.List.{range_with_len};
ghost use Rattle.stick_model.specs.Limits.{IsTableEvent};
ghost use Rattle.stick_model.specs.declared.replies.Reply.{Reply as ItsReply};
ghost use Rattle.shard_book.specs.Keeping.{IsAnswer, MayAsk};
ghost use Rattle.shard_book.specs.Total.{IsAsked, IsShown, total};
ghost use Rattle.table_cli.specs.Shards.{AsksInTurn, AsksWhatIsShown, Ends, IsCommand, key_shard as specified_shard, shards_of};
ghost use Rattle.table_texts.specs.declared.message.Message.{Message as ItsMessage};

use shard_book::{Keeper, added, in_key_order};
use stick_key::shard_of;
use stick_model::{Event, Reply};
use table_texts::Message;

/// The shard on which an event's key lies: none, where it is asked of all shards.
fn key_shard(event: &Event, shards: u32) -> Option<u32>
    requires { 1 ≤ shards }
    ensures { result ≡ specified_shard shards event.now }
{
    match event {
        Event::Put(_, key, _) => Some(shard_of(key, shards)),
        Event::Clear(_, key) => Some(shard_of(key, shards)),
        _ => None,
    }
}

/// Asks a shard an event.
pub(crate) fn ask_shard<K: Keeper>(
    keeper: &mut K,
    shard: u32,
    event: Event,
) -> Result<Reply, Message>
    requires shard { shard < K.parts keeper.old }
    requires event { IsTableEvent event }
    requires asked { MayAsk (K.parts keeper.old) shard event }
    ensures ok { IfOk result (λ reply. K.answers (K.state keeper.old) shard event reply (K.state keeper.new)) }
    ensures answer { IfOk result (IsAnswer event) }
    ensures ends { IfErr result (Ends K.refuses (K.state keeper.old) shard event) }
    ensures err { OnErr result (K.state keeper.new ≡ K.state keeper.old) }
    ensures table { K.table keeper.new ≡ K.table keeper.old }
    ensures parts { K.parts keeper.new ≡ K.parts keeper.old }
{
    match keeper.ask(shard, event) {
        Ok(reply) => Ok(reply),
        Err(refusal) => Err(Message::of_refusal(refusal)),
    }
}

/// Asks each shard in turn, until one refuses.
fn ask_all<K: Keeper>(keeper: &mut K, event: &Event) -> Result<Reply, Message>
    requires event { IsTableEvent event.now }
    requires asked { IsAsked event.now }
    ensures asks { (replies : List ItsReply) × (end : Option ItsMessage)
        × AsksInTurn K.answers K.refuses event.now (range_with_len 0 (K.parts keeper.old)) (K.state keeper.old) replies end (K.state keeper.new)
        × MatchResult result (λ reply. (end ≡ None) × (reply ≡ total replies)) (λ message. end ≡ Some message) }
    ensures rows { IfOk result (AsksWhatIsShown event.now) }
    ensures table { K.table keeper.new ≡ K.table keeper.old }
    ensures parts { K.parts keeper.new ≡ K.parts keeper.old }
{
    let mut so_far = None;
    for shard in 0..keeper.shards() {
        let asked = match event.copy() {
            Ok(asked) => asked,
            Err(_) => return Err(Message::OutOfMemory),
        };
        let reply = match ask_shard(keeper, shard, asked) {
            Ok(reply) => reply,
            Err(message) => return Err(message),
        };
        let all = match added(so_far, reply) {
            Ok(all) => all,
            Err(_) => return Err(Message::OutOfMemory),
        };
        so_far = Some(all);
    }
    match so_far {
        Some(reply) => Ok(reply),
        None => Ok(Reply::Absent),
    }
}

/// Asks a table an event: the shard of its key, or all shards in turn.
fn ask_shards<K: Keeper>(keeper: &mut K, event: Event) -> Result<Reply, Message>
    requires event { IsTableEvent event }
    requires asked { IsCommand event }
    ensures asks { (replies : List ItsReply) × (end : Option ItsMessage)
        × AsksInTurn K.answers K.refuses event (shards_of (K.parts keeper.old) event) (K.state keeper.old) replies end (K.state keeper.new)
        × MatchResult result (λ reply. (end ≡ None) × (reply ≡ total replies)) (λ message. end ≡ Some message) }
    ensures rows { IfOk result (AsksWhatIsShown event) }
    ensures table { K.table keeper.new ≡ K.table keeper.old }
    ensures parts { K.parts keeper.new ≡ K.parts keeper.old }
{
    match key_shard(&event, keeper.shards()) {
        Some(shard) => match ask_shard(keeper, shard, event) {
            Ok(reply) => Ok(reply),
            Err(message) => Err(message),
        },
        None => match ask_all(keeper, &event) {
            Ok(reply) => Ok(reply),
            Err(message) => Err(message),
        },
    }
}

/// Asks a table an event, and answers what its shards' replies come to, rows in the order of their keys; or why no
/// further shard was asked.
pub fn ask<K: Keeper>(keeper: &mut K, event: Event) -> Result<Reply, Message>
    requires event { IsTableEvent event }
    requires asked { IsCommand event }
    ensures asks { (replies : List ItsReply) × (end : Option ItsMessage)
        × AsksInTurn K.answers K.refuses event (shards_of (K.parts keeper.old) event) (K.state keeper.old) replies end (K.state keeper.new)
        × MatchResult result (λ reply. (end ≡ None) × IsShown (total replies) reply) (λ message. end ≡ Some message) }
    ensures rows { IfOk result (AsksWhatIsShown event) }
    ensures table { K.table keeper.new ≡ K.table keeper.old }
    ensures parts { K.parts keeper.new ≡ K.parts keeper.old }
{
    match ask_shards(keeper, event) {
        Ok(reply) => match in_key_order(reply) {
            Ok(shown) => Ok(shown),
            Err(_) => Err(Message::OutOfMemory),
        },
        Err(message) => Err(message),
    }
}
