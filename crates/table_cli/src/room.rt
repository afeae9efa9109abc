//! Whether the entry that a saved line makes finds its shard full, asked before the line's command is done, so that loading purges
//! nothing; `loading` asks it.

ghost use Rattle.std.specs.Prelude.{◌≡◌, ◌⊎◌, ◌<◌, ◌^◌, ◌==◌, Result, length, if◌then◌else◌};
ghost use Rattle.stick_model.specs.declared.events.Event.{Event as ItsEvent};
ghost use Rattle.shard_book.specs.NamedTables.{state_of, states_of};
ghost use Rattle.table_texts.specs.Form.{form_of};
ghost use Rattle.table_texts.specs.Request.{Asks};
ghost use Rattle.table_texts.specs.Seen.{seen_request, words_of};
ghost use Rattle.table_texts.specs.declared.message.Message.{Message as ItsMessage};
ghost use Rattle.table_cli.specs.Answers.{place_of as specified_place};
ghost use Rattle.table_cli.specs.Room as spec;
ghost use Rattle.table_cli.specs.Room.{LooksAt, LooksFor, LooksOf, LooksWhere};

use crate::serve::place_of;
use crate::shards::ask_shard;
use shard_book::{Keeper, Named};
use std::alloc::Global;
use stick_key::{StickKey, shard_of, size_of_shard};
use stick_model::{Event, Filter, Reply, Rows};
use table_texts::{Form, Request, read_event, read_form};

/// What a shard has for the entry of a key.
#[derive(Clone, Copy, Debug, PartialEq, Eq)]
pub enum Room {
    /// A place, or the entry itself.
    Free,
    /// All its places are taken, and none by the key.
    Taken,
    /// There was no memory to ask it.
    Unknown,
}

/// What some rows tell of a shard all of whose places are taken, where they are those of one key.
fn told_by_rows(rows: &Rows) -> Room
    ensures { (result ≡ Room.Unknown) ⊎ (result ≡ (if length rows.now == 0 then Room.Taken else Room.Free)) }
{
    match rows.read() {
        Ok(read) => {
            if read.as_slice().is_empty() {
                Room::Taken
            } else {
                Room::Free
            }
        }
        Err(_) => Room::Unknown,
    }
}

/// What a listing of one key tells of its shard, which has so many places.
fn told(places: u32, reply: &Reply) -> Room
    ensures { (result ≡ Room.Unknown) ⊎ (result ≡ spec.told places reply.now) }
{
    let Reply::Rows { used, rows } = reply else {
        return Room::Free;
    };
    if *used < u64::from(places) {
        return Room::Free;
    }
    told_by_rows(rows)
}

/// Asks the shard of a key what it has for it, by a listing of that key.
fn look_for<K: Keeper>(keeper: &mut K, moment: u64, key: StickKey) -> Room
    requires { moment < 2 ^ 62 }
    ensures looks { LooksFor K.answers K.refuses moment (K.table keeper.old) (K.parts keeper.old) (K.state keeper.old) key result (K.state keeper.new) }
    ensures table { K.table keeper.new ≡ K.table keeper.old }
    ensures parts { K.parts keeper.new ≡ K.parts keeper.old }
{
    let shards = keeper.shards();
    let shard = shard_of(&key, shards);
    let places = size_of_shard(keeper.size(), shards, shard);
    match ask_shard(keeper, shard, Event::List(moment, Filter::Key(key))) {
        Ok(reply) => told(places, &reply),
        Err(_) => Room::Unknown,
    }
}

/// The key of an event that makes an entry.
fn key_put(event: Event) -> Option<StickKey>
    ensures { result ≡ spec.key_put event }
{
    match event {
        Event::Put(_now, key, _cells) => Some(key),
        _ => None,
    }
}

/// Asks a table what it has for the entry that a request makes.
fn look_in<K: Keeper>(
    alloc: Global,
    named: &mut Named<K>,
    moment: u64,
    request: Request<'_>,
) -> Room
    requires { moment < 2 ^ 62 }
    ensures name { named.new.name ≡ named.old.name }
    ensures table { K.table named.new.keeper ≡ K.table named.old.keeper }
    ensures parts { K.parts named.new.keeper ≡ K.parts named.old.keeper }
    ensures looks { (asked : Result ItsEvent ItsMessage) × Asks (K.table named.old.keeper).kind moment (seen_request request.entry) asked
        × LooksWhere K.answers K.refuses moment (K.table named.old.keeper) (K.parts named.old.keeper) (K.state named.old.keeper) (spec.key_asked asked) result (K.state named.new.keeper) }
{
    let kind = named.keeper.spec().kind;
    match read_event(alloc, kind, moment, request) {
        Ok(event) => match key_put(event) {
            Some(key) => look_for(&mut named.keeper, moment, key),
            None => Room::Free,
        },
        Err(_message) => Room::Free,
    }
}

/// Asks the table of a name what it has for the entry that a request makes.
fn look_at<K: Keeper>(
    alloc: Global,
    tables: &mut [Named<K>],
    moment: u64,
    name: &[u8],
    request: Request<'_>,
) -> Room
    requires { moment < 2 ^ 62 }
    ensures { LooksAt K.answers K.refuses moment (seen_request request.entry) (specified_place name.now (states_of K.table K.parts K.state tables.old)) (states_of K.table K.parts K.state tables.old) result (states_of K.table K.parts K.state tables.new) }
{
    match place_of(tables, name) {
        Some(place) => look_in(alloc, &mut tables[place], moment, request),
        None => Room::Free,
    }
}

/// Asks what there is for the entry that a command makes, at a moment.
pub(crate) fn look<K: Keeper>(
    alloc: Global,
    tables: &mut [Named<K>],
    moment: u64,
    command: &[u8],
) -> Room
    requires { moment < 2 ^ 62 }
    ensures { LooksOf K.answers K.refuses moment (form_of (words_of command.now)) (states_of K.table K.parts K.state tables.old) result (states_of K.table K.parts K.state tables.new) }
{
    match read_form(command) {
        Form::Of(name, request) => look_at(alloc, tables, moment, name, request),
        _ => Room::Free,
    }
}
