//! The commands of a line, each answered at the clock's moment; `CommandService` and `stickd_script` call `answer`.

ghost use Rattle.std.specs.Prelude.{◌≡◌, ◌<◌, ◌^◌, ℕ, List, Result, MatchResult, IfOk, IfErr, OnOk, OnErr, IfSome, length, position};
ghost use Rattle.std.specs.Str.{bytes_eq};
ghost use Rattle.byte_ports.specs.Bytes.{Grows, GrowsInPart, IsOneMore};
ghost use Rattle.stick_model.specs.Limits.{IsTableEvent};
ghost use Rattle.stick_model.specs.declared.events.Event.{Event};
ghost use Rattle.table_cli.specs.Answers.{Answers, AnswersLine, AsksOf, Does, AnswersForm, AnswersEvent, commands_of, has_words as specified_words, place_of as specified_place};
ghost use Rattle.base_lines.specs.Chain.{StopsIn};
ghost use Rattle.table_cli.specs.Shards.{IsCommand};
ghost use Rattle.shard_book.specs.NamedTables.{state_of, states_of};
ghost use Rattle.table_cli.specs.States.{CommandState};
ghost use Rattle.table_texts.specs.declared.message.Message.{Message};
ghost use Rattle.table_texts.specs.Request.{Asks};
ghost use Rattle.table_texts.specs.Bytes.{bytes_of};
ghost use Rattle.table_texts.specs.Form.{form_of};
ghost use Rattle.table_texts.specs.Seen.{seen_request, words_of};

use crate::shards::ask;
use crate::tables::show_tables;
use crate::{CliFault, CliFaultKind};
use base_clock::Clock;
use base_lines::{Blanks, Parts, Words, without_cr};
use byte_ports::{Failed, Sink, write_all};
use shard_book::{Keeper, Named};
use std::alloc::Global;
use stick_model::Event;
use table_texts::{Answer, Form, Message, Request, read_event, read_form};

/// The place of the first table of a name.
pub(crate) fn place_of<K: Keeper>(tables: &[Named<K>], name: &[u8]) -> Option<usize>
    ensures place { result ≡ position (λ table. bytes_eq table.name name.now) tables.now }
    ensures within { IfSome result (λ place. place < length tables.now) }
{
    tables
        .iter()
        .position(|table| table.name.as_slice() == name)
}

/// Has a table's shards answer an event, and prints what that comes to.
fn serve_event<K: Keeper>(alloc: Global, name: &[u8], keeper: &mut K, event: Event) -> Answer
    requires event { IsTableEvent event }
    requires asked { IsCommand event }
    ensures serves { AnswersEvent K.answers K.refuses (record { name = name.now; spec = K.table keeper.old; shards = K.parts keeper.old; state = K.state keeper.old }) event (bytes_of result) (K.state keeper.new) }
    ensures table { K.table keeper.new ≡ K.table keeper.old }
    ensures parts { K.parts keeper.new ≡ K.parts keeper.old }
{
    match ask(keeper, event) {
        Ok(reply) => match Answer::of_reply(alloc, name, keeper.spec(), &reply) {
            Ok(answer) => answer,
            Err(_) => Answer::Message(Message::OutOfMemory),
        },
        Err(message) => Answer::Message(message),
    }
}

/// Does what is asked of a table.
fn ask_table<K: Keeper>(
    alloc: Global,
    named: &mut Named<K>,
    moment: u64,
    request: Request<'_>,
) -> Answer
    requires { moment < 2 ^ 62 }
    ensures name { named.new.name ≡ named.old.name }
    ensures table { K.table named.new.keeper ≡ K.table named.old.keeper }
    ensures parts { K.parts named.new.keeper ≡ K.parts named.old.keeper }
    ensures does { (asked : Result Event Message) × Asks (K.table named.old.keeper).kind moment (seen_request request.entry) asked
        × Does K.answers K.refuses (state_of K.table K.parts K.state named.old) asked (bytes_of result) (K.state named.new.keeper) }
{
    let kind = named.keeper.spec().kind;
    match read_event(alloc, kind, moment, request) {
        Ok(event) => serve_event(alloc, named.name.as_slice(), &mut named.keeper, event),
        Err(message) => Answer::Message(message),
    }
}

/// Does what is asked of the table of a name.
fn ask_named<K: Keeper>(
    alloc: Global,
    tables: &mut [Named<K>],
    moment: u64,
    name: &[u8],
    request: Request<'_>,
) -> Answer
    requires { moment < 2 ^ 62 }
    ensures { AsksOf K.answers K.refuses moment (seen_request request.entry) (specified_place name.now (states_of K.table K.parts K.state tables.old)) (states_of K.table K.parts K.state tables.old) (bytes_of result) (states_of K.table K.parts K.state tables.new) }
{
    match place_of(tables, name) {
        Some(place) => ask_table(alloc, &mut tables[place], moment, request),
        None => Answer::Message(Message::NoSuchTable),
    }
}

/// Does what a command asks, all but the writing.
fn perform<K: Keeper>(alloc: Global, tables: &mut [Named<K>], moment: u64, command: &[u8]) -> Answer
    requires { moment < 2 ^ 62 }
    ensures { AnswersForm K.answers K.refuses moment (form_of (words_of command.now)) (states_of K.table K.parts K.state tables.old) (bytes_of result) (states_of K.table K.parts K.state tables.new) }
{
    match read_form(command) {
        Form::Nothing => Answer::Nothing,
        Form::Unknown => Answer::Message(Message::UnknownCommand),
        Form::Tables => show_tables(alloc, tables, moment),
        Form::Of(name, request) => ask_named(alloc, tables, moment, name, request),
    }
}

/// Serves one command, at the moment that the clock shows as it starts. All that it changes is changed before the
/// first byte of its answer.
fn answer_command<K: Keeper, C: Clock, W: Sink>(
    alloc: Global,
    tables: &mut [Named<K>],
    clock: &mut C,
    command: &[u8],
    writer: &mut W,
) -> Result<(), Failed>
    ensures answer { (text : List ℕ) × Answers K.answers K.refuses C.shows (record { tables = states_of K.table K.parts K.state tables.old; clock = C.state clock.old }) command.now text
        (record { tables = states_of K.table K.parts K.state tables.new; clock = C.state clock.new })
        × MatchResult result (λ _. Grows W.tells (W.written writer.old) (W.written writer.new) text)
        (λ _. GrowsInPart W.tells (W.written writer.old) (W.written writer.new) text) }
    ensures ok { OnOk result (W.failures writer.new ≡ W.failures writer.old) }
    ensures err { OnErr result (IsOneMore (W.failures writer.old) (W.failures writer.new)) }
{
    let moment = clock.now();
    let answer = perform(alloc, tables, moment, command);
    match write_all(writer, answer.bytes()) {
        Ok(()) => Ok(()),
        Err(_) => Err(Failed),
    }
}

/// Whether a command has words.
fn has_words(command: &[u8]) -> bool
    ensures { result ≡ specified_words command.now }
{
    Words::new(command, Blanks::SpacesAndTabs).next().is_some()
}

/// Serves the commands of a line, each at the moment that the clock shows as it starts, and writes their answers. How
/// many there were; one without words isn't counted. Where the writer fails, the events of the command in hand stand,
/// and what was written is the answers of those done and a prefix of what the next could have been answered.
pub fn answer<K: Keeper, C: Clock, W: Sink>(
    alloc: Global,
    tables: &mut [Named<K>],
    clock: &mut C,
    line: &[u8],
    writer: &mut W,
) -> Result<u64, CliFault>
    ensures answer { OnOk result ((text : List ℕ)
        × AnswersLine K.answers K.refuses C.shows (record { tables = states_of K.table K.parts K.state tables.old; clock = C.state clock.old }) line.now text
        (record { tables = states_of K.table K.parts K.state tables.new; clock = C.state clock.new })
        × Grows W.tells (W.written writer.old) (W.written writer.new) text) }
    ensures count { IfOk result (λ count. count ≡ length (commands_of line.now)) }
    ensures part { IfErr result (λ fault. (text : List ℕ)
        × StopsIn (Answers K.answers K.refuses C.shows) (record { tables = states_of K.table K.parts K.state tables.old; clock = C.state clock.old }) (commands_of line.now) fault.done text
        (record { tables = states_of K.table K.parts K.state tables.new; clock = C.state clock.new })
        × Grows W.tells (W.written writer.old) (W.written writer.new) text) }
    ensures kind { IfErr result (λ fault. fault.kind ≡ CliFaultKind.WriteFault) }
    ensures ok { OnOk result (W.failures writer.new ≡ W.failures writer.old) }
    ensures err { OnErr result (IsOneMore (W.failures writer.old) (W.failures writer.new)) }
{
    let mut done = 0u64;
    let mut commands = Parts::new(without_cr(line), b';');
    while let Some(command) = commands.next() {
        if !has_words(command) {
            continue;
        }
        match answer_command(alloc, tables, clock, command, writer) {
            Ok(()) => done += 1,
            Err(_) => {
                return Err(CliFault {
                    kind: CliFaultKind::WriteFault,
                    done,
                });
            }
        }
    }
    Ok(done)
}
