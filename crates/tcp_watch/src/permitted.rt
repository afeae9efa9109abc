//! Commands on tables, answered as far as the level of their socket permits; `StatsService` and `LimitedService` answer by it.

ghost use Rattle.std.specs.Prelude.{◌<◌, IfSome, length};

use crate::level::{Level, Permission, permission_of, permission_of_filters};
use base_clock::Clock;
use base_sequence::NoMemory;
use byte_ports::{Failed, Sink, write_all};
use shard_book::{Keeper, Named};
use std::alloc::Global;
use table_cli::{Deed, answer, answer_filtered, count_entries};
use table_texts::{Filtered, Form, Message, push_header, read_filtered, read_form};

/// What follows the header of a table whose entries aren't shown, in HAProxy's words, and the line that ends an answer.
const NOT_DUMPED: &[u8] = b"# contents not dumped due to insufficient privileges\n\n";

/// What is answered where nothing is permitted, in HAProxy's words, and the line that ends an answer.
const DENIED: &[u8] = b"Permission denied\n\n";

/// Appends the header of a table that has so many entries, and why no more is shown.
fn push_header_alone<K: Keeper>(
    text: &mut Vec<u8>,
    named: &Named<K>,
    used: u64,
) -> Result<(), NoMemory> {
    let kind = named.keeper.spec().kind;
    let size = u64::from(named.keeper.size());
    push_header(text, named.name.as_slice(), kind, size, used)?;
    text.extend_from_slice(NOT_DUMPED)?;
    Ok(())
}

/// The place of the table of a name.
fn place_of<K: Keeper>(tables: &[Named<K>], name: &[u8]) -> Option<usize>
    ensures { IfSome result (λ place. place < length tables.now) }
{
    for place in 0..tables.len() {
        if tables[place].name.as_slice() == name {
            return Some(place);
        }
    }
    None
}

/// The header of the table of a name, and why no more is shown. A message where there is none, it can't be asked, or there is no memory.
fn header_alone<K: Keeper, C: Clock>(
    alloc: Global,
    tables: &mut [Named<K>],
    clock: &mut C,
    name: &[u8],
) -> Result<Vec<u8>, Message> {
    let Some(place) = place_of(tables, name) else {
        return Err(Message::NoSuchTable);
    };
    let named = &mut tables[place];
    let used = match count_entries(&mut named.keeper, clock.now()) {
        Ok(used) => used,
        Err(message) => return Err(message),
    };
    let mut text = Vec::new(alloc);
    match push_header_alone(&mut text, named, used) {
        Ok(()) => Ok(text),
        Err(_) => Err(Message::OutOfMemory),
    }
}

/// Writes an answer.
fn write<W: Sink>(writer: &mut W, text: &[u8]) -> Result<(), Failed> {
    match write_all(writer, text) {
        Ok(()) => Ok(()),
        Err(_) => Err(Failed),
    }
}

/// Writes the header of the table of a name, and why no more is shown.
fn write_header_alone<K: Keeper, C: Clock, W: Sink>(
    alloc: Global,
    tables: &mut [Named<K>],
    clock: &mut C,
    name: &[u8],
    writer: &mut W,
) -> Result<(), Failed> {
    match header_alone(alloc, tables, clock, name) {
        Ok(text) => write(writer, text.as_slice()),
        Err(message) => write(writer, message.bytes()),
    }
}

/// Answers a command on tables as far as clients of a level are permitted, by the code of the command socket.
pub(crate) fn answer_permitted<K: Keeper, C: Clock, W: Sink>(
    alloc: Global,
    tables: &mut [Named<K>],
    clock: &mut C,
    level: Level,
    command: &[u8],
    writer: &mut W,
) -> Result<(), Failed> {
    match permission_of(level, command) {
        Permission::All => match answer(alloc, tables, clock, command, writer) {
            Ok(_count) => Ok(()),
            Err(_) => Err(Failed),
        },
        Permission::HeaderAlone => {
            let Form::Of(name, _) = read_form(command) else {
                return write(writer, DENIED);
            };
            write_header_alone(alloc, tables, clock, name, writer)
        }
        Permission::Nothing => write(writer, DENIED),
    }
}

/// Shows or removes the entries that several filters mean, as far as clients of a level are permitted.
fn answer_filters<K: Keeper, C: Clock, W: Sink>(
    alloc: Global,
    tables: &mut [Named<K>],
    clock: &mut C,
    level: Level,
    deed: Deed,
    filtered: Filtered<'_>,
    writer: &mut W,
) -> Result<(), Failed> {
    match permission_of_filters(level, deed) {
        Permission::All => answer_filtered(alloc, tables, clock, deed, filtered, writer),
        Permission::HeaderAlone => {
            write_header_alone(alloc, tables, clock, filtered.table, writer)
        }
        Permission::Nothing => write(writer, DENIED),
    }
}

/// Answers a command on tables as the stats socket does, as far as clients of a level are permitted: with several filters, as HAProxy
/// takes them, or by the code of the command socket, which takes one.
pub(crate) fn answer_with_filters<K: Keeper, C: Clock, W: Sink>(
    alloc: Global,
    tables: &mut [Named<K>],
    clock: &mut C,
    level: Level,
    command: &[u8],
    writer: &mut W,
) -> Result<(), Failed> {
    if let Some(filtered) = read_filtered(b"show", command) {
        return answer_filters(alloc, tables, clock, level, Deed::Show, filtered, writer);
    }
    if let Some(filtered) = read_filtered(b"clear", command) {
        return answer_filters(alloc, tables, clock, level, Deed::Remove, filtered, writer);
    }
    answer_permitted(alloc, tables, clock, level, command, writer)
}
