//! What a form asks of a table, as an event; `table_cli` calls `read_event`.

ghost use Rattle.std.specs.Prelude.{◌≡◌, ◌⊎◌, ◌<◌, ◌≤◌, ◌^◌, List, [], All, IfOk, MatchResult, unwrap_or};
ghost use Rattle.stored_data.specs.Data.{greatest};
ghost use Rattle.stick_model.specs.declared.rows.Cell.{Cell};
ghost use Rattle.stick_model.specs.Limits.{IsTableEvent};
ghost use Rattle.table_texts.specs.FieldNames.{field_of};
ghost use Rattle.table_texts.specs.Form as spec;
ghost use Rattle.table_texts.specs.Form.{datum_name as specified_name};
ghost use Rattle.table_texts.specs.Request.{Asks, ReadsFilter, ReadsKey, ReadsPut, cell_of, cells_of, compared as specified_compared};
ghost use Rattle.table_texts.specs.Seen.{seen_choice, seen_request, words_of};
ghost use Rattle.base_lines.specs.Number.{number_of};

use crate::Message;
use crate::field_name::read_field;
use crate::form::{Choice, Request, datum_name};
use base_lines::{Blanks, Words, read_number};
use std::alloc::Global;
use stick_key::{KeyFault, KeyType, StickKey, read_key};
use stick_model::{Cell, Cells, Event, Filter, Op};
use stored_data::in_range;

/// Reads a key's text.
fn read_key_text(alloc: Global, kind: KeyType, text: &[u8]) -> Result<StickKey, Message>
    ensures { ReadsKey kind text.now result }
{
    match read_key(alloc, kind, text) {
        Ok(key) => Ok(key),
        Err(KeyFault::Malformed) => Err(Message::InvalidKey),
        Err(KeyFault::OutOfRange) => Err(Message::InvalidKey),
        Err(KeyFault::Memory) => Err(Message::OutOfMemory),
    }
}

fn compared(name: &[u8], op: Op, value: &[u8]) -> Result<Filter, Message>
    ensures { result ≡ specified_compared (field_of name.now) op (number_of value.now) }
{
    let Some(field) = read_field(name) else {
        return Err(Message::NotStored);
    };
    let Some(bound) = read_number(value) else {
        return Err(Message::InvalidValue);
    };
    Ok(Filter::Compare(field, op, bound))
}

/// Reads which entries are meant.
fn read_filter(alloc: Global, kind: KeyType, choice: Choice<'_>) -> Result<Filter, Message>
    ensures { ReadsFilter kind (seen_choice choice.entry) result }
{
    match choice {
        Choice::Everything => Ok(Filter::Everything),
        Choice::Key(text) => Ok(Filter::Key(read_key_text(alloc, kind, text)?)),
        Choice::Compare(name, op, value) => compared(name, op, value),
    }
}

/// Reads the field and the value of a pair.
fn read_cell(word: &[u8], value: &[u8]) -> Result<Cell, Message>
    ensures cell { result ≡ cell_of (field_of (unwrap_or (specified_name word.now) [])) (number_of value.now) }
    ensures in_range { IfOk result (λ cell. cell.value ≤ greatest cell.field.datum) }
{
    let name = match datum_name(word) {
        Some(name) => name,
        None => b"".as_slice(),
    };
    let Some(field) = read_field(name) else {
        return Err(Message::NotStored);
    };
    let Some(value) = read_number(value) else {
        return Err(Message::InvalidValue);
    };
    if !in_range(field, value) {
        return Err(Message::InvalidValue);
    }
    Ok(Cell { field, value })
}

/// Reads pairs, up to the first that is wrong.
fn read_cells(alloc: Global, text: &[u8]) -> Result<Cells, Message>
    ensures cells { MatchResult result (λ cells. cells_of (words_of text.now) ≡ Ok cells)
        (λ message. (cells_of (words_of text.now) ≡ Err message) ⊎ (message ≡ Message.OutOfMemory)) }
    ensures in_range { IfOk result (λ cells. All (λ (cell : Cell). cell.value ≤ greatest cell.field.datum) cells) }
{
    let mut words = Words::new(text, Blanks::SpacesAndTabs);
    let mut cells = Cells::new(alloc);
    while let Some(word) = words.next() {
        let Some(value) = words.next() else {
            return Ok(cells);
        };
        let cell = read_cell(word, value)?;
        match cells.push(cell) {
            Ok(()) => {}
            Err(_) => return Err(Message::OutOfMemory),
        }
    }
    Ok(cells)
}

fn read_put(
    alloc: Global,
    kind: KeyType,
    moment: u64,
    key: &[u8],
    pairs: &[u8],
) -> Result<Event, Message>
    requires { moment < 2 ^ 62 }
    ensures put { ReadsPut kind moment key.now (words_of pairs.now) result }
    ensures event { IfOk result IsTableEvent }
{
    let key = read_key_text(alloc, kind, key)?;
    let cells = read_cells(alloc, pairs)?;
    Ok(Event::Put(moment, key, cells))
}

fn read_clear(
    alloc: Global,
    kind: KeyType,
    moment: u64,
    choice: Choice<'_>,
) -> Result<Event, Message>
    requires { moment < 2 ^ 62 }
    ensures clear { Asks kind moment (spec.Clear (seen_choice choice.entry)) result }
    ensures event { IfOk result IsTableEvent }
{
    if let Choice::Key(text) = choice {
        let key = read_key_text(alloc, kind, text)?;
        return Ok(Event::Clear(moment, key));
    }
    let filter = read_filter(alloc, kind, choice)?;
    Ok(Event::ClearWhere(moment, filter))
}

/// The event that a request makes of a table.
pub fn read_event(
    alloc: Global,
    kind: KeyType,
    moment: u64,
    request: Request<'_>,
) -> Result<Event, Message>
    requires { moment < 2 ^ 62 }
    ensures asks { Asks kind moment (seen_request request.entry) result }
    ensures event { IfOk result IsTableEvent }
{
    match request {
        Request::Show(choice) => {
            let filter = read_filter(alloc, kind, choice)?;
            Ok(Event::List(moment, filter))
        }
        Request::Clear(choice) => read_clear(alloc, kind, moment, choice),
        Request::Set(key, pairs) => read_put(alloc, kind, moment, key, pairs),
    }
}
