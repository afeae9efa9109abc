//! The lines of a saved file, loaded into tables one after another; `stickd_script` and `tcp_proxy` call `load`.

ghost use Rattle.std.specs.Prelude.{◌≡◌, ◌⊎◌, ◌<◌, ◌^◌, ◌++◌, [], Some, IfErr, IfOk, OnOk, map};
ghost use Rattle.std.specs.Str.{bytes_eq};
ghost use Rattle.shard_book.specs.NamedTables.{states_of};
ghost use Rattle.table_cli.specs.SavedLines as lines;
ghost use Rattle.table_cli.specs.SavedLines.{line_of};
ghost use Rattle.table_cli.specs.Loading as spec;
ghost use Rattle.table_cli.specs.Loading.{Commands, Ends, FailsAt, IsFault, IsLoaded, IsPassed, IsRefused, Loads, LoadsAll, lines_of, noted};
ghost use Rattle.table_cli.specs.SeenLines.{seen_end, seen_fault, seen_load};

use crate::lives::{age, longest_life};
use crate::load_fault::{LineFault, LoadFault};
use crate::misfits::Misfits;
use crate::room::{Room, look};
use crate::saved_end::check_whole;
use crate::saved_line::{Line, read_line};
use crate::serve::answer;
use base_clock::StoppedClock;
use base_lines::Parts;
use byte_ports::MemorySink;
use shard_book::{Keeper, Named};
use std::alloc::Global;

/// Whether a table has this name.
fn is_named<K>(named: &Named<K>, name: &[u8]) -> bool
    ensures { result ≡ bytes_eq named.now.name name.now }
{
    named.name.as_slice() == name
}

/// The life that a table gives, if it gives one.
fn life_given<K: Keeper>(named: &Named<K>) -> Option<u32>
    ensures { result ≡ (K.table named.now.keeper).expire }
{
    named.keeper.spec().expire
}

/// The life that the table of a name gives, if there is one and it gives one.
fn life_in<K: Keeper>(tables: &[Named<K>], name: &[u8]) -> Option<u32>
    ensures { result ≡ spec.life_in name.now (states_of K.table K.parts K.state tables.now) }
{
    for named in tables {
        if is_named(named, name) {
            return life_given(named);
        }
    }
    None
}

/// The moment at which an entry was refreshed that has so many ms left.
fn moment_of<K: Keeper>(tables: &[Named<K>], left: u64, name: &[u8]) -> u64
    ensures moment { result ≡ spec.moment_of left name.now (states_of K.table K.parts K.state tables.now) }
    ensures bound { result < 2 ^ 62 }
{
    u64::from(longest_life(tables)).saturating_sub(age(life_in(tables, name), left))
}

/// The first line of a text.
fn first_line(text: &[u8]) -> &[u8]
    ensures { result.now ≡ spec.first_line text.now }
{
    let mut lines = Parts::new(text, b'\n');
    match lines.next() {
        Some(line) => line,
        None => b"",
    }
}

/// Whether a command made its entry, by what it was answered.
fn check_answer<'a>(alloc: Global, command: &'a [u8], text: &[u8]) -> Result<(), LineFault<'a>>
    ensures { IsFault command.now text.now (seen_end result) ⊎ (seen_end result ≡ Some lines.NoMemory) }
{
    if text == b"\n".as_slice() {
        return Ok(());
    }
    let mut said = Vec::new(alloc);
    match said.extend_from_slice(first_line(text)) {
        Ok(()) => Err(LineFault::Answered(command, said)),
        Err(_) => Err(LineFault::NoMemory),
    }
}

/// Has a command answered that makes an entry which was refreshed at a moment.
fn make<'a, K: Keeper>(
    alloc: Global,
    tables: &mut [Named<K>],
    moment: u64,
    command: &'a [u8],
) -> Result<(), LineFault<'a>>
    requires { moment < 2 ^ 62 }
    ensures { Commands K.answers K.refuses moment (states_of K.table K.parts K.state tables.old) command.now (seen_end result) (states_of K.table K.parts K.state tables.new) }
{
    let mut clock = StoppedClock::at(moment);
    let mut sink = MemorySink::new(alloc, usize::MAX, None);
    match answer(alloc, tables, &mut clock, command, &mut sink) {
        Ok(_) => check_answer(alloc, command, sink.written()),
        Err(_) => Err(LineFault::NoMemory),
    }
}

/// Loads a line: its entry, where its shard has a place for it.
fn load_line<'a, K: Keeper>(
    alloc: Global,
    tables: &mut [Named<K>],
    line: &'a [u8],
) -> Result<(), LineFault<'a>>
    ensures { Loads K.answers K.refuses (states_of K.table K.parts K.state tables.old) (line_of line.now) (seen_end result) (states_of K.table K.parts K.state tables.new) }
{
    match read_line(line) {
        Line::Passed => Ok(()),
        Line::Wrong(fault) => Err(fault),
        Line::Makes {
            left,
            table,
            command,
        } => {
            let moment = moment_of(tables, left, table);
            match look(alloc, tables, moment, command) {
                Room::Free => make(alloc, tables, moment, command),
                Room::Taken => Err(LineFault::NoRoom(table)),
                Room::Unknown => Err(LineFault::NoMemory),
            }
        }
    }
}

/// Whether a line that comes to a fault is skipped.
fn is_skipped(misfits: Misfits, fault: &LineFault<'_>) -> bool
    ensures { result ≡ spec.is_skipped misfits (seen_fault fault.now) }
{
    match fault {
        LineFault::NoRoom(_) => true,
        LineFault::NoMemory => false,
        _ => misfits == Misfits::Skipped,
    }
}

/// Notes the line of a number, where it came to a fault and is skipped. Else the fault is answered.
fn note<'a>(
    skipped: &mut Vec<LoadFault<'a>>,
    misfits: Misfits,
    line: u64,
    end: Result<(), LineFault<'a>>,
) -> Result<(), LoadFault<'a>>
    ensures passed { OnOk result (IsPassed misfits (seen_end end.entry)) }
    ensures noted { OnOk result (map seen_load skipped.new.items ≡ map seen_load skipped.old.items ++ noted line (seen_end end.entry)) }
    ensures number { IfErr result (λ found. found.line ≡ line) }
    ensures ends { IfErr result (λ found. Ends misfits (seen_end end.entry) (seen_fault found.fault)) }
{
    let Err(fault) = end else {
        return Ok(());
    };
    if !is_skipped(misfits, &fault) {
        return Err(LoadFault { line, fault });
    }
    match skipped.push(LoadFault { line, fault }) {
        Ok(()) => Ok(()),
        Err(_) => Err(LoadFault {
            line,
            fault: LineFault::NoMemory,
        }),
    }
}

/// Loads the lines of a text, and answers which were skipped.
fn load_lines<'a, K: Keeper>(
    alloc: Global,
    tables: &mut [Named<K>],
    text: &'a [u8],
    misfits: Misfits,
) -> Result<Vec<LoadFault<'a>>, LoadFault<'a>>
    ensures all { IfOk result (λ skipped. LoadsAll K.answers K.refuses misfits 1 (states_of K.table K.parts K.state tables.old) [] (lines_of text.now) (map seen_load skipped.items) (states_of K.table K.parts K.state tables.new)) }
    ensures fault { IfErr result (λ found. FailsAt K.answers K.refuses misfits 1 (states_of K.table K.parts K.state tables.old) (lines_of text.now) (seen_load found) (states_of K.table K.parts K.state tables.new)) }
{
    let mut lines = Parts::new(text, b'\n');
    let mut skipped = Vec::new(alloc);
    let mut done = 0u64;
    while let Some(line) = lines.next() {
        let end = load_line(alloc, tables, line);
        match note(&mut skipped, misfits, done + 1, end) {
            Ok(()) => done += 1,
            Err(found) => return Err(found),
        }
    }
    Ok(skipped)
}

/// Loads the lines of a saved file into tables, one after another, and answers which were skipped, in their order: those whose entry
/// finds its shard full, and where misfits are to be skipped, those that can't be loaded. A file that is cut is refused, and nothing
/// of it is loaded. Else loading ends at the first line that can't be loaded; what those before it made stands, and so do the events
/// of that line.
pub fn load<'a, K: Keeper>(
    alloc: Global,
    tables: &mut [Named<K>],
    text: &'a [u8],
    misfits: Misfits,
) -> Result<Vec<LoadFault<'a>>, LoadFault<'a>>
    ensures all { IfOk result (λ skipped. IsLoaded K.answers K.refuses misfits (states_of K.table K.parts K.state tables.old) text.now (map seen_load skipped.items) (states_of K.table K.parts K.state tables.new)) }
    ensures fault { IfErr result (λ found. IsRefused K.answers K.refuses misfits (states_of K.table K.parts K.state tables.old) text.now (seen_load found) (states_of K.table K.parts K.state tables.new)) }
{
    match check_whole(text) {
        Ok(()) => match load_lines(alloc, tables, text, misfits) {
            Ok(skipped) => Ok(skipped),
            Err(found) => Err(found),
        },
        Err(found) => Err(found),
    }
}
