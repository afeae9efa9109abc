//! A script, replayed on tables that are loaded first; `stickd` calls `replay_loaded`.

ghost use Rattle.std.specs.Prelude.{◌≡◌, ℕ, List, IfErr, IfOk, OnOk, map};
ghost use Rattle.byte_ports.specs.Bytes.{Grows, IsAtEnd, Takes};
ghost use Rattle.base_lines.specs.Service.{ServesAll};
ghost use Rattle.table_cli.specs.SeenLines.{seen_load};
ghost use Rattle.stickd_script.specs.BadLines.{bad_lines, noted};
ghost use Rattle.stickd_script.specs.Guests.{ScriptState};
ghost use Rattle.stickd_script.specs.Loaded.{Begins, IsLoaded, IsStopped, IsUnloaded, with_tables};
ghost use Rattle.stickd_script.specs.Script.{Says};
ghost use Rattle.admit_drive.specs.Tables.{CanOpen, TableState, table_states};

use crate::bad_lines::BadLines;
use crate::replay::{FaultKind, ReplayFault, fault_of, open_server};
use base_lines::serve_lines;
use byte_ports::{Sink, Source};
use rule_model::Setup;
use shard_book::{Books, Named};
use std::alloc::Global;
use stick_table::Table;
use table_cli::{LoadFault, Misfits, load};

/// Why a replay on loaded tables stopped before the script's end.
#[derive(Drop)]
pub enum Stopped<'t> {
    /// The tables can't be loaded; nothing was read or written.
    Unloaded(LoadFault<'t>),
    Replay(ReplayFault),
}

/// Loads what was saved into tables, and answers which lines were skipped.
fn load_tables<'t, T: Table>(
    alloc: Global,
    tables: &mut Vec<Named<Books<T>>>,
    saved: &'t [u8],
    misfits: Misfits,
) -> Result<Vec<LoadFault<'t>>, LoadFault<'t>>
    ensures all { IfOk result (λ skipped. IsLoaded misfits (table_states tables.old.items) saved.now (map seen_load skipped.items) (table_states tables.new.items)) }
    ensures fault { IfErr result (λ found. IsUnloaded misfits (table_states tables.old.items) saved.now (seen_load found) (table_states tables.new.items)) }
{
    match load(alloc, tables.as_mut_slice(), saved, misfits) {
        Ok(skipped) => Ok(skipped),
        Err(fault) => Err(fault),
    }
}

/// Serves each line of a script, as `replay_script`, on tables into which what was saved is loaded first, and answers which of its lines
/// were skipped. Where it can't be loaded, nothing is read or written.
pub fn replay_loaded<'t, R: Source, W: Sink>(
    alloc: Global,
    setup: &Setup,
    saved: &'t [u8],
    misfits: Misfits,
    reader: &mut R,
    writer: &mut W,
    bad: &mut BadLines,
) -> Result<Vec<LoadFault<'t>>, Stopped<'t>>
    requires { CanOpen setup.now }
    ensures whole { IfOk result (λ skipped. (tables : List TableState) × (script output : List ℕ) × (new : ScriptState) × Begins setup.now misfits saved.now (map seen_load skipped.items) tables
        × Takes R.tells (R.left reader.old) (R.left reader.new) script × Grows W.tells (W.written writer.old) (W.written writer.new) output
        × ServesAll Says (with_tables setup.now tables) script output new × (bad.new ≡ noted (bad_lines script))) }
    ensures end { OnOk result (IsAtEnd R.tells (R.left reader.new)) }
    ensures stopped { IfErr result (λ stopped. IsStopped setup.now misfits saved.now (λ script. Takes R.tells (R.left reader.old) (R.left reader.new) script)
        (λ output. Grows W.tells (W.written writer.old) (W.written writer.new) output) stopped bad.new) }
{
    let Ok(mut noting) = open_server(alloc, setup) else {
        *bad = BadLines::new();
        return Err(Stopped::Replay(ReplayFault {
            kind: FaultKind::Memory,
            done: 0,
        }));
    };
    let skipped = match load_tables(alloc, &mut noting.server.tables, saved, misfits) {
        Ok(skipped) => skipped,
        Err(fault) => {
            *bad = BadLines::new();
            return Err(Stopped::Unloaded(fault));
        }
    };
    let served = serve_lines(&mut noting, reader, writer);
    *bad = noting.into_bad();
    match served {
        Ok(()) => Ok(skipped),
        Err(fault) => Err(Stopped::Replay(fault_of(fault))),
    }
}
