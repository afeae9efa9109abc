//! A script, replayed line by line from empty tables; `stickd` calls `replay_script`.

ghost use Rattle.std.specs.Prelude.{◌≡◌, ◌≢◌, ◌≤◌, ◌⊎◌, ℕ, List, [], length, IfErr, IfOk, OnOk};
ghost use Rattle.byte_ports.specs.Bytes.{Grows, IsAtEnd, IsOneMore, Takes};
ghost use Rattle.base_lines.specs.Service.{ServesAll, StopsAfter};
ghost use Rattle.base_lines.specs.Service.{most_turns};
ghost use Rattle.stickd_script.specs.BadLines.{bad_among, bad_lines, beginning, noted};
ghost use Rattle.stickd_script.specs.Guests.{ScriptState};
ghost use Rattle.stickd_script.specs.Script.{Says, Stops};
ghost use Rattle.stickd_script.specs.Seen.{noting_of};
ghost use Rattle.stickd_script.specs.Start.{start};
ghost use Rattle.admit_drive.specs.Tables.{CanOpen};

use crate::bad_lines::BadLines;
use crate::guests::Guests;
use crate::noting::NotingServer;
use crate::server::ScriptServer;
use admit_drive::open_tables;
use base_lines::{LineFault, LineFaultKind, serve_lines};
use base_sequence::NoMemory;
use byte_ports::{Sink, Source};
use rule_model::Setup;
use std::alloc::Global;
use stick_pooled::StickTable;

/// Why a replay stopped before the script's end.
#[derive(Clone, Copy, Debug, PartialEq, Eq)]
pub enum FaultKind {
    /// The reader failed, or never ended.
    ReadFault,
    /// The writer failed.
    WriteFault,
    /// There was no memory for the tables; nothing was read.
    Memory,
}

/// A replay that stopped, and how many lines it had served.
#[derive(Clone, Copy, Debug, PartialEq, Eq)]
pub struct ReplayFault {
    pub kind: FaultKind,
    pub done: u64,
}

/// What serves a script from empty tables, with nothing noted yet.
pub(crate) fn open_server<'a>(
    alloc: Global,
    setup: &'a Setup,
) -> Result<NotingServer<'a, StickTable>, NoMemory>
    requires { CanOpen setup.now }
    ensures { IfOk result (λ noting. noting_of noting.server.setup.now noting.server.tables.items noting.server.guests.entries noting.lines noting.bad ≡ beginning setup.now) }
{
    let server = ScriptServer {
        alloc,
        setup,
        tables: open_tables::<StickTable>(alloc, setup)?,
        guests: Guests::new(alloc),
        wait: 0,
    };
    Ok(NotingServer {
        server,
        lines: 0,
        bad: BadLines::new(),
    })
}

/// The fault of a replay whose service stopped.
pub(crate) fn fault_of(fault: LineFault) -> ReplayFault
    ensures done { result.done ≡ fault.done }
    ensures read { result.kind ≡ FaultKind.ReadFault → fault.kind ≡ LineFaultKind.Read }
    ensures write { result.kind ≡ FaultKind.WriteFault → fault.kind ≡ LineFaultKind.Write }
    ensures memory { result.kind ≢ FaultKind.Memory }
{
    let kind = match fault.kind {
        LineFaultKind::Read => FaultKind::ReadFault,
        LineFaultKind::Write => FaultKind::WriteFault,
    };
    ReplayFault {
        kind,
        done: fault.done,
    }
}

/// Serves each line of a script from empty tables, until the script ends. Ok comes only at its end, and then exactly
/// the script's text was written. After a fault that is the text of the lines done, and a prefix of what the next could
/// have written. Where there is no memory for the tables, nothing is read or written. `bad` is made anew: it gets the bad
/// ones of the lines that were served.
pub fn replay_script<R: Source, W: Sink>(
    alloc: Global,
    setup: &Setup,
    reader: &mut R,
    writer: &mut W,
    bad: &mut BadLines,
) -> Result<(), ReplayFault>
    requires { CanOpen setup.now }
    ensures whole { OnOk result ((script output : List ℕ) × (new : ScriptState) × Takes R.tells (R.left reader.old) (R.left reader.new) script
        × Grows W.tells (W.written writer.old) (W.written writer.new) output
        × ServesAll Says (start setup.now) script output new × (bad.new ≡ noted (bad_lines script))) }
    ensures end { OnOk result (IsAtEnd R.tells (R.left reader.new)) }
    ensures fault { IfErr result (λ fault. (script output : List ℕ) × (new : ScriptState) × Takes R.tells (R.left reader.old) (R.left reader.new) script
        × Grows W.tells (W.written writer.old) (W.written writer.new) output
        × StopsAfter Says Stops (start setup.now) script fault.done output new × (bad.new ≡ noted (bad_among fault.done script))) }
    // Each fault comes only where that failed.
    ensures read { IfErr result (λ fault. fault.kind ≡ FaultKind.ReadFault → (IsOneMore (R.failures reader.old) (R.failures reader.new)
        ⊎ ((script : List ℕ) × Takes R.tells (R.left reader.old) (R.left reader.new) script × (most_turns ≤ length script)))) }
    ensures write { IfErr result (λ fault. fault.kind ≡ FaultKind.WriteFault → IsOneMore (W.failures writer.old) (W.failures writer.new)) }
    ensures memory { IfErr result (λ fault. fault.kind ≡ FaultKind.Memory → (fault.done ≡ 0) × Takes R.tells (R.left reader.old) (R.left reader.new) []
        × Grows W.tells (W.written writer.old) (W.written writer.new) []) }
{
    let Ok(mut noting) = open_server(alloc, setup) else {
        *bad = BadLines::new();
        return Err(ReplayFault {
            kind: FaultKind::Memory,
            done: 0,
        });
    };
    let served = serve_lines(&mut noting, reader, writer);
    *bad = noting.into_bad();
    match served {
        Ok(()) => Ok(()),
        Err(fault) => Err(fault_of(fault)),
    }
}
