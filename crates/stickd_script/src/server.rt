//! The service of a script's lines on its tables and its open connections; `noting` and `replay` use it.

ghost use Rattle.std.specs.Prelude.{◌≡◌, ◌⊎◌, ◌<◌, ◌≤◌, ◌+◌, ◌^◌, ℕ, List, OnErr, OnOk, false, true, map, option_map};
ghost use Rattle.byte_ports.specs.Bytes.{Grows, GrowsInPart, IsOneMore};
ghost use Rattle.stickd_script.specs.Guests.{IsServed, ScriptState, guest_of};
ghost use Rattle.stickd_script.specs.Script.{Closes, Commands, LineSays, LineStops, Opens, OpensAt, Says, Stops, close_text, line_of, open_text, samples_of as specified_samples};
ghost use Rattle.admit_drive.specs.Tables.{table_states};
ghost use Rattle.stickd_script.specs.Rolling.{TablesRoll, lines_between as specified_lines, rolled_named};
ghost use Rattle.stickd_script.specs.Seen.{script_state};

use crate::guests::{Guests, hold_place, is_open, keep_guest, take_guest};
use crate::line::{Line, read_line};
use crate::rolling::{lines_between, roll_tables};
use crate::short_text::ShortText;
use admit_core::{Conn, Phase};
use admit_drive::advance_to_rest;
use base_clock::StoppedClock;
use base_lines::LineServer;
use byte_ports::{Failed, Sink, write_all};
use rule_addresses::{Address, read_address};
use rule_eval::Samples;
use rule_model::Setup;
use shard_book::{Books, Named};
use std::alloc::Global;
use stick_table::Table;
use table_cli::answer;

/// What is served, the tables that a script's lines work on, and the connections that are open.
#[derive(Drop)]
pub struct ScriptServer<'a, T: Table> {
    pub alloc: Global,
    pub setup: &'a Setup,
    pub tables: Vec<Named<Books<T>>>,
    pub guests: Guests<'a>,
    /// How many lines are served before the tables' records are looked at again.
    pub wait: u32,
}

impl<'a, T: Table> ScriptServer<'a, T> {
    /// What an `open` of an ID, an address and a port is answered. All that it changes is changed before.
    fn open(&mut self, moment: u64, id: u32, address: &[u8], port: u16) -> ShortText
        requires moment { moment < 2 ^ 62 }
        requires served { IsServed (script_state self.old.setup.now self.old.tables.items self.old.guests.entries) }
        ensures { Opens moment id address.now port (script_state self.old.setup.now self.old.tables.items self.old.guests.entries) result
            (script_state self.new.setup.now self.new.tables.items self.new.guests.entries) }
    {
        match read_address(address) {
            Some(source) => self.open_from(moment, id, source, port),
            None => ShortText::of(b"bad line\n"),
        }
    }

    /// The same, once the address is read. Its place among the open connections is held first, by one like it.
    fn open_from(&mut self, moment: u64, id: u32, source: Address, port: u16) -> ShortText
        requires moment { moment < 2 ^ 62 }
        requires served { IsServed (script_state self.old.setup.now self.old.tables.items self.old.guests.entries) }
        ensures { OpensAt (guest_of id (script_state self.old.setup.now self.old.tables.items self.old.guests.entries).guests) moment id source port
            (script_state self.old.setup.now self.old.tables.items self.old.guests.entries) result
            (script_state self.new.setup.now self.new.tables.items self.new.guests.entries) }
    {
        if is_open(&self.guests, id) {
            return ShortText::of(b"connection already open\n");
        }
        let samples = samples_of(self.setup, source, port);
        let place = Conn::new(self.setup, samples);
        let Ok(()) = hold_place(&mut self.guests, id, place) else {
            return opened(id, Phase::Rejected);
        };
        let mut conn = Conn::new(self.setup, samples);
        advance_to_rest(self.alloc, self.tables.as_mut_slice(), &mut conn, moment);
        match conn.phase() {
            Phase::Admitted => {
                keep_guest(&mut self.guests, id, conn);
                opened(id, Phase::Admitted)
            }
            phase => {
                drop(take_guest(&mut self.guests, id));
                opened(id, phase)
            }
        }
    }

    /// What a `close` is answered. It takes no memory.
    fn close(&mut self, moment: u64, id: u32, bytes_in: u64, bytes_out: u64) -> ShortText
        requires moment { moment < 2 ^ 62 }
        requires served { IsServed (script_state self.old.setup.now self.old.tables.items self.old.guests.entries) }
        ensures { Closes moment id bytes_in bytes_out (script_state self.old.setup.now self.old.tables.items self.old.guests.entries) result
            (script_state self.new.setup.now self.new.tables.items self.new.guests.entries) }
    {
        let Some(mut conn) = take_guest(&mut self.guests, id) else {
            return ShortText::of(b"no such connection\n");
        };
        conn.close(bytes_in, bytes_out);
        advance_to_rest(self.alloc, self.tables.as_mut_slice(), &mut conn, moment);
        closed(id)
    }

    /// What commands at a moment are answered.
    fn command<W: Sink>(
        &mut self,
        moment: u64,
        commands: &[u8],
        writer: &mut W,
    ) -> Result<(), Failed>
        requires moment { moment < 2 ^ 62 }
        requires served { IsServed (script_state self.old.setup.now self.old.tables.items self.old.guests.entries) }
        ensures answer { OnOk result ((text : List ℕ) × LineSays (Commands moment commands.now) (script_state self.old.setup.now self.old.tables.items self.old.guests.entries) text
            (script_state self.new.setup.now self.new.tables.items self.new.guests.entries) × Grows W.tells (W.written writer.old) (W.written writer.new) text) }
        ensures part { OnErr result ((text : List ℕ) × LineStops (Commands moment commands.now) (script_state self.old.setup.now self.old.tables.items self.old.guests.entries) text
            (script_state self.new.setup.now self.new.tables.items self.new.guests.entries) × Grows W.tells (W.written writer.old) (W.written writer.new) text) }
        ensures ok { OnOk result (W.failures writer.new ≡ W.failures writer.old) }
        ensures err { OnErr result (IsOneMore (W.failures writer.old) (W.failures writer.new)) }
    {
        let mut clock = StoppedClock::at(moment);
        match answer(
            self.alloc,
            self.tables.as_mut_slice(),
            &mut clock,
            commands,
            writer,
        ) {
            Ok(_) => Ok(()),
            Err(_) => Err(Failed),
        }
    }
    /// Serves a line, all but the rolls behind it.
    fn serve_line<W: Sink>(&mut self, line: Option<&[u8]>, writer: &mut W) -> Result<(), Failed>
        requires { IsServed (script_state self.old.setup.now self.old.tables.items self.old.guests.entries) }
        ensures answer { OnOk result ((text : List ℕ) × LineSays (line_of (option_map (λ bytes. bytes.now) line.entry)) (script_state self.old.setup.now self.old.tables.items self.old.guests.entries) text
            (script_state self.new.setup.now self.new.tables.items self.new.guests.entries) × Grows W.tells (W.written writer.old) (W.written writer.new) text) }
        ensures holds { OnOk result (IsServed (script_state self.new.setup.now self.new.tables.items self.new.guests.entries)) }
        ensures part { OnErr result ((text : List ℕ) × LineStops (line_of (option_map (λ bytes. bytes.now) line.entry)) (script_state self.old.setup.now self.old.tables.items self.old.guests.entries) text
            (script_state self.new.setup.now self.new.tables.items self.new.guests.entries) × Grows W.tells (W.written writer.old) (W.written writer.new) text) }
        ensures ok { OnOk result (W.failures writer.new ≡ W.failures writer.old) }
        ensures err { OnErr result (IsOneMore (W.failures writer.old) (W.failures writer.new)) }
    {
        match read_line(line) {
            Line::Empty => Ok(()),
            Line::Bad => match write_text(writer, b"bad line\n") {
                Ok(()) => Ok(()),
                Err(error) => Err(error),
            },
            Line::Commands(moment, commands) => match self.command(moment, commands, writer) {
                Ok(()) => Ok(()),
                Err(error) => Err(error),
            },
            Line::Open {
                moment,
                id,
                address,
                port,
            } => {
                let text = self.open(moment, id, address, port);
                match write_text(writer, text.as_slice()) {
                    Ok(()) => Ok(()),
                    Err(error) => Err(error),
                }
            }
            Line::Close {
                moment,
                id,
                bytes_in,
                bytes_out,
            } => {
                let text = self.close(moment, id, bytes_in, bytes_out);
                match write_text(writer, text.as_slice()) {
                    Ok(()) => Ok(()),
                    Err(error) => Err(error),
                }
            }
        }
    }

    /// Rolls the tables that are due, where the time to look at their records has come. A roll that is refused for want of
    /// memory is no fault of a line: what isn't rolled is recorded on, and rolls at a later look.
    fn roll_when_due(&mut self)
        ensures setup { self.new.setup ≡ self.old.setup }
        ensures guests { self.new.guests ≡ self.old.guests }
        ensures rolls { TablesRoll (table_states self.old.tables.items) (table_states self.new.tables.items) }
        ensures waits { 1 ≤ self.old.wait → (self.new.tables ≡ self.old.tables) × (self.new.wait + 1 ≡ self.old.wait) }
        ensures looks { self.old.wait ≡ 0 → ((self.new.tables.items ≡ map rolled_named self.old.tables.items) × (self.new.wait ≡ specified_lines false)) ⊎ (self.new.wait ≡ specified_lines true) }
    {
        if self.wait > 0 {
            self.wait -= 1;
            return;
        }
        match roll_tables(&mut self.tables) {
            Ok(()) => self.wait = lines_between(false),
            Err(_) => self.wait = lines_between(true),
        }
    }
}

/// What is known of a connection from an address and a port.
fn samples_of(setup: &Setup, source: Address, port: u16) -> Samples
    ensures { result ≡ specified_samples setup.now source port }
{
    Samples {
        src: source,
        src_port: port,
        dst_port: match &setup.bind {
            Some(bind) => bind.port,
            None => 0,
        },
    }
}

/// The answer to an `open` whose connection is in this phase.
#[tactic(auto, using(crate::proofs::TextLemmas::short_decimal))]
fn opened(id: u32, phase: Phase) -> ShortText
    ensures { result ≡ open_text id phase }
{
    let mut text = ShortText::of(b"open ");
    text.push_decimal(id);
    match phase {
        Phase::Admitted => text.push(b" accept\n"),
        _ => text.push(b" reject\n"),
    }
    text
}

/// The answer to a `close`.
#[tactic(auto, using(crate::proofs::TextLemmas::short_decimal))]
fn closed(id: u32) -> ShortText
    ensures { result ≡ close_text id }
{
    let mut text = ShortText::of(b"close ");
    text.push_decimal(id);
    text.push(b"\n");
    text
}

/// Writes an answer.
fn write_text<W: Sink>(writer: &mut W, text: &[u8]) -> Result<(), Failed>
    ensures bytes { OnOk result (Grows W.tells (W.written writer.old) (W.written writer.new) text.now) }
    ensures part { OnErr result (GrowsInPart W.tells (W.written writer.old) (W.written writer.new) text.now) }
    ensures ok { OnOk result (W.failures writer.new ≡ W.failures writer.old) }
    ensures err { OnErr result (IsOneMore (W.failures writer.old) (W.failures writer.new)) }
{
    match write_all(writer, text) {
        Ok(()) => Ok(()),
        Err(_) => Err(Failed),
    }
}

impl<'a, T: Table> LineServer for ScriptServer<'a, T> {
    ghost State = { ScriptState };

    ghost state = { λ server. script_state server.setup.now server.tables.items server.guests.entries };

    ghost holds = { IsServed };

    ghost says = { Says };

    ghost stops = { Stops };

    fn serve<W: Sink>(&mut self, line: Option<&[u8]>, writer: &mut W) -> Result<(), Failed> {
        match self.serve_line(line, writer) {
            Ok(()) => {
                self.roll_when_due();
                Ok(())
            }
            Err(error) => Err(error),
        }
    }
}
