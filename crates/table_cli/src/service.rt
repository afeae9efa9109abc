//! The commands of a reader, served line by line until it ends; `table_socket` runs one for each client.

ghost use Rattle.std.specs.Prelude.{◌≡◌, ◌≤◌, ◌⊎◌, ℕ, Some, List, length, IfOk, IfErr, MatchResult, OnErr, OnOk};
ghost use Rattle.byte_ports.specs.Bytes.{Grows, GrowsInPart, IsAtEnd, IsOneMore, Takes};
ghost use Rattle.table_texts.specs.Texts.{message_text};
ghost use Rattle.table_texts.specs.declared.message.Message.{Message as ItsMessage};
ghost use Rattle.base_lines.specs.Service.{ServesAll, StopsAfter};
ghost use Rattle.base_lines.specs.Service.{most_turns};
ghost use Rattle.table_cli.specs.Service.{SaysLine, StopsLine};
ghost use Rattle.table_cli.specs.States.{more, service_state};

use crate::{CliFault, CliFaultKind, answer};
use base_clock::Clock;
use base_lines::{LineFaultKind, LineServer, serve_lines};
use byte_ports::{Failed, Sink, Source, write_all};
use shard_book::{Keeper, Named};
use std::alloc::Global;
use table_texts::Message;

/// What serves commands: named tables, in order of declaration, and a clock.
#[derive(Drop)]
pub struct CommandService<K, C> {
    alloc: Global,
    pub tables: Vec<Named<K>>,
    pub clock: C,
    done: u64,
}

impl<K: Keeper, C: Clock> CommandService<K, C> {
    /// The service of these tables by this clock.
    pub fn new(alloc: Global, tables: Vec<Named<K>>, clock: C) -> CommandService<K, C>
        ensures tables { result.tables ≡ tables }
        ensures clock { result.clock ≡ clock }
    {
        CommandService {
            alloc,
            tables,
            clock,
            done: 0,
        }
    }

    /// Answers a line that is too long.
    fn serve_long<W: Sink>(&mut self, writer: &mut W) -> Result<(), Failed>
        ensures tables { self.new.tables ≡ self.old.tables }
        ensures clock { self.new.clock ≡ self.old.clock }
        ensures done { MatchResult result (λ _. self.new.done ≡ more self.old.done 1) (λ _. self.new.done ≡ self.old.done) }
        ensures bytes { OnOk result (Grows W.tells (W.written writer.old) (W.written writer.new) (message_text ItsMessage.UnknownCommand)) }
        ensures part { OnErr result (GrowsInPart W.tells (W.written writer.old) (W.written writer.new) (message_text ItsMessage.UnknownCommand)) }
        ensures ok { OnOk result (W.failures writer.new ≡ W.failures writer.old) }
        ensures err { OnErr result (IsOneMore (W.failures writer.old) (W.failures writer.new)) }
    {
        match write_all(writer, Message::UnknownCommand.bytes()) {
            Ok(()) => {
                self.done = self.done.saturating_add(1);
                Ok(())
            }
            Err(_) => Err(Failed),
        }
    }

    /// Answers a line.
    fn serve_line<W: Sink>(&mut self, line: &[u8], writer: &mut W) -> Result<(), Failed>
        ensures answer { OnOk result ((text : List ℕ) × SaysLine K.answers K.refuses C.shows (service_state K.table K.parts K.state C.state self.old.tables.items self.old.clock self.old.done) (Some line.now) text
            (service_state K.table K.parts K.state C.state self.new.tables.items self.new.clock self.new.done)
            × Grows W.tells (W.written writer.old) (W.written writer.new) text) }
        ensures part { OnErr result ((text : List ℕ) × StopsLine K.answers K.refuses C.shows (service_state K.table K.parts K.state C.state self.old.tables.items self.old.clock self.old.done) (Some line.now) text
            (service_state K.table K.parts K.state C.state self.new.tables.items self.new.clock self.new.done)
            × Grows W.tells (W.written writer.old) (W.written writer.new) text) }
        ensures ok { OnOk result (W.failures writer.new ≡ W.failures writer.old) }
        ensures err { OnErr result (IsOneMore (W.failures writer.old) (W.failures writer.new)) }
    {
        match answer(
            self.alloc,
            self.tables.as_mut_slice(),
            &mut self.clock,
            line,
            writer,
        ) {
            Ok(count) => {
                self.done = self.done.saturating_add(count);
                Ok(())
            }
            Err(fault) => {
                self.done = self.done.saturating_add(fault.done);
                Err(Failed)
            }
        }
    }

    /// Serves each line of a reader until it ends, and answers how many commands there were; the count stops at
    /// 2^64 - 1. A line of more than 16,384 bytes is one command, which has no form. The last line needs no line end.
    pub fn run<R: Source, W: Sink>(
        &mut self,
        reader: &mut R,
        writer: &mut W,
    ) -> Result<u64, CliFault>
        // All of the input was read, and what was written is the answers to its lines, and nothing else.
        ensures whole { IfOk result (λ count. (whole output : List ℕ) × Takes R.tells (R.left reader.old) (R.left reader.new) whole
            × Grows W.tells (W.written writer.old) (W.written writer.new) output
            × ServesAll (SaysLine K.answers K.refuses C.shows) (service_state K.table K.parts K.state C.state self.old.tables.items self.old.clock 0) whole output
            (service_state K.table K.parts K.state C.state self.new.tables.items self.new.clock count)) }
        ensures end { OnOk result (IsAtEnd R.tells (R.left reader.new)) }
        // The answers to the commands done, and a prefix of what the next could have been answered, whose events stand.
        ensures fault { IfErr result (λ fault. (whole output : List ℕ) × (lines : ℕ) × Takes R.tells (R.left reader.old) (R.left reader.new) whole
            × Grows W.tells (W.written writer.old) (W.written writer.new) output
            × StopsAfter (SaysLine K.answers K.refuses C.shows) (StopsLine K.answers K.refuses C.shows) (service_state K.table K.parts K.state C.state self.old.tables.items self.old.clock 0) whole lines output
            (service_state K.table K.parts K.state C.state self.new.tables.items self.new.clock fault.done)) }
        ensures read { IfErr result (λ fault. fault.kind ≡ CliFaultKind.ReadFault → (IsOneMore (R.failures reader.old) (R.failures reader.new)
            ⊎ ((whole : List ℕ) × Takes R.tells (R.left reader.old) (R.left reader.new) whole × (most_turns ≤ length whole)))) }
        ensures write { IfErr result (λ fault. fault.kind ≡ CliFaultKind.WriteFault → IsOneMore (W.failures writer.old) (W.failures writer.new)) }
    {
        self.done = 0;
        match serve_lines(self, reader, writer) {
            Ok(()) => Ok(self.done),
            Err(fault) => {
                let kind = match fault.kind {
                    LineFaultKind::Read => CliFaultKind::ReadFault,
                    LineFaultKind::Write => CliFaultKind::WriteFault,
                };
                Err(CliFault {
                    kind,
                    done: self.done,
                })
            }
        }
    }
}

impl<K: Keeper, C: Clock> LineServer for CommandService<K, C> {
    ghost use Rattle.table_cli.specs.Service.{SaysLine, StopsLine};
    ghost use Rattle.table_cli.specs.States.{ServiceState, service_state};

    ghost State = { ServiceState K.State C.State };

    ghost state = { λ service. service_state K.table K.parts K.state C.state service.tables.items service.clock service.done };

    ghost holds = { λ state. Unit {0} };

    ghost says = { SaysLine K.answers K.refuses C.shows };

    ghost stops = { StopsLine K.answers K.refuses C.shows };

    fn serve<W: Sink>(&mut self, line: Option<&[u8]>, writer: &mut W) -> Result<(), Failed> {
        match line {
            None => match self.serve_long(writer) {
                Ok(()) => Ok(()),
                Err(error) => Err(error),
            },
            Some(line) => match self.serve_line(line, writer) {
                Ok(()) => Ok(()),
                Err(error) => Err(error),
            },
        }
    }
}
