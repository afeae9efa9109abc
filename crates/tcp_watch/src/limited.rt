//! The service of a command socket whose clients may not do all; `tcp_proxy` has one for each thread that serves them.

use crate::level::Level;
use crate::permitted::answer_permitted;
use base_clock::Clock;
use base_lines::{LineSoFar, Parts, without_cr};
use byte_ports::{Failed, Sink, Source, write_all};
use shard_book::{Keeper, Named};
use std::alloc::Global;
use table_socket::ClientServer;
use table_texts::Message;

/// How many reads a client has at most.
const MOST_READS: u64 = 1 << 40;

/// Answers all lines of each client, as the command socket does, as far as its level permits.
#[derive(Drop)]
pub struct LimitedService<K, C> {
    pub alloc: Global,
    pub tables: Vec<Named<K>>,
    pub clock: C,
    pub level: Level,
}

impl<K: Keeper, C: Clock> LimitedService<K, C> {
    /// Answers the commands of a line. How many there were.
    fn serve_commands<W: Sink>(&mut self, line: &[u8], writer: &mut W) -> Result<u64, Failed> {
        let mut done = 0u64;
        let mut commands = Parts::new(without_cr(line), b';');
        while let Some(command) = commands.next() {
            if command.trim_ascii().is_empty() {
                continue;
            }
            answer_permitted(
                self.alloc,
                self.tables.as_mut_slice(),
                &mut self.clock,
                self.level,
                command,
                writer,
            )?;
            done = done.saturating_add(1);
        }
        Ok(done)
    }

    /// Answers a line. One that is too long is no command.
    fn serve_line<W: Sink>(&mut self, line: &LineSoFar, writer: &mut W) -> Result<u64, Failed> {
        match line.line() {
            Some(line) => self.serve_commands(line, writer),
            None => match write_all(writer, Message::UnknownCommand.bytes()) {
                Ok(()) => Ok(1),
                Err(_) => Err(Failed),
            },
        }
    }

    /// Answers the lines that end in these bytes, of which the first has begun. How many commands there were.
    fn feed<W: Sink>(
        &mut self,
        line: &mut LineSoFar,
        bytes: &[u8],
        writer: &mut W,
    ) -> Result<u64, Failed> {
        let mut done = 0u64;
        let mut parts = Parts::new(bytes, b'\n');
        if let Some(first) = parts.next() {
            line.extend(first);
        }
        while let Some(part) = parts.next() {
            done = done.saturating_add(self.serve_line(line, writer)?);
            line.clear();
            line.extend(part);
        }
        Ok(done)
    }

    /// Answers a client until it ends, the line without an end too. How many commands were answered.
    fn converse<R: Source, W: Sink>(&mut self, reader: &mut R, writer: &mut W) -> u64 {
        let mut line = LineSoFar::new();
        let mut buffer = [0u8; 4096];
        let mut done = 0u64;
        for _read in 0..MOST_READS {
            let count = match reader.read(&mut buffer) {
                Ok(0) | Err(_) => break,
                Ok(count) => count,
            };
            match self.feed(&mut line, &buffer[..count], writer) {
                Ok(more) => done = done.saturating_add(more),
                Err(_) => return done,
            }
        }
        match self.serve_line(&line, writer) {
            Ok(more) => done.saturating_add(more),
            Err(_) => done,
        }
    }
}

/// No contract tells what commands change here: those that are permitted are answered as `table_cli` says, each in its turn.
impl<K: Keeper, C: Clock> ClientServer for LimitedService<K, C> {
    ghost use Rattle.std.specs.Prelude.{ℕ};

    ghost State = { Unit {0} };

    ghost state = { λ service. tt };

    ghost visits = { λ old count new. Unit {0} };

    fn serve_client<R: Source, W: Sink>(&mut self, reader: &mut R, writer: &mut W) -> u64 {
        self.converse(reader, writer)
    }
}
