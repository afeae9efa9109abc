//! The service of the stats socket's clients, as HAProxy's tools speak; `tcp_proxy` has one for each thread that serves them.

ghost use Rattle.std.specs.Prelude.{◌≡◌};
ghost use Rattle.tcp_watch.specs.Conversations as spec;

use crate::conversation::{BEGUN, Conversation, READ_BYTES, Stay, is_cut};
use crate::level::{Level, may_ask};
use crate::permitted::answer_with_filters;
use crate::program::{Program, Shutdown};
use crate::teller::{Teller, Told};
use base_clock::Clock;
use base_lines::{LineSoFar, Parts, without_cr};
use byte_ports::{Failed, Sink, Source, write_all};
use shard_book::Keeper;
use table_cli::answer_oldest_first;
use table_socket::ClientServer;
use table_texts::Message;
use tcp_stats::{StatsCommand, StatsMessage, push_help, read_command};

/// Answers the clients of a stats socket: the lines of commands that come together, which `;` parts, unless a client asks to be
/// prompted for more.
#[derive(Drop)]
pub struct StatsService<'p, K, C, P> {
    pub teller: Teller<'p, K, C, P>,
    /// What its clients may do.
    pub level: Level,
    /// How long its clients may stay.
    pub stay: Stay,
}

/// How a conversation goes on behind a command, and how many commands were answered so far.
#[derive(Clone, Copy)]
struct Progress {
    talk: Conversation,
    done: u64,
}

/// Writes an answer, and what stands behind it.
fn write_answer<W: Sink>(writer: &mut W, text: &[u8], talk: Conversation) -> Result<(), Failed> {
    if write_all(writer, text).is_err() || write_all(writer, talk.mark()).is_err() {
        return Err(Failed);
    }
    Ok(())
}

/// What the wish is answered that a frontend takes no more clients.
fn message_of(shutdown: Shutdown) -> StatsMessage
    ensures { result ≡ spec.message_of shutdown }
{
    match shutdown {
        Shutdown::Begun => StatsMessage::Done,
        Shutdown::Already => StatsMessage::AlreadyShutDown,
        Shutdown::NoSuch => StatsMessage::NoSuchFrontend,
    }
}

impl<'p, K: Keeper, C: Clock, P: Program> StatsService<'p, K, C, P> {
    /// Tells of the program.
    fn tell<W: Sink>(
        &mut self,
        told: Told<'_>,
        writer: &mut W,
        talk: Conversation,
    ) -> Result<(), Failed> {
        match self.teller.tell(told) {
            Ok(text) => write_answer(writer, text.as_slice(), talk),
            Err(message) => write_answer(writer, message.bytes(), talk),
        }
    }

    /// Says a message.
    fn say<W: Sink>(
        &mut self,
        message: StatsMessage,
        writer: &mut W,
        talk: Conversation,
    ) -> Result<(), Failed> {
        let mut text = Vec::new(self.teller.alloc);
        match message.push(&mut text) {
            Ok(()) => write_answer(writer, text.as_slice(), talk),
            Err(_) => write_answer(writer, Message::OutOfMemory.bytes(), talk),
        }
    }

    /// Lists the commands that begin with words.
    fn help<W: Sink>(
        &mut self,
        asked: &[u8],
        writer: &mut W,
        talk: Conversation,
    ) -> Result<(), Failed> {
        let mut text = Vec::new(self.teller.alloc);
        match push_help(&mut text, asked) {
            Ok(()) => write_answer(writer, text.as_slice(), talk),
            Err(_) => write_answer(writer, Message::OutOfMemory.bytes(), talk),
        }
    }

    /// Has the rules read again, and says what came of it. After that nothing is asked of the memory, so that what was done isn't answered
    /// by a fault.
    fn reload<W: Sink>(&mut self, writer: &mut W, talk: Conversation) -> Result<(), Failed> {
        let mut text = Vec::new(self.teller.alloc);
        if self.teller.program.reload(&mut text).is_err() {
            return write_answer(writer, Message::OutOfMemory.bytes(), talk);
        }
        if write_all(writer, text.as_slice()).is_err() {
            return Err(Failed);
        }
        write_answer(writer, b"\n\n", talk)
    }

    /// Answers a command on a table, as far as the level permits.
    fn ask_table<W: Sink>(
        &mut self,
        command: &[u8],
        writer: &mut W,
        talk: Conversation,
    ) -> Result<(), Failed> {
        let Teller {
            alloc,
            tables,
            clock,
            program: _,
        } = &mut self.teller;
        let tables = tables.as_mut_slice();
        answer_with_filters(*alloc, tables, clock, self.level, command, writer)?;
        write_answer(writer, b"", talk)
    }

    /// Shows what a table holds, in the order in which its entries go.
    fn show_oldest_first<W: Sink>(
        &mut self,
        name: &[u8],
        writer: &mut W,
        talk: Conversation,
    ) -> Result<(), Failed> {
        let Teller {
            alloc,
            tables,
            clock,
            program: _,
        } = &mut self.teller;
        if answer_oldest_first(*alloc, tables.as_slice(), clock, name, writer).is_err() {
            return Err(Failed);
        }
        write_answer(writer, b"", talk)
    }

    /// Answers a command. How the conversation goes on.
    fn serve_command<W: Sink>(
        &mut self,
        command: &[u8],
        writer: &mut W,
        talk: Conversation,
    ) -> Result<Conversation, Failed> {
        let asked = read_command(command);
        if !may_ask(self.level, asked) {
            self.say(StatsMessage::PermissionDenied, writer, talk)?;
            return Ok(talk);
        }
        let message = match asked {
            StatsCommand::Quit => return Ok(talk.after_quit()),
            StatsCommand::Prompt => {
                let talk = talk.after_prompt(self.stay);
                self.say(StatsMessage::Done, writer, talk)?;
                return Ok(talk);
            }
            StatsCommand::ShowInfo(format) => {
                self.tell(Told::Info(format), writer, talk)?;
                return Ok(talk);
            }
            StatsCommand::ShowStat(query) => {
                self.tell(Told::Stat(query), writer, talk)?;
                return Ok(talk);
            }
            StatsCommand::Help(asked) => {
                self.help(asked, writer, talk)?;
                return Ok(talk);
            }
            StatsCommand::Table => {
                self.ask_table(command, writer, talk)?;
                return Ok(talk);
            }
            StatsCommand::OldestFirst(name) => {
                self.show_oldest_first(name, writer, talk)?;
                return Ok(talk);
            }
            StatsCommand::Reload => {
                self.reload(writer, talk)?;
                return Ok(talk);
            }
            StatsCommand::ShutdownFrontend(name) if name.is_empty() => {
                StatsMessage::FrontendExpected
            }
            StatsCommand::ShutdownFrontend(name) => {
                message_of(self.teller.program.shut_down(name))
            }
            StatsCommand::Stop(drain) => {
                self.teller.program.stop(drain);
                StatsMessage::Done
            }
            StatsCommand::ShowErrors => StatsMessage::Done,
            StatsCommand::Empty | StatsCommand::Unknown => StatsMessage::Unknown,
        };
        self.say(message, writer, talk)?;
        Ok(talk)
    }

    /// Answers the commands of a line: none, where it is too long.
    fn serve_line<W: Sink>(
        &mut self,
        line: Option<&[u8]>,
        writer: &mut W,
        before: Progress,
    ) -> Result<Progress, Progress> {
        let mut now = before;
        let mut commands = Parts::new(without_cr(line.unwrap_or(b"?")), b';');
        while let Some(command) = commands.next() {
            match self.serve_command(command, writer, now.talk) {
                Ok(talk) => now.talk = talk,
                Err(_) => return Err(now),
            }
            now.done = now.done.saturating_add(1);
            if now.talk.is_over {
                return Ok(now);
            }
        }
        Ok(now)
    }

    /// Answers each line that ends in a piece of what a client sent.
    fn feed<W: Sink>(
        &mut self,
        line: &mut LineSoFar,
        piece: &[u8],
        writer: &mut W,
        before: Progress,
    ) -> Result<Progress, Progress> {
        let mut now = before;
        let mut parts = Parts::new(piece, b'\n');
        let Some(first) = parts.next() else {
            return Ok(now);
        };
        line.extend(first);
        while let Some(part) = parts.next() {
            match self.serve_line(line.line(), writer, now) {
                Ok(after) => now = after,
                Err(after) => return Err(after),
            }
            if now.talk.is_over {
                return Ok(now);
            }
            line.clear();
            line.extend(part);
        }
        Ok(now)
    }

    /// Answers a client until all is said. How many commands were answered.
    fn converse<R: Source, W: Sink>(&mut self, reader: &mut R, writer: &mut W) -> u64 {
        let mut line = LineSoFar::new();
        let mut buffer = [0u8; READ_BYTES];
        let mut now = Progress {
            talk: BEGUN,
            done: 0,
        };
        for _read in 0..self.stay.most_reads() {
            let count = match reader.read(&mut buffer) {
                Ok(0) | Err(_) => return now.done,
                Ok(count) => count,
            };
            match self.feed(&mut line, &buffer[..count], writer, now) {
                Ok(after) => now = after,
                Err(after) => return after.done,
            }
            now.talk = now.talk.after_lines(is_cut(&buffer[..count]));
            if now.talk.is_over {
                return now.done;
            }
        }
        now.done
    }
}

/// No contract tells what commands change here: those on tables are answered as `table_cli` says, each in its turn.
impl<'p, K: Keeper, C: Clock, P: Program> ClientServer for StatsService<'p, K, C, P> {
    ghost use Rattle.std.specs.Prelude.{ℕ};

    ghost State = { Unit {0} };

    ghost state = { λ service. tt };

    ghost visits = { λ old count new. Unit {0} };

    fn serve_client<R: Source, W: Sink>(&mut self, reader: &mut R, writer: &mut W) -> u64 {
        self.converse(reader, writer)
    }
}
