//! A runtime whose lines go to a console; `stickd` runs its proxy by one.

use crate::console::Console;
use log::kv::Source;
use log::span::Spans;
use log::{Level, LevelFilter, Line, Log, Metadata, Record};
use std::fmt::Display;
use std::{io, str};

/// Lines on standard error for which nobody waits longer than is told.
pub trait Lines {
    /// Says a line, which has its end. One that can't be written in time is lost, and counted.
    fn say_line(&self, line: &[u8]);

    /// Says how many lines were lost, if any were, and there is room for that.
    fn say_lost(&self);

    /// From now on so many ms may be waited for room in all. With 0 nobody waits.
    fn wait_at_most(&self, patience: u64);
}

/// A runtime with a console: it says its lines there, and has each other capability of the runtime inside.
#[derive(Clone, Copy, Drop)]
pub struct Attended<'a, R> {
    pub(crate) rt: &'a R,
    console: &'a Console,
}

impl<'a, R> Attended<'a, R> {
    /// This runtime, with that console.
    pub fn new(rt: &'a R, console: &'a Console) -> Attended<'a, R> {
        Attended { rt, console }
    }
}

impl<'a, R> Lines for Attended<'a, R> {
    fn say_line(&self, line: &[u8]) {
        if let Ok(text) = str::from_utf8(line) {
            self.console.say("", text, "");
        }
    }

    fn say_lost(&self) {
        let _ = self.console.say_lost();
    }

    fn wait_at_most(&self, patience: u64) {
        self.console.wait_at_most(patience);
    }
}

impl<'a, R> Print for Attended<'a, R> {
    fn print<D: Display + Drop>(&self, value: D) -> io::Result<()> {
        self.console.print(value, "")
    }

    fn println<D: Display + Drop>(&self, value: D) -> io::Result<()> {
        self.console.print(value, "\n")
    }

    fn write_all(&self, bytes: &[u8]) -> io::Result<()> {
        self.console.write(bytes)
    }
}

/// A line that is lost is no error: whether it can be said changes nothing of what the program does.
impl<'a, R> Eprint for Attended<'a, R> {
    fn eprint<D: Display + Drop>(&self, value: D) -> io::Result<()> {
        self.console.say("", value, "");
        Ok(())
    }

    fn eprintln<D: Display + Drop>(&self, value: D) -> io::Result<()> {
        self.console.say("", value, "\n");
        Ok(())
    }
}

/// Errors and warnings are said as the program's own, and all else as `log` writes it.
impl<'a, R> Log for Attended<'a, R> {
    fn enabled(&self, metadata: &Metadata<'_>) -> bool {
        LevelFilter::Info.allows(metadata.level())
    }

    fn log<D: Display, K: Source, S: Spans>(&self, record: &Record<'_, D, K, S>) {
        let level = record.level();
        let mark = self.console.mark(level);
        let text = record.args();
        match level {
            Level::Error => self.console.say(mark, format_args!("stickd: {text}"), "\n"),
            Level::Warn => self
                .console
                .say(mark, format_args!("stickd: warning: {text}"), "\n"),
            Level::Info => self.console.say(mark, Line::new(record), "\n"),
            Level::Debug | Level::Trace => {}
        }
    }

    fn flush(&self) {
        self.say_lost();
    }

    fn target(&self) -> &str {
        ""
    }
}
