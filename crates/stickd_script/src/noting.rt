//! A script's server that also notes which lines were bad; `replay_script` serves by it.

ghost use Rattle.std.specs.Prelude.{◌≡◌, option_map};
ghost use Rattle.stickd_script.specs.BadLines.{bad_after};
ghost use Rattle.table_cli.specs.States.{more};

use crate::bad_lines::{BadLines, is_bad_line};
use crate::server::ScriptServer;
use base_lines::LineServer;
use byte_ports::{Failed, Sink};
use stick_table::Table;

/// A script's server, how many lines it has served, and which of them were bad.
#[derive(Drop)]
pub struct NotingServer<'a, T: Table> {
    pub server: ScriptServer<'a, T>,
    pub lines: u64,
    pub bad: BadLines,
}

impl<'a, T: Table> NotingServer<'a, T> {
    /// Notes a line that was served.
    fn note(&mut self, line: Option<&[u8]>)
        ensures server { self.new.server ≡ self.old.server }
        ensures lines { self.new.lines ≡ more self.old.lines 1 }
        ensures bad { self.new.bad ≡ bad_after (option_map (λ bytes. bytes.now) line.entry) self.old.lines self.old.bad }
    {
        self.lines = self.lines.saturating_add(1);
        if is_bad_line(line) {
            self.bad.add(self.lines);
        }
    }

    /// What was noted.
    pub fn into_bad(self) -> BadLines
        ensures { result ≡ self.entry.bad }
    {
        let NotingServer {
            server: _,
            lines: _,
            bad,
        } = self;
        bad
    }
}

impl<'a, T: Table> LineServer for NotingServer<'a, T> {
    ghost use Rattle.stickd_script.specs.BadLines.{Noting, SaysNoting, StopsNoting};
    ghost use Rattle.stickd_script.specs.Guests.{IsServed};
    ghost use Rattle.stickd_script.specs.Seen.{noting_of};

    ghost State = { Noting };

    ghost state = { λ noting. noting_of noting.server.setup.now noting.server.tables.items noting.server.guests.entries noting.lines noting.bad };

    ghost holds = { λ noting. IsServed noting.script };

    ghost says = { SaysNoting };

    ghost stops = { StopsNoting };

    fn serve<W: Sink>(&mut self, line: Option<&[u8]>, writer: &mut W) -> Result<(), Failed> {
        match self.server.serve(line, writer) {
            Ok(()) => {
                self.note(line);
                Ok(())
            }
            Err(error) => Err(error),
        }
    }
}
