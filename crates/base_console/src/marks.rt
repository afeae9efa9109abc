//! What stands in front of a line, and what is said of lost ones; `console` says it.

ghost use Rattle.std.specs.Prelude.{◌≡◌};
ghost use Rattle.base_console.specs.Marks as spec;

use log::Level;
use std::fmt;
use std::fmt::{Display, Formatter, Write};

/// The mark in front of a line of this level, by which journald knows errors and warnings (sd-daemon(3)). A terminal, where a human reads,
/// has none.
pub fn mark_of(level: Level, is_terminal: bool) -> &'static str
    ensures { result.now ≡ spec.mark_of level is_terminal }
{
    match level {
        _ if is_terminal => "",
        Level::Error => "<3>",
        Level::Warn => "<4>",
        Level::Info | Level::Debug | Level::Trace => "",
    }
}

/// How many lines were lost, as it is said.
#[derive(Clone, Copy, Debug)]
pub struct LostLines(pub u64);

impl Display for LostLines {
    ghost use Rattle.std.specs.Prelude.{Some};
    ghost use Rattle.base_console.specs.Marks.{lost_text};

    ghost output = { λ lost. Some (lost_text lost.0) };

    fn fmt<W: Write>(&self, f: &mut Formatter<W>) -> fmt::Result {
        let LostLines(count) = *self;
        write!(f, "stickd: {count} lines lost")
    }
}
