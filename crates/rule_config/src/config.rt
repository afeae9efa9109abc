//! A whole configuration, read line by line; `stickd_input` and `adopt` call `read_config`.

ghost use Rattle.std.specs.Prelude.{◌≡◌, Ok, length, IfOk, IfErr};
ghost use Rattle.rule_model.specs.Served.{AreTables};
ghost use Rattle.rule_words.specs.Lines.{lines_of};
ghost use Rattle.rule_config.specs.Config.{Answers, EndsBy, FailsAt, read_of, whole};

use crate::needs::first_unmet;
use crate::reading::Reading;
use rule_model::{Config, Fault, ReadError};
use rule_words::Lines;
use std::alloc::Global;
use thiserror::Error;

/// Why a configuration could not be read, and at which line, from 1. It is printed as `line 3: C6 second table or name`.
#[derive(Clone, Copy, Debug, PartialEq, Eq, Error)]
#[error("line {line}: {kind}")]
pub struct ConfigFault {
    pub line: u64,
    pub kind: ReadError,
}

/// Reads all lines. Answers the number of the last one too.
fn read_lines(alloc: Global, text: &[u8]) -> Result<(Reading, u64), ConfigFault>
    ensures read { IfOk result (λ read. read_of (lines_of text.now) ≡ Ok read.0) }
    ensures last { IfOk result (λ read. read.1 ≡ length (lines_of text.now)) }
    ensures fault { IfErr result (λ fault. FailsAt (lines_of text.now) fault.line fault.kind (read_of (lines_of text.now))) }
{
    let mut lines = Lines::new(text);
    let mut read = Reading::new(alloc);
    let mut number = 0;
    while let Some(line) = lines.next() {
        number += 1;
        if let Err(kind) = read.read_on(alloc, number, line) {
            return Err(ConfigFault { line: number, kind });
        }
    }
    Ok((read, number))
}

/// What the lines declare, of which the last one has this number.
fn finish(mut read: Reading, last: u64) -> Result<Config, ConfigFault>
    ensures { EndsBy last result (whole read) }
{
    if read.end_section().is_err() {
        return Err(ConfigFault {
            line: last,
            kind: ReadError::OutOfMemory,
        });
    }
    let Reading {
        sections,
        place: _,
        warnings,
        needs,
    } = read;
    match first_unmet(sections.as_slice(), needs.as_slice()) {
        Some(line) => Err(ConfigFault {
            line,
            kind: ReadError::Wrong(Fault::UnknownTable),
        }),
        None => Ok(Config { sections, warnings }),
    }
}

/// Reads a configuration, whatever its bytes are. A fault is the first in line order, and in a line the first from left
/// to right; tables and backends that are needed are looked for behind all lines. Where a growth is refused, the fault
/// has the line in hand.
#[tactic(auto, unfolding(crate::specs::Config::config_of))]
pub fn read_config(alloc: Global, text: &[u8]) -> Result<Config, ConfigFault>
    ensures answers { Answers text.now result }
    // Its tables can be opened.
    ensures limits { IfOk result (λ config. AreTables config.sections) }
{
    let (read, last) = read_lines(alloc, text)?;
    finish(read, last)
}
