//! The end of a report: how many lines have which fate, what becomes of limits, and how what was written is run; `report` adds it.

ghost use Rattle.std.specs.Prelude.{◌≡◌, length};
ghost use Rattle.std.specs.List.{filter};
ghost use Rattle.adopt.specs.Report as spec;

use crate::adoption::Adoption;
use crate::fates::FateKind;
use crate::report::is_told;
use crate::texts::{append, append_str};
use crate::written::Adopted;
use base_lines::{Blanks, Parts, Words, push_decimal};
use base_sequence::NoMemory;

/// What the command line begins with, in place of which a unit has paths.
const BARE: &[u8] = b"stickd run stickd.cfg";

/// Whether something is said of a line, and it has a fate of this kind.
fn is_of(line: &Adopted, kind: FateKind) -> bool
    ensures { result ≡ spec.is_of kind line.now }
{
    line.fate.kind == kind && is_told(line)
}

/// Of how many lines a fate of this kind is said.
fn count_of(lines: &[Adopted], kind: FateKind) -> usize
    ensures { result ≡ length (filter (spec.is_of kind) lines.now) }
{
    lines.iter().filter(|line| is_of(line, kind)).count()
}

/// What a rule does, by its third word, and whether it has a condition. None for other lines.
fn action_of(line: &[u8]) -> Option<(&[u8], bool)> {
    let mut words = Words::new(line, Blanks::SpacesAndTabs);
    if words.next()? != b"tcp-request".as_slice() {
        return None;
    }
    let _kind = words.next()?;
    let action = words.next()?;
    Some((action, words.next().is_some()))
}

/// Whether a line is a rule that refuses connections.
fn is_limit(line: &[u8]) -> bool {
    match action_of(line) {
        Some((action, _)) => {
            action == b"reject".as_slice() || action == b"silent-drop".as_slice()
        }
        None => false,
    }
}

/// The first line of the file with a limit that is gone, from 1.
fn lost_limit(lines: &[Adopted]) -> Option<usize> {
    for (place, line) in lines.iter().enumerate() {
        if line.fate.kind == FateKind::Lost && is_limit(line.raw.as_slice()) {
            return Some(place.saturating_add(1));
        }
    }
    None
}

/// Whether a rule of a configuration refuses connections.
fn limits(text: &[u8]) -> bool {
    let mut lines = Parts::new(text, b'\n');
    while let Some(line) = lines.next() {
        if is_limit(line) {
            return true;
        }
    }
    false
}

/// Whether a line of a configuration is a server.
fn has_server(text: &[u8]) -> bool {
    let mut lines = Parts::new(text, b'\n');
    while let Some(line) = lines.next() {
        let mut words = Words::new(line, Blanks::SpacesAndTabs);
        if words
            .next()
            .is_some_and(|word| word == b"server".as_slice())
        {
            return true;
        }
    }
    false
}

/// Whether the rules of a configuration accept nobody: one without a condition refuses, and none before it accepts.
fn refuses_all(text: &[u8]) -> bool {
    let mut lines = Parts::new(text, b'\n');
    while let Some(line) = lines.next() {
        if let Some((action, has_condition)) = action_of(line) {
            if action == b"accept".as_slice() {
                return false;
            }
            if action == b"reject".as_slice() && !has_condition {
                return true;
            }
        }
    }
    false
}

/// Adds a number and what it counts, behind others.
fn add_count(text: &mut Vec<u8>, count: usize, what: &str) -> Result<(), NoMemory> {
    push_decimal(text, count as u64)?;
    append_str(text, what)
}

/// Adds how many lines have which fate.
fn add_counts(text: &mut Vec<u8>, lines: &[Adopted]) -> Result<(), NoMemory> {
    let rewritten = count_of(lines, FateKind::Rewritten);
    let moved = count_of(lines, FateKind::Moved);
    append_str(text, "stickd: ")?;
    add_count(text, count_of(lines, FateKind::Kept), " kept, ")?;
    add_count(text, rewritten.saturating_add(moved), " rewritten, ")?;
    add_count(
        text,
        count_of(lines, FateKind::Carried),
        " carried by options, ",
    )?;
    add_count(
        text,
        count_of(lines, FateKind::Harmless),
        " lost without harm, ",
    )?;
    add_count(text, count_of(lines, FateKind::Altered), " changed, ")?;
    add_count(text, count_of(lines, FateKind::Lost), " lost")
}

/// Adds what is missing: a server, whoever is accepted, or a limit.
fn add_limits(text: &mut Vec<u8>, adoption: &Adoption) -> Result<(), NoMemory> {
    if adoption.serves && !has_server(adoption.text.as_slice()) {
        return append_str(text, ": no server is left, and a start wants one");
    }
    if refuses_all(adoption.text.as_slice()) {
        return append_str(text, ": everybody is refused");
    }
    let Some(line) = lost_limit(adoption.lines.as_slice()) else {
        return Ok(());
    };
    if !limits(adoption.text.as_slice()) {
        return append_str(text, ": no rule limits any more");
    }
    append_str(text, ": the limit of line ")?;
    push_decimal(text, line as u64)?;
    append_str(text, " is gone")
}

/// Adds how what was written is run: by a command line, and as a service.
fn add_running(text: &mut Vec<u8>, command: &[u8]) -> Result<(), NoMemory> {
    append_str(text, "stickd: run it by\n    ")?;
    append(text, command)?;
    append_str(
        text,
        "\nstickd: or as a service, by `systemctl edit stickd` with\n    [Service]\n    ExecStart=\n",
    )?;
    append_str(
        text,
        "    ExecStart=/usr/local/bin/stickd run /etc/stickd/stickd.cfg",
    )?;
    match command.strip_prefix(BARE) {
        Some(options) => append(text, options)?,
        None => append_str(text, " (and the options of that command)")?,
    }
    append_str(text, "\n")
}

/// Adds how many lines have which fate, and what is missing.
pub(crate) fn add_result(text: &mut Vec<u8>, adoption: &Adoption) -> Result<(), NoMemory> {
    add_counts(text, adoption.lines.as_slice())?;
    add_limits(text, adoption)?;
    append_str(text, "\n")
}

/// Adds the summary. What is written is run only where it is shown.
pub(crate) fn add_summary(
    text: &mut Vec<u8>,
    adoption: &Adoption,
    shown: bool,
) -> Result<(), NoMemory> {
    add_result(text, adoption)?;
    append_str(
        text,
        "stickd: of any file, a rejected client sees an end where HAProxy resets, and sess_cnt counts what no rule rejected\n",
    )?;
    if shown && adoption.serves {
        add_running(text, adoption.command.as_slice())?;
    }
    Ok(())
}
