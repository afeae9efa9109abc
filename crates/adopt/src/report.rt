//! The report of what became of each line; `file` prints it.

ghost use Rattle.std.specs.Prelude.{◌≡◌};
ghost use Rattle.adopt.specs.Report as spec;

use crate::adoption::Adoption;
use crate::fates::{Fate, FateKind};
use crate::status::matters;
use crate::summary::{add_result, add_summary};
use crate::texts::{append, append_str};
use crate::written::Adopted;
use base_lines::push_decimal;
use base_sequence::NoMemory;
use std::alloc::Global;

/// How a report is to be.
#[derive(Clone, Copy)]
pub(crate) struct Wanted {
    /// Whether it says why of each line that is lost without harm.
    pub verbose: bool,
    /// Whether what is written is shown, so that the report says how it is run.
    pub shown: bool,
}

/// How a fate begins.
fn kind_text(kind: FateKind) -> &'static str {
    match kind {
        FateKind::Kept => "kept",
        FateKind::Rewritten | FateKind::Moved | FateKind::Carried => "rewritten: ",
        FateKind::Harmless => "lost without harm: ",
        FateKind::Altered => "rewritten, with a change of what is served: ",
        FateKind::Lost => "lost with a change of what is served: ",
    }
}

/// Adds the line that says what became of a line.
fn add_fate(text: &mut Vec<u8>, number: usize, fate: &Fate) -> Result<(), NoMemory> {
    append_str(text, "stickd: line ")?;
    push_decimal(text, number as u64)?;
    append_str(text, ": ")?;
    append_str(text, kind_text(fate.kind))?;
    if fate.kind != FateKind::Kept {
        append(text, fate.note.as_slice())?;
    }
    append_str(text, "\n")
}

/// Whether a line is more than blanks and a comment.
fn has_words(raw: &[u8]) -> bool
    ensures { result ≡ spec.has_words raw.now }
{
    for byte in raw {
        if *byte == b'#' {
            return false;
        }
        if *byte != b' ' && *byte != b'\t' {
            return true;
        }
    }
    false
}

/// Whether something is said of a line: of each but for those that are kept and have no words.
pub(crate) fn is_told(line: &Adopted) -> bool
    ensures { result ≡ spec.is_told line.now }
{
    match line.fate.kind {
        FateKind::Kept => has_words(line.raw.as_slice()),
        FateKind::Rewritten
        | FateKind::Moved
        | FateKind::Carried
        | FateKind::Harmless
        | FateKind::Altered
        | FateKind::Lost => true,
    }
}

/// Adds the numbers of a run of lines, behind those of others.
fn add_run(text: &mut Vec<u8>, first: usize, last: usize, is_first: bool) -> Result<(), NoMemory> {
    let front = if is_first {
        "stickd: lost without harm, by number of line: "
    } else {
        ", "
    };
    append_str(text, front)?;
    push_decimal(text, first as u64)?;
    if last > first {
        append_str(text, "-")?;
        push_decimal(text, last as u64)?;
    }
    Ok(())
}

/// Adds one line for all that is lost without harm.
fn add_folded(text: &mut Vec<u8>, lines: &[Adopted]) -> Result<(), NoMemory> {
    let mut run: Option<(usize, usize)> = None;
    let mut is_first = true;
    for (place, line) in lines.iter().enumerate() {
        if line.fate.kind != FateKind::Harmless {
            continue;
        }
        let number = place.saturating_add(1);
        match run {
            Some((first, last)) if last.saturating_add(1) == number => run = Some((first, number)),
            Some((first, last)) => {
                add_run(text, first, last, is_first)?;
                is_first = false;
                run = Some((number, number));
            }
            None => run = Some((number, number)),
        }
    }
    let Some((first, last)) = run else {
        return Ok(());
    };
    add_run(text, first, last, is_first)?;
    append_str(text, " (--verbose says why)\n")
}

/// The report: a line for each line of the file that has words, one for all those that are lost without harm unless each is wanted,
/// and a summary.
pub(crate) fn report_of(
    alloc: Global,
    adoption: &Adoption,
    wanted: Wanted,
) -> Result<Vec<u8>, NoMemory> {
    let mut text = Vec::new(alloc);
    for (place, line) in adoption.lines.iter().enumerate() {
        let is_folded = line.fate.kind == FateKind::Harmless && !wanted.verbose;
        if is_told(line) && !is_folded {
            add_fate(&mut text, place.saturating_add(1), &line.fate)?;
        }
    }
    if !wanted.verbose {
        add_folded(&mut text, adoption.lines.as_slice())?;
    }
    add_summary(&mut text, adoption, wanted.shown)?;
    Ok(text)
}

/// What a start says of a file: of each line whose loss changes what is served, and how many lines have which fate.
pub(crate) fn changes_of(alloc: Global, adoption: &Adoption) -> Result<Vec<u8>, NoMemory> {
    let mut text = Vec::new(alloc);
    for (place, line) in adoption.lines.iter().enumerate() {
        if matters(line) {
            add_fate(&mut text, place.saturating_add(1), &line.fate)?;
        }
    }
    add_result(&mut text, adoption)?;
    Ok(text)
}
