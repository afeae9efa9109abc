//! A whole file, adopted; `file` calls `adopt` with what it has read.

ghost use Rattle.std.specs.Prelude.{◌≡◌, ◌++◌, ℕ, List, IfOk, IfSome};
ghost use Rattle.adopt.specs.Lines.{own_lines, own_raws};
ghost use Rattle.adopt.specs.Checked.{IsTaken};
ghost use Rattle.adopt.specs.Status.{status_of};
ghost use Rattle.adopt.specs.Written.{composed, raws_of};

use crate::checked::first_fault;
use crate::choices::make_plan;
use crate::command::{HEAD, command_of};
use crate::fates::{Fate, FateKind, fates_of};
use crate::lexer::SourceLine;
use crate::options::{CommandOption, command_options};
use crate::plan::{PatternFile, Plan, Wishes, pattern_files};
use crate::reasons::Why;
use crate::source_lines::read_lines;
use crate::texts::{copy_text, copy_words, text_of};
use crate::variables::Variable;
use crate::written::{Adopted, push_line, push_pieces};
use base_sequence::NoMemory;
use std::alloc::Global;

/// What became of a file.
#[derive(Drop)]
pub struct Adoption {
    /// Its lines, and what became of each.
    pub lines: Vec<Adopted>,
    /// The configuration that stickd runs.
    pub text: Vec<u8>,
    /// The command line.
    pub command: Vec<u8>,
    /// The options that stand for lines.
    pub options: Vec<CommandOption>,
    /// Whether the file was adopted already, so that its first line has the command line.
    pub was_adopted: bool,
    /// Whether one of its frontends is served.
    pub serves: bool,
    /// The exit status: 0 where what is served is the same, 3 where something that matters was lost.
    pub status: u8,
}

/// The names of the files of patterns that have to be read before a file is adopted.
pub fn wanted_files(
    alloc: Global,
    text: &[u8],
    environment: &[Variable],
) -> Result<Vec<Vec<u8>>, NoMemory> {
    let lines = read_lines(alloc, text, environment)?;
    pattern_files(alloc, lines.as_slice())
}

/// The first line of a file.
fn first_raw(lines: &[SourceLine]) -> Option<&[u8]> {
    match lines.first() {
        Some(line) => Some(line.raw.as_slice()),
        None => None,
    }
}

/// Whether a file begins with the command line that stands for what it lost.
fn has_command(lines: &[SourceLine]) -> bool {
    first_raw(lines).is_some_and(|raw| raw.starts_with(HEAD.as_bytes()))
}

/// The lines in front of those of the file: the command line as a comment, unless it is there.
fn heading(alloc: Global, is_there: bool, command: &[u8]) -> Result<Vec<u8>, NoMemory> {
    let mut text = Vec::new(alloc);
    if is_there {
        return Ok(text);
    }
    let mut line = text_of(alloc, "# ")?;
    crate::texts::append(&mut line, command)?;
    push_line(&mut text, line.as_slice())?;
    Ok(text)
}

/// A copy of what becomes of a line.
fn copy_fate(alloc: Global, fate: &Fate) -> Result<Fate, NoMemory> {
    Ok(Fate {
        kind: fate.kind,
        note: copy_text(alloc, fate.note.as_slice())?,
        text: copy_text(alloc, fate.text.as_slice())?,
        after: copy_words(alloc, fate.after.as_slice())?,
    })
}

/// What becomes of the line at a place.
fn fate_at(alloc: Global, fates: &[Fate], place: usize) -> Result<Fate, NoMemory> {
    match fates.get(place) {
        Some(fate) => copy_fate(alloc, fate),
        None => Ok(Fate {
            kind: FateKind::Kept,
            note: Vec::new(alloc),
            text: Vec::new(alloc),
            after: Vec::new(alloc),
        }),
    }
}

/// The lines of a file with what becomes of each.
fn adopted_lines(
    alloc: Global,
    lines: &[SourceLine],
    fates: &[Fate],
) -> Result<Vec<Adopted>, NoMemory>
    ensures { IfOk result (λ adopted. raws_of adopted.items ≡ own_raws lines.now) }
{
    let mut adopted = Vec::new(alloc);
    for (place, line) in lines.iter().enumerate() {
        let fate = fate_at(alloc, fates, place)?;
        let raw = copy_text(alloc, line.raw.as_slice())?;
        adopted.push(Adopted { raw, fate })?;
    }
    Ok(adopted)
}

/// All that is written, behind these lines.
fn compose(alloc: Global, head: &[u8], lines: &[Adopted]) -> Result<Vec<u8>, NoMemory>
    ensures { IfOk result (λ text. text.items ≡ head.now ++ composed lines.now) }
{
    let mut text = copy_text(alloc, head)?;
    push_pieces(&mut text, lines)?;
    Ok(text)
}

/// A line that is written for a line of the file: the number of that line, and whether it stands in its place.
#[derive(Clone, Copy)]
struct Owner {
    place: usize,
    /// Which of the lines behind it; None for the one in its place.
    added: Option<usize>,
}

/// The line of the file for which the line of this number is written, of which the first has the number `start`.
fn owner_of(start: u64, fates: &[Fate], number: u64) -> Option<Owner> {
    let mut next = start;
    for (place, fate) in fates.iter().enumerate() {
        if number == next {
            return Some(Owner { place, added: None });
        }
        next = next.saturating_add(1);
        for added in 0..fate.after.len() {
            if number == next {
                return Some(Owner {
                    place,
                    added: Some(added),
                });
            }
            next = next.saturating_add(1);
        }
    }
    None
}

/// What becomes of a line that stickd doesn't read: it, or one of those behind it, is left out.
fn lose(
    alloc: Global,
    line: &SourceLine,
    fate: &mut Fate,
    added: Option<usize>,
) -> Result<(), NoMemory> {
    fate.note = text_of(alloc, Why::NotRead.text())?;
    let Some(added) = added else {
        fate.kind = FateKind::Lost;
        return Ok(());
    };
    if added < fate.after.len() {
        let _gone = fate.after.remove(added);
    }
    match fate.kind {
        FateKind::Kept => {
            fate.kind = FateKind::Altered;
            fate.text = copy_text(alloc, line.raw.as_slice())?;
        }
        FateKind::Rewritten | FateKind::Altered => fate.kind = FateKind::Altered,
        FateKind::Moved | FateKind::Carried | FateKind::Harmless | FateKind::Lost => {
            fate.kind = FateKind::Lost;
        }
    }
    Ok(())
}

/// How many lines are written at most.
fn most_lines(fates: &[Fate]) -> usize {
    let mut count = 1usize;
    for fate in fates {
        count = count.saturating_add(fate.after.len()).saturating_add(1);
    }
    count
}

/// Leaves out line by line what stickd doesn't read. Answers the lines, and what is written of them behind `head`. None
/// where that isn't read all the same.
fn settle(
    alloc: Global,
    head: &[u8],
    lines: &[SourceLine],
    mut fates: Vec<Fate>,
) -> Result<Option<(Vec<Adopted>, Vec<u8>)>, NoMemory>
    ensures { IfOk result (λ found. IfSome found (λ settled. (raws_of settled.0.items ≡ own_raws lines.now)
        × (settled.1.items ≡ head.now ++ composed settled.0.items) × IsTaken settled.1.items)) }
{
    for _ in 0..most_lines(fates.as_slice()) {
        let adopted = adopted_lines(alloc, lines, fates.as_slice())?;
        let text = compose(alloc, head, adopted.as_slice())?;
        let Some(number) = first_fault(alloc, text.as_slice())? else {
            return Ok(Some((adopted, text)));
        };
        let start = if head.is_empty() { 1 } else { 2 };
        let Some(owner) = owner_of(start, fates.as_slice(), number) else {
            return Ok(None);
        };
        if let (Some(fate), Some(line)) = (fates.get_mut(owner.place), lines.get(owner.place)) {
            lose(alloc, line, fate, owner.added)?;
        }
    }
    Ok(None)
}

/// Whether a file was adopted already: it begins with the command line, and stickd takes it.
fn is_adopted(alloc: Global, lines: &[SourceLine], text: &[u8]) -> Result<bool, NoMemory> {
    if !has_command(lines) {
        return Ok(false);
    }
    Ok(first_fault(alloc, text)?.is_none())
}

/// What becomes of each line; of a file that was adopted already nothing is said, and each line is kept.
fn fates_for(
    alloc: Global,
    plan: &Plan,
    options: &[CommandOption],
    was_adopted: bool,
) -> Result<Vec<Fate>, NoMemory> {
    if was_adopted {
        return Ok(Vec::new(alloc));
    }
    fates_of(alloc, plan, options)
}

/// The command line: that of the first line where the file was adopted already, else one of these options.
fn command_for(
    alloc: Global,
    lines: &[SourceLine],
    options: &[CommandOption],
    was_adopted: bool,
) -> Result<Vec<u8>, NoMemory> {
    let first = if was_adopted { first_raw(lines) } else { None };
    command_of(alloc, first, options)
}

/// Adopts a file, by these variables of the environment, these files of patterns and wishes. None where stickd doesn't
/// read what would be written.
pub fn adopt(
    alloc: Global,
    text: &[u8],
    environment: &[Variable],
    files: Vec<PatternFile>,
    wishes: &Wishes,
) -> Result<Option<Adoption>, NoMemory>
    // Each line of the file stands there, in order.
    ensures lines { IfOk result (λ found. IfSome found (λ adoption. raws_of adoption.lines.items ≡ own_lines text.now)) }
    // What is written is what stands for each of them, behind the command line unless that is there.
    ensures written { IfOk result (λ found. IfSome found (λ adoption. (head : List ℕ) × (adoption.text.items ≡ head ++ composed adoption.lines.items))) }
    // It is read without a fault and without a warning.
    ensures taken { IfOk result (λ found. IfSome found (λ adoption. IsTaken adoption.text.items)) }
    ensures status { IfOk result (λ found. IfSome found (λ adoption. adoption.status ≡ status_of adoption.lines.items)) }
{
    let lines = read_lines(alloc, text, environment)?;
    let plan = make_plan(alloc, lines, files, wishes)?;
    let options = command_options(alloc, &plan)?;
    let was_adopted = is_adopted(alloc, plan.lines.as_slice(), text)?;
    let fates = fates_for(alloc, &plan, options.as_slice(), was_adopted)?;
    let command = command_for(
        alloc,
        plan.lines.as_slice(),
        options.as_slice(),
        was_adopted,
    )?;
    let head = heading(alloc, was_adopted, command.as_slice())?;
    let Some((lines, text)) = settle(alloc, head.as_slice(), plan.lines.as_slice(), fates)? else {
        return Ok(None);
    };
    let status = crate::status::status_of(lines.as_slice());
    Ok(Some(Adoption {
        lines,
        text,
        command,
        options,
        was_adopted,
        serves: plan.frontend.is_some(),
        status,
    }))
}
