//! What becomes of each line; `adoption` calls `fates_of`, and the modules of lines make fates.

use crate::headings::{add_table_of_all, of_heading};
use crate::keywords::{Told, is_one_of, left_of};
use crate::lexer::SourceLine;
use crate::listeners::first_bind;
use crate::manual::{GLOBAL, OTHER_SECTIONS, TUNE};
use crate::options::CommandOption;
use crate::plan::{Plan, begins};
use crate::proxy_lines::{of_proxy_line, unlike};
use crate::reasons::Why;
use crate::roles::has_rules_of;
use crate::rule_lines::{add_rules, of_rule};
use crate::rules::{is_waiting, phase_of, rule_place};
use crate::sections::{Kind, kind_of};
use crate::servers::{default_loss, kept_server};
use crate::standing::{added, written};
use crate::texts::{Words, append, append_str, is_word, text_of, word_at};
use base_sequence::NoMemory;
use std::alloc::Global;

/// What becomes of a line.
#[derive(Clone, Copy, PartialEq, Eq)]
pub enum FateKind {
    /// It stays as it is.
    Kept,
    /// Another line that means the same stands in its place.
    Rewritten,
    /// It is left out, and what it says stands elsewhere.
    Moved,
    /// It is left out, and an option of the command line stands for it.
    Carried,
    /// It is left out, which changes nothing that is served.
    Harmless,
    /// Another line stands in its place that means less.
    Altered,
    /// It is left out, which changes what is served.
    Lost,
}

/// What becomes of a line, why, and what is written for it.
#[derive(Drop)]
pub struct Fate {
    pub kind: FateKind,
    /// The reason, or what the line becomes.
    pub note: Vec<u8>,
    /// The line that stands in its place, where it is rewritten.
    pub text: Vec<u8>,
    /// The lines that are added behind it.
    pub after: Words,
}

/// The fate of a line of which nothing more is said.
pub(crate) fn plain(alloc: Global, kind: FateKind) -> Fate {
    Fate {
        kind,
        note: Vec::new(alloc),
        text: Vec::new(alloc),
        after: Vec::new(alloc),
    }
}

/// The fate of a line that is left out.
pub(crate) fn left(alloc: Global, kind: FateKind, why: Why) -> Result<Fate, NoMemory> {
    Ok(Fate {
        kind,
        note: text_of(alloc, why.text())?,
        text: Vec::new(alloc),
        after: Vec::new(alloc),
    })
}

/// The fate of a line that is left out, as its keyword says.
pub(crate) fn of_left(alloc: Global, told: Told) -> Result<Fate, NoMemory> {
    if told.matters {
        left(alloc, FateKind::Lost, told.why)
    } else {
        left(alloc, FateKind::Harmless, told.why)
    }
}

/// Whether what stands for a line is a line of its own.
pub(crate) fn stands(kind: FateKind) -> bool {
    matches!(
        kind,
        FateKind::Kept | FateKind::Rewritten | FateKind::Altered
    )
}

/// Whether a section `defaults` is one that the frontend or the backend has.
fn is_inherited(plan: &Plan, defaults: usize) -> bool {
    for place in [plan.frontend, plan.backend] {
        let mut at = place;
        for _ in 0..plan.sections.len() {
            at = match at.and_then(|here| plan.section(here)) {
                Some(section) => section.defaults,
                None => None,
            };
            if at == Some(defaults) {
                return true;
            }
        }
    }
    false
}

/// Whether a rule of `defaults` runs for a proxy that has these alone: a backend has rules `content` only.
fn is_frontends(plan: &Plan, defaults: usize) -> bool {
    match plan.frontend.and_then(|place| plan.section(place)) {
        Some(section) => section.defaults == Some(defaults),
        None => false,
    }
}

/// Why a line of `defaults` is left out that a proxy has from there, and for which nothing else stands.
fn defaults_left(plan: &Plan, place: usize, words: &[Vec<u8>]) -> Told {
    let keyword = word_at(words, 0);
    if is_word(keyword, "default-server") {
        let loss = default_loss(words);
        return Told {
            why: loss.unwrap_or(Why::NoChecks),
            matters: loss.is_some(),
        };
    }
    let harmless = if is_word(keyword, "acl") {
        Some(Why::AclOfLostRule)
    } else if is_word(keyword, "mode") {
        Some(Why::SectionHeader)
    } else if is_word(keyword, "default_backend") {
        Some(Why::Overruled)
    } else if is_waiting(words) {
        Some(Why::InspectDelay)
    } else if phase_of(words).is_some_and(|phase| phase < 3) && !is_frontends(plan, place) {
        Some(Why::NotServed)
    } else {
        None
    };
    match harmless {
        Some(why) => Told {
            why,
            matters: false,
        },
        None => unlike(plan, false, words),
    }
}

/// What becomes of a line of `defaults`.
fn of_defaults_line(
    alloc: Global,
    plan: &Plan,
    place: usize,
    number: usize,
    line: &SourceLine,
) -> Result<Fate, NoMemory> {
    let words = line.words.as_slice();
    if rule_place(plan, number).is_some() {
        return of_rule(alloc, plan, number, line);
    }
    if begins(words, "acl", "") && has_rules_of(plan, place) {
        return left(alloc, FateKind::Moved, Why::MovedBelow);
    }
    if plan.names_backend == Some(number) {
        return left(alloc, FateKind::Moved, Why::MovedBelow);
    }
    if !is_inherited(plan, place) || kind_of(word_at(words, 0)).is_some() {
        return left(alloc, FateKind::Harmless, Why::SectionHeader);
    }
    of_left(alloc, defaults_left(plan, place, words))
}

/// Whether a line says how many connections there may be.
fn has_limit(plan: &Plan) -> bool {
    plan.lines
        .iter()
        .any(|line| begins(line.words.as_slice(), "maxconn", ""))
}

/// What becomes of a line of `global` for which no option stands.
fn of_global_line(alloc: Global, plan: &Plan, words: &[Vec<u8>]) -> Result<Fate, NoMemory> {
    let keyword = word_at(words, 0);
    if is_one_of(keyword, &["fd-hard-limit", "ulimit-n"]) && has_limit(plan) {
        return left(alloc, FateKind::Harmless, Why::LargerLimit);
    }
    if begins(words, "global", "") {
        return left(alloc, FateKind::Harmless, Why::ProcessSetting);
    }
    match keyword.strip_prefix(b"tune.".as_slice()) {
        Some(rest) => of_left(alloc, left_of(rest, &TUNE)),
        None => of_left(alloc, left_of(keyword, &GLOBAL)),
    }
}

/// What is said of a line for which options stand; nothing where none does.
fn option_note(
    alloc: Global,
    options: &[CommandOption],
    number: usize,
) -> Result<Vec<u8>, NoMemory> {
    let mut note = Vec::new(alloc);
    let mut count = 0usize;
    for option in options {
        if option.line == Some(number) {
            append_str(&mut note, option.flag)?;
            append_str(&mut note, " ")?;
            if let Some(value) = &option.value {
                append(&mut note, value.as_slice())?;
                append_str(&mut note, " ")?;
            }
            count = count.saturating_add(1);
        }
    }
    match count {
        0 => {}
        1 => append_str(&mut note, "stands for it")?,
        _ => append_str(&mut note, "stand for it")?,
    }
    Ok(note)
}

/// Whether a line is the first listener, or the server: where it is lost, its options stand for nothing.
fn is_needed(plan: &Plan, number: usize) -> bool {
    first_bind(plan) == Some(number) || kept_server(plan) == Some(number)
}

/// What becomes of a line, before options are asked.
fn of_line(
    alloc: Global,
    plan: &Plan,
    place: Option<usize>,
    number: usize,
    line: &SourceLine,
) -> Result<Fate, NoMemory> {
    if !line.is_whole {
        return left(alloc, FateKind::Lost, Why::UnreadableLine);
    }
    let words = line.words.as_slice();
    if words.is_empty() {
        return Ok(plain(alloc, FateKind::Kept));
    }
    if word_at(words, 0).first() == Some(&b'.') {
        let is_block = !begins(words, ".notice", "")
            && !begins(words, ".warning", "")
            && !begins(words, ".diag", "");
        let kind = if is_block {
            FateKind::Lost
        } else {
            FateKind::Harmless
        };
        return left(
            alloc,
            kind,
            if is_block {
                Why::Conditional
            } else {
                Why::NothingToSay
            },
        );
    }
    let Some(place) = place else {
        return left(alloc, FateKind::Lost, Why::UnknownKeyword);
    };
    let Some(section) = plan.section(place) else {
        return left(alloc, FateKind::Harmless, Why::NotServed);
    };
    match section.kind {
        Kind::Global => of_global_line(alloc, plan, words),
        Kind::Other => of_left(alloc, left_of(word_at(words, 0), &OTHER_SECTIONS)),
        Kind::Defaults => of_defaults_line(alloc, plan, place, number, line),
        Kind::Frontend | Kind::Backend | Kind::Listen => {
            if number == section.first {
                of_heading(alloc, plan, place, line)
            } else {
                of_proxy_line(alloc, plan, place, number, line)
            }
        }
    }
}

/// What becomes of a line.
fn fate_of(
    alloc: Global,
    plan: &Plan,
    options: &[CommandOption],
    place: Option<usize>,
    number: usize,
    line: &SourceLine,
) -> Result<Fate, NoMemory> {
    let mut fate = of_line(alloc, plan, place, number, line)?;
    let note = option_note(alloc, options, number)?;
    if !note.is_empty() && !stands(fate.kind) && !is_needed(plan, number) {
        fate = Fate {
            kind: FateKind::Carried,
            note,
            text: Vec::new(alloc),
            after: fate.after,
        };
    }
    add_rules(alloc, plan, number, &mut fate.after)?;
    Ok(fate)
}

/// What becomes of each line of a file, in order.
pub(crate) fn fates_of(
    alloc: Global,
    plan: &Plan,
    options: &[CommandOption],
) -> Result<Vec<Fate>, NoMemory> {
    let mut fates: Vec<Fate> = Vec::new(alloc);
    let mut place = None;
    for (number, line) in plan.lines.iter().enumerate() {
        if let Some(next) = section_at(plan, number) {
            place = Some(next);
        }
        fates.push(fate_of(alloc, plan, options, place, number, line)?)?;
    }
    if let Some(last) = fates.last_mut() {
        add_table_of_all(alloc, plan, &mut last.after)?;
    }
    Ok(fates)
}

/// The section that a line begins.
fn section_at(plan: &Plan, number: usize) -> Option<usize> {
    for (place, section) in plan.sections.iter().enumerate() {
        if section.first == number {
            return Some(place);
        }
    }
    None
}
