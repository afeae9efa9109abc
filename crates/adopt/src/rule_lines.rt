//! What becomes of lines with rules; `fates` and `proxy_lines` call it, and `headings` asks what is written of a rule.

use crate::actions::is_idle;
use crate::fates::{Fate, FateKind, left, stands};
use crate::guards::is_spread;
use crate::headers::{hears_told, is_carried};
use crate::lexer::SourceLine;
use crate::plan::Plan;
use crate::reasons::{Refusal, Why};
use crate::rules::{AcceptRole, Converted, accept_role, accepts, convert_rule, rule_place};
use crate::standing::{added, of_converted, written};
use crate::texts::{Words, word_at};
use crate::waits::waits;
use base_sequence::NoMemory;
use std::alloc::Global;

/// The rule at a place as it is written. None where it isn't.
pub(crate) fn written_rule(
    alloc: Global,
    plan: &Plan,
    place: usize,
) -> Result<Option<Converted>, NoMemory> {
    let Some(line) = plan
        .rules
        .get(place)
        .and_then(|rule| plan.lines.get(rule.line))
    else {
        return Ok(None);
    };
    let fate = rule_fate(alloc, plan, place, line)?;
    if !stands(fate.kind) {
        return Ok(None);
    }
    match convert_rule(alloc, plan, place) {
        Ok(converted) => Ok(Some(converted)),
        Err(Refusal::OutOfMemory) => Err(NoMemory),
        Err(Refusal::Lost(_)) => Ok(None),
    }
}

/// What becomes of a rule that holds a connection until a delay is over: it stands, and decides at once.
fn of_waiting(
    alloc: Global,
    plan: &Plan,
    place: usize,
    line: &SourceLine,
) -> Result<Fate, NoMemory> {
    match convert_rule(alloc, plan, place) {
        Ok(converted) => written(
            alloc,
            line,
            converted.words.as_slice(),
            Some(Why::NobodyWaits),
        ),
        Err(refusal) => of_converted(alloc, line, Err(refusal)),
    }
}

/// What becomes of the rule at a place.
fn rule_fate(
    alloc: Global,
    plan: &Plan,
    place: usize,
    line: &SourceLine,
) -> Result<Fate, NoMemory> {
    let Some(rule) = plan.rules.get(place) else {
        return left(alloc, FateKind::Harmless, Why::NotServed);
    };
    if is_idle(word_at(plan.words(rule.line), 2)) {
        return left(alloc, FateKind::Harmless, Why::NothingToSay);
    }
    if is_carried(alloc, plan, place)? {
        return left(alloc, FateKind::Carried, Why::ProxiesNamed);
    }
    if waits(plan, rule) {
        return of_waiting(alloc, plan, place, line);
    }
    let given = convert_rule(alloc, plan, place);
    if !accepts(plan, rule) {
        return of_converted(alloc, line, given);
    }
    if is_spread(alloc, plan, place)? {
        return if hears_told(plan, rule) {
            left(alloc, FateKind::Lost, Why::ToldAddress)
        } else {
            left(alloc, FateKind::Moved, Why::SpreadAccept)
        };
    }
    match accept_role(plan, place) {
        AcceptRole::Ends => of_converted(alloc, line, given),
        AcceptRole::Passes => left(alloc, FateKind::Harmless, Why::DecidesNothing),
        AcceptRole::Splits => match given {
            Ok(converted) => written(
                alloc,
                line,
                converted.words.as_slice(),
                Some(Why::AcceptBefore),
            ),
            Err(refusal) => of_converted(alloc, line, Err(refusal)),
        },
        AcceptRole::Idle if rule.phase > 1 => left(alloc, FateKind::Harmless, Why::DecidesNothing),
        AcceptRole::Idle => match given {
            Ok(converted) => written(alloc, line, converted.words.as_slice(), converted.altered),
            Err(Refusal::OutOfMemory) => Err(NoMemory),
            Err(Refusal::Lost(_)) => left(alloc, FateKind::Harmless, Why::DecidesNothing),
        },
    }
}

/// Adds the rules that have to stand behind a line.
pub(crate) fn add_rules(
    alloc: Global,
    plan: &Plan,
    number: usize,
    lines: &mut Words,
) -> Result<(), NoMemory> {
    for (place, rule) in plan.rules.iter().enumerate() {
        if rule.place != number || rule.line == number {
            continue;
        }
        if let Some(converted) = written_rule(alloc, plan, place)? {
            lines.push(added(alloc, converted.words.as_slice())?)?;
        }
    }
    Ok(())
}

/// What becomes of a line with a rule.
pub(crate) fn of_rule(
    alloc: Global,
    plan: &Plan,
    number: usize,
    line: &SourceLine,
) -> Result<Fate, NoMemory> {
    let Some(place) = rule_place(plan, number) else {
        return left(alloc, FateKind::Harmless, Why::NotServed);
    };
    let stays = match plan.rules.get(place) {
        Some(rule) => rule.place == number,
        None => true,
    };
    let fate = rule_fate(alloc, plan, place, line)?;
    if stays || !stands(fate.kind) {
        return Ok(fate);
    }
    if fate.kind == FateKind::Altered {
        // What stands elsewhere means less, so the loss is said here.
        return Ok(Fate {
            kind: FateKind::Lost,
            note: fate.note,
            text: Vec::new(alloc),
            after: Vec::new(alloc),
        });
    }
    left(alloc, FateKind::Moved, Why::MovedBelow)
}
