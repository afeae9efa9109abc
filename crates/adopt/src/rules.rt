//! Rules in stickd's spelling, and the order in which they run; `rule_lines` converts by it, and `choices` plans by it.

use crate::actions::{add_words, condition_place, convert_action, is_idle, tracked_slot};
use crate::calls::slot_of;
use crate::conditions::{Condition, Term, add_condition, convert_condition};
use crate::criteria::behind_two;
use crate::guards::{guarded, guards_of};
use crate::headers::hears_told;
use crate::lexer::SourceLine;
use crate::plan::{Plan, RuleAt, Track, begins};
use crate::reasons::{Refusal, Why};
use crate::sections::{Kind, Section};
use crate::texts::{Words, is_word, text_of, word_at};
use crate::waits::misses_count;
use base_sequence::NoMemory;
use std::alloc::Global;

/// The phase of the backend's rules `content`.
const LAST_PHASE: u8 = 4;

/// A rule in stickd's spelling.
#[derive(Drop)]
pub(crate) struct Converted {
    pub words: Words,
    /// What is lost by it, if anything.
    pub altered: Option<Why>,
}

/// The phase of a rule: 1 for `connection`, 2 for `session`, 3 for `content`. None for other lines.
pub(crate) fn phase_of(words: &[Vec<u8>]) -> Option<u8> {
    if !is_word(word_at(words, 0), "tcp-request") {
        return None;
    }
    let kind = word_at(words, 1);
    if is_word(kind, "connection") {
        return Some(1);
    }
    if is_word(kind, "session") {
        return Some(2);
    }
    if is_word(kind, "content") {
        return Some(3);
    }
    None
}

/// The words of a rule without its condition.
fn start_rule(alloc: Global, action: &[Vec<u8>]) -> Result<Words, NoMemory> {
    let mut words = Vec::new(alloc);
    words.push(text_of(alloc, "tcp-request")?)?;
    words.push(text_of(alloc, "connection")?)?;
    add_words(alloc, &mut words, action)?;
    Ok(words)
}

/// A condition that can stand: an alternative that is lost takes `unless` with it.
fn usable(condition: Condition, unless: bool) -> Result<Condition, Refusal> {
    if let Some(why) = condition.lost
        && (unless || condition.alternatives.is_empty())
    {
        return Err(Refusal::Lost(why));
    }
    Ok(condition)
}

/// A rule's condition: the words behind `if` or `unless`, or nothing.
fn condition_of(
    alloc: Global,
    plan: &Plan,
    rule: &RuleAt,
    given: &[Vec<u8>],
    used: usize,
) -> Result<Option<(bool, Condition)>, Refusal> {
    if given.len() <= used {
        return Ok(None);
    }
    let Some((keyword, rest)) = rest_of(given, used) else {
        return Err(Refusal::Lost(Why::UnknownAction));
    };
    let unless = is_word(keyword, "unless");
    if !unless && !is_word(keyword, "if") {
        return Err(Refusal::Lost(Why::UnknownAction));
    }
    let condition = usable(convert_condition(alloc, plan, rule, rest)?, unless)?;
    Ok(Some((unless, condition)))
}

/// A condition with the terms that it needs besides.
fn with_guards(
    alloc: Global,
    guards: Vec<Term>,
    given: Option<(bool, Condition)>,
) -> Result<Option<(bool, Condition)>, Refusal> {
    if guards.is_empty() {
        return Ok(given);
    }
    let Some((unless, condition)) = given else {
        let mut alternatives = Vec::new(alloc);
        alternatives.push(guards)?;
        return Ok(Some((
            false,
            Condition {
                alternatives,
                lost: None,
            },
        )));
    };
    Ok(Some((false, guarded(alloc, guards.as_slice(), condition, unless)?)))
}

/// A rule in stickd's spelling.
pub(crate) fn convert_rule(alloc: Global, plan: &Plan, place: usize) -> Result<Converted, Refusal> {
    let Some(rule) = plan.rules.get(place) else {
        return Err(Refusal::Lost(Why::NotServed));
    };
    let given = behind_two(plan.words(rule.line));
    let action = convert_action(alloc, plan, rule, given)?;
    let mut words = start_rule(alloc, action.words.as_slice())?;
    let lost = if hears_told(plan, rule) {
        Some(Why::ToldAddress)
    } else if misses_count(plan, rule) {
        Some(Why::UncountedSessions)
    } else {
        action.altered
    };
    let own = condition_of(alloc, plan, rule, given, action.used)?;
    let Some((unless, condition)) = with_guards(alloc, guards_of(alloc, plan, place)?, own)? else {
        return Ok(Converted {
            words,
            altered: lost,
        });
    };
    words.push(text_of(alloc, if unless { "unless" } else { "if" })?)?;
    add_condition(alloc, &condition, &mut words)?;
    let altered = match condition.lost {
        Some(_) => Some(Why::PartOfCondition),
        None => lost,
    };
    Ok(Converted { words, altered })
}

/// The word at a place, and those behind it.
fn rest_of(words: &[Vec<u8>], place: usize) -> Option<(&[u8], &[Vec<u8>])> {
    if place >= words.len() {
        return None;
    }
    let (_, rest) = words.split_at(place);
    let (first, others) = rest.split_first()?;
    Some((first.as_slice(), others))
}

/// What a rule's place among the others makes of an `accept`.
#[derive(Clone, Copy, PartialEq, Eq)]
pub(crate) enum AcceptRole {
    /// It ends the rules, as in HAProxy.
    Ends,
    /// Nothing comes that it would keep off.
    Idle,
    /// Only rules of a later phase come, which it doesn't keep off in HAProxy.
    Passes,
    /// It keeps off rules of its own phase, but none of a later one.
    Splits,
}

/// Whether a rule accepts.
pub(crate) fn accepts(plan: &Plan, rule: &RuleAt) -> bool {
    is_word(word_at(plan.words(rule.line), 2), "accept")
}

/// Whether a rule decides or counts something beside accepting.
fn acts(plan: &Plan, rule: &RuleAt) -> bool {
    !accepts(plan, rule) && !is_idle(word_at(plan.words(rule.line), 2))
}

/// What the rule at this place makes of an `accept`.
pub(crate) fn accept_role(plan: &Plan, place: usize) -> AcceptRole {
    let Some(rule) = plan.rules.get(place) else {
        return AcceptRole::Ends;
    };
    let mut same = false;
    let mut later = false;
    for (number, other) in plan.rules.iter().enumerate() {
        if number > place && acts(plan, other) {
            if other.phase == rule.phase {
                same = true;
            } else {
                later = true;
            }
        }
    }
    match (same, later) {
        (false, false) => AcceptRole::Idle,
        (false, true) => AcceptRole::Passes,
        (true, false) => AcceptRole::Ends,
        (true, true) => AcceptRole::Splits,
    }
}

/// The last line of a section with a rule of a phase before this one, or its first line.
fn place_for(lines: &[SourceLine], section: &Section, phase: u8) -> usize {
    let mut place = section.first;
    for (number, line) in lines.iter().enumerate() {
        if number > section.first
            && number < section.end
            && phase_of(line.words.as_slice()).is_some_and(|other| other < phase)
        {
            place = number;
        }
    }
    place
}

/// Where the rules of a section stand.
#[derive(Clone, Copy)]
struct Source {
    section: usize,
    /// Whether it is the frontend itself.
    is_own: bool,
}

/// Adds the rules of this phase of a section.
fn add_rules(
    lines: &[SourceLine],
    sections: &[Section],
    frontend: &Section,
    source: Source,
    phase: u8,
    rules: &mut Vec<RuleAt>,
) -> Result<(), NoMemory> {
    let Some(section) = sections.get(source.section) else {
        return Ok(());
    };
    // Rules of the backend run once those of the frontend are over, whichever of these accepts.
    let is_later = !source.is_own && section.kind != Kind::Defaults;
    let turn = if is_later { LAST_PHASE } else { phase };
    let place = place_for(lines, frontend, turn);
    for (number, line) in lines.iter().enumerate() {
        if number <= section.first
            || number >= section.end
            || phase_of(line.words.as_slice()) != Some(phase)
        {
            continue;
        }
        let stays = source.is_own && number > place;
        rules.push(RuleAt {
            line: number,
            origin: source.section,
            phase: turn,
            place: if stays { number } else { place },
        })?;
    }
    Ok(())
}

/// The rules that run for a frontend and its backend, in their order.
pub(crate) fn rules_of(
    alloc: Global,
    lines: &[SourceLine],
    sections: &[Section],
    frontend: usize,
    backend: Option<usize>,
) -> Result<Vec<RuleAt>, NoMemory> {
    let mut rules = Vec::new(alloc);
    let Some(section) = sections.get(frontend) else {
        return Ok(rules);
    };
    for phase in 1..4u8 {
        if let Some(defaults) = section.defaults {
            let source = Source {
                section: defaults,
                is_own: false,
            };
            add_rules(lines, sections, section, source, phase, &mut rules)?;
        }
        let source = Source {
            section: frontend,
            is_own: true,
        };
        add_rules(lines, sections, section, source, phase, &mut rules)?;
    }
    let Some(backend) = backend else {
        return Ok(rules);
    };
    if backend != frontend {
        let source = Source {
            section: backend,
            is_own: false,
        };
        add_rules(lines, sections, section, source, 3, &mut rules)?;
    }
    Ok(rules)
}

/// The section of this name that has a table.
fn table_place(sections: &[Section], name: &[u8]) -> Option<usize> {
    for (place, section) in sections.iter().enumerate() {
        if section.has_table && section.name.as_slice() == name {
            return Some(place);
        }
    }
    None
}

/// What a rule's words track, if anything.
pub(crate) fn track_of(sections: &[Section], words: &[Vec<u8>], origin: usize) -> Option<Track> {
    let given = behind_two(words);
    let slot = match slot_of(tracked_slot(word_at(given, 0))?) {
        Ok(slot) => slot,
        Err(_) => return None,
    };
    let key = word_at(given, 1);
    let table = if is_word(word_at(given, 2), "table") {
        sections.iter().position(|section| section.has_table
            && section.name.as_slice() == word_at(given, 3))
    } else {
        Some(origin)
    };
    Some(Track {
        slot,
        table,
        is_source: is_word(key, "src") || key.starts_with(b"src,".as_slice()),
        is_sure: condition_place(given) == given.len(),
    })
}

/// Whether a line of a section is a rule of what is served.
pub(crate) fn rule_place(plan: &Plan, line: usize) -> Option<usize> {
    for (place, rule) in plan.rules.iter().enumerate() {
        if rule.line == line {
            return Some(place);
        }
    }
    None
}

/// Whether a line begins with a rule that only waits.
pub(crate) fn is_waiting(words: &[Vec<u8>]) -> bool {
    begins(words, "tcp-request", "inspect-delay") || begins(words, "tcp-response", "inspect-delay")
}
