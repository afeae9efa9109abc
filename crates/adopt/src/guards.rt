//! An `accept` of one phase, which doesn't end the rules of later ones; `rule_lines` leaves it out, and `rules` adds its terms.
//!
//! In HAProxy `tcp-request connection accept` ends the rules of `connection` alone, and those of `session` and `content` run all
//! the same. Here all rules run as one list. So such an `accept` is left out where rules of both its own phase and a later one
//! follow, and each of those that it kept off gets its condition, negated.

use crate::actions::condition_place;
use crate::conditions::{Condition, Term, acl_name, convert_condition};
use crate::criteria::behind_two;
use crate::keywords::is_one_of;
use crate::plan::{Plan, RuleAt, begins};
use crate::reasons::{Refusal, Why};
use crate::rules::{AcceptRole, accept_role, accepts};
use crate::texts::{Words, copy_words, is_word, word_at};
use base_sequence::NoMemory;
use std::alloc::Global;

/// What is asked of a connection and stays the same while its rules run.
const STEADY: [&str; 5] = ["src", "src_port", "dst_port", "always_true", "always_false"];

/// Whether all declarations of an ACL, which has this name in the frontend, ask what stays the same.
fn is_steady_acl(alloc: Global, plan: &Plan, origin: usize, name: &[u8]) -> Result<bool, NoMemory> {
    let Some(section) = plan.section(origin) else {
        return Ok(false);
    };
    for number in section.first..section.end {
        let words = plan.words(number);
        if !begins(words, "acl", "") || is_one_of(word_at(words, 2), &STEADY) {
            continue;
        }
        let written = acl_name(alloc, plan, origin, word_at(words, 1))?;
        if written.as_slice() == name {
            return Ok(false);
        }
    }
    Ok(true)
}

/// Whether a term asks what stays the same.
fn is_steady(alloc: Global, plan: &Plan, origin: usize, term: &Term) -> Result<bool, NoMemory> {
    let words = term.words.as_slice();
    if is_word(word_at(words, 0), "{") {
        return Ok(is_one_of(word_at(words, 1), &STEADY));
    }
    is_steady_acl(alloc, plan, origin, word_at(words, 0))
}

/// The terms of a condition's alternatives where each has one, negated.
fn negated_terms(alloc: Global, condition: &Condition) -> Result<Option<Vec<Term>>, NoMemory> {
    let mut terms = Vec::new(alloc);
    if condition.lost.is_some() {
        return Ok(None);
    }
    for alternative in &condition.alternatives {
        let [term] = alternative.as_slice() else {
            return Ok(None);
        };
        terms.push(Term {
            negated: !term.negated,
            words: copy_words(alloc, term.words.as_slice())?,
        })?;
    }
    Ok(Some(terms))
}

/// The words behind `if` in a rule's line, where it has that.
fn words_behind_if(words: &[Vec<u8>]) -> Option<&[Vec<u8>]> {
    let given = behind_two(words);
    let place = condition_place(given);
    if place >= given.len() || !is_word(word_at(given, place), "if") {
        return None;
    }
    let (_, rest) = given.split_at(place);
    let (_, others) = rest.split_first()?;
    Some(others)
}

/// The negated terms of an `accept` that is left out so. None where it can't be.
fn terms_of_accept(
    alloc: Global,
    plan: &Plan,
    rule: &RuleAt,
) -> Result<Option<Vec<Term>>, NoMemory> {
    let Some(words) = words_behind_if(plan.words(rule.line)) else {
        return Ok(None);
    };
    let condition = convert_condition(alloc, plan, rule, words)?;
    let Some(terms) = negated_terms(alloc, &condition)? else {
        return Ok(None);
    };
    for term in &terms {
        if !is_steady(alloc, plan, rule.origin, term)? {
            return Ok(None);
        }
    }
    Ok(Some(terms))
}

/// Whether the `accept` at a place is left out, and stands negated with the rules that it kept off.
pub(crate) fn is_spread(alloc: Global, plan: &Plan, place: usize) -> Result<bool, NoMemory> {
    let Some(rule) = plan.rules.get(place) else {
        return Ok(false);
    };
    if !accepts(plan, rule) || accept_role(plan, place) != AcceptRole::Splits {
        return Ok(false);
    }
    Ok(terms_of_accept(alloc, plan, rule)?.is_some())
}

/// The terms that the rule at a place needs, since an `accept` before it is left out.
pub(crate) fn guards_of(alloc: Global, plan: &Plan, place: usize) -> Result<Vec<Term>, NoMemory> {
    let mut guards = Vec::new(alloc);
    let Some(own) = plan.rules.get(place) else {
        return Ok(guards);
    };
    for (number, rule) in plan.rules.iter().enumerate() {
        if number >= place || rule.phase != own.phase || !is_spread(alloc, plan, number)? {
            continue;
        }
        let Some(terms) = terms_of_accept(alloc, plan, rule)? else {
            continue;
        };
        for term in terms {
            guards.push(term)?;
        }
    }
    Ok(guards)
}

fn copy_terms(alloc: Global, terms: &[Term]) -> Result<Vec<Term>, NoMemory> {
    let mut copies = Vec::new(alloc);
    for term in terms {
        let words: Words = copy_words(alloc, term.words.as_slice())?;
        copies.push(Term {
            negated: term.negated,
            words,
        })?;
    }
    Ok(copies)
}

/// One alternative: these terms, and then those.
fn both(alloc: Global, guards: &[Term], terms: Vec<Term>) -> Result<Vec<Term>, NoMemory> {
    let mut all = copy_terms(alloc, guards)?;
    for term in terms {
        all.push(term)?;
    }
    Ok(all)
}

/// A condition that also needs these terms. One behind `unless` has to have one term in each alternative, and comes out
/// as one behind `if`.
pub(crate) fn guarded(
    alloc: Global,
    guards: &[Term],
    condition: Condition,
    unless: bool,
) -> Result<Condition, Refusal> {
    let mut alternatives = Vec::new(alloc);
    if unless {
        let Some(terms) = negated_terms(alloc, &condition)? else {
            return Err(Refusal::Lost(Why::AcceptBefore));
        };
        alternatives.push(both(alloc, guards, terms)?)?;
        return Ok(Condition {
            alternatives,
            lost: None,
        });
    }
    let Condition {
        alternatives: given,
        lost,
    } = condition;
    for terms in given {
        alternatives.push(both(alloc, guards, terms)?)?;
    }
    Ok(Condition { alternatives, lost })
}
