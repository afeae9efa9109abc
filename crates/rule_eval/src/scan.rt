//! Where an evaluation waits next; `evaluation` calls it after each answer.
//!
//! A connection is judged by a few criteria, at each of which such small functions hand a place on. Inlined, they copy none.
ghost use Rattle.std.specs.Prelude.{◌≡◌, ◌≤◌, ◌+◌, true, List, length};
ghost use Rattle.rule_eval.specs.Course.{Leads, LeadsWithin, conjunction_end, term_end, criteria_end, criterion_end, rule_end, point_course, is_ready};
ghost use Rattle.rule_eval.specs.Left.{criteria_in, criteria_of, place_left, point_left, rules_size, scan_left};
ghost use Rattle.rule_eval.specs.Verdict.{any_criterion, all_terms, any_conjunction, rules_course};
ghost use Rattle.rule_eval.specs.declared.wants.Answer.{Answer};

use crate::Verdict;
use crate::case::Case;
use crate::measures::{effect, judge};
use crate::questions::{Effect, Found, Question, Request};
use base_sequence::Sequence;
use rule_model::{Action, Criterion, Rule, Term};

/// A criterion that asks, and what follows it in its condition.
#[derive(Clone, Copy)]
pub(crate) struct Place<'a> {
    pub criterion: &'a Criterion,
    /// The other criteria of its term.
    pub criteria: &'a [Criterion],
    /// Whether the term is negated.
    pub negated: bool,
    /// The other terms of its conjunction.
    pub terms: &'a [Term],
    /// The other conjunctions.
    pub conjunctions: &'a [Sequence<Term>],
}

/// What looking through a condition comes to.
#[derive(Clone, Copy)]
pub(crate) enum Scan<'a> {
    Asks(Question, Place<'a>),
    Is(bool),
}

/// Where an evaluation waits.
#[derive(Clone, Copy)]
pub(crate) enum Point<'a> {
    /// For a criterion of a rule's condition; other rules follow.
    Condition {
        question: Question,
        place: Place<'a>,
        rule: &'a Rule,
        rules: &'a [Rule],
    },
    /// For a rule's action; other rules follow.
    Action {
        request: Request<'a>,
        rules: &'a [Rule],
    },
    Done(Verdict),
}

/// Looks for the first criterion that asks, or one that holds.
#[inline(always)]
fn scan_criteria<'a>(
    case: &Case<'_>,
    criteria: &'a [Criterion],
    negated: bool,
    terms: &'a [Term],
    conjunctions: &'a [Sequence<Term>],
) -> Scan<'a>
    ensures course { LeadsWithin case.now.setup.now case.now.samples case.now.slots result
        (any_criterion case.now.setup.now case.now.samples case.now.slots criteria.now)
        (criteria_end case.now.setup.now case.now.samples case.now.slots negated terms.now conjunctions.now) }
    ensures left { scan_left result ≤ length criteria.now + (criteria_in terms.now + criteria_of conjunctions.now) }
{
    let mut rest = criteria;
    while let Some((criterion, more)) = rest.split_first() {
        match judge(case, criterion) {
            Found::Asks(question) => {
                let place = Place {
                    criterion,
                    criteria: more,
                    negated,
                    terms,
                    conjunctions,
                };
                return Scan::Asks(question, place);
            }
            Found::Known(true) => return Scan::Is(true),
            Found::Known(false) => rest = more,
        }
    }
    Scan::Is(false)
}

/// Looks for the first criterion that asks, or a term that doesn't hold.
#[inline(always)]
fn scan_terms<'a>(
    case: &Case<'_>,
    terms: &'a [Term],
    conjunctions: &'a [Sequence<Term>],
) -> Scan<'a>
    ensures course { LeadsWithin case.now.setup.now case.now.samples case.now.slots result
        (all_terms case.now.setup.now case.now.samples case.now.slots terms.now)
        (conjunction_end case.now.setup.now case.now.samples case.now.slots conjunctions.now) }
    ensures left { scan_left result ≤ criteria_in terms.now + criteria_of conjunctions.now }
{
    let mut rest = terms;
    while let Some((term, more)) = rest.split_first() {
        let criteria = term.criteria.as_slice();
        match scan_criteria(case, criteria, term.negated, more, conjunctions) {
            Scan::Asks(question, place) => return Scan::Asks(question, place),
            Scan::Is(any) => {
                if any == term.negated {
                    return Scan::Is(false);
                }
            }
        }
        rest = more;
    }
    Scan::Is(true)
}

/// Looks for the first criterion that asks, or a conjunction that holds.
#[inline(always)]
fn scan_conjunctions<'a>(case: &Case<'_>, conjunctions: &'a [Sequence<Term>]) -> Scan<'a>
    ensures course { Leads case.now.setup.now case.now.samples case.now.slots result
        (any_conjunction case.now.setup.now case.now.samples case.now.slots conjunctions.now) }
    ensures left { scan_left result ≤ criteria_of conjunctions.now }
{
    let mut rest = conjunctions;
    while let Some((terms, more)) = rest.split_first() {
        match scan_terms(case, terms.as_slice(), more) {
            Scan::Asks(question, place) => return Scan::Asks(question, place),
            Scan::Is(true) => return Scan::Is(true),
            Scan::Is(false) => rest = more,
        }
    }
    Scan::Is(false)
}

/// What follows a term that holds or doesn't.
#[inline(always)]
fn after_term<'a>(
    case: &Case<'_>,
    holds: bool,
    terms: &'a [Term],
    conjunctions: &'a [Sequence<Term>],
) -> Scan<'a>
    ensures course { Leads case.now.setup.now case.now.samples case.now.slots result
        (λ after. term_end case.now.setup.now case.now.samples case.now.slots terms.now conjunctions.now after holds) }
    ensures left { scan_left result ≤ criteria_in terms.now + criteria_of conjunctions.now }
{
    if !holds {
        return scan_conjunctions(case, conjunctions);
    }
    match scan_terms(case, terms, conjunctions) {
        Scan::Asks(question, place) => Scan::Asks(question, place),
        Scan::Is(true) => Scan::Is(true),
        Scan::Is(false) => scan_conjunctions(case, conjunctions),
    }
}

/// What follows a criterion that holds or doesn't.
#[inline(always)]
pub(crate) fn after_criterion<'a>(case: &Case<'_>, place: Place<'a>, holds: bool) -> Scan<'a>
    ensures course { Leads case.now.setup.now case.now.samples case.now.slots result
        (λ after. criterion_end case.now.setup.now case.now.samples case.now.slots place.entry after holds) }
    ensures left { scan_left result ≤ place_left place.entry }
{
    let any = if holds {
        true
    } else {
        match scan_criteria(
            case,
            place.criteria,
            place.negated,
            place.terms,
            place.conjunctions,
        ) {
            Scan::Asks(question, place) => return Scan::Asks(question, place),
            Scan::Is(any) => any,
        }
    };
    after_term(case, any != place.negated, place.terms, place.conjunctions)
}

/// Where rules wait first.
pub(crate) fn scan_rules<'a>(case: &Case<'_>, rules: &'a [Rule]) -> Point<'a>
    ensures ready { is_ready case.now.setup.now case.now.samples case.now.slots result ≡ true }
    ensures course { (answers : List Answer) → point_course case.now.setup.now case.now.samples case.now.slots result answers
        ≡ rules_course case.now.setup.now case.now.samples rules.now case.now.slots answers }
    ensures left { point_left result ≤ rules_size rules.now }
{
    let mut rest = rules;
    while let Some((rule, more)) = rest.split_first() {
        let applies = match &rule.condition {
            None => true,
            Some(conjunctions) => match scan_conjunctions(case, conjunctions.as_slice()) {
                Scan::Asks(question, place) => {
                    return Point::Condition {
                        question,
                        place,
                        rule,
                        rules: more,
                    };
                }
                Scan::Is(holds) => holds != rule.unless,
            },
        };
        if applies {
            match effect(case, &rule.action) {
                Effect::Asks(request) => {
                    return Point::Action {
                        request,
                        rules: more,
                    };
                }
                Effect::Ends(verdict) => return Point::Done(verdict),
                Effect::Nothing => {}
            }
        }
        rest = more;
    }
    Point::Done(Verdict::Accept)
}

/// What follows a rule that applies or doesn't.
#[inline(always)]
pub(crate) fn after_rule<'a>(
    case: &Case<'_>,
    applies: bool,
    action: &'a Action,
    rules: &'a [Rule],
) -> Point<'a>
    ensures ready { is_ready case.now.setup.now case.now.samples case.now.slots result ≡ true }
    ensures course { (answers : List Answer) → point_course case.now.setup.now case.now.samples case.now.slots result answers
        ≡ rule_end case.now.setup.now case.now.samples case.now.slots action.now rules.now applies answers }
    ensures left { point_left result ≤ 1 + rules_size rules.now }
{
    if !applies {
        return scan_rules(case, rules);
    }
    match effect(case, action) {
        Effect::Asks(request) => Point::Action { request, rules },
        Effect::Ends(verdict) => Point::Done(verdict),
        Effect::Nothing => scan_rules(case, rules),
    }
}
