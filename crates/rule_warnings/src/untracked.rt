//! What a rule comes to for each connection whose slot tracks nothing; `limits` asks it.

ghost use Rattle.std.specs.Prelude.{◌≡◌, false, true};
ghost use Rattle.std.specs.List.{list_all, list_any};
ghost use Rattle.rule_warnings.specs.Untracked as spec;

use base_sequence::Sequence;
use rule_model::{Condition, Criterion, Measure, Rule, Slot, Term};

/// Whether two slots are one.
pub(crate) fn same_slot(slot: Slot, other: Slot) -> bool
    ensures { result ≡ spec.same_slot slot other }
{
    matches!(
        (slot, other),
        (Slot::Sc0, Slot::Sc0) | (Slot::Sc1, Slot::Sc1) | (Slot::Sc2, Slot::Sc2)
    )
}

/// Whether an integer is read through a slot.
pub(crate) fn is_read_through(slot: Slot, measure: &Measure) -> bool
    ensures { result ≡ spec.is_read_through slot measure.now }
{
    match measure {
        Measure::Tracked(read, _) => same_slot(*read, slot),
        Measure::Counted(read, _) => same_slot(*read, slot),
        Measure::SourcePort | Measure::DestinationPort | Measure::Source(_, _) => false,
    }
}

/// A value, or where it is negated its contrary.
fn unless_negated(negated: bool, value: bool) -> bool
    ensures { result ≡ spec.unless_negated negated value }
{
    if negated { !value } else { value }
}

/// Whether a criterion is sure to have this value.
fn criterion_is(slot: Slot, value: bool, criterion: &Criterion) -> bool
    ensures { result ≡ spec.criterion_is slot value criterion.now }
{
    match criterion {
        Criterion::Always(always) => !unless_negated(*always, value),
        Criterion::IsTracked(asked) => same_slot(*asked, slot) && !value,
        Criterion::Source(_) => false,
        Criterion::Matches(measure, _) => is_read_through(slot, measure) && !value,
    }
}

/// Whether one of some criteria is sure to hold.
fn one_holds(slot: Slot, criteria: &[Criterion]) -> bool
    ensures { result ≡ list_any (spec.criterion_is slot true) criteria.now }
{
    criteria
        .iter()
        .any(|criterion| criterion_is(slot, true, criterion))
}

/// Whether all of some criteria are sure to be false.
fn none_holds(slot: Slot, criteria: &[Criterion]) -> bool
    ensures { result ≡ list_all (spec.criterion_is slot false) criteria.now }
{
    criteria
        .iter()
        .all(|criterion| criterion_is(slot, false, criterion))
}

/// Whether a term is sure to have this value.
fn term_is(slot: Slot, value: bool, term: &Term) -> bool
    ensures { result ≡ spec.term_is slot value term.now }
{
    let criteria = term.criteria.as_slice();
    if unless_negated(term.negated, value) {
        one_holds(slot, criteria)
    } else {
        none_holds(slot, criteria)
    }
}

fn all_terms_hold(slot: Slot, terms: &[Term]) -> bool
    ensures { result ≡ list_all (spec.term_is slot true) terms.now }
{
    terms.iter().all(|term| term_is(slot, true, term))
}

fn one_term_fails(slot: Slot, terms: &[Term]) -> bool
    ensures { result ≡ list_any (spec.term_is slot false) terms.now }
{
    terms.iter().any(|term| term_is(slot, false, term))
}

/// Whether a conjunction is sure to have this value.
fn conjunction_is(slot: Slot, value: bool, terms: &[Term]) -> bool
    ensures { result ≡ spec.conjunction_is slot value terms.now }
{
    if value {
        all_terms_hold(slot, terms)
    } else {
        one_term_fails(slot, terms)
    }
}

fn one_conjunction_holds(slot: Slot, conjunctions: &[Sequence<Term>]) -> bool
    ensures { result ≡ list_any (spec.conjunction_is slot true) conjunctions.now }
{
    conjunctions
        .iter()
        .any(|terms| conjunction_is(slot, true, terms.as_slice()))
}

fn all_conjunctions_fail(slot: Slot, conjunctions: &[Sequence<Term>]) -> bool
    ensures { result ≡ list_all (spec.conjunction_is slot false) conjunctions.now }
{
    conjunctions
        .iter()
        .all(|terms| conjunction_is(slot, false, terms.as_slice()))
}

/// Whether a condition is sure to have this value.
fn condition_is(slot: Slot, value: bool, condition: &Condition) -> bool
    ensures { result ≡ spec.condition_is slot value condition.now }
{
    if value {
        one_conjunction_holds(slot, condition.as_slice())
    } else {
        all_conjunctions_fail(slot, condition.as_slice())
    }
}

/// Whether a rule's action is sure to be done, or with `false` sure not to be done.
pub(crate) fn rule_is_done(slot: Slot, value: bool, rule: &Rule) -> bool
    ensures { result ≡ spec.rule_is_done slot value rule.now }
{
    match &rule.condition {
        None => value,
        Some(condition) => condition_is(slot, unless_negated(rule.unless, value), condition),
    }
}
