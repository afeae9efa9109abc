//! Which rules limit what a slot tracks, and which turn away what it doesn't track; `room`, `no_effect` and `warnings` ask it.

ghost use Rattle.std.specs.Prelude.{◌≡◌};
ghost use Rattle.std.specs.List.{list_any};
ghost use Rattle.rule_warnings.specs.Limits as spec;

use crate::untracked::{is_read_through, rule_is_done, same_slot};
use base_sequence::Sequence;
use rule_model::{Action, Condition, Criterion, Rule, Slot, Term};

fn is_reject(action: &Action) -> bool
    ensures { result ≡ spec.is_reject action.now }
{
    matches!(action, Action::Reject)
}

/// Whether an action ends with a verdict.
fn is_verdict(action: &Action) -> bool
    ensures { result ≡ spec.is_verdict action.now }
{
    matches!(action, Action::Accept | Action::Reject)
}

/// What is looked for in a condition.
#[derive(Clone, Copy)]
enum Sought {
    /// What reads a datum through a slot.
    Reads(Slot),
    /// What asks whether a slot tracks.
    Asks(Slot),
}

fn finds(sought: Sought, criterion: &Criterion) -> bool
    ensures { result ≡ spec.finds sought criterion.now }
{
    match (sought, criterion) {
        (Sought::Reads(slot), Criterion::Matches(measure, _)) => is_read_through(slot, measure),
        (Sought::Asks(slot), Criterion::IsTracked(asked)) => same_slot(*asked, slot),
        _ => false,
    }
}

fn term_has(sought: Sought, term: &Term) -> bool
    ensures { result ≡ spec.term_has sought term.now }
{
    term.criteria
        .as_slice()
        .iter()
        .any(|criterion| finds(sought, criterion))
}

fn terms_have(sought: Sought, terms: &[Term]) -> bool
    ensures { result ≡ spec.terms_have sought terms.now }
{
    terms.iter().any(|term| term_has(sought, term))
}

fn conjunctions_have(sought: Sought, conjunctions: &[Sequence<Term>]) -> bool
    ensures { result ≡ list_any (spec.terms_have sought) conjunctions.now }
{
    conjunctions
        .iter()
        .any(|terms| terms_have(sought, terms.as_slice()))
}

/// Whether what is sought stands in a condition.
fn condition_has(sought: Sought, condition: &Option<Condition>) -> bool
    ensures { result ≡ spec.condition_has sought condition.now }
{
    match condition {
        None => false,
        Some(conjunctions) => conjunctions_have(sought, conjunctions.as_slice()),
    }
}

/// Whether a rule rejects by what it reads through a slot.
fn limits_by(slot: Slot, rule: &Rule) -> bool
    ensures { result ≡ spec.limits_by slot rule.now }
{
    is_reject(&rule.action) && condition_has(Sought::Reads(slot), &rule.condition)
}

/// Whether a rule is sure to judge what a slot doesn't track.
#[tactic(auto, unfolding(crate::specs::Limits::is_sure))]
fn is_sure(slot: Slot, rule: &Rule) -> bool
    ensures { result ≡ spec.is_sure slot rule.now }
{
    is_verdict(&rule.action) && rule_is_done(slot, true, rule)
}

/// Whether the first rule that is sure to judge what a slot doesn't track rejects it.
fn turns_away(slot: Slot, rules: &[Rule]) -> bool
    ensures { result ≡ spec.turns_away slot rules.now }
{
    for rule in rules {
        if is_sure(slot, rule) {
            return is_reject(&rule.action);
        }
    }
    false
}

/// Whether a rule asks whether a slot tracks, and may reject where it doesn't.
fn may_turn_away(slot: Slot, rule: &Rule) -> bool
    ensures { result ≡ spec.may_turn_away slot rule.now }
{
    is_reject(&rule.action)
        && condition_has(Sought::Asks(slot), &rule.condition)
        && !rule_is_done(slot, false, rule)
}

/// Whether an action tracks by a slot in the table of a name.
fn tracks_in(name: &[u8], slot: Slot, action: &Action) -> bool
    ensures { result ≡ spec.tracks_in name.now slot action.now }
{
    match action {
        Action::Track {
            slot: tracking,
            key: _,
            table,
        } => same_slot(*tracking, slot) && table.as_slice() == name,
        _ => false,
    }
}

/// Whether a rule tracks by a slot in the table of a name.
pub(crate) fn is_tracked(name: &[u8], slot: Slot, rules: &[Rule]) -> bool
    ensures { result ≡ spec.is_tracked name.now slot rules.now }
{
    rules.iter().any(|rule| tracks_in(name, slot, &rule.action))
}

/// Whether a rule does so under no condition.
pub(crate) fn is_always_tracked(name: &[u8], slot: Slot, rules: &[Rule]) -> bool
    ensures { result ≡ spec.is_always_tracked name.now slot rules.now }
{
    rules.iter().any(|rule| tracks_in(name, slot, &rule.action) && !rule.condition.is_some())
}

fn has_limit(slot: Slot, rules: &[Rule]) -> bool
    ensures { result ≡ list_any (spec.limits_by slot) rules.now }
{
    rules.iter().any(|rule| limits_by(slot, rule))
}

fn one_may_turn_away(slot: Slot, rules: &[Rule]) -> bool
    ensures { result ≡ list_any (spec.may_turn_away slot) rules.now }
{
    rules.iter().any(|rule| may_turn_away(slot, rule))
}

/// Whether a rule turns away what a slot doesn't track in the table of a name.
pub(crate) fn is_guarded(name: &[u8], slot: Slot, rules: &[Rule]) -> bool
    ensures { result ≡ spec.is_guarded name.now slot rules.now }
{
    turns_away(slot, rules)
        || (!is_always_tracked(name, slot, rules) && one_may_turn_away(slot, rules))
}

/// Whether rules limit by a slot what it tracks in the table of a name, and let in what it doesn't track.
pub(crate) fn passes_untracked(name: &[u8], slot: Slot, rules: &[Rule]) -> bool
    ensures { result ≡ spec.passes_untracked name.now slot rules.now }
{
    is_tracked(name, slot, rules) && has_limit(slot, rules) && !is_guarded(name, slot, rules)
}
