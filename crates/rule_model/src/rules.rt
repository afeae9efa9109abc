//! Rules and their conditions; `rule_config` makes them, and `rule_eval` and `rule_warnings` go over them.
ghost use Rattle.std.specs.Prelude.{◌≡◌, IfOk};

use crate::{Action, Criterion};
use base_sequence::{NoMemory, Sequence};
use std::alloc::Global;

/// An ACL's name, or a criterion in braces: it holds where one of its criteria does, and with `!` where none does.
#[derive(Drop)]
pub struct Term {
    pub negated: bool,
    /// The criteria that it stands for: the declarations of the ACL, in order, or the one in braces.
    pub criteria: Sequence<Criterion>,
}

/// Conjunctions, one of which has to hold; a conjunction holds where all its terms do.
pub type Condition = Sequence<Sequence<Term>>;

/// A line `tcp-request connection`.
#[derive(Drop)]
pub struct Rule {
    pub action: Action,
    /// Whether it is done `unless` the condition holds.
    pub unless: bool,
    /// None, where it is always done.
    pub condition: Option<Condition>,
}

fn copy_criteria(alloc: Global, criteria: &[Criterion]) -> Result<Sequence<Criterion>, NoMemory>
    ensures { IfOk result (λ copied. copied ≡ criteria.now) }
{
    let mut copied = Sequence::new(alloc);
    for criterion in criteria {
        copied.push(criterion.copy()?)?;
    }
    Ok(copied)
}

impl Term {
    /// An equal term.
    pub(crate) fn copy(&self, alloc: Global) -> Result<Term, NoMemory>
        ensures { IfOk result (λ term. term ≡ self.now) }
    {
        Ok(Term {
            negated: self.negated,
            criteria: copy_criteria(alloc, self.criteria.as_slice())?,
        })
    }
}

fn copy_terms(alloc: Global, terms: &[Term]) -> Result<Sequence<Term>, NoMemory>
    ensures { IfOk result (λ copied. copied ≡ terms.now) }
{
    let mut copied = Sequence::new(alloc);
    for term in terms {
        copied.push(term.copy(alloc)?)?;
    }
    Ok(copied)
}

fn copy_conjunctions(alloc: Global, conjunctions: &[Sequence<Term>]) -> Result<Condition, NoMemory>
    ensures { IfOk result (λ copied. copied ≡ conjunctions.now) }
{
    let mut copied = Sequence::new(alloc);
    for terms in conjunctions {
        copied.push(copy_terms(alloc, terms.as_slice())?)?;
    }
    Ok(copied)
}

fn copy_condition(
    alloc: Global,
    condition: &Option<Condition>,
) -> Result<Option<Condition>, NoMemory>
    ensures { IfOk result (λ copied. copied ≡ condition.now) }
{
    match condition {
        Some(conjunctions) => Ok(Some(copy_conjunctions(alloc, conjunctions.as_slice())?)),
        None => Ok(None),
    }
}

impl Rule {
    /// An equal rule.
    pub(crate) fn copy(&self, alloc: Global) -> Result<Rule, NoMemory>
        ensures { IfOk result (λ rule. rule ≡ self.now) }
    {
        let action = self.action.copy()?;
        let condition = copy_condition(alloc, &self.condition)?;
        Ok(Rule {
            action,
            unless: self.unless,
            condition,
        })
    }
}
