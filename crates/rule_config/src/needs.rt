//! What lines need of the whole file; `reading` notes it, and `read_config` looks for it behind all lines.

ghost use Rattle.std.specs.Prelude.{◌≡◌, ◌++◌, ◌&&◌, OnOk, is_some, not, MatchOption, Some, None};
ghost use Rattle.std.specs.List.{find, flat_map, list_any};
ghost use Rattle.std.specs.Option.{option_map};
ghost use Rattle.rule_config.specs.declared.needs.Need.{Need};
ghost use Rattle.std.specs.Str.{bytes_eq};
ghost use Rattle.rule_model.specs.Served.{has_backend as specified_backend};
ghost use Rattle.rule_words.specs.Conditions.{tables_of};
ghost use Rattle.rule_config.specs.Config.{is_declared as specified};
ghost use Rattle.rule_config.specs.Lines.{action_needs, condition_needs, criteria_needs, needs_of, needs_tables, terms_needs};

use crate::statements::Statement;
use base_sequence::{NoMemory, Sequence};
use rule_model::{Action, Condition, Criterion, Name, Section, Term};
use rule_words::table_read;
use std::alloc::Global;

/// What a line needs of the whole file.
#[derive(Drop)]
pub enum Needed {
    /// A section of this name with a table.
    Table(Name),
    /// A section of this name with a backend.
    Backend(Name),
}

/// What the line of this number needs.
#[derive(Drop)]
pub struct Need {
    pub line: u64,
    pub what: Needed,
}

/// Adds the table that a criterion reads.
fn push_criterion(
    needs: &mut Sequence<Need>,
    alloc: Global,
    line: u64,
    criterion: &Criterion,
) -> Result<(), NoMemory>
    ensures { OnOk result (needs.new ≡ needs.old ++ needs_tables line (tables_of criterion.now)) }
{
    match table_read(criterion) {
        Some(table) => {
            let what = Needed::Table(Sequence::from_slice(alloc, table)?);
            needs.push(Need { line, what })
        }
        None => Ok(()),
    }
}

/// Adds the tables that criteria read.
fn push_criteria(
    needs: &mut Sequence<Need>,
    alloc: Global,
    line: u64,
    criteria: &[Criterion],
) -> Result<(), NoMemory>
    ensures { OnOk result (needs.new ≡ needs.old ++ criteria_needs line criteria.now) }
{
    for criterion in criteria {
        push_criterion(needs, alloc, line, criterion)?;
    }
    Ok(())
}

/// Adds the tables that terms read.
fn push_terms(
    needs: &mut Sequence<Need>,
    alloc: Global,
    line: u64,
    terms: &[Term],
) -> Result<(), NoMemory>
    ensures { OnOk result (needs.new ≡ needs.old ++ terms_needs line terms.now) }
{
    for term in terms {
        push_criteria(needs, alloc, line, term.criteria.as_slice())?;
    }
    Ok(())
}

/// Adds the tables that a condition reads.
fn push_condition(
    needs: &mut Sequence<Need>,
    alloc: Global,
    line: u64,
    condition: &[Sequence<Term>],
) -> Result<(), NoMemory>
    ensures { OnOk result (needs.new ≡ needs.old ++ flat_map (terms_needs line) condition.now) }
{
    for terms in condition {
        push_terms(needs, alloc, line, terms.as_slice())?;
    }
    Ok(())
}

/// Adds the table of a condition, if there is one.
fn push_when(
    needs: &mut Sequence<Need>,
    alloc: Global,
    line: u64,
    condition: &Option<Condition>,
) -> Result<(), NoMemory>
    ensures { OnOk result (needs.new ≡ needs.old ++ condition_needs line condition.now) }
{
    match condition {
        Some(condition) => push_condition(needs, alloc, line, condition.as_slice()),
        None => Ok(()),
    }
}

/// Adds the table that an action tracks in.
fn push_action(needs: &mut Sequence<Need>, line: u64, action: &Action) -> Result<(), NoMemory>
    ensures { OnOk result (needs.new ≡ needs.old ++ action_needs line action.now) }
{
    match action {
        Action::Track { table, .. } => {
            let what = Needed::Table(table.copy()?);
            needs.push(Need { line, what })
        }
        Action::Accept => Ok(()),
        Action::Reject => Ok(()),
        Action::Count { .. } => Ok(()),
    }
}

/// Adds what the line of this number needs.
pub(crate) fn push_needs(
    needs: &mut Sequence<Need>,
    alloc: Global,
    line: u64,
    statement: &Statement,
) -> Result<(), NoMemory>
    ensures { OnOk result (needs.new ≡ needs.old ++ needs_of line statement.now) }
{
    match statement {
        Statement::DefaultBackend(name) => {
            let what = Needed::Backend(name.copy()?);
            needs.push(Need { line, what })
        }
        Statement::Acl(acl) => push_criterion(needs, alloc, line, &acl.criterion),
        Statement::Rule(rule) => {
            push_action(needs, line, &rule.action)?;
            push_when(needs, alloc, line, &rule.condition)
        }
        _ => Ok(()),
    }
}

/// Whether a section of this name has a table.
fn has_table(sections: &[Section], name: &[u8]) -> bool
    ensures { result ≡ list_any (λ section. is_some section.table && bytes_eq section.name name.now) sections.now }
{
    sections.iter().any(|section| section.table.is_some() && section.name.as_slice() == name)
}

/// Whether a section of this name has a backend.
fn has_backend(sections: &[Section], name: &[u8]) -> bool
    ensures { result ≡ list_any (λ section. specified_backend section.kind && bytes_eq section.name name.now) sections.now }
{
    sections.iter().any(|section| section.kind.has_backend() && section.name.as_slice() == name)
}

/// Whether a section declares the table or the backend.
fn is_declared(sections: &[Section], what: &Needed) -> bool
    ensures { result ≡ specified sections.now what.now }
{
    match what {
        Needed::Table(name) => has_table(sections, name.as_slice()),
        Needed::Backend(name) => has_backend(sections, name.as_slice()),
    }
}

/// The first line that needs what no section declares.
pub(crate) fn first_unmet(sections: &[Section], needs: &[Need]) -> Option<u64>
    ensures { result ≡ option_map (λ (need : Need). need.line) (find (λ need. not (specified sections.now need.what)) needs.now) }
{
    for need in needs {
        if !is_declared(sections, &need.what) {
            return Some(need.line);
        }
    }
    None
}
