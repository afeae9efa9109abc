//! A criterion: what its first word asks, and its values; `rule_config` reads ACLs by it, and `conditions` terms in braces.

ghost use Rattle.std.specs.Prelude.{◌≡◌, ℕ, List, [], ◌∷◌, ok_or, option_map, option_to_list};
ghost use Rattle.base_lines.specs.Words.{words_left};
ghost use Rattle.rule_model.specs.Reading.{Gives};
ghost use Rattle.rule_model.specs.declared.faults.Fault.TheVariants.{BadCondition};
ghost use Rattle.rule_words.specs.Values.{networks_of};
ghost use Rattle.rule_words.specs.Conditions.{criterion_of, criterion_with, tables_of};
ghost use Rattle.rule_words.specs.Drafts.{GoesOn, ahead, finished, patterns_left};

use crate::term_names::{Subject, read_subject};
use crate::values::{read_operator, read_pattern};
use base_lines::Words;
use base_sequence::Sequence;
use rule_addresses::{Network, read_network};
use rule_model::{Criterion, Fault, Measure, Operator, Pattern, ReadError};
use std::alloc::Global;

/// An integer, and the patterns that were read so far.
#[derive(Drop)]
pub(crate) struct Comparison {
    measure: Measure,
    patterns: Sequence<Pattern>,
    /// The operator that holds for the next value.
    operator: Operator,
    /// Whether the last word was an operator.
    lacks_value: bool,
}

/// A criterion that is being read, value by value.
#[derive(Drop)]
pub(crate) enum Draft {
    /// It takes no values.
    Whole(Criterion),
    Networks(Sequence<Network>),
    Integers(Comparison),
}

impl Comparison {
    /// Takes a word: an operator or a value.
    fn add(&mut self, word: &[u8]) -> Result<(), ReadError>
        ensures measure { self.new.measure ≡ self.old.measure }
        ensures goes_on { GoesOn result (λ words. ahead self.old.patterns (patterns_left self.old.lacks_value self.old.operator (word.now ∷ words)))
            (λ words. ahead self.new.patterns (patterns_left self.new.lacks_value self.new.operator words)) }
    {
        if let Some(operator) = read_operator(word) {
            if self.lacks_value {
                return Err(ReadError::Wrong(Fault::BadCondition));
            }
            self.operator = operator;
            self.lacks_value = true;
            return Ok(());
        }
        let Some(pattern) = read_pattern(self.operator, word) else {
            return Err(ReadError::Wrong(Fault::BadCondition));
        };
        self.patterns.push(pattern)?;
        self.lacks_value = false;
        Ok(())
    }

    /// The criterion, behind its last value.
    fn finish(self) -> Result<Criterion, ReadError>
        ensures { Gives result (ok_or (finished (Draft.Integers self) []) BadCondition) }
    {
        let Comparison {
            measure,
            patterns,
            operator: _,
            lacks_value,
        } = self;
        if lacks_value || patterns.as_slice().is_empty() {
            return Err(ReadError::Wrong(Fault::BadCondition));
        }
        Ok(Criterion::Matches(measure, patterns))
    }
}

/// Takes a word that is a network.
fn add_network(networks: &mut Sequence<Network>, word: &[u8]) -> Result<(), ReadError>
    ensures { GoesOn result (λ words. ahead networks.old (networks_of (word.now ∷ words))) (λ words. ahead networks.new (networks_of words)) }
{
    let Some(network) = read_network(word) else {
        return Err(ReadError::Wrong(Fault::BadCondition));
    };
    networks.push(network)?;
    Ok(())
}

impl Draft {
    /// What is asked, and no value yet.
    pub(crate) fn new(alloc: Global, subject: Subject) -> Draft
        ensures { (words : List (List ℕ)) → finished result words ≡ criterion_with subject words }
    {
        match subject {
            Subject::Always(value) => Draft::Whole(Criterion::Always(value)),
            Subject::IsTracked(slot) => Draft::Whole(Criterion::IsTracked(slot)),
            Subject::Source => Draft::Networks(Sequence::new(alloc)),
            Subject::Integer(measure) => Draft::Integers(Comparison {
                measure,
                patterns: Sequence::new(alloc),
                operator: Operator::Eq,
                lacks_value: false,
            }),
        }
    }

    /// Takes a word.
    pub(crate) fn add(&mut self, word: &[u8]) -> Result<(), ReadError>
        ensures { GoesOn result (λ words. finished self.old (word.now ∷ words)) (λ words. finished self.new words) }
    {
        match self {
            Draft::Whole(_) => Err(ReadError::Wrong(Fault::BadCondition)),
            Draft::Networks(networks) => add_network(networks, word),
            Draft::Integers(comparison) => comparison.add(word),
        }
    }

    /// The criterion, behind its last value.
    pub(crate) fn finish(self) -> Result<Criterion, ReadError>
        ensures { Gives result (ok_or (finished self []) BadCondition) }
    {
        match self {
            Draft::Whole(criterion) => Ok(criterion),
            Draft::Networks(networks) => {
                if networks.as_slice().is_empty() {
                    return Err(ReadError::Wrong(Fault::BadCondition));
                }
                Ok(Criterion::Source(networks))
            }
            Draft::Integers(comparison) => comparison.finish(),
        }
    }
}

/// Reads a criterion up to the line's end, in the section of this name: `BadCondition` where the words are none.
pub fn read_criterion(
    alloc: Global,
    section: &[u8],
    words: &mut Words<'_>,
) -> Result<Criterion, ReadError>
    ensures { Gives result (criterion_of section.now (words_left words.old)) }
{
    let Some(name) = words.next() else {
        return Err(ReadError::Wrong(Fault::BadCondition));
    };
    let subject = read_subject(alloc, section, name)?;
    let mut draft = Draft::new(alloc, subject);
    while let Some(word) = words.next() {
        draft.add(word)?;
    }
    draft.finish()
}

/// The table of which a criterion reads the client's entry, by the name of its section: of a criterion that names no
/// table, that of the section that it stands in. None where it reads no such entry.
pub fn table_read(criterion: &Criterion) -> Option<&[u8]>
    ensures { tables_of criterion.now ≡ option_to_list (option_map (λ table. table.now) result) }
{
    match criterion {
        Criterion::Matches(Measure::Source(table, _), _) => Some(table.as_slice()),
        _ => None,
    }
}
