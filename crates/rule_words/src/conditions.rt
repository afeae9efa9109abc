//! A condition, read up to the line's end: conjunctions of terms; `rule_config` calls it for each rule.

ghost use Rattle.std.specs.Prelude.{◌≡◌, ◌⊎◌, ◌<◌, [], ◌∷◌, drop, length, IsTrue, IfOk, IfErr, MatchResult, MatchOption, Some, None, option_map, if◌then◌else◌};
ghost use Rattle.std.specs.List.{filter};
ghost use Rattle.std.specs.Str.{bytes_eq};
ghost use Rattle.base_lines.specs.Words.{words_left};
ghost use Rattle.rule_model.specs.Reading.{Gives};
ghost use Rattle.rule_model.specs.declared.criteria.Acl.{Acl};
ghost use Rattle.rule_model.specs.declared.faults.Fault.TheVariants.{BadCondition};
ghost use Rattle.rule_model.specs.declared.faults.ReadError.TheVariants.{Wrong};
ghost use Rattle.rule_words.specs.Conditions as spec;
ghost use Rattle.rule_words.specs.Conditions.{condition_of, declarations_of};
ghost use Rattle.rule_words.specs.Sentences.{Begins, ReadsTo, braced, closed, stands_for, term_of, with_word};

use crate::criteria::Draft;
use crate::term_names::read_subject;
use base_lines::Words;
use base_sequence::{NoMemory, Sequence};
use rule_model::{Acl, Condition, Criterion, Fault, ReadError, Term};
use std::alloc::Global;

/// A conjunction, and whether the line ends with it.
#[derive(Drop)]
struct Conjunction {
    terms: Sequence<Term>,
    is_last: bool,
}

/// Whether a word parts conjunctions.
fn is_or(word: &[u8]) -> bool
    ensures { result ≡ spec.is_or word.now }
{
    word == b"or".as_slice() || word == b"||".as_slice()
}

/// Whether a word closes a brace.
fn is_closing(word: &[u8]) -> bool
    ensures { result ≡ spec.is_closing word.now }
{
    word == b"}".as_slice()
}

/// Whether a word begins with `!`.
fn is_negated(word: &[u8]) -> bool
    ensures { result ≡ spec.is_negated word.now }
{
    match word.first() {
        Some(first) => *first == b'!',
        None => false,
    }
}

/// A word without the `!` in front, where it has one.
fn without_not(word: &[u8]) -> &[u8]
    ensures { result.now ≡ (if spec.is_negated word.now then drop 1 word.now else word.now) }
{
    match word.split_first() {
        Some((first, rest)) if *first == b'!' => rest,
        _ => word,
    }
}

/// The next word in braces. None where it closes them.
fn next_in_braces<'a>(words: &mut Words<'a>) -> Result<Option<&'a [u8]>, ReadError>
    ensures { MatchResult result
        (λ next. MatchOption next (closed (words_left words.old) ≡ Some ([], words_left words.new))
        (λ word. (words_left words.old ≡ word.now ∷ words_left words.new)
        × (closed (words_left words.old) ≡ option_map (with_word word.now) (closed (words_left words.new)))))
        (λ error. (error ≡ Wrong BadCondition) × (closed (words_left words.old) ≡ None)) }
{
    let Some(word) = words.next() else {
        return Err(ReadError::Wrong(Fault::BadCondition));
    };
    if is_or(word) {
        return Err(ReadError::Wrong(Fault::BadCondition));
    }
    if is_closing(word) {
        return Ok(None);
    }
    Ok(Some(word))
}

/// Reads a criterion up to its closing brace.
fn read_braced(alloc: Global, section: &[u8], words: &mut Words<'_>) -> Result<Criterion, ReadError>
    ensures { ReadsTo result (words_left words.new) (braced section.now (words_left words.old)) }
{
    let Some(name) = next_in_braces(words)? else {
        return Err(ReadError::Wrong(Fault::BadCondition));
    };
    let subject = read_subject(alloc, section, name)?;
    let mut draft = Draft::new(alloc, subject);
    while let Some(word) = next_in_braces(words)? {
        draft.add(word)?;
    }
    draft.finish()
}

/// The criteria of an ACL that is there always.
fn built_in(alloc: Global, name: &[u8]) -> Result<Sequence<Criterion>, NoMemory>
    ensures { IfOk result (λ criteria. criteria ≡ declarations_of [] name.now) }
{
    let mut criteria = Sequence::new(alloc);
    if b"TRUE".as_slice() == name {
        criteria.push(Criterion::Always(true))?;
        return Ok(criteria);
    }
    if b"FALSE".as_slice() == name {
        criteria.push(Criterion::Always(false))?;
        return Ok(criteria);
    }
    Ok(criteria)
}

/// The criteria of all declarations of an ACL, in order.
fn declarations(alloc: Global, acls: &[Acl], name: &[u8]) -> Result<Sequence<Criterion>, NoMemory>
    ensures { IfOk result (λ criteria. criteria ≡ declarations_of acls.now name.now) }
{
    let mut criteria = built_in(alloc, name)?;
    for acl in acls {
        if acl.name.as_slice() == name {
            criteria.push(acl.criterion.copy()?)?;
        }
    }
    Ok(criteria)
}

/// The criteria that a word stands for: those of an ACL, or behind an opening brace the one in braces.
#[tactic(auto, unfolding(crate::specs::Sentences::stands_for))]
fn read_criteria(
    alloc: Global,
    section: &[u8],
    acls: &[Acl],
    word: &[u8],
    words: &mut Words<'_>,
) -> Result<Sequence<Criterion>, ReadError>
    ensures { ReadsTo result (words_left words.new) (stands_for section.now acls.now word.now (words_left words.old)) }
{
    if is_closing(word) || is_negated(word) || is_or(word) {
        return Err(ReadError::Wrong(Fault::BadCondition));
    }
    if word == b"{".as_slice() {
        let criterion = read_braced(alloc, section, words)?;
        let mut criteria = Sequence::new(alloc);
        criteria.push(criterion)?;
        return Ok(criteria);
    }
    let criteria = declarations(alloc, acls, word)?;
    if criteria.as_slice().is_empty() {
        return Err(ReadError::Wrong(Fault::UnknownAcl));
    }
    Ok(criteria)
}

/// Reads a term that begins with a word.
#[tactic(auto, unfolding(crate::specs::Sentences::term_of))]
fn read_term(
    alloc: Global,
    section: &[u8],
    acls: &[Acl],
    word: &[u8],
    words: &mut Words<'_>,
) -> Result<Term, ReadError>
    ensures { ReadsTo result (words_left words.new) (term_of section.now acls.now word.now (words_left words.old)) }
{
    if word == b"!".as_slice() {
        let Some(next) = words.next() else {
            return Err(ReadError::Wrong(Fault::BadCondition));
        };
        let criteria = read_criteria(alloc, section, acls, next, words)?;
        return Ok(Term {
            negated: true,
            criteria,
        });
    }
    let criteria = read_criteria(alloc, section, acls, without_not(word), words)?;
    Ok(Term {
        negated: is_negated(word),
        criteria,
    })
}

/// A conjunction of these terms, which are none only where it is empty.
fn ended(terms: Sequence<Term>, is_last: bool) -> Result<Conjunction, ReadError>
    ensures ok { IfOk result (λ read. (read.terms ≡ terms) × (read.is_last ≡ is_last) × (0 < length terms)) }
    ensures err { IfErr result (λ error. (error ≡ Wrong BadCondition) × (terms ≡ [])) }
{
    if terms.as_slice().is_empty() {
        return Err(ReadError::Wrong(Fault::BadCondition));
    }
    Ok(Conjunction { terms, is_last })
}

/// Reads the terms up to the next `or`, or to the line's end.
fn read_conjunction(
    alloc: Global,
    section: &[u8],
    acls: &[Acl],
    words: &mut Words<'_>,
) -> Result<Conjunction, ReadError>
    ensures begins { Begins section.now acls.now result (words_left words.new) (words_left words.old) }
    ensures shorter { IfOk result (λ read. IsTrue read.is_last ⊎ (length (words_left words.new) < length (words_left words.old))) }
{
    let mut terms = Sequence::new(alloc);
    while let Some(word) = words.next() {
        if is_or(word) {
            return ended(terms, false);
        }
        let term = read_term(alloc, section, acls, word, words)?;
        terms.push(term)?;
    }
    ended(terms, true)
}

/// Reads a condition up to the line's end, in the section of this name, whose ACLs so far are these, in order:
/// `UnknownAcl` where a name is of none, and `BadCondition` where the words are no condition.
pub fn read_condition(
    alloc: Global,
    section: &[u8],
    acls: &[Acl],
    words: &mut Words<'_>,
) -> Result<Condition, ReadError>
    ensures { Gives result (condition_of section.now acls.now (words_left words.old)) }
{
    let mut condition = Sequence::new(alloc);
    loop {
        let Conjunction { terms, is_last } = read_conjunction(alloc, section, acls, words)?;
        condition.push(terms)?;
        if is_last {
            return Ok(condition);
        }
    }
}
