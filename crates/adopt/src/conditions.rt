//! Conditions of rules in stickd's spelling; `rules` and `guards` call it.

use crate::addresses::dotted;
use crate::calls::truth_text;
use crate::criteria::{built_in, convert_criterion, declares};
use crate::plan::{Plan, RuleAt};
use crate::reasons::{Refusal, Why};
use crate::texts::{Words, append, copy_text, is_word, text_of};
use base_sequence::NoMemory;
use std::alloc::Global;

/// A term, without the `!` in front.
#[derive(Drop)]
pub(crate) struct Term {
    pub negated: bool,
    /// An ACL's name, or a criterion in braces.
    pub words: Words,
}

/// A condition, without the alternatives that are lost.
#[derive(Drop)]
pub(crate) struct Condition {
    pub alternatives: Vec<Vec<Term>>,
    /// Why an alternative is lost, if one is.
    pub lost: Option<Why>,
}

/// A condition that is being read.
#[derive(Drop)]
struct Reader {
    alternatives: Vec<Vec<Term>>,
    terms: Vec<Term>,
    negated: bool,
    /// The words in braces so far.
    braced: Option<Words>,
    /// Why the alternative in hand is lost.
    failed: Option<Why>,
    lost: Option<Why>,
}

/// The name of a section's ACL in the frontend that is served.
pub(crate) fn acl_name(
    alloc: Global,
    plan: &Plan,
    origin: usize,
    name: &[u8],
) -> Result<Vec<u8>, NoMemory> {
    if plan.is_frontend(origin) {
        return copy_text(alloc, name);
    }
    let section = plan.new_name(origin);
    if section.is_empty() {
        return dotted(alloc, b"defaults", name);
    }
    dotted(alloc, section, name)
}

/// Whether what is asked in this phase has no bytes of the client yet.
fn is_early(rule: &RuleAt) -> bool {
    rule.phase < 3
}

/// The word that stands for an ACL of this name.
fn named(alloc: Global, plan: &Plan, rule: &RuleAt, name: &[u8]) -> Result<Words, Refusal> {
    let mut words = Vec::new(alloc);
    if declares(alloc, plan, rule.origin, name)? {
        words.push(acl_name(alloc, plan, rule.origin, name)?)?;
        return Ok(words);
    }
    let _known = built_in(name)?;
    words.push(copy_text(alloc, name)?)?;
    Ok(words)
}

/// A criterion in braces.
fn in_braces(alloc: Global, criterion: Words) -> Result<Words, NoMemory> {
    let mut words = Vec::new(alloc);
    words.push(text_of(alloc, "{")?)?;
    for word in criterion {
        words.push(word)?;
    }
    words.push(text_of(alloc, "}")?)?;
    Ok(words)
}

/// `{ always_false }`: what no connection meets before it has sent bytes.
fn never(alloc: Global) -> Result<Words, NoMemory> {
    let mut words = Vec::new(alloc);
    words.push(truth_text(alloc, false)?)?;
    in_braces(alloc, words)
}

impl Reader {
    fn new(alloc: Global) -> Reader {
        Reader {
            alternatives: Vec::new(alloc),
            terms: Vec::new(alloc),
            negated: false,
            braced: None,
            failed: None,
            lost: None,
        }
    }

    fn add_term(
        &mut self,
        alloc: Global,
        rule: &RuleAt,
        given: Result<Words, Refusal>,
    ) -> Result<(), NoMemory> {
        let negated = self.negated;
        self.negated = false;
        let words = match given {
            Ok(words) => words,
            Err(Refusal::OutOfMemory) => return Err(NoMemory),
            Err(Refusal::Lost(Why::Payload)) if is_early(rule) => never(alloc)?,
            Err(Refusal::Lost(why)) => {
                self.failed = Some(why);
                return Ok(());
            }
        };
        self.terms.push(Term { negated, words })?;
        Ok(())
    }

    fn end_alternative(&mut self, alloc: Global) -> Result<(), NoMemory> {
        let terms = std::mem::replace(&mut self.terms, Vec::new(alloc));
        if let Some(why) = self.failed.take() {
            self.lost = Some(why);
            return Ok(());
        }
        if terms.is_empty() {
            self.lost = Some(Why::BadCondition);
            return Ok(());
        }
        self.alternatives.push(terms)?;
        Ok(())
    }

    /// Takes a word in braces.
    fn take_braced(
        &mut self,
        alloc: Global,
        plan: &Plan,
        rule: &RuleAt,
        mut words: Words,
        word: &[u8],
    ) -> Result<(), NoMemory> {
        if !is_word(word, "}") {
            words.push(copy_text(alloc, word)?)?;
            self.braced = Some(words);
            return Ok(());
        }
        let given = match convert_criterion(alloc, plan, rule.origin, words.as_slice()) {
            Ok(criterion) => Ok(in_braces(alloc, criterion)?),
            Err(refusal) => Err(refusal),
        };
        self.add_term(alloc, rule, given)
    }

    fn take(
        &mut self,
        alloc: Global,
        plan: &Plan,
        rule: &RuleAt,
        word: &[u8],
    ) -> Result<(), NoMemory> {
        if let Some(words) = self.braced.take() {
            return self.take_braced(alloc, plan, rule, words, word);
        }
        if is_word(word, "or") || is_word(word, "||") {
            return self.end_alternative(alloc);
        }
        let rest = self.without_nots(word);
        if rest.is_empty() {
            return Ok(());
        }
        if is_word(rest, "{") {
            self.braced = Some(Vec::new(alloc));
            return Ok(());
        }
        let given = named(alloc, plan, rule, rest);
        self.add_term(alloc, rule, given)
    }

    /// A word without the `!` in front, each of which negates.
    fn without_nots<'a>(&mut self, word: &'a [u8]) -> &'a [u8] {
        for (place, byte) in word.iter().enumerate() {
            if *byte != b'!' {
                let (_, rest) = word.split_at(place);
                return rest;
            }
            self.negated = !self.negated;
        }
        b""
    }

    fn finish(mut self, alloc: Global) -> Result<Condition, NoMemory> {
        if self.braced.take().is_some() {
            self.failed = Some(Why::BadCondition);
        }
        self.end_alternative(alloc)?;
        let Reader {
            alternatives,
            terms: _,
            negated: _,
            braced: _,
            failed: _,
            lost,
        } = self;
        Ok(Condition { alternatives, lost })
    }
}

/// A rule's condition in stickd's spelling.
pub(crate) fn convert_condition(
    alloc: Global,
    plan: &Plan,
    rule: &RuleAt,
    words: &[Vec<u8>],
) -> Result<Condition, NoMemory> {
    let mut reader = Reader::new(alloc);
    for word in words {
        reader.take(alloc, plan, rule, word.as_slice())?;
    }
    reader.finish(alloc)
}

/// Adds the words of a term.
fn add_term_words(alloc: Global, term: &Term, words: &mut Words) -> Result<(), NoMemory> {
    let mut is_first = term.negated;
    for word in &term.words {
        let mut text = Vec::new(alloc);
        if is_first {
            text.push(b'!')?;
        }
        is_first = false;
        append(&mut text, word.as_slice())?;
        words.push(text)?;
    }
    Ok(())
}

/// Adds the words of a condition.
pub(crate) fn add_condition(
    alloc: Global,
    condition: &Condition,
    words: &mut Words,
) -> Result<(), NoMemory> {
    let mut is_first = true;
    for terms in &condition.alternatives {
        if !is_first {
            words.push(text_of(alloc, "or")?)?;
        }
        is_first = false;
        for term in terms {
            add_term_words(alloc, term, words)?;
        }
    }
    Ok(())
}
