//! What rules do, in stickd's spelling; `rules` converts by it, and `guards` and `rule_lines` ask parts.

use crate::calls::{read_call, slot_of};
use crate::keywords::{is_one_of, left_of, told_of};
use crate::manual::ACTIONS;
use crate::masks::{mask_of, table_type, tracked_section};
use crate::plan::{Plan, RuleAt};
use crate::reasons::{Refusal, Why};
use crate::texts::{Words, append, copy_text, is_word, text_of, word_at};
use base_lines::{before_parenthesis, push_decimal, read_number};
use base_sequence::NoMemory;
use std::alloc::Global;

/// What a rule does.
#[derive(Drop)]
pub(crate) struct Action {
    pub words: Words,
    /// How many words HAProxy's spelling has.
    pub used: usize,
    /// What is lost by it, if anything.
    pub altered: Option<Why>,
}

/// Whether a rule that does this decides and counts nothing.
pub(crate) fn is_idle(word: &[u8]) -> bool {
    let (name, _) = before_parenthesis(word);
    told_of(name, &ACTIONS).is_some_and(|told| !told.matters)
}

/// The slot of `track-sc0` and its kin.
pub(crate) fn tracked_slot(word: &[u8]) -> Option<&[u8]> {
    word.strip_prefix(b"track-sc".as_slice())
}

/// The client's address as a key, and what is lost of it.
fn source_key(
    alloc: Global,
    plan: &Plan,
    rest: &[u8],
    kind: &[u8],
) -> Result<(Vec<u8>, Option<Why>), Refusal> {
    if is_word(kind, "integer") {
        return Err(Refusal::Lost(Why::TrackedKey));
    }
    let key = text_of(alloc, "src")?;
    if rest.is_empty() {
        return Ok((key, None));
    }
    match mask_of(alloc, rest)? {
        // Options of the command line stand for it.
        Some(_) if plan.mask.is_some() => Ok((key, None)),
        // In a table of this type no key is longer.
        Some((32, _)) if is_word(kind, "ip") => Ok((key, None)),
        Some((32, 128)) => Ok((key, None)),
        Some((_, _)) => Ok((key, Some(Why::OtherMask))),
        None => Err(Refusal::Lost(Why::TrackedKey)),
    }
}

/// A text in parentheses, with `_` for what can't be written.
fn constant_text(alloc: Global, text: &[u8]) -> Result<Vec<u8>, NoMemory> {
    let mut key = text_of(alloc, "str(")?;
    for byte in text {
        let is_plain = byte.is_ascii_alphanumeric()
            || matches!(*byte, b'-' | b'_' | b'.' | b':' | b'/' | b'@');
        key.push(if is_plain { *byte } else { b'_' })?;
    }
    if text.is_empty() {
        key.push(b'_')?;
    }
    key.push(b')')?;
    Ok(key)
}

/// A key in stickd's spelling, for a table of this type, and what is lost of it.
fn convert_key(
    alloc: Global,
    plan: &Plan,
    word: &[u8],
    kind: &[u8],
) -> Result<(Vec<u8>, Option<Why>), Refusal> {
    let call = read_call(alloc, word)?;
    let name = call.name.as_slice();
    if is_word(name, "src") {
        return source_key(alloc, plan, call.rest.as_slice(), kind);
    }
    if !call.rest.is_empty() || is_word(kind, "ip") || is_word(kind, "ipv6") {
        return Err(Refusal::Lost(Why::TrackedKey));
    }
    let argument = word_at(call.arguments.as_slice(), 0);
    if is_word(name, "src_port") || is_word(name, "dst_port") {
        return Ok((copy_text(alloc, name)?, None));
    }
    if is_word(name, "int") && read_number(argument).is_some() {
        return Ok((copy_text(alloc, word)?, None));
    }
    if is_word(name, "str") && !is_word(kind, "integer") {
        return Ok((constant_text(alloc, argument)?, None));
    }
    // Each of these is the same for all connections of a frontend.
    if is_one_of(
        name,
        &[
            "fe_id",
            "so_id",
            "be_id",
            "always_true",
            "always_false",
            "bool",
            "fe_name",
            "be_name",
        ],
    ) {
        return Ok((text_of(alloc, "int(1)")?, None));
    }
    Err(Refusal::Lost(Why::TrackedKey))
}

/// `track-sc0 KEY [table T]`.
fn convert_track(
    alloc: Global,
    plan: &Plan,
    rule: &RuleAt,
    words: &[Vec<u8>],
) -> Result<Action, Refusal> {
    let first = word_at(words, 0);
    let _slot = slot_of(tracked_slot(first).unwrap_or(b""))?;
    let is_named = is_word(word_at(words, 2), "table");
    let Some(section) = tracked_section(plan, rule, words) else {
        return Err(Refusal::Lost(Why::OtherTable));
    };
    let (key, altered) = convert_key(alloc, plan, word_at(words, 1), table_type(plan, section))?;
    let mut written = Vec::new(alloc);
    written.push(copy_text(alloc, first)?)?;
    written.push(key)?;
    if is_named || !plan.is_frontend(section) {
        written.push(text_of(alloc, "table")?)?;
        written.push(copy_text(alloc, plan.new_name(section))?)?;
    }
    Ok(Action {
        words: written,
        used: if is_named { 4 } else { 2 },
        altered,
    })
}

/// The number that `V` or `int(V)` writes.
fn number_word(alloc: Global, word: &[u8]) -> Result<Vec<u8>, Refusal> {
    if read_number(word).is_some() {
        return Ok(copy_text(alloc, word)?);
    }
    let call = read_call(alloc, word)?;
    let argument = word_at(call.arguments.as_slice(), 0);
    if is_word(call.name.as_slice(), "int")
        && call.rest.is_empty()
        && read_number(argument).is_some()
    {
        return Ok(copy_text(alloc, argument)?);
    }
    Err(Refusal::Lost(Why::UnknownValue))
}

/// `sc-inc-gpc0(n)`, `sc-inc-gpc1(n)`.
fn counting_word(alloc: Global, name: &str, slot: &[u8]) -> Result<Vec<u8>, Refusal> {
    let slot = slot_of(slot)?;
    let mut word = text_of(alloc, name)?;
    word.push(b'(')?;
    push_decimal(&mut word, u64::from(slot))?;
    word.push(b')')?;
    Ok(word)
}

/// An act on a slot's entry.
fn convert_count(alloc: Global, plan: &Plan, words: &[Vec<u8>]) -> Result<Action, Refusal> {
    let first = word_at(words, 0);
    let call = read_call(alloc, first)?;
    let name = call.name.as_slice();
    let arguments = call.arguments.as_slice();
    let mut written = Vec::new(alloc);
    if is_word(name, "sc-inc-gpc0") || is_word(name, "sc-inc-gpc1") {
        let _slot = slot_of(word_at(arguments, 0))?;
        written.push(copy_text(alloc, first)?)?;
        return Ok(Action {
            words: written,
            used: 1,
            altered: None,
        });
    }
    if is_word(name, "sc-inc-gpc") {
        let _slot = slot_of(word_at(arguments, 1))?;
        let index = read_number(word_at(arguments, 0));
        let word = match (plan.stores_rates, index) {
            (true, Some(0)) => counting_word(alloc, "sc-inc-gpc0", word_at(arguments, 1))?,
            (true, Some(1)) => counting_word(alloc, "sc-inc-gpc1", word_at(arguments, 1))?,
            (_, _) => copy_text(alloc, first)?,
        };
        written.push(word)?;
        return Ok(Action {
            words: written,
            used: 1,
            altered: None,
        });
    }
    let is_set = is_word(name, "sc-set-gpt0") || is_word(name, "sc-set-gpt");
    if !is_set {
        return Err(Refusal::Lost(left_of(name, &ACTIONS).why));
    }
    let slot = if is_word(name, "sc-set-gpt0") {
        word_at(arguments, 0)
    } else {
        word_at(arguments, 1)
    };
    let _slot = slot_of(slot)?;
    written.push(copy_text(alloc, first)?)?;
    written.push(number_word(alloc, word_at(words, 1))?)?;
    Ok(Action {
        words: written,
        used: 2,
        altered: None,
    })
}

/// The place of `if` or `unless`, or behind all words.
pub(crate) fn condition_place(words: &[Vec<u8>]) -> usize {
    for (place, word) in words.iter().enumerate() {
        if is_word(word.as_slice(), "if") || is_word(word.as_slice(), "unless") {
            return place;
        }
    }
    words.len()
}

/// What a rule does, from the words behind `tcp-request connection` and its kin.
pub(crate) fn convert_action(
    alloc: Global,
    plan: &Plan,
    rule: &RuleAt,
    words: &[Vec<u8>],
) -> Result<Action, Refusal> {
    let first = word_at(words, 0);
    let mut written = Vec::new(alloc);
    if is_word(first, "accept") || is_word(first, "reject") {
        written.push(copy_text(alloc, first)?)?;
        return Ok(Action {
            words: written,
            used: 1,
            altered: None,
        });
    }
    if is_word(first, "silent-drop") {
        written.push(text_of(alloc, "reject")?)?;
        return Ok(Action {
            words: written,
            used: condition_place(words),
            altered: Some(Why::SilentDrop),
        });
    }
    if tracked_slot(first).is_some() {
        return convert_track(alloc, plan, rule, words);
    }
    convert_count(alloc, plan, words)
}

/// Puts words behind others.
pub(crate) fn add_words(
    alloc: Global,
    words: &mut Words,
    more: &[Vec<u8>],
) -> Result<(), NoMemory> {
    for word in more {
        let mut text = Vec::new(alloc);
        append(&mut text, word.as_slice())?;
        words.push(text)?;
    }
    Ok(())
}
