//! What a rule does, and when, read from its words; `statements` calls it for `tcp-request connection`.

ghost use Rattle.std.specs.Prelude.{◌≡◌, ◌∷◌};
ghost use Rattle.base_lines.specs.Words.{words_left};
ghost use Rattle.rule_model.specs.Reading.{Gives};
ghost use Rattle.rule_config.specs.Actions as spec;
ghost use Rattle.rule_config.specs.Actions.{GivesBefore, action_of, count_of, element_in, key_of, rule_of, rule_with, slot_of, table_named, track_of, with_next};

use base_lines::{Words, before_parenthesis, has_closing, inside};
use base_sequence::Sequence;
use rule_model::{Acl, Action, Fault, KeyExpression, Name, ReadError, Rule, Slot};
use rule_words::{SlotElement, next_or_empty, read_bounded, read_condition, read_element};
use std::alloc::Global;
use stored_data::Act;

/// Whether a text can stand in `str(..)`.
fn is_key_text(text: &[u8]) -> bool
    ensures { result ≡ spec.is_key_text text.now }
{
    !text.is_empty() && !has_closing(text)
}

/// Reads what a key is made of.
#[tactic(auto, unfolding(crate::specs::Actions::key_of))]
fn read_key(alloc: Global, word: &[u8]) -> Result<KeyExpression, ReadError>
    ensures { Gives result (key_of word.now) }
{
    if word == b"src".as_slice() {
        return Ok(KeyExpression::Source);
    }
    if word == b"src_port".as_slice() {
        return Ok(KeyExpression::SourcePort);
    }
    if word == b"dst_port".as_slice() {
        return Ok(KeyExpression::DestinationPort);
    }
    let (name, rest) = before_parenthesis(word);
    if name == b"int".as_slice() {
        let Some(text) = inside(rest) else {
            return Err(ReadError::Wrong(Fault::UnknownKeyword));
        };
        return Ok(KeyExpression::Integer(read_bounded(text, 0, u32::MAX)?));
    }
    if name == b"str".as_slice() {
        let Some(text) = inside(rest) else {
            return Err(ReadError::Wrong(Fault::UnknownKeyword));
        };
        if !is_key_text(text) {
            return Err(ReadError::Wrong(Fault::UnknownKeyword));
        }
        return Ok(KeyExpression::Text(Sequence::from_slice(alloc, text)?));
    }
    Err(ReadError::Wrong(Fault::UnknownKeyword))
}

/// The slot that `track-sc0`, `track-sc1` or `track-sc2` names.
#[tactic(auto, unfolding(crate::specs::Actions::tracked_slot))]
fn tracked_slot(word: &[u8]) -> Option<Slot>
    ensures { result ≡ spec.tracked_slot word.now }
{
    if word == b"track-sc0".as_slice() {
        Some(Slot::Sc0)
    } else if word == b"track-sc1".as_slice() {
        Some(Slot::Sc1)
    } else if word == b"track-sc2".as_slice() {
        Some(Slot::Sc2)
    } else {
        None
    }
}

/// The slot whose number stands in parentheses behind a name.
#[tactic(auto, unfolding(crate::specs::Actions::slot_of))]
fn read_slot(word: &[u8]) -> Result<Slot, Fault>
    ensures { result ≡ slot_of word.now }
{
    let (_, rest) = before_parenthesis(word);
    let Some(text) = inside(rest) else {
        return Err(Fault::UnknownKeyword);
    };
    match read_bounded(text, 0, 2)? {
        0 => Ok(Slot::Sc0),
        1 => Ok(Slot::Sc1),
        _ => Ok(Slot::Sc2),
    }
}

/// The element of an array and the slot whose numbers stand in parentheses behind a name.
#[tactic(auto, unfolding(crate::specs::Actions::element_in))]
fn read_element_in(word: &[u8]) -> Result<SlotElement, Fault>
    ensures { result ≡ element_in word.now }
{
    let (_, rest) = before_parenthesis(word);
    let Some(text) = inside(rest) else {
        return Err(Fault::UnknownKeyword);
    };
    match read_element(text) {
        Some(element) => Ok(element),
        None => Err(Fault::BadNumber),
    }
}

/// Reads `table` and a name, where the next word is `table`; else the table is the section's own. Answers the word
/// behind it too.
#[tactic(auto, unfolding(crate::specs::Actions::table_named))]
fn read_table_name<'a>(
    alloc: Global,
    own: &[u8],
    words: &mut Words<'a>,
) -> Result<(Name, Option<&'a [u8]>), ReadError>
    ensures { GivesBefore result (words_left words.new) (table_named own.now (words_left words.old)) }
{
    let Some(word) = words.next() else {
        return Ok((Sequence::from_slice(alloc, own)?, None));
    };
    if word != b"table".as_slice() {
        return Ok((Sequence::from_slice(alloc, own)?, Some(word)));
    }
    let Some(name) = words.next() else {
        return Err(ReadError::Wrong(Fault::UnknownKeyword));
    };
    let name = Sequence::from_slice(alloc, name)?;
    Ok((name, words.next()))
}

/// Reads what is tracked, and in which table.
#[tactic(auto, unfolding(crate::specs::Actions::track_of))]
fn read_track<'a>(
    alloc: Global,
    own: &[u8],
    slot: Slot,
    words: &mut Words<'a>,
) -> Result<(Action, Option<&'a [u8]>), ReadError>
    ensures { GivesBefore result (words_left words.new) (track_of own.now slot (words_left words.old)) }
{
    let key = read_key(alloc, next_or_empty(words))?;
    let (table, next) = read_table_name(alloc, own, words)?;
    Ok((Action::Track { slot, key, table }, next))
}

/// Reads an act on the data of a slot's entry.
#[tactic(auto, unfolding(crate::specs::Actions::count_of))]
fn read_count<'a>(
    word: &[u8],
    words: &mut Words<'a>,
) -> Result<(Action, Option<&'a [u8]>), ReadError>
    ensures { GivesBefore result (words_left words.new) (count_of word.now (words_left words.old)) }
{
    let (name, _) = before_parenthesis(word);
    if name == b"sc-inc-gpc0".as_slice() {
        let slot = read_slot(word)?;
        let act = Act::IncGpc0;
        return Ok((Action::Count { slot, act }, words.next()));
    }
    if name == b"sc-inc-gpc1".as_slice() {
        let slot = read_slot(word)?;
        let act = Act::IncGpc1;
        return Ok((Action::Count { slot, act }, words.next()));
    }
    if name == b"sc-set-gpt0".as_slice() {
        let slot = read_slot(word)?;
        let act = Act::SetGpt0(read_bounded(next_or_empty(words), 0, u32::MAX)?);
        return Ok((Action::Count { slot, act }, words.next()));
    }
    if name == b"sc-inc-gpc".as_slice() {
        let SlotElement { index, slot } = read_element_in(word)?;
        let act = Act::IncGpc(index);
        return Ok((Action::Count { slot, act }, words.next()));
    }
    if name == b"sc-set-gpt".as_slice() {
        let SlotElement { index, slot } = read_element_in(word)?;
        let act = Act::SetGpt(index, read_bounded(next_or_empty(words), 0, u32::MAX)?);
        return Ok((Action::Count { slot, act }, words.next()));
    }
    Err(ReadError::Wrong(Fault::UnknownKeyword))
}

/// Reads an action of a section of this name, and the word behind it.
#[tactic(auto, unfolding(crate::specs::Actions::action_of))]
fn read_action<'a>(
    alloc: Global,
    own: &[u8],
    words: &mut Words<'a>,
) -> Result<(Action, Option<&'a [u8]>), ReadError>
    ensures { GivesBefore result (words_left words.new) (action_of own.now (words_left words.old)) }
{
    let Some(word) = words.next() else {
        return Err(ReadError::Wrong(Fault::UnknownKeyword));
    };
    if word == b"accept".as_slice() {
        return Ok((Action::Accept, words.next()));
    }
    if word == b"reject".as_slice() {
        return Ok((Action::Reject, words.next()));
    }
    match tracked_slot(word) {
        Some(slot) => read_track(alloc, own, slot, words),
        None => read_count(word, words),
    }
}

/// Reads what stands behind an action: nothing, or `if` or `unless` and a condition.
#[tactic(auto, unfolding(crate::specs::Actions::rule_with))]
fn read_when(
    alloc: Global,
    own: &[u8],
    acls: &[Acl],
    action: Action,
    next: Option<&[u8]>,
    words: &mut Words<'_>,
) -> Result<Rule, ReadError>
    ensures { Gives result (rule_with own.now acls.now action (with_next next.entry (words_left words.old))) }
{
    let Some(word) = next else {
        return Ok(Rule {
            action,
            unless: false,
            condition: None,
        });
    };
    if word == b"if".as_slice() {
        return Ok(Rule {
            action,
            unless: false,
            condition: Some(read_condition(alloc, own, acls, words)?),
        });
    }
    if word == b"unless".as_slice() {
        return Ok(Rule {
            action,
            unless: true,
            condition: Some(read_condition(alloc, own, acls, words)?),
        });
    }
    Err(ReadError::Wrong(Fault::UnknownKeyword))
}

/// Reads a rule of a section of this name, whose ACLs so far are these: the words behind `tcp-request connection`.
#[tactic(auto, unfolding(crate::specs::Actions::rule_of))]
pub(crate) fn read_rule(
    alloc: Global,
    own: &[u8],
    acls: &[Acl],
    words: &mut Words<'_>,
) -> Result<Rule, ReadError>
    ensures { Gives result (rule_of own.now acls.now (words_left words.old)) }
{
    let (action, next) = read_action(alloc, own, words)?;
    read_when(alloc, own, acls, action, next, words)
}
