//! The word at fault in a line.

use crate::declared::{Declared, wrong_acl, wrong_table};
use crate::expected::Expected;
use crate::suspect_tables::wrong_setting;
use crate::suspect_terms::{wrong_condition, wrong_criterion};
use base_lines::{Parts, before_parenthesis, has_closing, inside};
use rule_addresses::{read_bind, read_server};
use rule_model::Fault;
use rule_words::{is_name, is_plain, read_bounded};

/// A word at fault, and what may stand in its place. The word is empty where one is missing at the line's end.
#[derive(Clone, Copy)]
pub(crate) struct Suspect<'a> {
    pub word: &'a [u8],
    pub expected: Expected,
}

impl<'a> Suspect<'a> {
    pub(crate) fn new(word: &'a [u8], expected: Expected) -> Self {
        Suspect { word, expected }
    }
}

/// The word at a place, which is empty where there is none.
pub(crate) fn word_at<'a>(words: &[&'a [u8]], place: usize) -> &'a [u8] {
    match words.get(place) {
        Some(word) => word,
        None => b"",
    }
}

/// Whether a word is one of some texts.
pub(crate) fn is_among(word: &[u8], texts: &[&str]) -> bool {
    for text in texts {
        if word == text.as_bytes() {
            return true;
        }
    }
    false
}

/// The word to which a fault in this line is due, by the words of the line and what the file declares. None where none of
/// them tells it.
pub(crate) fn suspect_of<'a>(
    fault: Fault,
    line: &[u8],
    words: &[&'a [u8]],
    declared: &Declared<'_>,
) -> Option<Suspect<'a>> {
    let keyword = word_at(words, 0);
    match fault {
        Fault::UnknownKeyword if !is_plain(line) => Some(quoted_word(words)),
        Fault::UnknownKeyword => Some(unknown_word(words)),
        Fault::BadNumber if keyword != b"stick-table".as_slice() => wrong_action(words),
        Fault::BadNumber | Fault::BadSize | Fault::UnknownType => wrong_setting(fault, words),
        Fault::UnknownTable if keyword == b"default_backend".as_slice() => {
            Some(Suspect::new(word_at(words, 1), Expected::Backend))
        }
        Fault::UnknownTable => wrong_table(words, declared),
        Fault::SecondName if keyword == b"stick-table".as_slice() => {
            Some(Suspect::new(keyword, Expected::OneTable))
        }
        Fault::SecondName => Some(Suspect::new(word_at(words, 1), Expected::NewName)),
        Fault::BadCondition if keyword == b"acl".as_slice() => {
            wrong_criterion(words.get(2..).unwrap_or(&[]), b"")
        }
        Fault::BadCondition => wrong_condition(condition_of(words)),
        Fault::UnknownAcl => wrong_acl(condition_of(words), declared),
        Fault::SecondServer => Some(Suspect::new(word_at(words, 1), Expected::OneServer)),
        Fault::ModeHttp => Some(Suspect::new(word_at(words, 1), Expected::Mode)),
        Fault::NotUtf8 => None,
    }
}

/// The words behind `if` or `unless` of a rule.
pub(crate) fn condition_of<'a, 'b>(words: &'b [&'a [u8]]) -> &'b [&'a [u8]] {
    for (place, word) in words.iter().enumerate() {
        if is_among(word, &["if", "unless"]) {
            return &words[place + 1..];
        }
    }
    &[]
}

/// The first word with a quote or its kin.
fn quoted_word<'a>(words: &[&'a [u8]]) -> Suspect<'a> {
    for word in words {
        if !is_plain(word) {
            return Suspect::new(word, Expected::Plain);
        }
    }
    Suspect::new(word_at(words, 0), Expected::Plain)
}

/// The word for which a line isn't known.
fn unknown_word<'a>(words: &[&'a [u8]]) -> Suspect<'a> {
    let keyword = word_at(words, 0);
    let value = word_at(words, 1);
    if is_among(
        keyword,
        &["frontend", "backend", "listen", "default_backend"],
    ) {
        return wrong_value(words, is_name(value), Expected::Name);
    }
    if keyword == b"mode".as_slice() {
        return wrong_value(words, value == b"tcp".as_slice(), Expected::Mode);
    }
    if keyword == b"bind".as_slice() {
        return wrong_value(words, read_bind(value).is_some(), Expected::BindAddress);
    }
    if keyword == b"server".as_slice() {
        return wrong_server(words);
    }
    let found = if keyword == b"stick-table".as_slice() {
        wrong_setting(Fault::UnknownKeyword, words)
    } else if keyword == b"acl".as_slice() && !is_name(value) {
        Some(Suspect::new(value, Expected::Name))
    } else if keyword == b"tcp-request".as_slice() {
        wrong_rule(words)
    } else if !is_among(keyword, Expected::Keyword.words()) {
        Some(Suspect::new(keyword, Expected::Keyword))
    } else {
        None
    };
    found.unwrap_or(Suspect::new(keyword, Expected::NoPlace))
}

/// What is wrong with a line that is a keyword and one value, which may be a good one.
fn wrong_value<'a>(words: &[&'a [u8]], is_good: bool, expected: Expected) -> Suspect<'a> {
    if !is_good {
        return Suspect::new(word_at(words, 1), expected);
    }
    match words.get(2) {
        Some(more) => Suspect::new(more, Expected::End),
        None => Suspect::new(word_at(words, 0), Expected::NoPlace),
    }
}

/// What is wrong with a line `server`.
fn wrong_server<'a>(words: &[&'a [u8]]) -> Suspect<'a> {
    let (name, address) = (word_at(words, 1), word_at(words, 2));
    if !is_name(name) {
        return Suspect::new(name, Expected::Name);
    }
    if read_server(address).is_none() {
        return Suspect::new(address, Expected::ServerAddress);
    }
    Suspect::new(word_at(words, 0), Expected::NoPlace)
}

/// What is wrong with a line `tcp-request`.
fn wrong_rule<'a>(words: &[&'a [u8]]) -> Option<Suspect<'a>> {
    let kind = word_at(words, 1);
    if kind != b"connection".as_slice() {
        return Some(Suspect::new(kind, Expected::Connection));
    }
    wrong_action(words)
}

/// What is wrong with the action of a rule, or right behind it.
fn wrong_action<'a>(words: &[&'a [u8]]) -> Option<Suspect<'a>> {
    let action = word_at(words, 2);
    let (name, rest) = before_parenthesis(action);
    if is_among(action, &["accept", "reject"]) {
        return wrong_behind(words, 3, Expected::BehindAction);
    }
    if is_among(action, &["track-sc0", "track-sc1", "track-sc2"]) {
        return wrong_track(words);
    }
    if !is_among(name, Expected::Action.words()) {
        return Some(Suspect::new(action, Expected::Action));
    }
    let is_array = is_among(name, &["sc-inc-gpc", "sc-set-gpt"]);
    if is_array && !is_element(rest) {
        return Some(Suspect::new(action, Expected::Element));
    }
    if !is_array && !is_slot(rest) {
        return Some(Suspect::new(action, Expected::Slot));
    }
    if !is_among(name, &["sc-set-gpt0", "sc-set-gpt"]) {
        return wrong_behind(words, 3, Expected::BehindAction);
    }
    let value = word_at(words, 3);
    if read_bounded(value, 0, u32::MAX).is_err() {
        return Some(Suspect::new(value, Expected::Value));
    }
    wrong_behind(words, 4, Expected::BehindAction)
}

/// Whether a text is the number of a slot in parentheses.
pub(crate) fn is_slot(text: &[u8]) -> bool {
    match inside(text) {
        Some(number) => read_bounded(number, 0, 2).is_ok(),
        None => false,
    }
}

/// Whether a text is the index of an element and the number of a slot in parentheses.
pub(crate) fn is_element(text: &[u8]) -> bool {
    let mut parts = Parts::new(inside(text).unwrap_or(b""), b',');
    let (Some(index), Some(slot)) = (parts.next(), parts.next()) else {
        return false;
    };
    parts.next().is_none() && read_bounded(index, 0, 99).is_ok() && read_bounded(slot, 0, 2).is_ok()
}

/// What is wrong with what is tracked.
fn wrong_track<'a>(words: &[&'a [u8]]) -> Option<Suspect<'a>> {
    let key = word_at(words, 3);
    if !is_key(key) {
        return Some(Suspect::new(key, Expected::Key));
    }
    if word_at(words, 4) != b"table".as_slice() {
        return wrong_behind(words, 4, Expected::BehindKey);
    }
    if word_at(words, 5).is_empty() {
        return Some(Suspect::new(b"", Expected::Table));
    }
    wrong_behind(words, 6, Expected::BehindAction)
}

/// Whether a word is what a key is made of.
fn is_key(word: &[u8]) -> bool {
    let (name, rest) = before_parenthesis(word);
    let inner = inside(rest).unwrap_or(b"");
    if name == b"int".as_slice() {
        return read_bounded(inner, 0, u32::MAX).is_ok();
    }
    if name == b"str".as_slice() {
        return !inner.is_empty() && !has_closing(inner);
    }
    is_among(word, &["src", "src_port", "dst_port"])
}

/// The word at this place, where it is neither `if` nor `unless`.
fn wrong_behind<'a>(words: &[&'a [u8]], place: usize, expected: Expected) -> Option<Suspect<'a>> {
    let next = words.get(place)?;
    if is_among(next, &["if", "unless"]) {
        return None;
    }
    Some(Suspect::new(next, expected))
}
