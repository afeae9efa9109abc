//! The word at fault in a line `stick-table`.

use crate::expected::Expected;
use crate::suspects::{Suspect, is_among, word_at};
use base_lines::{Parts, before_parenthesis, inside};
use rule_model::Fault;
use rule_words::{read_bounded, read_time};
use stored_data::{Datum, read_datum};

/// What is wrong with a line `stick-table` of this fault.
pub(crate) fn wrong_setting<'a>(fault: Fault, words: &[&'a [u8]]) -> Option<Suspect<'a>> {
    let mut place = 1;
    for _ in 0..words.len() {
        let word = words.get(place)?;
        let value = word_at(words, place + 1);
        if let Some(found) = wrong_pair(fault, word, value) {
            return Some(found);
        }
        place += if *word == b"nopurge".as_slice() { 1 } else { 2 };
        if place >= words.len() {
            return wrong_whole(fault, words);
        }
    }
    None
}

/// What is wrong with a word and its value.
fn wrong_pair<'a>(fault: Fault, word: &'a [u8], value: &'a [u8]) -> Option<Suspect<'a>> {
    match fault {
        Fault::UnknownKeyword if !is_among(word, Expected::Setting.words()) => {
            Some(Suspect::new(word, Expected::Setting))
        }
        Fault::BadSize if word == b"size".as_slice() => Some(Suspect::new(value, Expected::Size)),
        Fault::BadNumber => wrong_number(word, value),
        Fault::UnknownType if word == b"type".as_slice() => {
            let is_type = is_among(value, Expected::KeyType.words());
            (!is_type).then_some(Suspect::new(value, Expected::KeyType))
        }
        Fault::UnknownType if word == b"store".as_slice() => wrong_data(value),
        _ => None,
    }
}

/// What is wrong with the line as a whole.
fn wrong_whole<'a>(fault: Fault, words: &[&'a [u8]]) -> Option<Suspect<'a>> {
    match fault {
        Fault::UnknownKeyword => Some(Suspect::new(word_at(words, 0), Expected::SettingOnce)),
        Fault::BadSize => Some(Suspect::new(b"", Expected::Size)),
        Fault::UnknownType if !words.contains(&b"type".as_slice()) => {
            Some(Suspect::new(b"", Expected::KeyType))
        }
        Fault::UnknownType => Some(Suspect::new(word_at(words, 0), Expected::DatumOnce)),
        _ => None,
    }
}

/// What is wrong with a number or a time.
fn wrong_number<'a>(word: &[u8], value: &'a [u8]) -> Option<Suspect<'a>> {
    if word == b"expire".as_slice() && read_time(value).is_err() {
        return Some(Suspect::new(value, Expected::Expiry));
    }
    if word == b"len".as_slice() && read_bounded(value, 1, 1024).is_err() {
        return Some(Suspect::new(value, Expected::Length));
    }
    if word != b"store".as_slice() {
        return None;
    }
    let mut items = Parts::new(value, b',');
    for _ in 0..=value.len() {
        let item = items.next()?;
        if let Some(found) = wrong_measure(item) {
            return Some(found);
        }
    }
    None
}

/// What is wrong with the number behind a datum's name.
fn wrong_measure(item: &[u8]) -> Option<Suspect<'_>> {
    let (name, rest) = before_parenthesis(item);
    let datum = read_datum(name)?;
    let number = inside(rest)?;
    if datum.is_rate() && read_time(number).is_err() {
        return Some(Suspect::new(item, Expected::Period));
    }
    if datum.is_array() && read_bounded(number, 1, 100).is_err() {
        return Some(Suspect::new(item, Expected::Count));
    }
    None
}

/// What is wrong with a list of data: a name, what stands behind one, or that one stands beside another.
fn wrong_data(list: &[u8]) -> Option<Suspect<'_>> {
    let mut items = Parts::new(list, b',');
    for others in 0..=list.len() {
        let item = items.next()?;
        let (name, rest) = before_parenthesis(item);
        let Some(datum) = read_datum(name) else {
            return Some(Suspect::new(item, Expected::Datum));
        };
        if let Some(expected) = wrong_shape(datum, rest) {
            return Some(Suspect::new(item, expected));
        }
        if is_beside(datum, list, others) {
            return Some(Suspect::new(item, Expected::DatumOnce));
        }
    }
    None
}

/// What should stand behind a datum's name, where something else does.
fn wrong_shape(datum: Datum, rest: &[u8]) -> Option<Expected> {
    if datum.is_array() {
        return inside(rest).is_none().then_some(Expected::Count);
    }
    let is_right = if datum.is_rate() {
        inside(rest).is_some()
    } else {
        rest.is_empty()
    };
    (!is_right).then_some(Expected::Period)
}

/// Whether a datum can't stand behind the first so many of a list: it is one of them, or is left out by one.
fn is_beside(datum: Datum, list: &[u8], others: usize) -> bool {
    let mut items = Parts::new(list, b',');
    for _ in 0..others {
        let (name, _) = before_parenthesis(items.next().unwrap_or(b""));
        let Some(other) = read_datum(name) else {
            continue;
        };
        if other == datum || other.excludes(datum) || datum.excludes(other) {
            return true;
        }
    }
    false
}
