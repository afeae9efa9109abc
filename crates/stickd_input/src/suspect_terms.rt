//! The word at fault in a condition or in a criterion.

use crate::expected::{ELEMENT_FETCHES, Expected, SLOT_FETCHES, SOURCE_FETCHES};
use crate::suspects::{Suspect, is_among, is_element, is_slot};
use base_lines::{Parts, before_parenthesis, has_closing, inside, read_number};
use rule_addresses::read_network;

/// The values that a criterion takes.
#[derive(Clone, Copy, PartialEq, Eq)]
enum Values {
    Nothing,
    Networks,
    Integers,
}

/// What is wrong with a condition, as `BadCondition`.
pub(crate) fn wrong_condition<'a>(words: &[&'a [u8]]) -> Option<Suspect<'a>> {
    let mut opened = None;
    let mut lacks_term = true;
    for (place, word) in words.iter().enumerate() {
        if let Some(first) = opened {
            if is_or(word) {
                return Some(Suspect::new(word, Expected::ClosingBrace));
            }
            if *word == b"}".as_slice() {
                let criterion = words.get(first..place).unwrap_or(&[]);
                if let Some(found) = wrong_criterion(criterion, word) {
                    return Some(found);
                }
                opened = None;
            }
            continue;
        }
        let bare = word.strip_prefix(b"!".as_slice()).unwrap_or(word);
        if is_or(bare) || *bare == *b"}".as_slice() {
            if lacks_term || !is_or(word) {
                return Some(Suspect::new(word, Expected::Term));
            }
            lacks_term = true;
            continue;
        }
        lacks_term = bare.is_empty();
        if bare == b"{".as_slice() {
            opened = Some(place + 1);
        }
    }
    wrong_end(words, opened, lacks_term)
}

/// What is missing at a condition's end, or is wrong in a brace that was opened and isn't closed.
fn wrong_end<'a>(
    words: &[&'a [u8]],
    opened: Option<usize>,
    lacks_term: bool,
) -> Option<Suspect<'a>> {
    let Some(first) = opened else {
        return lacks_term.then_some(Suspect::new(b"", Expected::Term));
    };
    let criterion = words.get(first..).unwrap_or(&[]);
    match wrong_criterion(criterion, b"") {
        Some(found) => Some(found),
        None => Some(Suspect::new(b"", Expected::ClosingBrace)),
    }
}

fn is_or(word: &[u8]) -> bool {
    is_among(word, &["or", "||"])
}

/// What is wrong with a criterion, behind which stands this word.
pub(crate) fn wrong_criterion<'a>(words: &[&'a [u8]], end: &'a [u8]) -> Option<Suspect<'a>> {
    let Some((name, values)) = words.split_first() else {
        return Some(Suspect::new(end, Expected::Criterion));
    };
    match values_of(name) {
        None => Some(Suspect::new(name, wrong_name(name))),
        Some(Values::Nothing) => {
            let value = values.first()?;
            Some(Suspect::new(value, Expected::NoValue))
        }
        Some(Values::Networks) => wrong_networks(values, end),
        Some(Values::Integers) => wrong_integers(values, end),
    }
}

/// The values of a criterion of this name. None where there is no such criterion.
fn values_of(name: &[u8]) -> Option<Values> {
    if is_among(name, &["always_true", "always_false"]) {
        return Some(Values::Nothing);
    }
    if name == b"src".as_slice() {
        return Some(Values::Networks);
    }
    if is_among(name, &["src_port", "dst_port"]) {
        return Some(Values::Integers);
    }
    let (base, rest) = before_parenthesis(name);
    if let Some(fetch) = base.strip_prefix(b"src_".as_slice()) {
        let is_known = is_among(fetch, &SOURCE_FETCHES) && (rest.is_empty() || is_table(rest));
        return is_known.then_some(Values::Integers);
    }
    if let Some(fetch) = slot_fetch(name) {
        return values_of_slot(fetch);
    }
    let fetch = base.strip_prefix(b"sc_".as_slice())?;
    if is_among(fetch, &ELEMENT_FETCHES) && is_element(rest) {
        return Some(Values::Integers);
    }
    if is_slot(rest) {
        return values_of_slot(fetch);
    }
    None
}

/// X of `sc0_X`, `sc1_X` and `sc2_X`.
fn slot_fetch(name: &[u8]) -> Option<&[u8]> {
    for prefix in ["sc0_", "sc1_", "sc2_"] {
        if let Some(fetch) = name.strip_prefix(prefix.as_bytes()) {
            return Some(fetch);
        }
    }
    None
}

/// The values of what is asked of a slot.
fn values_of_slot(fetch: &[u8]) -> Option<Values> {
    if fetch == b"tracked".as_slice() {
        return Some(Values::Nothing);
    }
    is_among(fetch, &SLOT_FETCHES).then_some(Values::Integers)
}

/// Whether a text is a table's name in parentheses.
fn is_table(text: &[u8]) -> bool {
    match inside(text) {
        Some(name) => !name.is_empty() && !has_closing(name),
        None => false,
    }
}

/// What should stand in place of a name that is no criterion's: where all of it is known but the parentheses, what is to stand in
/// these.
fn wrong_name(name: &[u8]) -> Expected {
    let (base, _) = before_parenthesis(name);
    let Some(fetch) = base.strip_prefix(b"sc_".as_slice()) else {
        return Expected::Criterion;
    };
    if is_among(fetch, &ELEMENT_FETCHES) {
        return Expected::Element;
    }
    if is_among(fetch, &SLOT_FETCHES) {
        return Expected::Slot;
    }
    Expected::Criterion
}

/// What is wrong with networks.
fn wrong_networks<'a>(values: &[&'a [u8]], end: &'a [u8]) -> Option<Suspect<'a>> {
    for value in values {
        if read_network(value).is_none() {
            return Some(Suspect::new(value, Expected::Network));
        }
    }
    values
        .is_empty()
        .then_some(Suspect::new(end, Expected::Network))
}

/// What is wrong with the values of an integer.
fn wrong_integers<'a>(values: &[&'a [u8]], end: &'a [u8]) -> Option<Suspect<'a>> {
    let mut takes_range = true;
    let mut lacks_value = true;
    for (place, value) in values.iter().enumerate() {
        if is_among(value, Expected::Pattern.words()) {
            if lacks_value && place > 0 {
                return Some(Suspect::new(value, Expected::Pattern));
            }
            takes_range = *value == b"eq".as_slice();
            lacks_value = true;
            continue;
        }
        if read_number(value).is_none() && !(takes_range && is_range(value)) {
            let expected = if takes_range {
                Expected::Pattern
            } else {
                Expected::Number
            };
            return Some(Suspect::new(value, expected));
        }
        lacks_value = false;
    }
    lacks_value.then_some(Suspect::new(end, Expected::Pattern))
}

/// Whether a text is a range: two numbers round a colon, of which one may be left out.
fn is_range(text: &[u8]) -> bool {
    let mut parts = Parts::new(text, b':');
    let (Some(low), Some(high)) = (parts.next(), parts.next()) else {
        return false;
    };
    if parts.next().is_some() || (low.is_empty() && high.is_empty()) {
        return false;
    }
    is_bound(low) && is_bound(high)
}

/// Whether a text is a number, or nothing.
fn is_bound(text: &[u8]) -> bool {
    text.is_empty() || read_number(text).is_some()
}
