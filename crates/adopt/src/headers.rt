//! Headers of the PROXY protocol: which lines expect them of clients, or have the server sent them; `options` has the options that
//! stand for these, and the conversions ask what is lost.

use crate::criteria::{behind_two, convert_criterion};
use crate::keywords::has_flag;
use crate::manual::{BIND_VALUES, SERVER_VALUES};
use crate::plan::{Plan, RuleAt, begins};
use crate::reasons::{Refusal, Why};
use crate::rules::accepts;
use crate::texts::{Words, append, copy_text, is_word, text_of, word_at};
use crate::waits::{has_text, names};
use base_sequence::NoMemory;
use std::alloc::Global;

// The options of `stickd run`, as they are spelled.
pub(crate) const SEND_PROXY: &str = "--send-proxy";

pub(crate) const SEND_PROXY_V2: &str = "--send-proxy-v2";

/// The networks that hold all addresses.
const EVERYBODY: [&str; 2] = ["0.0.0.0/0", "::/0"];

/// How many networks of proxies the program takes.
const MOST_NETWORKS: usize = 64;

/// Where the options of a server begin.
const SERVER_OPTIONS: usize = 3;

/// Whether a line `bind` expects a header of each of its clients.
fn expects(words: &[Vec<u8>]) -> bool {
    has_flag(words, 2, &BIND_VALUES, "accept-proxy")
}

/// Whether each line `bind` of the frontend does.
fn expects_everywhere(plan: &Plan) -> bool {
    let Some(section) = plan.frontend.and_then(|place| plan.section(place)) else {
        return false;
    };
    let mut some = false;
    for number in section.first..section.end {
        let words = plan.words(number);
        if begins(words, "bind", "") {
            some = true;
            if !expects(words) {
                return false;
            }
        }
    }
    some
}

/// What a line `bind` loses of its headers. They are expected at all addresses, or at none.
pub(crate) fn bind_header_loss(plan: &Plan, words: &[Vec<u8>]) -> Option<Why> {
    if expects(words) && !expects_everywhere(plan) {
        Some(Why::SomeListeners)
    } else {
        None
    }
}

/// What stands between the braces of a condition that is one criterion.
fn in_braces(condition: &[Vec<u8>]) -> Option<&[Vec<u8>]> {
    let (first, rest) = condition.split_first()?;
    if !is_word(first.as_slice(), "{") || rest.is_empty() {
        return None;
    }
    let (inside, last) = rest.split_at(rest.len() - 1);
    if !is_word(word_at(last, 0), "}") || inside.iter().any(|word| is_word(word.as_slice(), "}")) {
        return None;
    }
    Some(inside)
}

/// The criterion of a rule that expects a header of clients that connect from some addresses.
fn expected_of(words: &[Vec<u8>]) -> Option<&[Vec<u8>]> {
    let given = behind_two(words);
    if !begins(given, "expect-proxy", "layer4") || !is_word(word_at(given, 2), "if") {
        return None;
    }
    let (_, condition) = given.split_at(given.len().min(3));
    let inside = in_braces(condition)?;
    if is_word(word_at(inside, 0), "src") {
        Some(inside)
    } else {
        None
    }
}

/// Whether a rule in front ends the rules of `connection` for a client that goes on, so that HAProxy may not come to this one.
fn is_passed(plan: &Plan, rules: &[RuleAt], place: usize) -> bool {
    for rule in rules.iter().take(place) {
        if accepts(plan, rule) {
            return true;
        }
    }
    false
}

/// The networks from which the rule at a place expects headers, behind the word `src`. None where it is another rule, or one that
/// options don't stand for.
fn rule_networks(
    alloc: Global,
    plan: &Plan,
    rules: &[RuleAt],
    place: usize,
) -> Result<Option<Words>, NoMemory> {
    let Some(rule) = rules.get(place) else {
        return Ok(None);
    };
    let Some(criterion) = expected_of(plan.words(rule.line)) else {
        return Ok(None);
    };
    if rule.phase != 1 || is_passed(plan, rules, place) {
        return Ok(None);
    }
    match convert_criterion(alloc, plan, rule.origin, criterion) {
        // Where a file of patterns is empty, it is no criterion on an address.
        Ok(words) if is_word(word_at(words.as_slice(), 0), "src") => Ok(Some(words)),
        Ok(_) | Err(Refusal::Lost(_)) => Ok(None),
        Err(Refusal::OutOfMemory) => Err(NoMemory),
    }
}

/// The networks from which clients begin by a header. None are those of more than the program takes.
pub(crate) fn find_proxies(
    alloc: Global,
    plan: &Plan,
    rules: &[RuleAt],
) -> Result<Words, NoMemory> {
    let mut networks = Vec::new(alloc);
    if expects_everywhere(plan) {
        for network in EVERYBODY {
            networks.push(text_of(alloc, network)?)?;
        }
        return Ok(networks);
    }
    for place in 0..rules.len() {
        let Some(words) = rule_networks(alloc, plan, rules, place)? else {
            continue;
        };
        for network in words.iter().skip(1) {
            networks.push(copy_text(alloc, network.as_slice())?)?;
        }
    }
    if networks.len() > MOST_NETWORKS {
        networks.clear();
    }
    Ok(networks)
}

/// Whether `--accept-proxy` stands for the rule at a place.
pub(crate) fn is_carried(alloc: Global, plan: &Plan, place: usize) -> Result<bool, NoMemory> {
    if plan.proxies.is_empty() {
        return Ok(false);
    }
    Ok(rule_networks(alloc, plan, plan.rules.as_slice(), place)?.is_some())
}

/// The value of `--accept-proxy`, where clients begin by headers.
pub(crate) fn proxies_value(alloc: Global, plan: &Plan) -> Result<Option<Vec<u8>>, NoMemory> {
    if plan.proxies.is_empty() {
        return Ok(None);
    }
    let mut value = Vec::new(alloc);
    for network in &plan.proxies {
        if !value.is_empty() {
            value.push(b',')?;
        }
        append(&mut value, network.as_slice())?;
    }
    Ok(Some(value))
}

/// Whether one of these words asks from where a client connects, or to where.
fn asks_ends(words: &[Vec<u8>]) -> bool {
    for word in words {
        let word = word.as_slice();
        if has_text(word, b"src") || has_text(word, b"dst") || has_text(word, b"LOCALHOST") {
            return true;
        }
    }
    false
}

/// Whether a rule judges a client by what its header tells, and in HAProxy by where the proxy connects from: one of `connection`
/// that asks so, itself or by an ACL.
pub(crate) fn hears_told(plan: &Plan, rule: &RuleAt) -> bool {
    if rule.phase != 1 || plan.proxies.is_empty() {
        return false;
    }
    let words = behind_two(plan.words(rule.line));
    if asks_ends(words) {
        return true;
    }
    for line in &plan.lines {
        let given = line.words.as_slice();
        let is_asking = begins(given, "acl", "") && asks_ends(behind_two(given));
        if is_asking && names(words, word_at(given, 1)) {
            return true;
        }
    }
    false
}

/// Whether a server's line has this option.
fn server_has(words: &[Vec<u8>], from: usize, name: &str) -> bool {
    has_flag(words, from, &SERVER_VALUES, name)
}

/// Whether a line has a server told of its clients by the options from a place on.
fn tells(words: &[Vec<u8>], from: usize) -> bool {
    server_has(words, from, "send-proxy") || server_has(words, from, "send-proxy-v2")
}

/// Whether it takes back that a server is told.
fn untells(words: &[Vec<u8>], from: usize) -> bool {
    server_has(words, from, "no-send-proxy") || server_has(words, from, "no-send-proxy-v2")
}

/// The option by which a server is told of its clients, where its line says so. HAProxy tells it by version 2 where both are asked.
pub(crate) fn send_option(words: &[Vec<u8>]) -> Option<&'static str> {
    if !begins(words, "server", "")
        || !tells(words, SERVER_OPTIONS)
        || untells(words, SERVER_OPTIONS)
    {
        return None;
    }
    if server_has(words, SERVER_OPTIONS, "send-proxy-v2") {
        Some(SEND_PROXY_V2)
    } else {
        Some(SEND_PROXY)
    }
}

/// What a server's line loses of its headers: those for which no option stands.
pub(crate) fn server_header_loss(words: &[Vec<u8>], from: usize) -> Option<Why> {
    if tells(words, from) && send_option(words).is_none() {
        Some(Why::ProxyProtocol)
    } else {
        None
    }
}
