//! What HAProxy's rules of later phases do that stickd's don't: they wait for bytes, and see a session that was counted;
//! `rule_lines` and `rules` ask it.

use crate::lexer::SourceLine;
use crate::plan::{Plan, RuleAt, begins};
use crate::texts::{is_word, word_at};

/// Whether one of these words asks whether the delay is over.
fn asks_end(words: &[Vec<u8>]) -> bool {
    for word in words {
        let word = word.as_slice();
        let bare = word.strip_prefix(b"!".as_slice()).unwrap_or(word);
        if is_word(bare, "WAIT_END") || is_word(bare, "wait_end") {
            return true;
        }
    }
    false
}

/// Whether one of these words is this name, negated or not.
pub(crate) fn names(words: &[Vec<u8>], name: &[u8]) -> bool {
    for word in words {
        let word = word.as_slice();
        if word.strip_prefix(b"!".as_slice()).unwrap_or(word) == name {
            return true;
        }
    }
    false
}

/// Whether a rule asks by an ACL whether the delay is over.
fn asks_end_by_name(plan: &Plan, words: &[Vec<u8>]) -> bool {
    for line in &plan.lines {
        let given = line.words.as_slice();
        if begins(given, "acl", "") && asks_end(given) && names(words, word_at(given, 1)) {
            return true;
        }
    }
    false
}

/// Whether a rule holds a connection until a delay is over.
pub(crate) fn waits(plan: &Plan, rule: &RuleAt) -> bool {
    let words = plan.words(rule.line);
    if rule.phase < 3 || !(asks_end(words) || asks_end_by_name(plan, words)) {
        return false;
    }
    match plan.effective(rule.origin, "tcp-request", "inspect-delay") {
        Some(line) => !is_word(word_at(plan.words(line), 2), "0"),
        None => false,
    }
}

/// Whether a rule or an ACL of the file has this text in a word.
pub(crate) fn is_asked(plan: &Plan, text: &[u8]) -> bool {
    for line in &plan.lines {
        let words = line.words.as_slice();
        let is_asking = begins(words, "acl", "") || begins(words, "tcp-request", "");
        if is_asking && words.iter().any(|word| has_text(word.as_slice(), text)) {
            return true;
        }
    }
    false
}

/// Whether a word has this text in it.
pub(crate) fn has_text(word: &[u8], text: &[u8]) -> bool {
    for start in 0..word.len() {
        let (_, rest) = word.split_at(start);
        if rest.starts_with(text) {
            return true;
        }
    }
    false
}

/// Whether a word asks by a slot's key in a table, or counts by the source: what is read here as the source's own entry, or counted by
/// a slot.
fn asks_by_key(word: &[u8]) -> bool {
    let is_counting = has_text(word, b"src_inc_") || has_text(word, b"src_clr_");
    let is_numbered = has_text(word, b"sc0_") || has_text(word, b"sc1_") || has_text(word, b"sc2_");
    is_counting
        || (is_numbered && has_text(word, b"("))
        || (has_text(word, b"sc_") && has_text(word, b","))
}

fn has_fetch(words: &[Vec<u8>]) -> bool {
    words.iter().any(|word| asks_by_key(word.as_slice()))
}

/// Whether a rule asks so, itself or by an ACL, which says other things before a slot tracks than after it.
pub(crate) fn asks_entry(lines: &[SourceLine], words: &[Vec<u8>]) -> bool {
    if has_fetch(words) {
        return true;
    }
    for line in lines {
        let given = line.words.as_slice();
        if begins(given, "acl", "") && has_fetch(given) && names(words, word_at(given, 1)) {
            return true;
        }
    }
    false
}

/// Whether a rule runs once HAProxy has counted the connection as a session, and a rule asks for that count. stickd counts one that
/// no rule rejected. A frontend's sessions are counted before its rules `session`, those of an entry before rules `content`, and
/// those of an entry that a rule `content` tracks never.
pub(crate) fn misses_count(plan: &Plan, rule: &RuleAt) -> bool {
    (rule.phase >= 2 && is_asked(plan, b"fe_sess_rate"))
        || (rule.phase >= 3 && (is_asked(plan, b"sess_rate") || is_asked(plan, b"sess_cnt")))
}
