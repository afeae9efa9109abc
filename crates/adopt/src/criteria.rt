//! Criteria in stickd's spelling, and the ACLs that name them; `conditions`, `headings` and `proxy_lines` call it.

use crate::fetches::read_subject;
use crate::plan::{Plan, begins};
use crate::reasons::{Refusal, Why};
use crate::texts::{Words, is_word, word_at};
use crate::values::with_values;
use std::alloc::Global;

/// A criterion's words in stickd's spelling.
pub(crate) fn convert_criterion(
    alloc: Global,
    plan: &Plan,
    origin: usize,
    words: &[Vec<u8>],
) -> Result<Words, Refusal> {
    let Some((head, values)) = words.split_first() else {
        return Err(Refusal::Lost(Why::BadCondition));
    };
    let subject = read_subject(alloc, plan, origin, head.as_slice())?;
    with_values(alloc, plan, subject, values)
}

/// The words behind a line's second one.
pub(crate) fn behind_two(words: &[Vec<u8>]) -> &[Vec<u8>] {
    if words.len() < 2 {
        return &[];
    }
    let (_, rest) = words.split_at(2);
    rest
}

/// Whether a section declares an ACL of this name; an `Err` where one of its declarations is lost.
pub(crate) fn declares(
    alloc: Global,
    plan: &Plan,
    origin: usize,
    name: &[u8],
) -> Result<bool, Refusal> {
    let Some(section) = plan.section(origin) else {
        return Ok(false);
    };
    let mut some = false;
    for number in section.first..section.end {
        let words = plan.words(number);
        if begins(words, "acl", "") && word_at(words, 1) == name {
            some = true;
            let _criterion = convert_criterion(alloc, plan, origin, behind_two(words))?;
        }
    }
    Ok(some)
}

/// What an ACL that HAProxy knows by itself comes to, as the words behind its name. None for one that is there in stickd.
pub(crate) fn built_in(name: &[u8]) -> Result<Option<&'static str>, Refusal> {
    if is_word(name, "TRUE") || is_word(name, "FALSE") {
        return Ok(None);
    }
    if is_word(name, "LOCALHOST") {
        return Ok(Some("src 127.0.0.1/8 ::1"));
    }
    if is_word(name, "WAIT_END") {
        return Ok(Some("always_true"));
    }
    if name.starts_with(b"HTTP".as_slice()) || name.starts_with(b"METH_".as_slice()) {
        return Err(Refusal::Lost(Why::Payload));
    }
    if is_word(name, "REQ_CONTENT") || is_word(name, "RDP_COOKIE") {
        return Err(Refusal::Lost(Why::Payload));
    }
    Err(Refusal::Lost(Why::UnknownAcl))
}
