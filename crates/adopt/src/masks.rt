//! Masks of the sources that rules track, and whether options stand for them; `choices` asks that, and `actions` and `options`
//! go by the answer.

use crate::actions::tracked_slot;
use crate::criteria::behind_two;
use crate::plan::{Plan, RuleAt, SharedMask, begins};
use crate::texts::{is_word, split_at_byte, word_at};
use base_lines::read_number;
use base_sequence::NoMemory;
use std::alloc::Global;

/// The type of the table of a section.
pub(crate) fn table_type(plan: &Plan, place: usize) -> &[u8] {
    let Some(section) = plan.section(place) else {
        return b"";
    };
    for number in section.first..section.end {
        let words = plan.words(number);
        if !is_word(word_at(words, 0), "stick-table") {
            continue;
        }
        for at in 0..words.len() {
            if is_word(word_at(words, at), "type") {
                return word_at(words, at.saturating_add(1));
            }
        }
    }
    b""
}

/// The bits of a mask for IPv4 and, if given, for IPv6 of `,ipmask(a,b)`.
pub(crate) fn mask_of(alloc: Global, rest: &[u8]) -> Result<Option<(u64, u64)>, NoMemory> {
    let Some(inner) = rest.strip_prefix(b",ipmask(".as_slice()) else {
        return Ok(None);
    };
    let Some(inner) = inner.strip_suffix(b")".as_slice()) else {
        return Ok(None);
    };
    let parts = split_at_byte(alloc, inner, b',')?;
    let first = word_at(parts.as_slice(), 0);
    let v4 = if is_word(first, "255.255.255.255") {
        Some(32)
    } else {
        read_number(first)
    };
    let v6 = if parts.len() > 1 {
        read_number(word_at(parts.as_slice(), 1))
    } else {
        Some(128)
    };
    let (Some(v4), Some(v6)) = (v4, v6) else {
        return Ok(None);
    };
    Ok(Some((v4, v6)))
}

/// The section whose table a tracking rule names, or else its own. None where there is no such table.
pub(crate) fn tracked_section(plan: &Plan, rule: &RuleAt, given: &[Vec<u8>]) -> Option<usize> {
    if is_word(word_at(given, 2), "table") {
        return plan.table_section(word_at(given, 3));
    }
    Some(rule.origin)
}

/// What stands behind `src` in a key: nothing, or converters with the comma in front. None for other keys.
fn behind_source(key: &[u8]) -> Option<&[u8]> {
    let rest = key.strip_prefix(b"src".as_slice())?;
    if rest.is_empty() || rest.starts_with(b",".as_slice()) {
        return Some(rest);
    }
    None
}

/// The mask of a rule that tracks the source in this section's table, where that can be read.
fn mask_in(
    alloc: Global,
    plan: &Plan,
    section: usize,
    rest: &[u8],
) -> Result<Option<SharedMask>, NoMemory> {
    let mut bits = Some((32, 128));
    if !rest.is_empty() {
        bits = mask_of(alloc, rest)?;
    }
    let Some((v4, v6)) = bits else {
        return Ok(None);
    };
    let v6 = if is_word(table_type(plan, section), "ip") {
        None
    } else {
        Some(v6)
    };
    Ok(Some(SharedMask { v4, v6 }))
}

/// The mask that both are, if it is one.
fn joined(one: SharedMask, other: SharedMask) -> Option<SharedMask> {
    if one.v4 != other.v4 {
        return None;
    }
    match (one.v6, other.v6) {
        (Some(v6), Some(more)) if v6 != more => None,
        (None, _) => Some(other),
        (Some(_), _) => Some(one),
    }
}

/// The mask that all of these rules have that track the source. None where they differ, or one can't be read.
fn common_mask(
    alloc: Global,
    plan: &Plan,
    rules: &[RuleAt],
) -> Result<Option<SharedMask>, NoMemory> {
    let mut shared: Option<SharedMask> = None;
    for rule in rules {
        let given = behind_two(plan.words(rule.line));
        if tracked_slot(word_at(given, 0)).is_none() {
            continue;
        }
        let Some(rest) = behind_source(word_at(given, 1)) else {
            continue;
        };
        let Some(section) = tracked_section(plan, rule, given) else {
            return Ok(None);
        };
        let Some(mask) = mask_in(alloc, plan, section, rest)? else {
            return Ok(None);
        };
        let both = match shared {
            Some(other) => joined(other, mask),
            None => Some(mask),
        };
        if both.is_none() {
            return Ok(None);
        }
        shared = both;
    }
    Ok(shared)
}

/// Whether a word reads the source's own entry.
fn reads_source(word: &[u8]) -> bool {
    word.starts_with(b"src_".as_slice()) && !word.starts_with(b"src_port".as_slice())
}

/// Whether a rule or an ACL reads the source's own entry, which HAProxy looks for by the whole address.
fn asks_of_source(plan: &Plan) -> bool {
    for line in &plan.lines {
        let words = line.words.as_slice();
        let is_asking = begins(words, "acl", "") || begins(words, "tcp-request", "");
        if is_asking && words.iter().any(|word| reads_source(word.as_slice())) {
            return true;
        }
    }
    false
}

/// The mask of the sources that these rules track, where options can stand for it and it isn't the whole address.
pub(crate) fn shared_mask(
    alloc: Global,
    plan: &Plan,
    rules: &[RuleAt],
) -> Result<Option<SharedMask>, NoMemory> {
    let Some(mask) = common_mask(alloc, plan, rules)? else {
        return Ok(None);
    };
    let v6 = mask.v6.unwrap_or(128);
    let is_whole = mask.v4 == 32 && v6 == 128;
    let fits = mask.v4 > 0 && mask.v4 <= 32 && v6 > 0 && v6 <= 128;
    if is_whole || !fits || asks_of_source(plan) {
        return Ok(None);
    }
    Ok(Some(mask))
}
