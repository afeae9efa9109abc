//! What a section is for what is served; `headings`, `proxy_lines` and `fates` ask it.

use crate::headings::is_used;
use crate::plan::{Plan, begins};
use crate::sections::Kind;

/// The role of a section in what is served.
#[derive(Clone, Copy, PartialEq, Eq)]
pub(crate) enum Role {
    Frontend,
    Backend,
    Both,
    /// Only its table is used.
    Table,
    None,
}

/// Whether what is served names a section's table.
fn is_mentioned(plan: &Plan, name: &[u8]) -> bool {
    for rule in &plan.rules {
        if mentions(plan.words(rule.line), name) {
            return true;
        }
    }
    for place in [plan.frontend, plan.backend] {
        let Some(section) = place.and_then(|place| plan.section(place)) else {
            continue;
        };
        for number in section.first..section.end {
            if begins(plan.words(number), "acl", "") && mentions(plan.words(number), name) {
                return true;
            }
        }
    }
    false
}

/// Whether words have a name as a word, or at the end of parentheses.
fn mentions(words: &[Vec<u8>], name: &[u8]) -> bool {
    for word in words {
        let word = word.as_slice();
        if word == name {
            return true;
        }
        if let Some(inner) = word.strip_suffix(b")".as_slice())
            && inner.ends_with(name)
        {
            return true;
        }
    }
    false
}

pub(crate) fn role_of(plan: &Plan, place: usize) -> Role {
    let Some(section) = plan.section(place) else {
        return Role::None;
    };
    match (plan.is_frontend(place), plan.is_backend(place)) {
        (true, true) => Role::Both,
        (true, false) => Role::Frontend,
        (false, true) => Role::Backend,
        (false, false) => {
            let is_used = section.kind == Kind::Backend
                || is_mentioned(plan, section.name.as_slice());
            if section.has_table && is_used {
                Role::Table
            } else {
                Role::None
            }
        }
    }
}

/// Whether rules of a section run for the frontend.
pub(crate) fn has_rules_of(plan: &Plan, origin: usize) -> bool {
    for rule in &plan.rules {
        if rule.origin == origin {
            return true;
        }
    }
    false
}
