//! What becomes of the first line of a proxy, and what is added behind the frontend's; `fates` calls it.

use crate::actions::add_words;
use crate::conditions::acl_name;
use crate::criteria::{behind_two, built_in, convert_criterion, declares};
use crate::fates::{Fate, FateKind, left};
use crate::lexer::SourceLine;
use crate::plan::{Plan, begins};
use crate::reasons::Why;
use crate::roles::{Role, has_rules_of, role_of};
use crate::rule_lines::written_rule;
use crate::sections::Kind;
use crate::standing::{added, are_writable, two_words, written};
use crate::texts::{Words, append, append_str, is_word, text_of, word_at};
use base_lines::push_decimal;
use base_sequence::NoMemory;
use std::alloc::Global;

/// The names of the ACLs that HAProxy knows by itself, and that can be declared.
const BUILT_IN: [&str; 2] = ["LOCALHOST", "WAIT_END"];

/// Whether a rule's condition has this name, negated or not.
fn uses_name(words: &[Vec<u8>], name: &str) -> bool {
    for word in words {
        let word = word.as_slice();
        let bare = word.strip_prefix(b"!".as_slice()).unwrap_or(word);
        if is_word(bare, name) {
            return true;
        }
    }
    false
}

/// Whether a rule that is written uses an ACL of this name.
pub(crate) fn is_used(alloc: Global, plan: &Plan, name: &str) -> Result<bool, NoMemory> {
    for place in 0..plan.rules.len() {
        if let Some(converted) = written_rule(alloc, plan, place)?
            && uses_name(converted.words.as_slice(), name)
        {
            return Ok(true);
        }
    }
    Ok(false)
}

/// Adds declarations of the ACLs that HAProxy knows by itself, where rules use them.
fn add_built_ins(
    alloc: Global,
    plan: &Plan,
    frontend: usize,
    lines: &mut Words,
) -> Result<(), NoMemory> {
    for name in BUILT_IN {
        let Ok(Some(criterion)) = built_in(name.as_bytes()) else {
            continue;
        };
        let is_own = declares(alloc, plan, frontend, name.as_bytes()).unwrap_or(true);
        if !is_own && is_used(alloc, plan, name)? {
            let mut words = two_words(alloc, "acl", name.as_bytes())?;
            words.push(text_of(alloc, criterion)?)?;
            lines.push(added(alloc, words.as_slice())?)?;
        }
    }
    Ok(())
}

/// Adds the ACLs of another section whose rules run.
fn add_acls(alloc: Global, plan: &Plan, origin: usize, lines: &mut Words) -> Result<(), NoMemory> {
    let Some(section) = plan.section(origin) else {
        return Ok(());
    };
    for number in section.first..section.end {
        let words = plan.words(number);
        if !begins(words, "acl", "") {
            continue;
        }
        if let Ok(criterion) = convert_criterion(alloc, plan, origin, behind_two(words)) {
            let name = acl_name(alloc, plan, origin, word_at(words, 1))?;
            let mut written = two_words(alloc, "acl", name.as_slice())?;
            add_words(alloc, &mut written, criterion.as_slice())?;
            if are_writable(written.as_slice()) {
                lines.push(added(alloc, written.as_slice())?)?;
            }
        }
    }
    Ok(())
}

/// The rule by which all connections are counted together.
fn tracks_all(alloc: Global, plan: &Plan, slot: u8) -> Result<Vec<u8>, NoMemory> {
    let mut line = text_of(alloc, "    tcp-request connection track-sc")?;
    push_decimal(&mut line, u64::from(slot))?;
    append_str(&mut line, " int(0) table ")?;
    append(&mut line, plan.frontend_name())?;
    append_str(&mut line, ".all")?;
    Ok(line)
}

/// Adds the table in which all connections are counted together.
pub(crate) fn add_table_of_all(
    alloc: Global,
    plan: &Plan,
    lines: &mut Words,
) -> Result<(), NoMemory> {
    if plan.counts_all.is_none() {
        return Ok(());
    }
    let mut heading = text_of(alloc, "backend ")?;
    append(&mut heading, plan.frontend_name())?;
    append_str(&mut heading, ".all")?;
    lines.push(Vec::new(alloc))?;
    lines.push(heading)?;
    lines.push(text_of(
        alloc,
        "    stick-table type integer size 1 store conn_cur,sess_rate(1s)",
    )?)?;
    Ok(())
}

/// What is added behind the frontend's first line.
fn add_heading(
    alloc: Global,
    plan: &Plan,
    frontend: usize,
    lines: &mut Words,
) -> Result<(), NoMemory> {
    let Some(section) = plan.section(frontend) else {
        return Ok(());
    };
    if let (Some(line), Some(backend)) = (plan.names_backend, plan.backend)
        && (line < section.first || line >= section.end)
    {
        let words = two_words(alloc, "default_backend", plan.new_name(backend))?;
        lines.push(added(alloc, words.as_slice())?)?;
    }
    add_built_ins(alloc, plan, frontend, lines)?;
    if let Some(slot) = plan.counts_all {
        lines.push(tracks_all(alloc, plan, slot)?)?;
    }
    for place in [section.defaults, plan.backend] {
        if let Some(origin) = place
            && origin != frontend
            && has_rules_of(plan, origin)
        {
            add_acls(alloc, plan, origin, lines)?;
        }
    }
    Ok(())
}

/// The keyword of a section that stays.
fn section_keyword(kind: Kind, role: Role) -> &'static str {
    if role == Role::Table || role == Role::Backend {
        return "backend";
    }
    match kind {
        Kind::Frontend => "frontend",
        Kind::Listen => "listen",
        _ => "backend",
    }
}

/// What becomes of the first line of a proxy.
pub(crate) fn of_heading(
    alloc: Global,
    plan: &Plan,
    place: usize,
    line: &SourceLine,
) -> Result<Fate, NoMemory> {
    let Some(section) = plan.section(place) else {
        return left(alloc, FateKind::Harmless, Why::NotServed);
    };
    let role = role_of(plan, place);
    if role == Role::None {
        let is_other = section.has_frontend() && section.has_bind && !section.is_off;
        let kind = if is_other {
            FateKind::Lost
        } else {
            FateKind::Harmless
        };
        return left(
            alloc,
            kind,
            if is_other {
                Why::OtherFrontend
            } else {
                Why::NotServed
            },
        );
    }
    let words = two_words(
        alloc,
        section_keyword(section.kind, role),
        plan.new_name(place),
    )?;
    let own_mode = plan.effective(place, "mode", "http");
    let inherits = match own_mode {
        Some(number) => number < section.first,
        None => false,
    };
    let serves = role == Role::Frontend || role == Role::Both;
    let other = !serves && section.has_frontend() && section.has_bind && !section.is_off;
    let altered = if other {
        Some(Why::OtherFrontend)
    } else if serves && section.is_http && inherits {
        Some(Why::HttpMode)
    } else {
        None
    };
    let mut fate = written(alloc, line, words.as_slice(), altered)?;
    if serves {
        add_heading(alloc, plan, place, &mut fate.after)?;
    }
    Ok(fate)
}
