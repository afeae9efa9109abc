//! What a criterion asks, in stickd's spelling; `criteria` calls it, and `values` reads what it found.

use crate::calls::{Call, numbered, read_call, slot_text, truth_text};
use crate::entries::{asked_of, slot_subject, source_subject};
use crate::plan::Plan;
use crate::reasons::{Refusal, Why};
use crate::texts::{append, append_str, copy_text, is_word, text_of, word_at};
use base_lines::push_decimal;
use base_sequence::NoMemory;
use std::alloc::Global;

/// What kind of value is asked, which decides how it is compared.
#[derive(Clone, Copy, PartialEq, Eq)]
pub(crate) enum Form {
    Truth,
    Address,
    Integer,
    /// A number that is 0 as long as the slot tracks: what only HTTP counts.
    Zero(u8),
}

/// What is asked.
#[derive(Drop)]
pub(crate) struct Subject {
    pub word: Vec<u8>,
    pub form: Form,
    /// The slot whose entry is read, if any.
    pub slot: Option<u8>,
}

/// What is asked by a constant.
pub(crate) fn constant(call: &Call) -> Option<bool> {
    let name = call.name.as_slice();
    if is_word(name, "always_true") || is_word(name, "wait_end") {
        return Some(true);
    }
    if is_word(name, "always_false") {
        return Some(false);
    }
    if is_word(name, "bool") {
        let value = word_at(call.arguments.as_slice(), 0);
        return Some(is_word(value, "true") || is_word(value, "1"));
    }
    None
}

/// Why what is asked can't be: it is of the payload, or is something else.
fn unknown(name: &[u8]) -> Refusal {
    for front in [
        "req", "res", "payload", "ssl_", "rep_", "hdr", "path", "url", "method", "base", "cook",
        "http_",
    ] {
        if name.starts_with(front.as_bytes()) {
            return Refusal::Lost(Why::Payload);
        }
    }
    Refusal::Lost(Why::UnknownFetch)
}

/// How many connections the frontend has, or has had lately: what a slot counts that tracks all of them together.
fn frontend_subject(alloc: Global, plan: &Plan, call: &Call) -> Result<Subject, Refusal> {
    let Some(slot) = plan.counts_all else {
        return Err(Refusal::Lost(Why::MoreSlots));
    };
    let name = word_at(call.arguments.as_slice(), 0);
    if !name.is_empty() && name != plan.frontend_name() {
        return Err(Refusal::Lost(Why::UnknownFetch));
    }
    let datum = if is_word(call.name.as_slice(), "fe_conn") {
        "conn_cur"
    } else {
        "sess_rate"
    };
    Ok(Subject {
        word: slot_text(alloc, slot, datum.as_bytes())?,
        form: Form::Integer,
        slot: None,
    })
}

/// What the first word of a criterion asks, in a section.
pub(crate) fn read_subject(
    alloc: Global,
    plan: &Plan,
    origin: usize,
    word: &[u8],
) -> Result<Subject, Refusal> {
    let call = read_call(alloc, word)?;
    let name = call.name.as_slice();
    if !call.rest.is_empty() {
        return Err(match unknown(name) {
            Refusal::Lost(Why::UnknownFetch) => Refusal::Lost(Why::Converter),
            other => other,
        });
    }
    if let Some(truth) = constant(&call) {
        return Ok(Subject {
            word: truth_text(alloc, truth)?,
            form: Form::Truth,
            slot: None,
        });
    }
    if is_word(name, "src") {
        return Ok(Subject {
            word: copy_text(alloc, name)?,
            form: Form::Address,
            slot: None,
        });
    }
    if is_word(name, "src_port") || is_word(name, "dst_port") {
        return Ok(Subject {
            word: copy_text(alloc, name)?,
            form: Form::Integer,
            slot: None,
        });
    }
    if is_word(name, "fe_conn") || is_word(name, "fe_sess_rate") {
        return frontend_subject(alloc, plan, &call);
    }
    let mut subject = if let Some((slot, rest)) = numbered(name) {
        slot_subject(
            alloc,
            plan,
            &asked_of(Some(slot), rest, call.arguments.as_slice())?,
        )?
    } else if let Some(rest) = name.strip_prefix(b"sc_".as_slice()) {
        slot_subject(
            alloc,
            plan,
            &asked_of(None, rest, call.arguments.as_slice())?,
        )?
    } else if let Some(rest) = name.strip_prefix(b"src_".as_slice()) {
        source_subject(
            alloc,
            plan,
            origin,
            &asked_of(Some(0), rest, call.arguments.as_slice())?,
        )?
    } else {
        return Err(unknown(name));
    };
    keep_spelling(alloc, &mut subject, word)?;
    Ok(subject)
}

/// Keeps `sc_X(n)` as it is spelled, where the other spelling of it was found.
fn keep_spelling(alloc: Global, subject: &mut Subject, word: &[u8]) -> Result<(), NoMemory> {
    let Some(slot) = subject.slot else {
        return Ok(());
    };
    let Some((_, name)) = numbered(subject.word.as_slice()) else {
        return Ok(());
    };
    let mut spelled = text_of(alloc, "sc_")?;
    append(&mut spelled, name)?;
    spelled.push(b'(')?;
    push_decimal(&mut spelled, u64::from(slot))?;
    append_str(&mut spelled, ")")?;
    if spelled.as_slice() == word {
        subject.word = spelled;
    }
    Ok(())
}
