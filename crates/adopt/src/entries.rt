//! What is asked of an entry: of a slot's, or of that of the client's address; `fetches` calls it.

use crate::calls::{element_text, slot_of, slot_text};
use crate::fetches::{Form, Subject};
use crate::keywords::is_one_of;
use crate::plan::{Plan, Track};
use crate::reasons::{Refusal, Why};
use crate::texts::{append, is_word, text_of, word_at};
use base_lines::read_number;
use base_sequence::NoMemory;
use std::alloc::Global;
use stored_data::read_fetch;

/// What can be asked of a slot's entry alone.
const SLOT_ONLY: [&str; 5] = ["inc_gpc0", "inc_gpc1", "clr_gpc0", "clr_gpc1", "trackers"];

/// What only HTTP counts.
const HTTP_ONLY: [&str; 8] = [
    "http_req_cnt",
    "http_req_rate",
    "http_err_cnt",
    "http_err_rate",
    "http_fail_cnt",
    "http_fail_rate",
    "glitch_cnt",
    "glitch_rate",
];

/// What is asked of an element of an array.
const ELEMENTS: [&str; 6] = [
    "get_gpc", "inc_gpc", "clr_gpc", "gpc_rate", "get_gpt", "inc_gpt",
];

/// Whether all rules that track with a slot do so in the table of this section.
fn tracks_in(tracks: &[Track], slot: u8, table: usize) -> bool {
    let mut some = false;
    for track in tracks {
        if track.slot == slot {
            some = true;
            if track.table != Some(table) {
                return false;
            }
        }
    }
    some
}

/// Whether each connection is tracked by its source with a slot.
fn tracks_source(tracks: &[Track], slot: u8) -> bool {
    let mut some = false;
    for track in tracks {
        if track.slot == slot {
            some = some || track.is_sure;
            if !track.is_source {
                return false;
            }
        }
    }
    some
}

/// `src_X`, or with a table where it isn't the frontend's own.
fn source_text(alloc: Global, plan: &Plan, name: &[u8], table: usize) -> Result<Vec<u8>, NoMemory> {
    let mut text = text_of(alloc, "src_")?;
    append(&mut text, name)?;
    if !plan.is_frontend(table) {
        text.push(b'(')?;
        append(&mut text, plan.new_name(table))?;
        text.push(b')')?;
    }
    Ok(text)
}

/// The name of what is asked of an element, where it has one of its own, as `gpc0_rate`.
fn legacy_name(name: &[u8], index: &[u8]) -> Option<&'static str> {
    let number = read_number(index)?;
    let names = if is_word(name, "get_gpc") {
        ("get_gpc0", "get_gpc1")
    } else if is_word(name, "inc_gpc") {
        ("inc_gpc0", "inc_gpc1")
    } else if is_word(name, "clr_gpc") {
        ("clr_gpc0", "clr_gpc1")
    } else if is_word(name, "gpc_rate") {
        ("gpc0_rate", "gpc1_rate")
    } else if is_word(name, "get_gpt") {
        ("get_gpt0", "")
    } else {
        return None;
    };
    let chosen = match number {
        0 => names.0,
        1 => names.1,
        _ => "",
    };
    if chosen.is_empty() {
        None
    } else {
        Some(chosen)
    }
}

/// What is asked of a slot's entry.
#[derive(Clone, Copy)]
pub(crate) struct Asked<'a> {
    slot: u8,
    name: &'a [u8],
    /// The element's index.
    index: Option<&'a [u8]>,
    table: Option<&'a [u8]>,
}

/// The word for what is asked of an element.
fn element_word(
    alloc: Global,
    asked: &Asked<'_>,
    index: &[u8],
    keeps_rates: bool,
) -> Result<Vec<u8>, Refusal> {
    let counts = is_word(asked.name, "inc_gpc");
    let is_known = is_one_of(asked.name, &["get_gpc", "get_gpt", "inc_gpc"]);
    if is_known && !(counts && keeps_rates && legacy_name(asked.name, index).is_some()) {
        return Ok(element_text(alloc, asked.name, index, asked.slot)?);
    }
    match legacy_name(asked.name, index) {
        Some(name) => Ok(slot_text(alloc, asked.slot, name.as_bytes())?),
        None => Err(Refusal::Lost(Why::UnknownFetch)),
    }
}

/// What is asked of a slot, in the table that it tracks.
fn tracked_subject(alloc: Global, plan: &Plan, asked: &Asked<'_>) -> Result<Subject, Refusal> {
    let slot = Some(asked.slot);
    if let Some(index) = asked.index {
        let word = element_word(alloc, asked, index, plan.stores_rates)?;
        return Ok(Subject {
            word,
            form: Form::Integer,
            slot,
        });
    }
    let word = slot_text(alloc, asked.slot, asked.name)?;
    if is_word(asked.name, "tracked") {
        return Ok(Subject {
            word,
            form: Form::Truth,
            slot,
        });
    }
    if read_fetch(asked.name).is_some() || is_one_of(asked.name, &SLOT_ONLY) {
        return Ok(Subject {
            word,
            form: Form::Integer,
            slot,
        });
    }
    if is_one_of(asked.name, &HTTP_ONLY) {
        return Ok(Subject {
            word,
            form: Form::Zero(asked.slot),
            slot,
        });
    }
    Err(Refusal::Lost(Why::UnknownFetch))
}

/// The name by which a source's entry is asked what is asked of a slot's.
fn source_name<'a>(asked: &Asked<'a>) -> Result<&'a [u8], Refusal> {
    let name = match asked.index {
        Some(index) => match legacy_name(asked.name, index) {
            Some(name) => name.as_bytes(),
            None => return Err(Refusal::Lost(Why::UnknownFetch)),
        },
        None => asked.name,
    };
    if read_fetch(name).is_some() {
        Ok(name)
    } else {
        Err(Refusal::Lost(Why::OtherTable))
    }
}

/// What is asked of a slot.
pub(crate) fn slot_subject(
    alloc: Global,
    plan: &Plan,
    asked: &Asked<'_>,
) -> Result<Subject, Refusal> {
    let Some(table) = asked.table else {
        return tracked_subject(alloc, plan, asked);
    };
    let Some(section) = plan.table_section(table) else {
        return Err(Refusal::Lost(Why::OtherTable));
    };
    if tracks_in(plan.tracks.as_slice(), asked.slot, section) {
        return tracked_subject(alloc, plan, asked);
    }
    if !tracks_source(plan.tracks.as_slice(), asked.slot) {
        return Err(Refusal::Lost(Why::OtherTable));
    }
    let name = source_name(asked)?;
    Ok(Subject {
        word: source_text(alloc, plan, name, section)?,
        form: Form::Integer,
        slot: None,
    })
}

/// A slot that tracks each connection by its source in this table.
fn slot_by_source(plan: &Plan, table: usize) -> Option<u8> {
    for slot in 0..3u8 {
        if tracks_in(plan.tracks.as_slice(), slot, table)
            && tracks_source(plan.tracks.as_slice(), slot)
        {
            return Some(slot);
        }
    }
    None
}

/// What is asked of a source's entry: `name` behind `src_`.
pub(crate) fn source_subject(
    alloc: Global,
    plan: &Plan,
    origin: usize,
    asked: &Asked<'_>,
) -> Result<Subject, Refusal> {
    let section = match asked.table {
        Some(table) => plan.table_section(table),
        None => Some(origin),
    };
    let Some(section) = section else {
        return Err(Refusal::Lost(Why::OtherTable));
    };
    if let Ok(name) = source_name(asked) {
        return Ok(Subject {
            word: source_text(alloc, plan, name, section)?,
            form: Form::Integer,
            slot: None,
        });
    }
    match slot_by_source(plan, section) {
        Some(slot) => tracked_subject(
            alloc,
            plan,
            &Asked {
                slot,
                name: asked.name,
                index: asked.index,
                table: None,
            },
        ),
        None => Err(Refusal::Lost(Why::UntrackedCount)),
    }
}

/// What is asked, read from its call.
pub(crate) fn asked_of<'a>(
    slot: Option<u8>,
    name: &'a [u8],
    arguments: &'a [Vec<u8>],
) -> Result<Asked<'a>, Refusal> {
    let is_element = is_one_of(name, &ELEMENTS);
    let mut place = 0usize;
    let mut index = None;
    if is_element {
        index = Some(word_at(arguments, 0));
        place = 1;
    }
    let slot = match slot {
        Some(slot) => slot,
        None => {
            place = place.saturating_add(1);
            slot_of(word_at(arguments, place.saturating_sub(1)))?
        }
    };
    let table = arguments.get(place).map(|table| table.as_slice());
    Ok(Asked {
        slot,
        name,
        index,
        table,
    })
}
