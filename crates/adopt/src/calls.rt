//! Words such as `sc_conn_cur(0,T)`, and their parts; `fetches`, `entries` and `actions` read and write them.

use crate::fetches::constant;
use crate::reasons::{Refusal, Why};
use crate::texts::{Words, append, split_at_byte, text_of};
use base_lines::{push_decimal, read_number};
use base_sequence::NoMemory;
use std::alloc::Global;

/// The parts of a word such as `sc_conn_cur(0,T),add(1)`.
#[derive(Drop)]
pub(crate) struct Call {
    pub name: Vec<u8>,
    pub arguments: Words,
    /// What stands behind: converters, with the comma in front.
    pub rest: Vec<u8>,
}

/// The parts of a word such as `name(a,b),rest`.
pub(crate) fn read_call(alloc: Global, word: &[u8]) -> Result<Call, NoMemory> {
    let mut name = Vec::new(alloc);
    let mut inside = Vec::new(alloc);
    let mut rest = Vec::new(alloc);
    // 0 in the name, 1 in the parentheses, 2 behind them
    let mut stage = 0u8;
    for byte in word {
        match (stage, *byte) {
            (0, b'(') => stage = 1,
            (0, b',') => {
                stage = 2;
                rest.push(*byte)?;
            }
            (0, _) => name.push(*byte)?,
            (1, b')') => stage = 2,
            (1, _) => inside.push(*byte)?,
            (_, _) => rest.push(*byte)?,
        }
    }
    let arguments = if inside.is_empty() {
        Vec::new(alloc)
    } else {
        split_at_byte(alloc, inside.as_slice(), b',')?
    };
    Ok(Call {
        name,
        arguments,
        rest,
    })
}

pub(crate) fn slot_text(alloc: Global, slot: u8, name: &[u8]) -> Result<Vec<u8>, NoMemory> {
    let mut text = text_of(alloc, "sc")?;
    push_decimal(&mut text, u64::from(slot))?;
    text.push(b'_')?;
    append(&mut text, name)?;
    Ok(text)
}

/// `sc_X(i,n)`.
pub(crate) fn element_text(
    alloc: Global,
    name: &[u8],
    index: &[u8],
    slot: u8,
) -> Result<Vec<u8>, NoMemory> {
    let mut text = text_of(alloc, "sc_")?;
    append(&mut text, name)?;
    text.push(b'(')?;
    append(&mut text, index)?;
    text.push(b',')?;
    push_decimal(&mut text, u64::from(slot))?;
    text.push(b')')?;
    Ok(text)
}

/// The number of a slot.
pub(crate) fn slot_of(text: &[u8]) -> Result<u8, Refusal> {
    match read_number(text) {
        Some(0) => Ok(0),
        Some(1) => Ok(1),
        Some(2) => Ok(2),
        _ => Err(Refusal::Lost(Why::MoreSlots)),
    }
}

/// What stands behind `sc0_`, `sc1_` or `sc2_`, with the number.
pub(crate) fn numbered(name: &[u8]) -> Option<(u8, &[u8])> {
    if let Some(rest) = name.strip_prefix(b"sc0_".as_slice()) {
        return Some((0, rest));
    }
    if let Some(rest) = name.strip_prefix(b"sc1_".as_slice()) {
        return Some((1, rest));
    }
    if let Some(rest) = name.strip_prefix(b"sc2_".as_slice()) {
        return Some((2, rest));
    }
    None
}

/// The truth of a constant.
pub(crate) fn truth_text(alloc: Global, truth: bool) -> Result<Vec<u8>, NoMemory> {
    text_of(alloc, if truth { "always_true" } else { "always_false" })
}
