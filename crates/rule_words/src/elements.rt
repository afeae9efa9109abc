//! Elements of arrays, as rules name them: `i,n`; `rule_config` reads actions by it, and `term_names` fetches.

ghost use Rattle.std.specs.Prelude.{◌≡◌, option_and_then};
ghost use Rattle.base_lines.specs.Number.{number_of};
ghost use Rattle.rule_words.specs.ElementNames.{element_of, in_array, numbered_slot};

use base_lines::{Parts, read_number};
use rule_model::Slot;

/// The greatest index of an array's element.
const GREATEST_INDEX: u64 = 99;

/// An element of an array in the entry of a slot.
#[derive(Clone, Copy, Debug, PartialEq, Eq)]
pub struct SlotElement {
    pub index: u32,
    pub slot: Slot,
}

/// Reads an element's index.
fn read_index(text: &[u8]) -> Option<u32>
    ensures { result ≡ option_and_then in_array (number_of text.now) }
{
    let index = read_number(text)?;
    if index <= GREATEST_INDEX {
        Some(index as u32)
    } else {
        None
    }
}

/// Reads the number of a slot.
fn read_slot(text: &[u8]) -> Option<Slot>
    ensures { result ≡ option_and_then numbered_slot (number_of text.now) }
{
    match read_number(text)? {
        0 => Some(Slot::Sc0),
        1 => Some(Slot::Sc1),
        2 => Some(Slot::Sc2),
        _ => None,
    }
}

/// Reads `i,n`: the index of an element, 0 to 99, and the number of a slot.
#[tactic(auto, unfolding(crate::specs::ElementNames::element_of))]
pub fn read_element(text: &[u8]) -> Option<SlotElement>
    ensures { result ≡ element_of text.now }
{
    let mut parts = Parts::new(text, b',');
    let (Some(index), Some(slot)) = (parts.next(), parts.next()) else {
        return None;
    };
    if parts.next().is_some() {
        return None;
    }
    let (Some(index), Some(slot)) = (read_index(index), read_slot(slot)) else {
        return None;
    };
    Some(SlotElement { index, slot })
}
