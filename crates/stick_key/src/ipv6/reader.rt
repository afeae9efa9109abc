//! IPv6 addresses read from their texts (RFC 4291, section 2.2); `text` calls it, and `rule_addresses` from outside.
ghost use Rattle.std.specs.Prelude.{◌≡◌, ◌==◌, ◌≢◌, ◌+◌, ◌-◌, ◌<◌, ◌≤◌, ◌++◌, [], ◌∷◌, length, IfSome, IfNone, List, ℕ, true, replicate};
ghost use Rattle.std.specs.Bool.{OnTrue, OnFalse};
ghost use Rattle.std.specs.List.{slice_split};
ghost use Rattle.std.specs.Option.{SomeIff};
ghost use Rattle.std.specs.Str.Parse.{digits_value};
ghost use Rattle.stick_key.specs.AddressOf.{ipv6_of};
ghost use Rattle.stick_key.specs.Ipv6Reader.{HasNoGap, SpellSide, SpellSides};
ghost use Rattle.stick_key.specs.Ipv6Text.{IsHexGroup, IsIpv6, Spell, Spells};

use super::groups::{Groups, bytes_of};
use crate::dotted::{read_dotted, split_once};
use crate::numeral::read_numeral;

/// The most groups beside a gap, which stands for one at least.
const MOST_BESIDE_GAP: usize = 7;

/// The number of a hexadecimal group.
fn read_hex_group(part: &[u8]) -> Option<u16>
    ensures { SomeIff result (IsHexGroup part.now) (digits_value 16 part.now) }
{
    if part.len() > 4 {
        return None;
    }
    match read_numeral(part, 16) {
        Ok(number) => Some(number as u16),
        Err(_) => None,
    }
}

/// The groups of the last part of a text: one, or two where it may be an IPv4 text.
fn push_last(groups: &mut Groups, part: &[u8], dotted_end: bool) -> bool
    requires { length groups.old < 8 }
    ensures spelled { OnTrue result ((last : List ℕ) × Spell dotted_end (part.now ∷ []) last × (groups.new ≡ groups.old ++ last)) }
    ensures refused { OnFalse result ((last : List ℕ) → Spell dotted_end (part.now ∷ []) last → 8 < length groups.old + length last) }
{
    if let Some(group) = read_hex_group(part) {
        groups.push(group);
        return true;
    }
    if !dotted_end || groups.len() > 6 {
        return false;
    }
    let Ok(address) = read_dotted(part) else {
        return false;
    };
    groups.push(u16::from_be_bytes([address[0], address[1]]));
    groups.push(u16::from_be_bytes([address[2], address[3]]));
    true
}

/// The groups that a text spells, if there are at most eight.
fn read_groups(text: &[u8], dotted_end: bool) -> Option<Groups>
    ensures found { IfSome result (Spell dotted_end (slice_split (λ byte. byte == 58) text.now)) }
    ensures none { IfNone result ((groups : List ℕ) → Spell dotted_end (slice_split (λ byte. byte == 58) text.now) groups → 8 < length groups) }
{
    let mut groups = Groups::new();
    let mut rest = text;
    for _count in 0..8usize {
        let Some((part, after)) = split_once(rest, b':') else {
            let read = push_last(&mut groups, rest, dotted_end);
            return if read { Some(groups) } else { None };
        };
        groups.push(read_hex_group(part)?);
        rest = after;
    }
    None
}

/// What stands before and after the first two colons in a row.
fn split_gap(text: &[u8]) -> Option<(&[u8], &[u8])>
    ensures found { IfSome result (λ sides. (text.now ≡ sides.0.now ++ 58 ∷ 58 ∷ sides.1.now) × HasNoGap (sides.0.now ++ 58 ∷ [])) }
    ensures none { IfNone result (HasNoGap text.now) }
{
    for at in 1..text.len() {
        if text[at - 1] == b':' && text[at] == b':' {
            return Some((&text[..at - 1], &text[at + 1..]));
        }
    }
    None
}

/// The groups that one side of the gap spells.
fn read_side(text: &[u8], dotted_end: bool) -> Option<Groups>
    ensures found { IfSome result (λ groups. SpellSide dotted_end text.now groups) }
    ensures none { IfNone result ((groups : List ℕ) → SpellSide dotted_end text.now groups → 8 < length groups) }
{
    if text.is_empty() {
        Some(Groups::new())
    } else {
        read_groups(text, dotted_end)
    }
}

/// The eight groups of a text that has no gap.
fn read_full(text: &[u8]) -> Option<[u16; 8]>
    ensures found { IfSome result (Spell true (slice_split (λ byte. byte == 58) text.now)) }
    ensures none { IfNone result ((groups : List ℕ) → Spell true (slice_split (λ byte. byte == 58) text.now) groups → length groups ≢ 8) }
{
    read_groups(text, true)?.all()
}

/// Eight groups: zeros between the high ones and the low ones.
fn filled(high: &[u16], low: &[u16]) -> [u16; 8]
    requires { length high.now + length low.now ≤ 8 }
    ensures { result ≡ high.now ++ (replicate (8 - (length high.now + length low.now)) 0 ++ low.now) }
{
    let mut groups = [0; 8];
    groups[..high.len()].copy_from_slice(high);
    groups[8 - low.len()..].copy_from_slice(low);
    groups
}

/// The eight groups of a text with a gap, of which these are the sides.
fn read_shortened(before: &[u8], after: &[u8]) -> Option<[u16; 8]>
    ensures found { IfSome result (SpellSides before.now after.now) }
    ensures none { IfNone result ((groups : List ℕ) → SpellSides before.now after.now groups → length groups ≢ 8) }
{
    let high = read_side(before, false)?;
    let low = read_side(after, true)?;
    if high.len() + low.len() > MOST_BESIDE_GAP {
        return None;
    }
    Some(filled(high.as_slice(), low.as_slice()))
}

/// The eight groups of a text.
fn read_all(text: &[u8]) -> Option<[u16; 8]>
    ensures found { IfSome result (Spells text.now) }
    ensures none { IfNone result ((groups : List ℕ) → Spells text.now groups → length groups ≢ 8) }
{
    match split_gap(text) {
        Some((before, after)) => read_shortened(before, after),
        None => read_full(text),
    }
}

/// The sixteen bytes of the IPv6 address that a text spells, if any, in one of the forms of RFC 4291, section 2.2.
pub fn read_ipv6(text: &[u8]) -> Option<[u8; 16]>
    ensures address { result ≡ ipv6_of text.now }
    ensures found { IfSome result (IsIpv6 text.now) }
    ensures none { IfNone result ((address : List ℕ) → IsIpv6 text.now address → ⊥) }
{
    Some(bytes_of(read_all(text)?))
}
