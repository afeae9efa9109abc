//! IPv6 addresses printed (RFC 5952, section 4); `text` prints keys by it, and `sample` address texts.
ghost use Rattle.std.specs.Prelude.{◌≡◌, ◌+◌, ◌<◌, ◌≤◌, ◌++◌, false, length, codes, IfOk, OnOk};
ghost use Rattle.std.specs.Fmt.{digits};
ghost use Rattle.stick_key.specs.Dotted.{dotted};
ghost use Rattle.stick_key.specs.Ipv6Printed.{first_longest, ipv6, joined, longest, shortened};

use super::groups::groups_of;
use super::mapped::unmapped;
use crate::NoMemory;
use crate::text::hex_digit;
use std::alloc::Global;

/// The length of the longest text, eight groups of four digits.
const LONGEST_TEXT: usize = 39;

/// Where the longest run of zeros begins, the first of equal runs, and how long it is.
fn longest_run(groups: &[u16; 8]) -> (usize, usize)
    ensures start { result.0 ≡ first_longest groups.now }
    ensures length { result.1 ≡ longest groups.now }
    ensures within { result.0 + result.1 ≤ 8 }
{
    let mut start = 8;
    let mut length = 0;
    let mut zeros = 0;
    for place in (0..8usize).rev() {
        zeros = if groups[place] == 0 { zeros + 1 } else { 0 };
        if zeros < length {
            continue;
        }
        start = place;
        length = zeros;
    }
    (start, length)
}

/// Writes a group without leading zeros.
fn push_group(text: &mut Vec<u8>, group: u16) -> Result<(), NoMemory>
    ensures { OnOk result (text.new.items ≡ text.old.items ++ digits 16 false group) }
{
    let [high, low] = group.to_be_bytes();
    let last = hex_digit(low % 16);
    if group < 0x10 {
        return text.extend_from_slice(&[last]);
    }
    let third = hex_digit(low / 16);
    if group < 0x100 {
        return text.extend_from_slice(&[third, last]);
    }
    let second = hex_digit(high % 16);
    if group < 0x1000 {
        return text.extend_from_slice(&[second, third, last]);
    }
    text.extend_from_slice(&[hex_digit(high / 16), second, third, last])
}

/// Writes groups, joined by colons.
fn push_groups(text: &mut Vec<u8>, groups: &[u16]) -> Result<(), NoMemory>
    ensures { OnOk result (text.new.items ≡ text.old.items ++ joined groups.now) }
{
    let Some((first, rest)) = groups.split_first() else {
        return Ok(());
    };
    push_group(text, *first)?;
    for group in rest {
        text.push(b':')?;
        push_group(text, *group)?;
    }
    Ok(())
}

/// The text of eight groups.
fn print_shortened(alloc: Global, groups: &[u16; 8]) -> Result<Vec<u8>, NoMemory>
    ensures { IfOk result (λ text. text.items ≡ shortened groups.now) }
{
    let mut text = Vec::with_capacity(alloc, LONGEST_TEXT)?;
    let (start, length) = longest_run(groups);
    if length < 2 {
        push_groups(&mut text, groups)?;
        return Ok(text);
    }
    push_groups(&mut text, &groups[..start])?;
    text.extend_from_slice(b"::")?;
    push_groups(&mut text, &groups[start + length..])?;
    Ok(text)
}

/// The text of an address that stands for this IPv4 address.
fn print_mapped(alloc: Global, address: [u8; 4]) -> Result<Vec<u8>, NoMemory>
    ensures { IfOk result (λ text. text.items ≡ codes "::ffff:" ++ dotted address) }
{
    let [first, second, third, fourth] = address;
    Ok(format!(in alloc; "::ffff:{first}.{second}.{third}.{fourth}")?.into_bytes())
}

/// The text of an address.
pub(crate) fn print_ipv6(alloc: Global, address: [u8; 16]) -> Result<Vec<u8>, NoMemory>
    ensures { IfOk result (λ text. text.items ≡ ipv6 address) }
{
    match unmapped(address) {
        Some(address) => print_mapped(alloc, address),
        None => print_shortened(alloc, &groups_of(address)),
    }
}
