//! The keys of a listing as sets of addresses, as `nft` and `ipset` take them; `exported` calls `push_set`.

ghost use Rattle.std.specs.Prelude.{◌≡◌, ◌++◌, OnOk, map};
ghost use Rattle.stickd_ctl.specs.AddressSets as spec;
ghost use Rattle.stickd_ctl.specs.AddressSets.{element_text, elements_of, made_text, named, safe_byte, set_name, set_text, timeout_text};

use crate::address_keys::{Family, address_of, is_member};
use crate::lines::{key_of, value_of};
use base_lines::{Parts, push_decimal};
use base_sequence::NoMemory;

/// What takes sets of addresses.
#[derive(Clone, Copy, Debug, PartialEq, Eq)]
pub enum Tool {
    Nft,
    Ipset,
}

/// A byte of a set's name: a letter, a digit, `-` or `.`, and `_` in place of any other.
fn safe_byte_of(byte: u8) -> u8
    ensures { result ≡ safe_byte byte }
{
    if byte.is_ascii_alphanumeric() || byte == b'-' || byte == b'.' {
        byte
    } else {
        b'_'
    }
}

/// Appends a table's name in the bytes that a set's name has.
fn push_safe(text: &mut Vec<u8>, table: &[u8]) -> Result<(), NoMemory>
    ensures { OnOk result (text.new.items ≡ text.old.items ++ map safe_byte table.now) }
{
    for byte in table {
        text.push(safe_byte_of(*byte))?;
    }
    Ok(())
}

/// What a set's name begins with.
fn prefix_of(family: Family) -> &'static [u8]
    ensures { result.now ≡ spec.prefix_of family }
{
    match family {
        Family::V4 => b"v4_",
        Family::V6 => b"v6_",
    }
}

/// Appends the name of a table's set.
fn push_set_name(text: &mut Vec<u8>, family: Family, table: &[u8]) -> Result<(), NoMemory>
    ensures { OnOk result (text.new.items ≡ text.old.items ++ set_name family table.now) }
{
    text.extend_from_slice(prefix_of(family))?;
    push_safe(text, table)?;
    Ok(())
}

/// Appends the name of a table's set, between what stands before it and behind it.
pub(crate) fn push_named(
    text: &mut Vec<u8>,
    before: &[u8],
    family: Family,
    table: &[u8],
    behind: &[u8],
) -> Result<(), NoMemory>
    ensures { OnOk result (text.new.items ≡ text.old.items ++ named before.now family table.now behind.now) }
{
    text.extend_from_slice(before)?;
    push_set_name(text, family, table)?;
    text.extend_from_slice(behind)?;
    Ok(())
}

/// The most bytes that a set's name may have.
fn longest_name(tool: Tool) -> usize
    ensures { result ≡ spec.longest_name tool }
{
    match tool {
        Tool::Nft => 255,
        Tool::Ipset => 31,
    }
}

/// Whether a table's sets can have its name.
pub fn can_name(tool: Tool, table: &[u8]) -> bool
    ensures { result ≡ spec.can_name tool table.now }
{
    table.len() <= longest_name(tool) - 3
}

/// What makes a set, up to its name.
fn make_words(tool: Tool) -> &'static [u8]
    ensures { result.now ≡ spec.make_words tool }
{
    match tool {
        Tool::Nft => b"add set inet stickd ",
        Tool::Ipset => b"create -exist ",
    }
}

/// What a set holds, behind its name. More entries than 65,536, an ipset's usual most, have room in it.
fn kind_words(tool: Tool, family: Family) -> &'static [u8]
    ensures { result.now ≡ spec.kind_words tool family }
{
    match (tool, family) {
        (Tool::Nft, Family::V4) => b" { type ipv4_addr; flags timeout; }\n",
        (Tool::Nft, Family::V6) => b" { type ipv6_addr; flags timeout; }\n",
        (Tool::Ipset, Family::V4) => b" hash:ip family inet timeout 0 maxelem 4294967295\n",
        (Tool::Ipset, Family::V6) => b" hash:ip family inet6 timeout 0 maxelem 4294967295\n",
    }
}

/// What empties a set, up to its name.
fn flush_words(tool: Tool) -> &'static [u8]
    ensures { result.now ≡ spec.flush_words tool }
{
    match tool {
        Tool::Nft => b"flush set inet stickd ",
        Tool::Ipset => b"flush ",
    }
}

/// Appends what makes a set where there is none, and empties it.
fn push_made(text: &mut Vec<u8>, tool: Tool, family: Family, table: &[u8]) -> Result<(), NoMemory>
    ensures { OnOk result (text.new.items ≡ text.old.items ++ made_text tool family table.now) }
{
    push_named(
        text,
        make_words(tool),
        family,
        table,
        kind_words(tool, family),
    )?;
    push_named(text, flush_words(tool), family, table, b"\n")?;
    Ok(())
}

/// The ms that an entry has left, 0 where none are counted.
fn left_of(line: &[u8]) -> u64
    ensures { result ≡ spec.left_of line.now }
{
    value_of(line, b"exp").unwrap_or(0)
}

/// The whole seconds of some ms, at least one.
fn seconds_of(left: u64) -> u64
    ensures { result ≡ spec.seconds_of left }
{
    (left / 1_000).max(1)
}

/// What stands behind a number of seconds.
fn unit_of(tool: Tool) -> &'static [u8]
    ensures { result.now ≡ spec.unit_of tool }
{
    match tool {
        Tool::Nft => b"s",
        Tool::Ipset => b"",
    }
}

/// Appends how long an element stays in its set. Where an entry has no end, neither has its element.
fn push_timeout(text: &mut Vec<u8>, tool: Tool, left: u64) -> Result<(), NoMemory>
    ensures { OnOk result (text.new.items ≡ text.old.items ++ timeout_text tool left) }
{
    if left == 0 {
        return Ok(());
    }
    text.extend_from_slice(b" timeout ")?;
    push_decimal(text, seconds_of(left))?;
    text.extend_from_slice(unit_of(tool))?;
    Ok(())
}

/// What adds an element, up to its set's name.
fn add_words(tool: Tool) -> &'static [u8]
    ensures { result.now ≡ spec.add_words tool }
{
    match tool {
        Tool::Nft => b"add element inet stickd ",
        Tool::Ipset => b"add -exist ",
    }
}

/// What stands before an element.
fn before_element(tool: Tool) -> &'static [u8]
    ensures { result.now ≡ spec.before_element tool }
{
    match tool {
        Tool::Nft => b" { ",
        Tool::Ipset => b" ",
    }
}

/// What stands behind an element.
fn behind_element(tool: Tool) -> &'static [u8]
    ensures { result.now ≡ spec.behind_element tool }
{
    match tool {
        Tool::Nft => b" }\n",
        Tool::Ipset => b"\n",
    }
}

/// Appends what adds the key of an entry to its set.
fn push_element(
    text: &mut Vec<u8>,
    tool: Tool,
    family: Family,
    table: &[u8],
    line: &[u8],
) -> Result<(), NoMemory>
    ensures { OnOk result (text.new.items ≡ text.old.items ++ element_text tool family table.now line.now) }
{
    push_named(text, add_words(tool), family, table, before_element(tool))?;
    text.extend_from_slice(address_of(family, key_of(line)))?;
    push_timeout(text, tool, left_of(line))?;
    text.extend_from_slice(behind_element(tool))?;
    Ok(())
}

/// Appends what adds the addresses of a family to their set.
fn push_elements(
    text: &mut Vec<u8>,
    tool: Tool,
    family: Family,
    table: &[u8],
    listing: &[u8],
) -> Result<(), NoMemory>
    ensures { OnOk result (text.new.items ≡ text.old.items ++ elements_of tool family table.now listing.now) }
{
    let mut lines = Parts::new(listing, b'\n');
    while let Some(line) = lines.next() {
        if !is_member(family, line) {
            continue;
        }
        push_element(text, tool, family, table, line)?;
    }
    Ok(())
}

/// Appends a set, and its elements.
pub(crate) fn push_set(
    text: &mut Vec<u8>,
    tool: Tool,
    family: Family,
    table: &[u8],
    listing: &[u8],
) -> Result<(), NoMemory>
    ensures { OnOk result (text.new.items ≡ text.old.items ++ set_text tool family table.now listing.now) }
{
    push_made(text, tool, family, table)?;
    push_elements(text, tool, family, table, listing)?;
    Ok(())
}
