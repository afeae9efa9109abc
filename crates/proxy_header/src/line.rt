//! Headers of version 1, which are lines of text; `hear` calls it for bytes that begin with `PROXY ` and a space.
ghost use Rattle.std.specs.Prelude.{◌≡◌, ◌+◌, ◌<◌, ◌≤◌, ◌^◌, length, IfSome};
ghost use Rattle.std.specs.Option.{option_copied};
ghost use Rattle.proxy_header.specs.Line as spec;
ghost use Rattle.base_lines.specs.Parts.{parts, is_byte};

use crate::family::Family;
use crate::{Ends, Heard};
use base_lines::{Parts, read_number};
use rule_addresses::Address;
use stick_key::{read_ipv4, read_ipv6};

/// How a header of version 1 begins.
pub(crate) const PROXY: [u8; 6] = *b"PROXY ";

/// How many bytes a header may have, with the CR and the LF at its end.
const LONGEST: usize = 107;

/// What stands before the first CR LF.
fn first_line(bytes: &[u8]) -> Option<&[u8]>
    ensures line { option_copied result ≡ spec.first_line bytes.now }
    ensures within { IfSome result (λ line. length line.now ≤ length bytes.now) }
{
    for place in 0..bytes.len() {
        if bytes[place..].starts_with(b"\r\n") {
            return Some(&bytes[..place]);
        }
    }
    None
}

/// A decimal number from 0 to 65535 without leading zeros.
fn read_port(text: &[u8]) -> Option<u16>
    ensures { result ≡ spec.port_of text.now }
{
    if text.len() > 1 && text[0] == b'0' {
        return None;
    }
    u16::try_from(read_number(text)?).ok()
}

/// The address of this family that a text spells, if any.
fn read_address(family: Family, text: &[u8]) -> Option<Address>
    ensures { result ≡ spec.address_in family text.now }
{
    match family {
        Family::Ipv4 => Some(Address::V4(read_ipv4(text)?)),
        Family::Ipv6 => Some(Address::V6(read_ipv6(text)?)),
    }
}

/// The ends that four words tell, if these are all: two addresses of a family and two ports.
fn read_ends(family: Family, words: &mut Parts) -> Option<Ends>
    ensures { result ≡ spec.ends_of family words.old }
{
    let source = words.next()?;
    let destination = words.next()?;
    let source_port = words.next()?;
    let destination_port = words.next()?;
    if !words.is_done() {
        return None;
    }
    Some(Ends {
        source: read_address(family, source)?,
        destination: read_address(family, destination)?,
        source_port: read_port(source_port)?,
        destination_port: read_port(destination_port)?,
    })
}

/// What a header of so many bytes says by the words behind its protocol.
fn hear_ends(length: usize, family: Family, words: &mut Parts) -> Heard
    ensures { result ≡ spec.told_ends length (spec.ends_of family words.old) }
{
    match read_ends(family, words) {
        Some(ends) => Heard::Told {
            length,
            ends: Some(ends),
        },
        None => Heard::Wrong,
    }
}

/// What a header of so many bytes says by its line.
fn hear_words(length: usize, line: &[u8]) -> Heard
    ensures { result ≡ spec.told_words length (parts (is_byte 32) line.now) }
{
    let mut words = Parts::new(line, b' ');
    let (Some(_), Some(protocol)) = (words.next(), words.next()) else {
        return Heard::Wrong;
    };
    if protocol == b"UNKNOWN".as_slice() {
        return Heard::Told { length, ends: None };
    }
    if protocol == b"TCP4".as_slice() {
        return hear_ends(length, Family::Ipv4, &mut words);
    }
    if protocol == b"TCP6".as_slice() {
        return hear_ends(length, Family::Ipv6, &mut words);
    }
    Heard::Wrong
}

/// What a line says, if there is one among so many bytes.
fn hear_found(count: usize, line: Option<&[u8]>) -> Heard
    requires { IfSome line (λ line. length line.now + 2 < 2 ^ 64) }
    ensures { result ≡ spec.told_line count (option_copied line.entry) }
{
    match line {
        Some(line) => hear_words(line.len() + 2, line),
        None if count < LONGEST => Heard::Unfinished,
        None => Heard::Wrong,
    }
}

/// What bytes say that begin with `PROXY` and a space.
#[tactic(auto, unfolding(crate::specs::Line::heard_line), using(crate::proofs::LineLemmas::take_up_to))]
pub(crate) fn hear_line(bytes: &[u8]) -> Heard
    ensures { result ≡ spec.heard_line bytes.now }
{
    let line = first_line(&bytes[..LONGEST.min(bytes.len())]);
    hear_found(bytes.len(), line)
}
