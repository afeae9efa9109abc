//! Where something listens, read from a text; `rule_config` and `adopt` call it for lines `bind` and `server`.
ghost use Rattle.std.specs.Prelude.{◌≡◌, ◌==◌, MatchOption, Some, None, true, false};
ghost use Rattle.std.specs.List.{list_any, before_last, after_last};
ghost use Rattle.std.specs.Option.{option_copied};
ghost use Rattle.base_lines.specs.Parts.{is_byte};
ghost use Rattle.rule_addresses.specs.Addresses.{bind_host_of, bind_of, bracketed, host_of, port_of, server_of};

use crate::{Address, Endpoint};
use base_lines::read_number;
use stick_key::{read_ipv4, read_ipv6};

/// What stands in brackets, if a text does.
fn bracketed(text: &[u8]) -> Option<&[u8]>
    ensures { option_copied result ≡ bracketed text.now }
{
    text.strip_prefix(b"[".as_slice())?
        .strip_suffix(b"]".as_slice())
}

/// The address of a host: an IPv4 text, or an IPv6 text in brackets.
fn read_host(text: &[u8]) -> Option<Address>
    ensures { result ≡ host_of text.now }
{
    match read_ipv4(text) {
        Some(bytes) => Some(Address::V4(bytes)),
        None => Some(Address::V6(read_ipv6(bracketed(text)?)?)),
    }
}

/// The address of a host, or that of every IPv4 address for nothing and for a star.
fn read_bind_host(text: &[u8]) -> Option<Address>
    ensures { result ≡ bind_host_of text.now }
{
    if text.is_empty() || text == b"*".as_slice() {
        return Some(Address::V4([0; 4]));
    }
    read_host(text)
}

/// A decimal number from 1 to 65535.
fn read_port(text: &[u8]) -> Option<u16>
    ensures { result ≡ port_of text.now }
{
    match u16::try_from(read_number(text)?) {
        Ok(0) => None,
        Ok(port) => Some(port),
        Err(_) => None,
    }
}

/// What stands before and after the last colon.
fn split_port(text: &[u8]) -> Option<(&[u8], &[u8])>
    ensures { MatchOption result (list_any (is_byte 58) text.now ≡ false) (λ sides. (list_any (is_byte 58) text.now ≡ true)
        × (sides.0.now ≡ before_last (is_byte 58) text.now) × (sides.1.now ≡ after_last (is_byte 58) text.now)) }
{
    for at in (0..text.len()).rev() {
        if text[at] == b':' {
            return Some((&text[..at], &text[at + 1..]));
        }
    }
    None
}

/// Where a listener binds, from a text such as `10.0.0.1:80` or `[::1]:80`, if it is one: an address and, behind the
/// last colon, a port from 1 to 65535. No address, or a star, is `0.0.0.0`. IPv6 addresses stand in brackets.
#[tactic(auto, unfolding(crate::specs::Addresses::bind_of))]
pub fn read_bind(text: &[u8]) -> Option<Endpoint>
    ensures { result ≡ bind_of text.now }
{
    let (host, port) = split_port(text)?;
    Some(Endpoint {
        address: read_bind_host(host)?,
        port: read_port(port)?,
    })
}

/// Where a server listens, from the same texts as `read_bind`, of which the address can't be left out or be a star.
#[tactic(auto, unfolding(crate::specs::Addresses::server_of))]
pub fn read_server(text: &[u8]) -> Option<Endpoint>
    ensures { result ≡ server_of text.now }
{
    let (host, port) = split_port(text)?;
    Some(Endpoint {
        address: read_host(host)?,
        port: read_port(port)?,
    })
}
