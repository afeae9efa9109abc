//! Addresses of clients, listeners and servers in stickd's spelling; `values`, `listeners` and `servers` call it.

use crate::reasons::{Refusal, Why};
use crate::texts::{append, append_str, copy_text, is_word, split_at_byte, text_of, word_at};
use base_lines::{push_decimal, read_number};
use base_sequence::NoMemory;
use rule_addresses::{read_bind, read_network, read_server};
use std::alloc::Global;
use stick_key::read_ipv4;

/// The most ports of a range.
const MOST_PORTS: u64 = 64;

/// How many ones a mask begins with, where it has no others.
fn ones_of(mask: [u8; 4]) -> Option<u64> {
    let ones = u64::from(u32::from_be_bytes(mask).leading_ones());
    if u64::from(u32::from_be_bytes(mask).count_ones()) == ones {
        Some(ones)
    } else {
        None
    }
}

/// The address of a name that every host has.
fn local_address(name: &[u8]) -> Option<&'static str> {
    if is_word(name, "localhost") {
        return Some("127.0.0.1");
    }
    if is_word(name, "ip6-localhost") || is_word(name, "ip6-loopback") {
        return Some("[::1]");
    }
    None
}

/// A network whose mask is written as an address, with the number of its bits.
fn with_bits(alloc: Global, word: &[u8]) -> Result<Vec<u8>, Refusal> {
    let parts = split_at_byte(alloc, word, b'/')?;
    let Some(mask) = read_ipv4(word_at(parts.as_slice(), 1)) else {
        return Err(Refusal::Lost(Why::HostName));
    };
    let Some(bits) = ones_of(mask) else {
        return Err(Refusal::Lost(Why::UnknownValue));
    };
    let mut text = copy_text(alloc, word_at(parts.as_slice(), 0))?;
    text.push(b'/')?;
    push_decimal(&mut text, bits)?;
    if read_network(text.as_slice()).is_none() {
        return Err(Refusal::Lost(Why::HostName));
    }
    Ok(text)
}

/// A pattern of clients' addresses.
pub(crate) fn source_pattern(alloc: Global, word: &[u8]) -> Result<Vec<u8>, Refusal> {
    if read_network(word).is_some() {
        return Ok(copy_text(alloc, word)?);
    }
    if is_word(word, "localhost") {
        return Ok(text_of(alloc, "127.0.0.1")?);
    }
    with_bits(alloc, word)
}

/// What stands before and behind the last colon, which a host in brackets has behind them.
fn split_port(word: &[u8]) -> (&[u8], Option<&[u8]>) {
    for at in (0..word.len()).rev() {
        if word[at] == b']' {
            return (word, None);
        }
        if word[at] == b':' {
            return (&word[..at], Some(&word[at + 1..]));
        }
    }
    (word, None)
}

fn has_byte(word: &[u8], wanted: u8) -> bool {
    word.iter().any(|byte| *byte == wanted)
}

/// A host in stickd's spelling.
fn written_host(alloc: Global, host: &[u8]) -> Result<Vec<u8>, NoMemory> {
    if let Some(address) = local_address(host) {
        return text_of(alloc, address);
    }
    let is_bare = has_byte(host, b':') && host.first() != Some(&b'[');
    let mut text = Vec::new(alloc);
    if is_bare {
        text.push(b'[')?;
    }
    append(&mut text, host)?;
    if is_bare {
        text.push(b']')?;
    }
    Ok(text)
}

/// A host and a port.
fn with_port(alloc: Global, host: &[u8], port: u64) -> Result<Vec<u8>, NoMemory> {
    let mut text = copy_text(alloc, host)?;
    text.push(b':')?;
    push_decimal(&mut text, port)?;
    Ok(text)
}

/// A word without the family in front, and the host that stands for none in it.
pub(crate) fn without_family(word: &[u8]) -> Result<(&[u8], &'static str), Refusal> {
    for family in ["ipv6@", "tcp6@"] {
        if let Some(rest) = word.strip_prefix(family.as_bytes()) {
            return Ok((rest, "[::]"));
        }
    }
    for family in ["ipv4@", "tcp4@", "tcp@"] {
        if let Some(rest) = word.strip_prefix(family.as_bytes()) {
            return Ok((rest, ""));
        }
    }
    if has_byte(word, b'@') || word.first() == Some(&b'/') {
        return Err(Refusal::Lost(Why::SocketAddress));
    }
    Ok((word, ""))
}

/// The ports of a port, or of a range of them.
fn ports_of(alloc: Global, text: &[u8]) -> Result<(u64, u64), Refusal> {
    let parts = split_at_byte(alloc, text, b'-')?;
    let Some(first) = read_number(word_at(parts.as_slice(), 0)) else {
        return Err(Refusal::Lost(Why::SocketAddress));
    };
    let last = match parts.len() {
        1 => first,
        2 => match read_number(word_at(parts.as_slice(), 1)) {
            Some(last) => last,
            None => return Err(Refusal::Lost(Why::SocketAddress)),
        },
        _ => return Err(Refusal::Lost(Why::SocketAddress)),
    };
    if last.saturating_sub(first) >= MOST_PORTS {
        return Err(Refusal::Lost(Why::SocketAddress));
    }
    Ok((first, last))
}

/// Adds where a listener's word says that it listens.
fn add_endpoints(alloc: Global, word: &[u8], endpoints: &mut Vec<Vec<u8>>) -> Result<(), Refusal> {
    if read_bind(word).is_some() {
        endpoints.push(copy_text(alloc, word)?)?;
        return Ok(());
    }
    let (rest, any) = without_family(word)?;
    let (host, port) = split_port(rest);
    let Some(port) = port else {
        return Err(Refusal::Lost(Why::SocketAddress));
    };
    let (first, last) = ports_of(alloc, port)?;
    let mut host = written_host(alloc, host)?;
    if !any.is_empty() && (host.is_empty() || is_word(host.as_slice(), "*")) {
        host = text_of(alloc, any)?;
    }
    for port in first..last.saturating_add(1) {
        let endpoint = with_port(alloc, host.as_slice(), port)?;
        if read_bind(endpoint.as_slice()).is_none() {
            return Err(Refusal::Lost(Why::HostName));
        }
        endpoints.push(endpoint)?;
    }
    Ok(())
}

/// Where a listener's word says that it listens: one address and port or more.
pub(crate) fn endpoints_of(alloc: Global, word: &[u8]) -> Result<Vec<Vec<u8>>, Refusal> {
    let mut endpoints = Vec::new(alloc);
    let parts = split_at_byte(alloc, word, b',')?;
    for part in &parts {
        add_endpoints(alloc, part.as_slice(), &mut endpoints)?;
    }
    Ok(endpoints)
}

/// The port of an address and port in stickd's spelling.
pub(crate) fn port_of(endpoint: &[u8]) -> Option<u64> {
    let (_, port) = split_port(endpoint);
    read_number(port?)
}

/// The port that a server's word says, from that of the listener where it says none, or says how far it is from that.
fn server_port(text: Option<&[u8]>, listener: Option<u64>) -> Option<u64> {
    let Some(text) = text else {
        return listener;
    };
    match text.split_first() {
        Some((first, rest)) if *first == b'+' => listener?.checked_add(read_number(rest)?),
        Some((first, rest)) if *first == b'-' => listener?.checked_sub(read_number(rest)?),
        Some(_) => read_number(text),
        None => listener,
    }
}

/// A server's address and port.
pub(crate) fn server_endpoint(
    alloc: Global,
    word: &[u8],
    listener: Option<u64>,
) -> Result<Vec<u8>, Refusal> {
    if read_server(word).is_some() {
        return Ok(copy_text(alloc, word)?);
    }
    let (rest, _) = without_family(word)?;
    let (host, port) = split_port(rest);
    let Some(port) = server_port(port, listener) else {
        return Err(Refusal::Lost(Why::SocketAddress));
    };
    let host = written_host(alloc, host)?;
    let endpoint = with_port(alloc, host.as_slice(), port)?;
    if read_server(endpoint.as_slice()).is_none() {
        return Err(Refusal::Lost(Why::HostName));
    }
    Ok(endpoint)
}

/// A word that is added in front of a name of another section, with a dot between.
pub(crate) fn dotted(alloc: Global, front: &[u8], name: &[u8]) -> Result<Vec<u8>, NoMemory> {
    let mut text = copy_text(alloc, front)?;
    append_str(&mut text, ".")?;
    append(&mut text, name)?;
    Ok(text)
}
