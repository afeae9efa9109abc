//! Addresses printed without memory, which `stick_key` asks for: IPv4 ones in dotted form, IPv6 ones by RFC 5952, section 4;
//! `line_written` writes by it.
ghost use Rattle.std.specs.Prelude.{◌≡◌, ◌+◌, ◌*◌, ◌<◌, ◌≤◌, ◌++◌, false, length};
ghost use Rattle.std.specs.Char.{digit_char};
ghost use Rattle.std.specs.Fmt.{digits};
ghost use Rattle.stick_key.specs.Dotted.{dotted};
ghost use Rattle.stick_key.specs.Ipv6Printed.{first_longest, ipv6, joined, longest, shortened, zeros_from};
ghost use Rattle.stick_key.specs.Ipv6Text.{pairs};
ghost use Rattle.proxy_header.specs.Written.{text_of};

use crate::header_bytes::HeaderBytes;
use rule_addresses::Address;
use stick_key::unmapped;

/// Writes an IPv4 address.
fn push_dotted(text: &mut HeaderBytes, address: [u8; 4])
    requires { length text.old + 15 ≤ 107 }
    ensures text { text.new ≡ text.old ++ dotted address }
    ensures room { length text.new ≤ length text.old + 15 }
{
    let [first, second, third, fourth] = address;
    text.push_byte(first);
    text.push(b".");
    text.push_byte(second);
    text.push(b".");
    text.push_byte(third);
    text.push(b".");
    text.push_byte(fourth);
}

/// The digit of a number below sixteen.
fn hex_digit(value: u8) -> u8
    requires { value < 16 }
    ensures { result ≡ digit_char value }
{
    if value < 10 {
        b'0' + value
    } else {
        b'a' + value - 10
    }
}

/// Writes a group of an IPv6 address without leading zeros.
fn push_group(text: &mut HeaderBytes, group: u16)
    requires { length text.old + 4 ≤ 107 }
    ensures text { text.new ≡ text.old ++ digits 16 false group }
    ensures room { length text.new ≤ length text.old + 4 }
{
    let [high, low] = group.to_be_bytes();
    let last = hex_digit(low % 16);
    if group < 0x10 {
        text.push(&[last]);
        return;
    }
    let third = hex_digit(low / 16);
    if group < 0x100 {
        text.push(&[third, last]);
        return;
    }
    let second = hex_digit(high % 16);
    if group < 0x1000 {
        text.push(&[second, third, last]);
        return;
    }
    text.push(&[hex_digit(high / 16), second, third, last]);
}

/// Writes groups, joined by colons.
fn push_groups(text: &mut HeaderBytes, groups: &[u16])
    requires { length text.old + 5 * length groups.now ≤ 107 }
    ensures text { text.new ≡ text.old ++ joined groups.now }
    ensures room { length text.new ≤ length text.old + 5 * length groups.now }
{
    let Some((first, rest)) = groups.split_first() else {
        return;
    };
    push_group(text, *first);
    for group in rest {
        text.push(b":");
        push_group(text, *group);
    }
}

/// How many groups of zeros there are from a place on.
fn zeros_from(groups: &[u16; 8], start: usize) -> usize
    requires { start ≤ 8 }
    ensures count { result ≡ zeros_from groups.now start }
    ensures within { start + result ≤ 8 }
{
    let mut zeros = 0;
    for place in start..8 {
        if groups[place] != 0 {
            return zeros;
        }
        zeros += 1;
    }
    zeros
}

/// The length of the longest run of zeros.
fn longest(groups: &[u16; 8]) -> usize
    ensures { result ≡ longest groups.now }
{
    let mut longest = 0;
    for start in 0..8usize {
        longest = longest.max(zeros_from(groups, start));
    }
    longest
}

/// Where the first of the longest runs of zeros begins, which has so many.
fn first_longest(groups: &[u16; 8], zeros: usize) -> usize
    requires longest { zeros ≡ longest groups.now }
    requires several { 2 ≤ zeros }
    ensures start { result ≡ first_longest groups.now }
    ensures within { result + zeros ≤ 8 }
{
    for start in 0..8usize {
        if zeros_from(groups, start) == zeros {
            return start;
        }
    }
    unreachable!()
}

/// Writes eight groups, with `::` for the first of the longest runs of zeros.
fn push_shortened(text: &mut HeaderBytes, groups: &[u16; 8])
    requires { length text.old + 40 ≤ 107 }
    ensures text { text.new ≡ text.old ++ shortened groups.now }
    ensures room { length text.new ≤ length text.old + 40 }
{
    let zeros = longest(groups);
    if zeros < 2 {
        push_groups(text, groups);
        return;
    }
    let start = first_longest(groups, zeros);
    push_groups(text, &groups[..start]);
    text.push(b"::");
    push_groups(text, &groups[start + zeros..]);
}

/// The eight groups of an address.
fn groups_of(address: [u8; 16]) -> [u16; 8]
    ensures { result ≡ pairs address }
{
    let mut groups = [0; 8];
    for place in 0..8usize {
        groups[place] = u16::from_be_bytes([address[2 * place], address[2 * place + 1]]);
    }
    groups
}

/// Writes an IPv6 address; one that stands for an IPv4 address ends in the text of that.
fn push_ipv6(text: &mut HeaderBytes, address: [u8; 16])
    requires { length text.old + 40 ≤ 107 }
    ensures text { text.new ≡ text.old ++ ipv6 address }
    ensures room { length text.new ≤ length text.old + 40 }
{
    match unmapped(address) {
        Some(address) => {
            text.push(b"::ffff:");
            push_dotted(text, address);
        }
        None => push_shortened(text, &groups_of(address)),
    }
}

/// Writes an address.
pub(crate) fn push_address(text: &mut HeaderBytes, address: Address)
    requires { length text.old + 40 ≤ 107 }
    ensures text { text.new ≡ text.old ++ text_of address }
    ensures room { length text.new ≤ length text.old + 40 }
{
    match address {
        Address::V4(address) => push_dotted(text, address),
        Address::V6(address) => push_ipv6(text, address),
    }
}
