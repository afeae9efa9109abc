//! Addresses and networks, read from their texts. Endpoints are rows of `tests/rows`.

use rule_addresses::{Address, Network, read_address, read_network};

/// Texts of networks, the addresses that they name, and their lengths; three are worked out in RFC 4291, section 2.3.
const NETWORKS: &[(&str, &str, u8)] = &[
    ("10.0.0.1", "10.0.0.1", 32),
    ("10.0.0.1/8", "10.0.0.1", 8),
    ("0.0.0.0/0", "0.0.0.0", 0),
    ("192.168.0.0/0000000016", "192.168.0.0", 16),
    ("255.255.255.255/31", "255.255.255.255", 31),
    (
        "2001:0DB8:0000:CD30:0000:0000:0000:0000/60",
        "2001:db8:0:cd30::",
        60,
    ),
    ("2001:0DB8::CD30:0:0:0:0/60", "2001:db8:0:cd30::", 60),
    ("2001:0DB8:0:CD30::/60", "2001:db8:0:cd30::", 60),
    ("2001:db8::1", "2001:db8::1", 128),
    ("2001:db8::/032", "2001:db8::", 32),
    ("::/0", "::", 0),
    ("::ffff:0:0/96", "::ffff:0.0.0.0", 96),
    ("::ffff:192.0.2.1/120", "::ffff:192.0.2.1", 120),
];

/// Texts of no network; nor is an empty one, or one with a blank.
const NO_NETWORKS: &str = "/ /8 10.0.0.1/ 10.0.0.1/33 10.0.0.1/128 10.0.0.1/264 10.0.0.1/4294967304
    10.0.0.1/18446744073709551624 10.0.0.1/-1 10.0.0.1/+8 10.0.0.1/8a 10.0.0.1/0x8 10.0.0.1/8/8 10.0.0.1/8/
    10.0.0.1//8 10.0.0.1/255.0.0.0 10.0.0/8 10.0.0.01/8 256.0.0.0/8 ::/129 ::/384 2001:0DB8:0:CD3/60
    [::1]/64 localhost";

/// The address of a text.
fn address_of(text: &str) -> Option<Address> {
    read_address(text.as_bytes())
}

/// The network of a text.
fn network_of(text: &str) -> Option<Network> {
    read_network(text.as_bytes())
}

/// Whether two addresses are the same.
fn is_same(a: Address, b: Address) -> bool {
    match (a, b) {
        (Address::V4(a), Address::V4(b)) => a == b,
        (Address::V6(a), Address::V6(b)) => a == b,
        _ => false,
    }
}

/// Whether a text says the address of another, and this length.
fn says_network(text: &str, address: &str, length: u8) -> bool {
    match (network_of(text), address_of(address)) {
        (Some(network), Some(address)) => is_same(network.address, address)
            && network.length == length,
        _ => false,
    }
}

#[test]
fn networks_are_read(rt: HostRuntime) {
    for (text, address, length) in NETWORKS {
        assert!(rt; says_network(text, address, *length), "{text}");
    }
    for text in NO_NETWORKS.split_whitespace() {
        assert!(rt; network_of(text).is_none(), "{text}");
    }
    for text in ["", "10.0.0.1 /8"] {
        assert!(rt; network_of(text).is_none(), "{text}");
    }
    assert!(rt; address_of("10.0.0.1/8").is_none());
}

/// Networks, and addresses that they hold.
const HOLD: &[(&str, &str)] = &[
    ("10.0.0.0/8", "10.255.255.255"),
    ("10.0.0.1/8", "10.9.9.9"),
    ("10.0.0.1", "10.0.0.1"),
    ("0.0.0.0/0", "255.255.255.255"),
    ("128.0.0.0/1", "128.0.0.0"),
    ("192.0.2.0/31", "192.0.2.1"),
    ("192.0.2.128/25", "192.0.2.255"),
    ("203.0.113.0/28", "203.0.113.15"),
    ("::/0", "2001:db8::1"),
    ("2001:db8::/32", "2001:db8:ffff::1"),
    ("2001:db8::1", "2001:db8::1"),
    ("2001:db8::/127", "2001:db8::1"),
    ("fe80::/10", "febf::1"),
    ("8000::/1", "ffff::"),
    ("2001:db8::/64", "2001:db8:0:0:ffff::"),
    ("::ffff:0:0/96", "::ffff:10.0.0.1"),
    ("::ffff:10.0.0.0/104", "::ffff:10.9.9.9"),
    // IPv6 addresses that stand for IPv4 ones
    ("10.0.0.0/8", "::ffff:10.1.2.3"),
    ("10.0.0.1", "::ffff:10.0.0.1"),
    ("0.0.0.0/0", "::ffff:0.0.0.0"),
];

/// Networks, and addresses that they don't hold.
const DO_NOT_HOLD: &[(&str, &str)] = &[
    ("10.0.0.0/8", "11.0.0.0"),
    ("10.0.0.0/8", "9.255.255.255"),
    ("10.0.0.1", "10.0.0.0"),
    ("128.0.0.0/1", "127.255.255.255"),
    ("192.0.2.0/31", "192.0.2.2"),
    ("192.0.2.128/25", "192.0.2.127"),
    ("203.0.113.0/28", "203.0.113.16"),
    ("2001:db8::/32", "2001:db9::"),
    ("2001:db8::1", "2001:db8::2"),
    ("2001:db8::/127", "2001:db8::2"),
    ("fe80::/10", "fec0::1"),
    ("8000::/1", "7fff::"),
    ("2001:db8::/64", "2001:db8:0:1::"),
    ("2001:db8::/65", "2001:db8:0:0:8000::"),
    ("::ffff:10.0.0.0/104", "::ffff:11.0.0.0"),
    // IPv6 addresses that stand for no IPv4 one, or for another
    ("10.0.0.0/8", "::ffff:11.1.2.3"),
    ("10.0.0.1", "::ffff:10.0.0.0"),
    ("10.0.0.0/8", "::10.1.2.3"),
    ("0.0.0.0/0", "::1"),
    ("0.0.0.0/0", "::fffe:10.0.0.1"),
    ("0.0.0.0/0", "1::ffff:10.0.0.1"),
    // IPv4 addresses in IPv6 networks
    ("::/0", "10.0.0.1"),
    ("::ffff:0:0/96", "10.0.0.1"),
    ("::ffff:10.0.0.1", "10.0.0.1"),
];

/// Whether a network holds an address, where both are read.
fn holds(network: &str, address: &str) -> Option<bool> {
    match (network_of(network), address_of(address)) {
        (Some(network), Some(address)) => Some(network.holds(&address)),
        _ => None,
    }
}

#[test]
fn networks_hold_addresses(rt: HostRuntime) {
    for (network, address) in HOLD {
        assert!(rt;
            holds(network, address) == Some(true),
            "{network} {address}"
        );
    }
    for (network, address) in DO_NOT_HOLD {
        assert!(rt;
            holds(network, address) == Some(false),
            "{network} {address}"
        );
    }
}
