//! Keys: outside vectors, and the rows that the manual and the RFCs work out.

use std::alloc::Global;
use stick_key::{
    Bytes, KeyFault, KeyType, Sample, StickKey, convert, read_key, shard_of, size_of_shard,
    write_key,
};

/// Texts of IPv6 addresses, and how RFC 5952 writes them.
const IPV6_TEXTS: &[&str] = &[
    // RFC 4291, section 2.2
    "ABCD:EF01:2345:6789:ABCD:EF01:2345:6789 abcd:ef01:2345:6789:abcd:ef01:2345:6789",
    "2001:DB8:0:0:8:800:200C:417A 2001:db8::8:800:200c:417a",
    "FF01:0:0:0:0:0:0:101 ff01::101",
    "0:0:0:0:0:0:0:1 ::1",
    "0:0:0:0:0:0:0:0 ::",
    "2001:DB8::8:800:200C:417A 2001:db8::8:800:200c:417a",
    "FF01::101 ff01::101",
    "::1 ::1",
    ":: ::",
    "0:0:0:0:0:0:13.1.68.3 ::d01:4403",
    "0:0:0:0:0:FFFF:129.144.52.38 ::ffff:129.144.52.38",
    "::13.1.68.3 ::d01:4403",
    "::FFFF:129.144.52.38 ::ffff:129.144.52.38",
    // RFC 4291, section 2.3
    "2001:0DB8:0000:CD30:0000:0000:0000:0000 2001:db8:0:cd30::",
    "2001:0DB8::CD30:0:0:0:0 2001:db8:0:cd30::",
    "2001:0DB8:0:CD30:: 2001:db8:0:cd30::",
    // RFC 5952, sections 1, 2 and 4
    "2001:DB8:0:0:0:0:0:1 2001:db8::1",
    "2001:db8:0:0:1:0:0:1 2001:db8::1:0:0:1",
    "2001:0db8:0:0:1:0:0:1 2001:db8::1:0:0:1",
    "2001:db8::1:0:0:1 2001:db8::1:0:0:1",
    "2001:db8::0:1:0:0:1 2001:db8::1:0:0:1",
    "2001:0db8::1:0:0:1 2001:db8::1:0:0:1",
    "2001:db8:0:0:1::1 2001:db8::1:0:0:1",
    "2001:db8:0000:0:1::1 2001:db8::1:0:0:1",
    "2001:DB8:0:0:1::1 2001:db8::1:0:0:1",
    "2001:db8:aaaa:bbbb:cccc:dddd:eeee:0001 2001:db8:aaaa:bbbb:cccc:dddd:eeee:1",
    "2001:db8:aaaa:bbbb:cccc:dddd::1 2001:db8:aaaa:bbbb:cccc:dddd:0:1",
    "2001:db8:aaaa:bbbb:cccc:dddd:0:1 2001:db8:aaaa:bbbb:cccc:dddd:0:1",
    "2001:db8:0:0:0::1 2001:db8::1",
    "2001:db8:0:0:aaaa::1 2001:db8::aaaa:0:0:1",
    "2001:db8::aaaa:0:0:1 2001:db8::aaaa:0:0:1",
    "2001:db8:aaaa:bbbb:cccc:dddd:eeee:AaAa 2001:db8:aaaa:bbbb:cccc:dddd:eeee:aaaa",
    "2001:db8:0:0:0:0:2:1 2001:db8::2:1",
    "2001:db8::2:1 2001:db8::2:1",
    "2001:db8::1:1:1:1:1 2001:db8:0:1:1:1:1:1",
    "2001:db8:0:1:1:1:1:1 2001:db8:0:1:1:1:1:1",
    "2001:0:0:1:0:0:0:1 2001:0:0:1::1",
    // each place of `::`
    "::2:3:4:5:6:7:8 0:2:3:4:5:6:7:8",
    "1::3:4:5:6:7:8 1:0:3:4:5:6:7:8",
    "1:2::4:5:6:7:8 1:2:0:4:5:6:7:8",
    "1:2:3::5:6:7:8 1:2:3:0:5:6:7:8",
    "1:2:3:4::6:7:8 1:2:3:4:0:6:7:8",
    "1:2:3:4:5::7:8 1:2:3:4:5:0:7:8",
    "1:2:3:4:5:6::8 1:2:3:4:5:6:0:8",
    "1:2:3:4:5:6:7:: 1:2:3:4:5:6:7:0",
    "1::8 1::8",
    "1:2::8 1:2::8",
    "1:2:3::8 1:2:3::8",
    "1:2:3:4::8 1:2:3:4::8",
    "1:2:3:4:5::8 1:2:3:4:5::8",
    "1:: 1::",
    "::1:2:3 ::1:2:3",
    // each length of a group, and runs of zeros
    "a:b0:c00:d000:1:1:1:1 a:b0:c00:d000:1:1:1:1",
    "1:02:003:0004:f:ff:fff:ffff 1:2:3:4:f:ff:fff:ffff",
    "0:0:1:0:0:0:0:0 0:0:1::",
    "1:0:0:0:2:0:0:0 1::2:0:0:0",
    "1:0:0:2:0:0:0:3 1:0:0:2::3",
    "0:0:0:1:0:0:0:2 ::1:0:0:0:2",
    // IPv4 text at the end
    "::ffff:1.2.3.4 ::ffff:1.2.3.4",
    "1:2:3:4:5:6:1.2.3.4 1:2:3:4:5:6:102:304",
    "1::1.2.3.4 1::102:304",
    "1:2:3:4:5::1.2.3.4 1:2:3:4:5:0:102:304",
    "64:ff9b::192.0.2.33 64:ff9b::c000:221",
    "::ffff:0:0 ::ffff:0.0.0.0",
    "::ffff:c000:280 ::ffff:192.0.2.128",
    "::fffe:1.2.3.4 ::fffe:102:304",
    "::255.255.255.255 ::ffff:ffff",
];

/// Texts that spell no IPv6 address; nor does an empty one, or one with a blank.
const NO_IPV6: &str = ": ::: 1 1:2:3:4:5:6:7 1:2:3:4:5:6:7:8:9 1:2:3:4:5:6:7:8:: ::1:2:3:4:5:6:7:8
    1:2:3:4::5:6:7:8 1::2::3 1:::2 :1:2:3:4:5:6:7:8 :1:2:3:4:5:6:7 1:2:3:4:5:6:7: 1:2:3:4:5:6:7:8:
    12345:: 00001:: g:: 1:2:3:4:5:6:7:1.2.3.4 1:2:3:4:5:6:7::1.2.3.4 ::1.2.3 ::1.2.3.4.5 ::256.0.0.1
    ::1.2.3.04 1.2.3.4:: 1.2.3.4 ::1.2.3.4:5 fe80::1%eth0 ::1/64 [::1] 0x1:: +1:: ::-1";

/// Whether a key is printed so.
fn prints(alloc: Global, kind: KeyType, key: &StickKey, printed: &str) -> bool {
    match write_key(alloc, kind, key) {
        Ok(text) => text.as_slice() == printed.as_bytes(),
        Err(_) => false,
    }
}

/// Whether a text reads as a key of this kind that is printed so.
fn reads(alloc: Global, kind: KeyType, text: &str, printed: &str) -> bool {
    match read_key(alloc, kind, text.as_bytes()) {
        Ok(key) => prints(alloc, kind, &key, printed),
        Err(_) => false,
    }
}

/// Whether a text is no key of this kind, for this reason.
fn is_refused(alloc: Global, kind: KeyType, text: &str, reason: KeyFault) -> bool {
    match read_key(alloc, kind, text.as_bytes()) {
        Ok(_) => false,
        Err(fault) => fault == reason,
    }
}

/// Whether the first of two texts reads as an IPv6 address that is printed as the second, and so does the second.
fn reads_ipv6(alloc: Global, texts: &str) -> bool {
    match texts.split_once(' ') {
        Some((text, printed)) => reads(alloc, KeyType::Ipv6, text, printed)
            && reads(alloc, KeyType::Ipv6, printed, printed),
        None => false,
    }
}

#[test]
fn ipv6_texts(rt: HostRuntime) {
    for texts in IPV6_TEXTS {
        assert!(rt; reads_ipv6(rt.alloc(), texts), "{texts}");
    }
    for text in NO_IPV6.split_whitespace() {
        assert!(rt;
            is_refused(rt.alloc(), KeyType::Ipv6, text, KeyFault::Malformed),
            "{text}"
        );
    }
    for text in ["", " ::1", "::1 "] {
        assert!(rt;
            is_refused(rt.alloc(), KeyType::Ipv6, text, KeyFault::Malformed),
            "{text}"
        );
    }
}

/// Texts of no key, and why not.
const REFUSED: &[(KeyType, &str, KeyFault)] = &[
    (KeyType::Ip, "127.0.0.01", KeyFault::Malformed),
    (KeyType::Ip, "256.0.0.1", KeyFault::OutOfRange),
    (KeyType::Ip, "1.2.3", KeyFault::Malformed),
    (KeyType::Integer, "", KeyFault::Malformed),
    (KeyType::Integer, "12a", KeyFault::Malformed),
    (KeyType::Integer, "4294967296", KeyFault::OutOfRange),
    (
        KeyType::Integer,
        "99999999999999999999",
        KeyFault::OutOfRange,
    ),
    (KeyType::Text(32), "", KeyFault::Malformed),
    (KeyType::Binary(4), "", KeyFault::Malformed),
    (KeyType::Binary(4), "0a0", KeyFault::Malformed),
    (KeyType::Binary(4), "0g", KeyFault::Malformed),
    (KeyType::Binary(4), "@`/:", KeyFault::Malformed),
    (KeyType::Binary(4), "+a -", KeyFault::Malformed),
    (KeyType::Binary(1), "0a0b0G", KeyFault::Malformed),
];

/// Texts of keys, and how these are printed.
const READ: &[(KeyType, &str, &str)] = &[
    (KeyType::Ip, "127.0.0.1", "127.0.0.1"),
    (KeyType::Integer, "4294967295", "4294967295"),
    (KeyType::Integer, "0007", "7"),
    (KeyType::Text(4), "abcdef", "abcd"),
    (KeyType::Text(32), "a b\\", "a\\x20b\\x5c"),
    (KeyType::Binary(4), "0a00", "0a000000"),
    (KeyType::Binary(3), "DEADBEEF", "deadbe"),
    (KeyType::Binary(1), "aAbBcC", "aa"),
    (KeyType::Binary(8), "0123456789abcdef", "0123456789abcdef"),
];

#[test]
fn texts(rt: HostRuntime) {
    for (kind, text, reason) in REFUSED {
        assert!(rt; is_refused(rt.alloc(), *kind, text, *reason), "{text}");
    }
    for (kind, text, printed) in READ {
        assert!(rt; reads(rt.alloc(), *kind, text, printed), "{text}");
    }
}

/// Texts and the bytes of their keys: those in hexadecimal from RFC 4648, section 10.
const BYTES: &[(KeyType, &str, &[u8])] = &[
    (KeyType::Binary(1), "66", b"f"),
    (KeyType::Binary(2), "666F", b"fo"),
    (KeyType::Binary(3), "666F6F", b"foo"),
    (KeyType::Binary(4), "666F6F62", b"foob"),
    (KeyType::Binary(5), "666F6F6261", b"fooba"),
    (KeyType::Binary(6), "666F6F626172", b"foobar"),
    (KeyType::Integer, "258", &[0, 0, 1, 2]),
    (KeyType::Ip, "10.0.0.1", &[10, 0, 0, 1]),
    (
        KeyType::Ipv6,
        "102:304:506:708:90a:b0c:d0e:f10",
        &[1, 2, 3, 4, 5, 6, 7, 8, 9, 10, 11, 12, 13, 14, 15, 16],
    ),
];

/// Texts, and the shards of their keys among so many. The published FNV-1a hashes of "a" and of "foobar" are
/// 0xaf63dc4c8601ec8c and 0x85944171f73967e8.
const SHARDS: &[(&str, u32, u32)] = &[
    ("a", 0x8000_0000, 0x0601_ec8c),
    ("a", 0xffff_ffff, 0x3565_c8d9),
    ("a", 64, 12),
    ("a", 1, 0),
    ("foobar", 0x8000_0000, 0x7739_67e8),
    ("foobar", 0xffff_ffff, 0x7ccd_a95a),
];

/// Whether a text has these bytes as a key.
fn has_bytes(alloc: Global, kind: KeyType, text: &str, bytes: &[u8]) -> bool {
    match read_key(alloc, kind, text.as_bytes()) {
        Ok(key) => key.bytes() == bytes,
        Err(_) => false,
    }
}

/// Whether a text's key is on this shard.
fn is_on(alloc: Global, text: &str, shards: u32, shard: u32) -> bool {
    match read_key(alloc, KeyType::Text(32), text.as_bytes()) {
        Ok(key) => shard_of(&key, shards.max(1)) == shard,
        Err(_) => false,
    }
}

#[test]
fn bytes_and_shards(rt: HostRuntime) {
    for (kind, text, bytes) in BYTES {
        assert!(rt; has_bytes(rt.alloc(), *kind, text, bytes), "{text}");
    }
    for (text, shards, shard) in SHARDS {
        assert!(rt; is_on(rt.alloc(), text, *shards, *shard), "{text} {shards}");
    }
    assert!(rt; size_of_shard(10, 3, 0) == 4 && size_of_shard(10, 3, 1) == 3);
}

/// What a key is made of; a text is here.
#[derive(Clone, Copy)]
enum Given {
    V4([u8; 4]),
    V6([u8; 16]),
    Number(u32),
    Text(&'static str),
}

/// An IPv4 address, the same as IPv6 has it, and an IPv6 address.
const PLAIN: Given = Given::V4([10, 0, 0, 1]);

const MAPPED: Given = Given::V6([0, 0, 0, 0, 0, 0, 0, 0, 0, 0, 0xff, 0xff, 10, 0, 0, 1]);

const WIDE: Given = Given::V6([0x20, 1, 0x0d, 0xb8, 0, 0, 0, 0, 0, 0, 0, 0, 0, 0, 0, 1]);

const NUMBER: Given = Given::Number(80);

const TEXT: Given = Given::Text("10.0.0.1");

/// What is given, the type of a key, and how the key is printed; nothing where there is none.
const CONVERSIONS: &[(Given, KeyType, &str)] = &[
    (PLAIN, KeyType::Ip, "10.0.0.1"),
    (PLAIN, KeyType::Ipv6, "::ffff:10.0.0.1"),
    (PLAIN, KeyType::Text(4), "10.0"),
    (PLAIN, KeyType::Integer, ""),
    (MAPPED, KeyType::Ip, "10.0.0.1"),
    (WIDE, KeyType::Ipv6, "2001:db8::1"),
    (WIDE, KeyType::Text(32), "2001:db8::1"),
    (WIDE, KeyType::Ip, ""),
    (WIDE, KeyType::Integer, ""),
    (NUMBER, KeyType::Integer, "80"),
    (NUMBER, KeyType::Text(1), "8"),
    (NUMBER, KeyType::Ip, ""),
    (NUMBER, KeyType::Ipv6, ""),
    (TEXT, KeyType::Text(3), "10."),
    (TEXT, KeyType::Ip, ""),
    (Given::Text(""), KeyType::Text(32), ""),
    (PLAIN, KeyType::Binary(6), "0a0000010000"),
    (PLAIN, KeyType::Binary(1), "0a"),
    (
        MAPPED,
        KeyType::Binary(16),
        "00000000000000000000ffff0a000001",
    ),
    (WIDE, KeyType::Binary(4), "20010db8"),
    (NUMBER, KeyType::Binary(4), "00000050"),
    (NUMBER, KeyType::Binary(3), "000000"),
    (NUMBER, KeyType::Binary(5), "0000005000"),
    (TEXT, KeyType::Binary(3), "31302e"),
    (Given::Text(""), KeyType::Binary(32), ""),
];

/// The sample that is given.
fn sample_of(alloc: Global, given: Given) -> Result<Sample, KeyFault> {
    match given {
        Given::V4(address) => Ok(Sample::V4(address)),
        Given::V6(address) => Ok(Sample::V6(address)),
        Given::Number(number) => Ok(Sample::Number(number)),
        Given::Text(text) => Ok(Sample::Text(Bytes::from_slice(alloc, text.as_bytes())?)),
    }
}

/// Whether a sample has a key of this kind that is printed so, or none where nothing is printed.
fn has_key(alloc: Global, sample: &Sample, kind: KeyType, printed: &str) -> bool {
    match convert(alloc, sample, kind) {
        Ok(Some(key)) => prints(alloc, kind, &key, printed),
        Ok(None) => printed.is_empty(),
        Err(_) => false,
    }
}

/// Whether what is given has a key of this kind that is printed so.
fn converts(alloc: Global, given: Given, kind: KeyType, printed: &str) -> bool {
    match sample_of(alloc, given) {
        Ok(sample) => has_key(alloc, &sample, kind, printed),
        Err(_) => false,
    }
}

#[test]
fn samples_are_converted(rt: HostRuntime) {
    for (given, kind, printed) in CONVERSIONS {
        assert!(rt; converts(rt.alloc(), *given, *kind, printed), "{printed}");
    }
}
