//! Times the reading and the printing of keys beside the same work by std.

use std::alloc::Global;
use std::io;
use std::io::Print;
use std::net::{Ipv4Addr, Ipv6Addr};
use std::rt::Clock;
use std::time::{Duration, Instant};
use stick_key::{KeyType, read_key, write_key};

const IPV4_TEXTS: [&str; 4] = ["10.0.0.1", "127.0.0.1", "192.168.100.200", "8.8.4.4"];

const IPV6_TEXTS: [&str; 4] = [
    "2001:db8::1",
    "fe80::1ff:fe23:4567:890a",
    "::ffff:192.0.2.128",
    "2001:db8:85a3:8d3:1319:8a2e:370:7348",
];

/// What was made, so that no part of the work can be left out.
fn mixed(sum: u64, bytes: &[u8]) -> u64 {
    match bytes.last() {
        Some(byte) => sum.wrapping_add(u64::from(*byte)),
        None => sum,
    }
}

/// Reads so many keys.
fn read_keys(alloc: Global, kind: KeyType, texts: &[&str; 4], count: u64) -> Option<u64> {
    let mut sum = 0;
    for turn in 0..count {
        let text = texts[(turn % 4) as usize];
        let key = read_key(alloc, kind, text.as_bytes()).ok()?;
        sum = mixed(sum, key.bytes());
    }
    Some(sum)
}

/// Reads so many IPv4 addresses by std.
fn read_ipv4_std(texts: &[&str; 4], count: u64) -> Option<u64> {
    let mut sum = 0;
    for turn in 0..count {
        let address: Ipv4Addr = texts[(turn % 4) as usize].parse().ok()?;
        sum = mixed(sum, &address.octets());
    }
    Some(sum)
}

/// Reads so many IPv6 addresses by std.
fn read_ipv6_std(texts: &[&str; 4], count: u64) -> Option<u64> {
    let mut sum = 0;
    for turn in 0..count {
        let address: Ipv6Addr = texts[(turn % 4) as usize].parse().ok()?;
        sum = mixed(sum, &address.octets());
    }
    Some(sum)
}

/// Prints the key of a text so many times.
fn print_keys(alloc: Global, kind: KeyType, text: &str, count: u64) -> Option<u64> {
    let key = read_key(alloc, kind, text.as_bytes()).ok()?;
    let mut sum = 0;
    for _turn in 0..count {
        let text = write_key(alloc, kind, &key).ok()?;
        sum = mixed(sum, text.as_slice());
    }
    Some(sum)
}

/// Prints an IPv4 address so many times by std.
fn print_ipv4_std(alloc: Global, text: &str, count: u64) -> Option<u64> {
    let address: Ipv4Addr = text.parse().ok()?;
    let mut sum = 0;
    for _turn in 0..count {
        let text = format!(in alloc; "{address}").ok()?;
        sum = mixed(sum, text.as_bytes());
    }
    Some(sum)
}

/// Prints an IPv6 address so many times by std.
fn print_ipv6_std(alloc: Global, text: &str, count: u64) -> Option<u64> {
    let address: Ipv6Addr = text.parse().ok()?;
    let mut sum = 0;
    for _turn in 0..count {
        let text = format!(in alloc; "{address}").ok()?;
        sum = mixed(sum, text.as_bytes());
    }
    Some(sum)
}

/// What is timed.
#[derive(Clone, Copy)]
enum Work {
    ReadIpv4,
    ReadIpv4Std,
    ReadIpv6,
    ReadIpv6Std,
    PrintIpv4,
    PrintIpv4Std,
    PrintIpv6,
    PrintIpv6Std,
}

fn run(alloc: Global, work: Work, count: u64) -> Option<u64> {
    match work {
        Work::ReadIpv4 => read_keys(alloc, KeyType::Ip, &IPV4_TEXTS, count),
        Work::ReadIpv4Std => read_ipv4_std(&IPV4_TEXTS, count),
        Work::ReadIpv6 => read_keys(alloc, KeyType::Ipv6, &IPV6_TEXTS, count),
        Work::ReadIpv6Std => read_ipv6_std(&IPV6_TEXTS, count),
        Work::PrintIpv4 => print_keys(alloc, KeyType::Ip, IPV4_TEXTS[2], count),
        Work::PrintIpv4Std => print_ipv4_std(alloc, IPV4_TEXTS[2], count),
        Work::PrintIpv6 => print_keys(alloc, KeyType::Ipv6, IPV6_TEXTS[1], count),
        Work::PrintIpv6Std => print_ipv6_std(alloc, IPV6_TEXTS[1], count),
    }
}

/// The least time of five runs, in nanoseconds for each text, and what was made.
fn least_time(
    clock: &impl Clock,
    alloc: Global,
    work: Work,
    count: u64,
) -> io::Result<(u128, u64)> {
    let mut least = u128::MAX;
    let mut made = 0;
    for _run in 0..5usize {
        let start = Instant::now(clock)?;
        let sum = run(alloc, work, count).ok_or(io::ErrorKind::OutOfMemory)?;
        let time: Duration = start.elapsed(clock)?;
        least = least.min(time.as_nanos() / u128::from(count.max(1)));
        made = sum;
    }
    Ok((least, made))
}

/// Prints the times of so many addresses, by ours and by std.
pub fn print_key_times<R: Clock + Print>(rt: &R, alloc: Global, count: u32) -> io::Result<()> {
    let works = [
        ("IPv4 read", Work::ReadIpv4, Work::ReadIpv4Std),
        ("IPv6 read", Work::ReadIpv6, Work::ReadIpv6Std),
        ("IPv4 printed", Work::PrintIpv4, Work::PrintIpv4Std),
        ("IPv6 printed", Work::PrintIpv6, Work::PrintIpv6Std),
    ];
    for (name, ours, theirs) in works {
        let ours = least_time(rt, alloc, ours, u64::from(count))?;
        let theirs = least_time(rt, alloc, theirs, u64::from(count))?;
        let same = if ours.1 == theirs.1 {
            ""
        } else {
            ", and they differ"
        };
        println!(rt; "{name}: {} ns, by std {} ns{same}", ours.0, theirs.0)?;
    }
    Ok(())
}
