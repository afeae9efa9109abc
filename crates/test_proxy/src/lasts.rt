//! The last time that something went wrong: noted by two threads, and read by another.

use std::net::{IpAddr, Ipv4Addr, Ipv6Addr, SocketAddr};
use std::sync::Wait;
use std::sync::atomic::{AtomicBool, Ordering};
use std::thread;
use std::thread::Threads;
use tcp_stats::{Count, LastTimes, Occasion};

/// How often a thread notes or reads at most.
const OFTEN: u32 = 1_000_000_000;

/// How often it is read at least, and how often what is read has changed by then. A busy machine makes few changes a second.
const READS: u32 = 100_000;

const CHANGES: u32 = 50;

/// A client of IPv4, and an error.
fn of_ipv4() -> Occasion {
    let address = IpAddr::V4(Ipv4Addr::from_octets([10, 0, 0, 7]));
    Occasion {
        source: Some(SocketAddr::new(address, 4_711)),
        error: Some(111),
    }
}

/// A client of IPv6 alone, in both halves of its address.
fn of_ipv6() -> Occasion {
    let bytes = [
        0x20, 0x01, 0x0d, 0xb8, 0, 0, 0, 1, 0xff, 0xfe, 0, 0, 0, 0, 0, 9,
    ];
    let address = IpAddr::V6(Ipv6Addr::from_octets(bytes));
    Occasion {
        source: Some(SocketAddr::new(address, 65_535)),
        error: None,
    }
}

/// An error alone.
fn of_nobody() -> Occasion {
    Occasion {
        source: None,
        error: Some(0),
    }
}

#[test]
fn what_is_noted_is_read(rt: HostRuntime) {
    let lasts = LastTimes::new();
    assert!(rt; lasts.read(Count::Rejected).is_none());
    for occasion in [of_ipv4(), of_ipv6(), of_nobody()] {
        lasts.note(Count::Rejected, occasion);
        assert!(rt; lasts.read(Count::Rejected) == Some(occasion));
        assert!(rt; lasts.read(Count::NoPort).is_none());
    }
}

/// Notes both clients in turn, until the end.
fn note_often(lasts: &LastTimes, has_ended: &AtomicBool) {
    for _ in 0..OFTEN {
        if has_ended.load(Ordering::SeqCst) {
            return;
        }
        lasts.note(Count::ServerRefused, of_ipv4());
        lasts.note(Count::ServerRefused, of_ipv6());
    }
}

/// Whether all that is read is one of both clients, whole, until it has changed often.
fn is_read_whole(lasts: &LastTimes) -> bool {
    let (mut before, mut changes) = (of_nobody(), 0u32);
    for read in 0..OFTEN {
        let Some(seen) = lasts.read(Count::ServerRefused) else {
            continue;
        };
        if seen != of_ipv4() && seen != of_ipv6() {
            return false;
        }
        if seen != before {
            before = seen;
            changes = changes.wrapping_add(1);
        }
        if read >= READS && changes >= CHANGES {
            return true;
        }
    }
    false
}

/// The same, and then both threads that note are told of the end.
fn is_read_whole_to_the_end(lasts: &LastTimes, has_ended: &AtomicBool) -> bool {
    let is_whole = is_read_whole(lasts);
    has_ended.store(true, Ordering::SeqCst);
    is_whole
}

/// Notes both clients on two threads, until the end.
fn note_twice<R: Threads + Wait + Sync>(rt: &R, lasts: &LastTimes, has_ended: &AtomicBool) {
    thread::join(
        rt,
        || note_often(lasts, has_ended),
        || note_often(lasts, has_ended),
    );
}

/// Whether what is read while two others note is whole.
fn note_and_read<R: Threads + Wait + Sync>(rt: &R) -> bool {
    let (lasts, has_ended) = (LastTimes::new(), AtomicBool::new(false));
    let (lasts, has_ended) = (&lasts, &has_ended);
    let (is_whole, ()) = thread::join(
        rt,
        || is_read_whole_to_the_end(lasts, has_ended),
        || note_twice(rt, lasts, has_ended),
    );
    is_whole
}

#[test]
fn nothing_is_read_torn(rt: HostRuntime) {
    assert!(rt; note_and_read(&rt));
}
