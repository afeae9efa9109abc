//! What is known of the last time that each thing went wrong; the proxy's workers note it, and its reporting reads it.

use crate::{COUNTS, Count};
use crossbeam_utils::CachePadded;
use std::array;
use std::net::{IpAddr, Ipv4Addr, Ipv6Addr, SocketAddr};
use std::sync::atomic::{AtomicU64, Ordering};

/// What is known of a time that something went wrong.
#[derive(Clone, Copy, Debug, PartialEq, Eq)]
pub struct Occasion {
    /// Where the client came from.
    pub source: Option<SocketAddr>,
    /// The number of the system's error (errno(3)).
    pub error: Option<u32>,
}

/// How many words an occasion takes: the kind of its address, both halves of that, and its port beside the error.
const WORDS: usize = 4;

/// What one half of an IPv6 address has too little room for.
const HALF: u128 = 1 << 64;

/// What stands before a port: an error's number, and before that whether there is one.
const PORTS: u64 = 1 << 16;

const ERRORS: u64 = 1 << 32;

/// The kind of an address, and both its halves.
fn halves_of(address: IpAddr) -> [u64; 3] {
    match address {
        IpAddr::V4(address) => [4, 0, u64::from(u32::from_be_bytes(address.octets()))],
        IpAddr::V6(address) => {
            let whole = u128::from_be_bytes(address.octets());
            let high = u64::try_from(whole / HALF).unwrap_or(0);
            let low = u64::try_from(whole % HALF).unwrap_or(0);
            [6, high, low]
        }
    }
}

/// The address of a kind that has these halves. None of another kind.
fn address_of(kind: u64, high: u64, low: u64) -> Option<IpAddr> {
    match kind {
        4 => {
            let whole = u32::try_from(low).unwrap_or(0);
            Some(IpAddr::V4(Ipv4Addr::from_octets(whole.to_be_bytes())))
        }
        6 => {
            let whole = u128::from(high) * HALF + u128::from(low);
            Some(IpAddr::V6(Ipv6Addr::from_octets(whole.to_be_bytes())))
        }
        _ => None,
    }
}

/// An occasion as words.
fn words_of(occasion: Occasion) -> [u64; WORDS] {
    let ([kind, high, low], port) = match occasion.source {
        Some(source) => (halves_of(source.ip()), source.port()),
        None => ([0, 0, 0], 0),
    };
    let error = match occasion.error {
        Some(number) => ERRORS + u64::from(number),
        None => 0,
    };
    [kind, high, low, error * PORTS + u64::from(port)]
}

/// The occasion that words stand for.
fn occasion_of(words: [u64; WORDS]) -> Occasion {
    let [kind, high, low, rest] = words;
    let port = u16::try_from(rest % PORTS).unwrap_or(0);
    let error = rest / PORTS;
    Occasion {
        source: address_of(kind, high, low).map(|address| SocketAddr::new(address, port)),
        error: match error {
            0 => None,
            _ => u32::try_from(error % ERRORS).ok(),
        },
    }
}

/// An occasion that threads write and read. The version is odd while one writes, and 0 before the first has.
#[derive(Drop)]
struct LastCell {
    version: AtomicU64,
    words: [AtomicU64; WORDS],
}

impl LastCell {
    /// Nothing was noted.
    fn new() -> LastCell {
        LastCell {
            version: AtomicU64::new(0),
            words: array::from_fn(|_| AtomicU64::new(0)),
        }
    }

    /// Notes an occasion. One that comes while another is written is left out: both are the last.
    fn note(&self, occasion: Occasion) {
        let version = self.version.load(Ordering::SeqCst);
        let begun = version.wrapping_add(1);
        let is_free = version % 2 == 0;
        let (order, failed) = (Ordering::SeqCst, Ordering::SeqCst);
        if !is_free
            || self
                .version
                .compare_exchange(version, begun, order, failed)
                .is_err()
        {
            return;
        }
        for (place, word) in words_of(occasion).iter().enumerate() {
            self.words[place].store(*word, Ordering::SeqCst);
        }
        self.version.store(begun.wrapping_add(1), Ordering::SeqCst);
    }

    /// The occasion that was noted last. None where none was, and where one is being written.
    fn read(&self) -> Option<Occasion> {
        let version = self.version.load(Ordering::SeqCst);
        if version == 0 || version % 2 == 1 {
            return None;
        }
        let mut words = [0; WORDS];
        for place in 0..WORDS {
            words[place] = self.words[place].load(Ordering::SeqCst);
        }
        if self.version.load(Ordering::SeqCst) != version {
            return None;
        }
        Some(occasion_of(words))
    }
}

/// The last occasion of each count, of all threads.
#[derive(Drop)]
pub struct LastTimes {
    cells: [CachePadded<LastCell>; COUNTS],
}

impl LastTimes {
    /// Nothing was noted.
    pub fn new() -> LastTimes {
        LastTimes {
            cells: array::from_fn(|_| CachePadded::new(LastCell::new())),
        }
    }

    /// Notes an occasion of a count. Where another thread notes one at the same time, one of them is kept.
    pub fn note(&self, count: Count, occasion: Occasion) {
        self.cells[count.place()].note(occasion);
    }

    /// The last occasion of a count, whole. None where none was noted, and where one is being noted just now.
    pub fn read(&self, count: Count) -> Option<Occasion> {
        self.cells[count.place()].read()
    }
}
