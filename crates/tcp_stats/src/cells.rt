//! Counts that one thread publishes and others read; a worker publishes its own, and reports read those of all workers.

use crate::{COUNTS, Count, Counts};
use crossbeam_utils::CachePadded;
use std::array;
use std::sync::atomic::{AtomicU64, Ordering};

/// The counts of one thread, as it published them last. Others read each of them whole, though not all at one moment.
#[derive(Drop)]
pub struct Cells {
    // Padded, so that no two threads write on one line of a processor's cache.
    words: CachePadded<[AtomicU64; COUNTS]>,
}

impl Cells {
    /// Cells in which nothing has been published.
    pub fn new() -> Cells {
        Cells {
            words: CachePadded::new(array::from_fn(|_| AtomicU64::new(0))),
        }
    }

    /// Publishes a thread's counts. Each cell that differs is written, in the order of places: what was accepted before
    /// what became of it. One thread alone publishes here.
    pub fn publish(&self, counts: &Counts) {
        for count in Count::ALL {
            let word = &self.words[count.place()];
            let value = counts.get(count);
            if word.load(Ordering::SeqCst) != value {
                word.store(value, Ordering::SeqCst);
            }
        }
    }

    /// The counts that were published. They are read in the opposite order, what was accepted last: so a reader never
    /// sees more admitted and rejected than accepted.
    pub fn read(&self) -> Counts {
        let mut counts = Counts::new();
        for count in Count::ALL.iter().rev() {
            let word = &self.words[count.place()];
            counts.add(*count, word.load(Ordering::SeqCst));
        }
        counts
    }
}

/// How many are open now, of all threads, and how many were open at once at most.
#[derive(Drop)]
pub struct Gauge {
    open: CachePadded<AtomicU64>,
    most: CachePadded<AtomicU64>,
}

impl Gauge {
    /// None is open, and none was.
    pub fn new() -> Gauge {
        Gauge {
            open: CachePadded::new(AtomicU64::new(0)),
            most: CachePadded::new(AtomicU64::new(0)),
        }
    }

    /// One more is open.
    pub fn enter(&self) {
        let open = self.open.fetch_add(1, Ordering::SeqCst).wrapping_add(1);
        raise(&self.most, open);
    }

    /// One that entered is open no longer.
    pub fn leave(&self) {
        self.open.fetch_sub(1, Ordering::SeqCst);
    }

    /// How many are open now.
    pub fn open(&self) -> u64 {
        self.open.load(Ordering::SeqCst)
    }

    /// How many were open at once at most.
    pub fn most(&self) -> u64 {
        self.most.load(Ordering::SeqCst)
    }
}

/// Raises a word to a value, unless it is as great already. A try that fails has seen another thread raise the word.
fn raise(word: &AtomicU64, value: u64) {
    let mut seen = word.load(Ordering::SeqCst);
    for _ in 0..value {
        if seen >= value {
            return;
        }
        match word.compare_exchange(seen, value, Ordering::SeqCst, Ordering::SeqCst) {
            Ok(_) => return,
            Err(now) => seen = now,
        }
    }
}
