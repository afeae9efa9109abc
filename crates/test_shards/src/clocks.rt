//! What a running clock shows.

use base_clock::{Clock, RunningClock, Start};
use std::sync::atomic::{AtomicU64, Ordering};
use std::time::{Duration, Instant};
use std::{io, time};

/// A time that can be read, goes on by 7 ms, can't be read, goes back by 3 ms, and then is past every moment.
#[derive(Drop)]
struct Faulty {
    reads: AtomicU64,
}

impl time::Clock for Faulty {
    fn monotonic(&self) -> io::Result<Duration> {
        match self.reads.fetch_add(1, Ordering::SeqCst) {
            0 => Ok(Duration::from_millis(1000)),
            1 => Ok(Duration::from_millis(1007)),
            2 => Err(io::Error::from(io::ErrorKind::Unsupported)),
            3 => Ok(Duration::from_millis(1004)),
            _ => Ok(Duration::from_secs(1 << 62)),
        }
    }

    fn since_1970(&self) -> io::Result<Duration> {
        Err(io::Error::from(io::ErrorKind::Unsupported))
    }
}

/// What a clock of that time shows at four looks.
fn shown(faulty: &Faulty) -> Option<[u64; 4]> {
    let Ok(start) = Instant::now(faulty) else {
        return None;
    };
    let mut clock = RunningClock::new(faulty, Start::at(start));
    Some([clock.now(), clock.now(), clock.now(), clock.now()])
}

#[test]
fn a_clock_never_goes_back(rt: HostRuntime) {
    let faulty = Faulty {
        reads: AtomicU64::new(0),
    };
    assert!(rt; shown(&faulty) == Some([7, 7, 7, (1 << 62) - 1]));
}
