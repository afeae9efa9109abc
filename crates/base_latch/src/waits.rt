//! What the system is asked as a thread waits; `Latch` waits by it.

ghost use Rattle.std.specs.Prelude.{◌≡◌, pos};
ghost use Rattle.base_latch.specs.Waits.{poll_time};

use libc::net::POLLIN;
use libc::types::pollfd;
use std::os::fd::RawFd;

/// The longest time that the system can be asked to wait, in ms.
const LONGEST: u64 = 0x7fff_ffff;

/// For how long the system is asked to wait, where so many ms are the most: for ever where nothing is said (poll(2)).
pub(crate) fn poll_time(most: Option<u64>) -> i32
    ensures { result ≡ poll_time most }
{
    match most {
        Some(most) => most.min(LONGEST) as i32,
        None => -1,
    }
}

/// That a descriptor is watched for what can be read there.
pub(crate) fn looked_for(descriptor: RawFd) -> pollfd
    ensures descriptor { result.fd ≡ descriptor }
    ensures reads { result.events ≡ pos 1 }
{
    pollfd {
        fd: descriptor,
        events: POLLIN,
        revents: 0,
    }
}
