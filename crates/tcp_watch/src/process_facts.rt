//! What the system says of the process, asked when metrics are told; `tcp_proxy` tells it.

use crate::process_stat::{ProcessStat, ms_of, read_stat};
use os::FromRawFd;
use std::os::fd::{AsRawFd, OwnedFd};
use tcp_stats::ProcessFacts;

/// Where the system says how a process goes, in one line (proc_pid_stat(5)).
const STAT: &[u8] = b"/proc/self/stat";

/// Where it lists the descriptors that a process has open (proc_pid_fd(5)).
const DESCRIPTORS: &[u8] = b"/proc/self/fd";

/// How many bytes of the line are read. It takes some 350.
const MOST_BYTES: usize = 2048;

/// How many bytes of names are read at once.
const MOST_NAMES: usize = 16_384;

/// The names that a listing of the descriptors has besides: those of the folder and the one above it, and the listing's own descriptor.
const OWN_NAMES: u64 = 3;

/// What is made of a descriptor that the system gives, if it gives one.
fn owned(descriptor: i32) -> Option<OwnedFd> {
    if descriptor < 0 {
        return None;
    }
    Some(unsafe { OwnedFd::from_raw_fd(descriptor) })
}

/// What the system's line says of the process.
fn look_at_stat() -> Option<ProcessStat> {
    let file = owned(os::open_read(STAT))?;
    let mut line = [0; MOST_BYTES];
    let count = libc::pread(file.as_raw_fd(), &mut line, 0);
    let count = usize::try_from(count).ok()?.min(MOST_BYTES);
    Some(read_stat(&line[..count]))
}

/// How many descriptors the process has open.
fn count_descriptors() -> Option<u64> {
    let folder = owned(os::open_dir_at(libc::AT_FDCWD, DESCRIPTORS))?;
    let mut names = [0u8; MOST_NAMES];
    let mut found = 0u64;
    for _ in 0..u32::MAX {
        let count = os::read_dir(folder.as_raw_fd(), &mut names);
        if count == 0 {
            return found.checked_sub(OWN_NAMES);
        }
        // A zero ends each name.
        let ended = names[..count].iter().filter(|byte| **byte == 0).count();
        found = found.saturating_add(ended as u64);
    }
    None
}

/// A number of the system's (sysconf(3)). None where it has none.
fn system_number(name: i32) -> Option<u64> {
    match u64::try_from(libc::sysconf(name)) {
        Ok(0) | Err(_) => None,
        Ok(number) => Some(number),
    }
}

/// The processor time of a process, in ms.
fn cpu_of(stat: &ProcessStat) -> Option<u64> {
    let per_second = system_number(libc::_SC_CLK_TCK)?;
    let ticks = stat.user_ticks?.saturating_add(stat.system_ticks?);
    Some(ms_of(ticks, per_second.max(1)))
}

/// The memory that a process has in use, in bytes.
fn resident_of(stat: &ProcessStat) -> Option<u64> {
    Some(
        stat.resident_pages?
            .saturating_mul(system_number(libc::_SC_PAGESIZE)?),
    )
}

/// What the system says of the process now. It may have so many descriptors, and began at this moment in ms since 1970.
pub fn ask_process(most_descriptors: Option<u64>, started_ms: Option<u64>) -> ProcessFacts {
    let stat = look_at_stat();
    let stat = stat.as_ref();
    ProcessFacts {
        cpu_ms: stat.and_then(cpu_of),
        open_descriptors: count_descriptors(),
        most_descriptors,
        virtual_bytes: stat.and_then(|stat| stat.virtual_bytes),
        resident_bytes: stat.and_then(resident_of),
        started_ms,
    }
}
