//! What the environment says of the service manager; `stickd` reads it as it starts.

use crate::handed::{HandedFault, HandedSocket, read_handed};
use crate::notify_address::{NotifyAddress, read_address};
use crate::watchdog::read_watchdog;
use base_sequence::Sequence;
use std::env;
use std::rt::Env;

/// What the environment says of the service manager.
#[derive(Debug, Drop)]
pub struct Surroundings {
    /// The sockets that it hands over, in their order.
    pub handed: Sequence<HandedSocket>,
    /// Where it takes messages (`NOTIFY_SOCKET`).
    pub notify: Option<NotifyAddress>,
    /// How many ms lie between two messages that the program is alive, where it wants them.
    pub watchdog: Option<u64>,
}

/// The value of a variable. None where it isn't there, or can't be read.
fn value_of<R: Env + AllocGlobal>(rt: &R, name: &str) -> Option<String> {
    env::var(rt, name).ok()
}

/// What the environment says of the service manager of this process.
pub fn read_surroundings<R: Env + AllocGlobal>(rt: &R) -> Result<Surroundings, HandedFault> {
    let own = u32::try_from(libc::getpid()).unwrap_or(0);
    let process = value_of(rt, "LISTEN_PID");
    let count = value_of(rt, "LISTEN_FDS");
    let names = value_of(rt, "LISTEN_FDNAMES");
    let time = value_of(rt, "WATCHDOG_USEC");
    let watched = value_of(rt, "WATCHDOG_PID");
    let notify = value_of(rt, "NOTIFY_SOCKET");
    let handed = read_handed(
        rt.alloc(),
        process.as_ref().map(|text| text.as_bytes()),
        count.as_ref().map(|text| text.as_bytes()),
        names.as_ref().map(|text| text.as_bytes()),
        own,
    )?;
    Ok(Surroundings {
        handed,
        notify: match &notify {
            Some(value) => read_address(value.as_bytes()),
            None => None,
        },
        watchdog: read_watchdog(
            time.as_ref().map(|text| text.as_bytes()),
            watched.as_ref().map(|text| text.as_bytes()),
            own,
        ),
    })
}
