//! System calls that can fail, their errors, and the numbers of those; `Keepalive`, `Liveness`, `ServerSocket` and `End` go by it.

ghost use Rattle.std.specs.Prelude.{◌↔◌, pos, ◌≤ℤ◌, IsOk};
ghost use Rattle.libc.specs.Net.{SockOption};

use libc::net::setsockopt;
use std::io;
use std::os::fd::RawFd;

/// The error of the call that has just answered so: one that fails answers less than 0, and the system says why.
pub(crate) fn checked(answer: i32) -> io::Result<()>
    ensures { IsOk result ↔ (pos 0 ≤ℤ answer) }
{
    if answer < 0 {
        Err(io::Error::from_raw_os_error(os::errno()))
    } else {
        Ok(())
    }
}

/// The number of an error of the system, or 0 where it isn't the system's.
pub(crate) fn number_of(error: &io::Error) -> u32 {
    match error.raw_os_error() {
        Some(number) => number.unsigned_abs(),
        None => 0,
    }
}

/// Sets an option of a socket to a number (setsockopt(2)).
pub(crate) fn set_option(socket: RawFd, level: i32, name: i32, number: u32) -> io::Result<()>
    requires { SockOption level name }
{
    let mut value = [0u8; 16];
    value[..4].copy_from_slice(&number.to_ne_bytes());
    checked(unsafe { setsockopt(socket, level, name, &value, 4) })
}
