//! The sockets that the service manager hands over, looked at before any is taken; `sockets` and `listeners` take them.

use crate::binding::BindFault;
use log::{Log, error};
use std::fmt::Display;
use std::str;
use tcp_watch::{HandedSocket, look_at, purpose_of, refusal_of};

/// Says on standard error that a socket that was handed over can't be served, by its number and its name.
pub(crate) fn say_unserved<R: Log, D: Display + Drop>(
    rt: &R,
    socket: &HandedSocket,
    reason: D,
) -> BindFault {
    let number = socket.number;
    let name = str::from_utf8(socket.name.as_slice()).unwrap_or("?");
    error!(rt; "socket {number} that was handed over, '{name}', can't be served: {reason}");
    BindFault::Said
}

/// Whether a socket after others can be served. Where it can't, that is said.
fn check_one<R: Log>(
    rt: &R,
    before: &[HandedSocket],
    socket: &HandedSocket,
) -> Result<(), BindFault> {
    let facts = match look_at(socket.number) {
        Ok(facts) => facts,
        Err(reason) => return Err(say_unserved(rt, socket, reason)),
    };
    match refusal_of(before, purpose_of(socket.name.as_slice()), facts) {
        None => Ok(()),
        Some(refusal) => Err(say_unserved(rt, socket, refusal)),
    }
}

/// Whether all sockets can be served. It is said of the first one that can't.
pub(crate) fn check_handed<R: Log>(rt: &R, sockets: &[HandedSocket]) -> Result<(), BindFault> {
    for place in 0..sockets.len() {
        let (before, _) = sockets.split_at(place);
        check_one(rt, before, &sockets[place])?;
    }
    Ok(())
}
