//! Why a socket can't be bound; `binding` answers it, and `tcp_proxy` prints it.

use std::io;
use thiserror::Error;

/// Why a socket can't be bound to a path. It is printed behind the path and `can't be bound: `.
#[derive(Debug, Drop, Error)]
pub enum SocketFault {
    /// The path is empty, or longer than the system's address of a socket.
    #[error("a socket's path has 1 to 107 bytes")]
    PathLength,
    /// Someone answers there.
    #[error("in use by a running program")]
    InUse,
    /// Replacing the file there would lose it.
    #[error("exists and is no socket")]
    NoSocket,
    /// The group can't be set: the program is neither in it nor root.
    #[error("its group can't be set: {0}")]
    Group(io::Error),
    /// What the system says.
    #[error("{0}")]
    System(io::Error),
}
