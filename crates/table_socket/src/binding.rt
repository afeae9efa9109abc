//! The binding of a socket to a path, and the removal of its file; `tcp_proxy` calls it as it starts and ends.

ghost use Rattle.std.specs.Prelude.{◌≡◌, ◌<◌, Err, length};
ghost use Rattle.table_socket.specs.declared.fault.SocketFault.TheVariants.{PathLength};

use crate::SocketFault;
use crate::accepting::patient_unix;
use crate::file_id::{FileId, is_own};
use crate::mode::is_narrowed;
use std::fs::{self, Files, Metadata, Permissions};
use std::io;
use std::net::Net;
use std::os::fd::{AsFd, AsRawFd, OwnedFd};
use std::os::unix::fs::{FileTypeExt, MetadataExt, PermissionsExt, lchown};
use std::os::unix::net::{SocketAddr, UnixListener, UnixStream};

/// How many bytes a socket's path has at most: the system's address has 108, and ends with a zero.
pub const MAX_PATH: usize = 107;

/// How many clients may wait to be accepted: as many as the system takes at most, where nobody has set that (listen(2)).
const QUEUE: i32 = 4_096;

/// Who may connect to a socket: its file's permissions, up to 0777, and its group, where that isn't the program's.
#[derive(Clone, Copy, Debug, PartialEq, Eq)]
pub struct Access {
    pub mode: u32,
    pub group: Option<u32>,
}

/// A socket that listens, and the file by which clients find it.
#[derive(Drop)]
pub struct BoundSocket {
    pub listener: UnixListener,
    pub file: FileId,
}

/// A socket that listens at a path, to those that may connect: nobody can before its file's permissions and group are set.
/// A socket's file there that nobody answers, as a killed program leaves it, is replaced; one that is answered is in use, and
/// any other file is left alone. The file stays when the listener is dropped: see `remove_own`. Of two programs that replace a
/// file at the same moment, one may lose its own. Accepting a client waits for 100 ms, and is then answered `WouldBlock`.
pub fn bind_socket<R: Files + Net>(
    rt: &R,
    path: &str,
    access: Access,
) -> Result<BoundSocket, SocketFault>
    ensures empty { length path.now ≡ 0 → result ≡ Err PathLength }
    ensures long { 107 < length path.now → result ≡ Err PathLength }
{
    if path.is_empty() || path.len() > MAX_PATH {
        return Err(SocketFault::PathLength);
    }
    match bind_new(rt, path, access.mode) {
        Ok(socket) => open_to(rt, path, socket, access),
        Err(reason) if reason.kind() == io::ErrorKind::AddrInUse => replace(rt, path, access),
        Err(reason) => Err(SocketFault::System(reason)),
    }
}

/// Removes the file at a path, if it is still the one that was made there. Where it is gone or another program's, all is done.
pub fn remove_own(rt: &impl Files, path: &str, made: FileId) {
    if is_own(made, id_at(rt, path).ok()) {
        // What is left is a socket that nobody answers, which the next start replaces.
        let _ = fs::remove_file(rt, path);
    }
}

/// Which file is at a path; a link is a file of its own.
fn id_at(rt: &impl Files, path: &str) -> io::Result<FileId> {
    Ok(id_of(&fs::symlink_metadata(rt, path)?))
}

/// Which file this is said of.
fn id_of(found: &Metadata) -> FileId {
    FileId {
        device: found.dev(),
        inode: found.ino(),
    }
}

/// A socket with a file at a path where there is none, to which nobody can connect yet. The system gives the file the socket's
/// own mode, less the umask.
fn bind_new<R: Files + Net>(rt: &R, path: &str, mode: u32) -> io::Result<OwnedFd> {
    let address = SocketAddr::from_pathname(path)?;
    let socket = rt.unix_socket()?;
    if libc::fchmod(socket.as_raw_fd(), mode) != 0 {
        return Err(io::Error::from_raw_os_error(os::errno()));
    }
    rt.bind_unix(socket.as_fd(), &address)?;
    Ok(socket)
}

/// Has a bound socket listen, to those that may connect. Where that fails, its file is removed.
fn open_to<R: Files>(
    rt: &R,
    path: &str,
    socket: OwnedFd,
    access: Access,
) -> Result<BoundSocket, SocketFault> {
    let file = id_at(rt, path).map_err(SocketFault::System)?;
    match listen(rt, path, file, socket, access) {
        Ok(listener) => Ok(BoundSocket { listener, file }),
        Err(reason) => {
            remove_own(rt, path, file);
            Err(reason)
        }
    }
}

/// Sets who may connect, and then has the socket listen.
fn listen<R: Files>(
    rt: &R,
    path: &str,
    made: FileId,
    socket: OwnedFd,
    access: Access,
) -> Result<UnixListener, SocketFault> {
    widen_mode(rt, path, made, access.mode).map_err(SocketFault::System)?;
    if access.group.is_some() && is_own(made, id_at(rt, path).ok()) {
        lchown(rt, path, None, access.group).map_err(SocketFault::Group)?;
    }
    let listener = patient_unix(socket).map_err(SocketFault::System)?;
    if libc::net::listen(listener.as_raw_fd(), QUEUE) != 0 {
        return Err(SocketFault::System(io::Error::from_raw_os_error(os::errno())));
    }
    Ok(listener)
}

/// Gives the file that was made at a path what the umask has taken away of its mode. Another's file there keeps its own.
fn widen_mode(rt: &impl Files, path: &str, made: FileId, mode: u32) -> io::Result<()> {
    let found = fs::symlink_metadata(rt, path)?;
    if is_own(made, Some(id_of(&found))) && is_narrowed(mode, found.mode()) {
        return fs::set_permissions(rt, path, Permissions::from_mode(mode));
    }
    Ok(())
}

/// Binds a path at which there is a file, if it is a socket that nobody answers.
fn replace<R: Files + Net>(rt: &R, path: &str, access: Access) -> Result<BoundSocket, SocketFault> {
    let found = fs::symlink_metadata(rt, path).map_err(SocketFault::System)?;
    if !found.file_type().is_socket() {
        return Err(SocketFault::NoSocket);
    }
    match UnixStream::connect(rt, path) {
        Ok(_answered) => Err(SocketFault::InUse),
        Err(reason) if reason.kind() == io::ErrorKind::ConnectionRefused => {
            fs::remove_file(rt, path).map_err(SocketFault::System)?;
            let socket = bind_new(rt, path, access.mode).map_err(SocketFault::System)?;
            open_to(rt, path, socket, access)
        }
        Err(reason) => Err(SocketFault::System(reason)),
    }
}
