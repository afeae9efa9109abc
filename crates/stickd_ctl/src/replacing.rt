//! A file that is written anew, whole: it is written beside its place under a name of its own, and takes the place once it lies on the
//! disk. `saving` writes what it saves so, and `tcp_proxy` what its tables hold.

ghost use Rattle.std.specs.Prelude.{◌≡◌, ◌<◌, ◌==◌, IfSome, Some, length, if◌then◌else◌};
ghost use Rattle.stickd_ctl.specs.Replacing as spec;

use os::FromRawFd;
use std::alloc::Global;
use std::fs::{self, Metadata};
use std::io;
use std::os::fd::{AsRawFd, OwnedFd};
use std::rt::Files;

/// What stands behind the path in the name of a new file, where mkstemp(3) puts letters of its own for each X.
const NEW: &[u8] = b".XXXXXX";

/// The place of the last slash of a path.
fn last_slash(path: &[u8]) -> Option<usize>
    ensures slash { result ≡ spec.last_slash path.now }
    ensures within { IfSome result (λ place. place < length path.now) }
{
    let mut last = None;
    for (place, byte) in path.iter().enumerate() {
        last = later_slash(last, place, *byte);
    }
    last
}

/// The place of the last slash so far, once a byte more is known.
fn later_slash(last: Option<usize>, place: usize, byte: u8) -> Option<usize>
    ensures { result ≡ (if byte == 47 then Some place else last) }
{
    if byte == b'/' { Some(place) } else { last }
}

/// The folder that a path lies in.
fn folder_of(path: &[u8]) -> &[u8]
    ensures { result.now ≡ spec.folder_of path.now }
{
    match last_slash(path) {
        Some(0) => b"/",
        Some(place) => &path[..place],
        None => b".",
    }
}

/// What lies at a path.
#[derive(Clone, Copy, Debug, PartialEq, Eq)]
pub enum Lying {
    Nothing,
    File,
    /// A symbolic link, whatever it leads to.
    Link,
    Folder,
    /// A FIFO, a device or a socket.
    Other,
}

impl Lying {
    /// Whether a file may take its place. A link's place is taken, and what it leads to stays as it is.
    pub fn may_be_replaced(self) -> bool
        ensures { result ≡ spec.may_replace self }
    {
        match self {
            Lying::Nothing | Lying::File | Lying::Link => true,
            Lying::Folder | Lying::Other => false,
        }
    }
}

/// What the system tells of what lies at a path.
fn lying_of(found: &Metadata) -> Lying {
    if found.is_symlink() {
        Lying::Link
    } else if found.is_file() {
        Lying::File
    } else if found.is_dir() {
        Lying::Folder
    } else {
        Lying::Other
    }
}

/// What lies at a path, which isn't followed where that is a link.
fn what_lies_at<R: Files>(rt: &R, path: &str) -> io::Result<Lying> {
    match fs::symlink_metadata(rt, path) {
        Ok(found) => Ok(lying_of(&found)),
        Err(reason) if reason.kind() == io::ErrorKind::NotFound => Ok(Lying::Nothing),
        Err(reason) => Err(reason),
    }
}

/// The error of the last call of the system.
fn last_error() -> io::Error {
    io::Error::from_raw_os_error(os::errno())
}

/// The error of a call that answers 0, or -1.
fn check(status: i32) -> io::Result<()> {
    if status < 0 {
        Err(last_error())
    } else {
        Ok(())
    }
}

/// Makes a file of its own beside a path, which its owner alone may read (mkstemp(3)): it follows no link, and takes no file that is
/// there. The name comes back too.
fn make_beside(alloc: Global, path: &str) -> io::Result<(Vec<u8>, OwnedFd)> {
    let mut name = Vec::new(alloc);
    name.extend_from_slice(path.as_bytes())?;
    name.extend_from_slice(NEW)?;
    let descriptor = os::create_temp(name.as_mut_slice());
    if descriptor < 0 {
        return Err(last_error());
    }
    let file = unsafe { OwnedFd::from_raw_fd(descriptor) };
    Ok((name, file))
}

/// Writes a text to a file, all of it.
fn write_whole(file: &OwnedFd, text: &[u8]) -> io::Result<()> {
    let mut left = text;
    for _write in 0..u64::MAX {
        if left.is_empty() {
            break;
        }
        let count = libc::write(file.as_raw_fd(), left);
        if count < 0 {
            let reason = last_error();
            if reason.kind() == io::ErrorKind::Interrupted {
                continue;
            }
            return Err(reason);
        }
        let count = usize::try_from(count).unwrap_or(0).min(left.len());
        if count == 0 {
            return Err(io::ErrorKind::WriteZero.into());
        }
        left = &left[count..];
    }
    Ok(())
}

/// Has the system write to the disk which files a path's folder has (fsync(2)).
fn sync_folder(path: &str) -> io::Result<()> {
    let descriptor = os::open_read(folder_of(path.as_bytes()));
    if descriptor < 0 {
        return Err(last_error());
    }
    let folder = unsafe { OwnedFd::from_raw_fd(descriptor) };
    check(libc::fsync(folder.as_raw_fd()))
}

/// Fills a new file, and has it take the place of what lies at a path.
fn put_in_place(name: &[u8], file: &OwnedFd, path: &str, text: &[u8]) -> io::Result<()> {
    write_whole(file, text)?;
    check(libc::fsync(file.as_raw_fd()))?;
    check(os::rename(name, path.as_bytes()))
}

/// Writes a text to a new file, whose owner alone may read it, and which takes the place of what lies at a path. Where that fails, what
/// lies there stays as it is. A link there is not followed. Both the file and its folder are on the disk, once this is done.
pub fn replace_file(alloc: Global, path: &str, text: &[u8]) -> io::Result<()> {
    let (name, file) = make_beside(alloc, path)?;
    if let Err(reason) = put_in_place(name.as_slice(), &file, path, text) {
        let _ = os::unlink(name.as_slice());
        return Err(reason);
    }
    sync_folder(path)
}

/// Tries whether a file can be written at a path, by another one beside it, which is removed. The error says why it can't be; so does
/// that of a folder, or of what is no file, at the path.
pub fn try_to_replace<R: Files>(alloc: Global, rt: &R, path: &str) -> io::Result<()> {
    if path.is_empty() {
        return Err(io::ErrorKind::NotFound.into());
    }
    let lying = what_lies_at(rt, path)?;
    if !lying.may_be_replaced() {
        let reason = match lying {
            Lying::Folder => io::ErrorKind::IsADirectory.into(),
            _ => io::Error::new(
                io::ErrorKind::InvalidInput,
                "no file lies there, but a FIFO, a device or a socket",
            ),
        };
        return Err(reason);
    }
    let (name, _file) = make_beside(alloc, path)?;
    check(os::unlink(name.as_slice()))?;
    sync_folder(path)
}
