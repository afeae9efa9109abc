//! Which file a path names; `binding` compares by it, so that it removes only the file that it made.

ghost use Rattle.std.specs.Prelude.{◌≡◌, ◌↔◌, Some, IsTrue};

/// A file of this machine: its device and its inode (stat(2)).
#[derive(Clone, Copy, Debug, PartialEq, Eq)]
pub struct FileId {
    pub device: u64,
    pub inode: u64,
}

/// Whether what is found at a path is the file that this program made there.
pub fn is_own(made: FileId, found: Option<FileId>) -> bool
    ensures { IsTrue result ↔ (found ≡ Some made) }
{
    match found {
        Some(found) => found.device == made.device && found.inode == made.inode,
        None => false,
    }
}
