//! The configuration of the start, read again for the rules that follow; `running_program` does it as an operator asks for it.

ghost use Rattle.std.specs.Prelude.{◌≤◌, IfOk};
ghost use Rattle.rule_change.specs.Versions.{IsVersionOf};

use crate::next_version::{Unfit, read_rules, version_of};
use crate::plan::Source;
use base_sequence::{NoMemory, Sequence};
use log::{Log, warn};
use os::FromRawFd;
use rule_model::{Config, Setup};
use rule_warnings::{Warning, file_warnings, table_warnings};
use std::alloc::{AllocError, Global};
use std::io;
use std::os::fd::{AsRawFd, OwnedFd};
use thiserror::Error;

/// How many versions may follow the first in one run: what each has judged may go on to its end, so that none is given up before.
pub(crate) const MOST_VERSIONS: usize = 1_023;

/// How many bytes of a file are read at once, and how often at most: a gigabyte is no configuration.
const PIECE: usize = 16_384;

const MOST_PIECES: u32 = 65_536;

/// Why the rules stay as they are. It stands after `Not reloaded: `.
#[derive(Debug, Drop, Error)]
pub(crate) enum NotReloaded<'a> {
    /// A drain has begun.
    #[error("it stops.")]
    Stopping,
    #[error("what is served was read of a pipe or the like, which can't be read again.")]
    NoFile,
    #[error("what is served was made of a file of HAProxy's, whose changes take a restart.")]
    Haproxy,
    #[error("{path} can't be read: {reason}")]
    Unread { path: &'a str, reason: io::Error },
    /// The file can be read, and its rules can't follow.
    #[error("{0}")]
    Unfit(Unfit),
    #[error("it was reloaded 1023 times, as often as a run can be.")]
    TooOften,
    #[error("out of memory.")]
    Memory,
}

impl From<Unfit> for NotReloaded<'_> {
    fn from(reason: Unfit) -> Self {
        NotReloaded::Unfit(reason)
    }
}

impl From<AllocError> for NotReloaded<'_> {
    fn from(_refused: AllocError) -> Self {
        NotReloaded::Memory
    }
}

/// Opens a file to read it.
fn open_file(path: &str) -> io::Result<OwnedFd> {
    let descriptor = os::open_read(path.as_bytes());
    if descriptor < 0 {
        return Err(io::Error::from_raw_os_error(os::errno()));
    }
    Ok(unsafe { OwnedFd::from_raw_fd(descriptor) })
}

/// Reads the next piece of a file, and answers how many bytes came.
fn read_piece(file: &OwnedFd, piece: &mut [u8; PIECE]) -> io::Result<usize>
    ensures { IfOk result (λ count. count ≤ 16384) }
{
    let count = libc::read(file.as_raw_fd(), piece);
    match usize::try_from(count) {
        Ok(count) => Ok(count.min(PIECE)),
        Err(_) => Err(io::Error::from_raw_os_error(os::errno())),
    }
}

/// Reads a file whole. The handle by which files are read at the start is that thread's alone, so the system is asked here.
fn read_whole(alloc: Global, path: &str) -> io::Result<Vec<u8>> {
    let file = open_file(path)?;
    let mut text = Vec::new(alloc);
    let mut piece = [0u8; PIECE];
    for _piece in 0..MOST_PIECES {
        let count = read_piece(&file, &mut piece)?;
        if count == 0 {
            return Ok(text);
        }
        text.extend_from_slice(&piece[..count])?;
    }
    Err(io::Error::from_raw_os_error(libc::EFBIG))
}

/// The text of a file.
fn read_text(alloc: Global, path: &str) -> Result<Vec<u8>, NotReloaded<'_>> {
    match read_whole(alloc, path) {
        Ok(text) => Ok(text),
        Err(reason) if reason.kind() == io::ErrorKind::OutOfMemory => Err(NotReloaded::Memory),
        Err(reason) => Err(NotReloaded::Unread { path, reason }),
    }
}

/// Says warnings, each on a line of its own. Whether they can be said changes nothing.
fn say_warnings<R: Log>(rt: &R, warnings: Result<Sequence<Warning>, NoMemory>) {
    let Ok(warnings) = warnings else {
        return;
    };
    for warning in warnings.as_slice() {
        warn!(rt; "{warning}");
    }
}

/// Says what a start says of the lines of a configuration: those that are read past, and what comes to nothing.
fn warn_of_lines<R: Log>(alloc: Global, rt: &R, text: &[u8], config: &Config) {
    for line in config.warnings.as_slice() {
        warn!(rt; "line {line}: read past");
    }
    say_warnings(rt, file_warnings(alloc, text));
}

/// What was read again.
#[derive(Drop)]
pub(crate) struct NewRules {
    /// The rules that follow, over the tables of the first setup.
    pub setup: Setup,
    /// The whole file.
    pub text: Vec<u8>,
}

/// Reads the rules again that are to follow those of the first setup, and says what a start says of their lines, rules and tables, for so
/// many connections at most.
pub(crate) fn reread<'a, R: Log>(
    alloc: Global,
    rt: &R,
    source: Source<'a>,
    first: &Setup,
    connections: u32,
) -> Result<NewRules, NotReloaded<'a>>
    requires { (1 ≤ first.now.shards) × (first.now.shards ≤ 64) }
    ensures version { IfOk result (λ read. IsVersionOf first.now read.setup) }
{
    let path = match source {
        Source::File(path) => path,
        Source::NoFile => return Err(NotReloaded::NoFile),
        Source::Haproxy => return Err(NotReloaded::Haproxy),
    };
    let text = read_text(alloc, path)?;
    let config = read_rules(alloc, text.as_slice())?;
    let setup = version_of(alloc, first, &config)?;
    warn_of_lines(alloc, rt, text.as_slice(), &config);
    say_warnings(rt, table_warnings(alloc, &setup, connections));
    Ok(NewRules { setup, text })
}
