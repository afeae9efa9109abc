//! A client of the command socket, and what it says of it.

use crate::errors::is_blank;
use crate::listed::Listed;
use crate::progress_line::ProgressLine;
use std::io::{self, ErrorKind, Read, Write};
use std::net::{Net, Shutdown};
use std::os::unix::net::UnixStream;
use std::time::{Clock, Duration};

/// The status where all went well.
pub(crate) const DONE: u8 = 0;

/// The status where a command did nothing, or nobody answered it.
pub(crate) const FAILED: u8 = 1;

/// The status of words that can't be meant.
pub(crate) const BAD_WORDS: u8 = 2;

/// How many bytes of an answer are read between two looks at its progress, at most.
const PIECE: usize = 16_384;

/// How long a program may say nothing where no other time is told, in ms.
pub const PATIENCE: u64 = 10_000;

/// A running stickd, as it is asked.
#[derive(Clone, Copy, Drop)]
pub(crate) struct Peer<'a> {
    /// The path of its socket.
    pub path: &'a str,
    /// How long it may say nothing, in ms.
    pub patience: u64,
}

/// A connection to a stickd, on which no read and no write waits longer than its patience.
pub(crate) fn connect<R: Net>(rt: &R, peer: Peer<'_>) -> io::Result<UnixStream> {
    let stream = UnixStream::connect(rt, peer.path)?;
    let patience = Some(Duration::from_millis(peer.patience.max(1)));
    stream.set_read_timeout(patience)?;
    stream.set_write_timeout(patience)?;
    Ok(stream)
}

/// Sends a line of commands, behind which none more comes.
pub(crate) fn send(stream: &mut UnixStream, command: &[u8]) -> io::Result<()> {
    stream.write_all(command)?;
    stream.write_all(b"\n")?;
    stream.shutdown(Shutdown::Write)
}

/// What a stickd answers to a line of commands.
fn ask<R: Net + AllocGlobal>(rt: &R, peer: Peer<'_>, command: &[u8]) -> io::Result<Vec<u8>> {
    let mut stream = connect(rt, peer)?;
    send(&mut stream, command)?;
    let mut answer = Vec::new(rt.alloc());
    stream.read_to_end(&mut answer)?;
    Ok(answer)
}

/// Adds what comes next of an answer. Answers how many bytes these are: 0 at its end.
fn read_piece(stream: &mut UnixStream, answer: &mut Vec<u8>) -> io::Result<usize> {
    let mut piece = [0u8; PIECE];
    for _interrupted in 0..u64::MAX {
        match stream.read(&mut piece) {
            Ok(count) => {
                answer.extend_from_slice(piece.get(..count).unwrap_or(&[]))?;
                return Ok(count);
            }
            Err(reason) if reason.kind() == ErrorKind::Interrupted => {}
            Err(reason) => return Err(reason),
        }
    }
    Ok(0)
}

/// Reads an answer to its end, and tells meanwhile how many entries of it have come.
fn read_told<R: Clock + Eprint + AllocGlobal>(
    rt: &R,
    stream: &mut UnixStream,
    answer: &mut Vec<u8>,
    line: &ProgressLine<'_>,
) -> io::Result<()> {
    let mut listed = Listed::new();
    let mut noted = 0usize;
    for _piece in 0..u64::MAX {
        if read_piece(stream, answer)? == 0 {
            break;
        }
        let more = listed.note_more(answer.get(noted..).unwrap_or(&[]));
        noted = noted.saturating_add(more);
        if listed.entries > 0 {
            line.tell(rt, listed.entries, Some(listed.whole));
        }
    }
    Ok(())
}

/// What a stickd answers to a line of commands, whose progress a line of the terminal tells.
fn ask_told<R: Net + Clock + Eprint + AllocGlobal>(
    rt: &R,
    peer: Peer<'_>,
    command: &[u8],
    line: &ProgressLine<'_>,
) -> io::Result<Vec<u8>> {
    if !line.is_shown() {
        return ask(rt, peer, command);
    }
    let mut stream = connect(rt, peer)?;
    send(&mut stream, command)?;
    let mut answer = Vec::new(rt.alloc());
    read_told(rt, &mut stream, &mut answer, line)?;
    Ok(answer)
}

/// Whether an error is that of a time which is over.
pub(crate) fn is_late(reason: &io::Error) -> bool {
    let kind = reason.kind();
    kind == io::ErrorKind::WouldBlock || kind == io::ErrorKind::TimedOut
}

/// Says that a program stands still.
pub(crate) fn say_late<R: Eprint>(rt: &R, peer: Peer<'_>) -> io::Result<()> {
    let Peer { path, patience } = peer;
    eprintln!(rt; "stickd: the program at {path} has said nothing for {patience} ms")
}

/// What came of a line of commands. None where nobody answered, or not in time, which is then said.
fn answer_or_fault<R: Eprint>(
    rt: &R,
    peer: Peer<'_>,
    command: &[u8],
    asked: io::Result<Vec<u8>>,
) -> io::Result<Option<Vec<u8>>> {
    let path = peer.path;
    match asked {
        Ok(answer) if answer.ends_with(b"\n") || is_blank(command) => Ok(Some(answer)),
        Ok(_cut) => {
            eprintln!(rt; "stickd: {path} was closed before the answer's end")?;
            Ok(None)
        }
        Err(reason) if is_late(&reason) => {
            say_late(rt, peer)?;
            Ok(None)
        }
        Err(reason) => {
            eprintln!(rt; "stickd: {path} can't be reached: {reason}")?;
            Ok(None)
        }
    }
}

/// What a line of commands is answered. None where nobody answers, or not in time, which is then said.
pub(crate) fn answer_in_time<R: Net + Eprint + AllocGlobal>(
    rt: &R,
    peer: Peer<'_>,
    command: &[u8],
) -> io::Result<Option<Vec<u8>>> {
    answer_or_fault(rt, peer, command, ask(rt, peer, command))
}

/// The same of a command that may list much: where that takes longer, the terminal of standard error tells how far it has come.
pub(crate) fn answer_told<R: Net + Clock + Eprint + AllocGlobal>(
    rt: &R,
    peer: Peer<'_>,
    command: &[u8],
) -> io::Result<Option<Vec<u8>>> {
    let line = ProgressLine::begin(rt, "listed");
    let asked = ask_told(rt, peer, command, &line);
    line.clear(rt);
    answer_or_fault(rt, peer, command, asked)
}

/// The same as `answer_in_time`, with the time that is usual.
pub(crate) fn answer_of<R: Net + Eprint + AllocGlobal>(
    rt: &R,
    path: &str,
    command: &[u8],
) -> io::Result<Option<Vec<u8>>> {
    let patience = PATIENCE;
    answer_in_time(rt, Peer { path, patience }, command)
}

/// Says that there is no memory, and answers the status.
pub(crate) fn say_no_memory<R: Eprint>(rt: &R) -> io::Result<u8> {
    eprintln!(rt; "stickd: out of memory")?;
    Ok(FAILED)
}

/// Whether standard output is a terminal.
pub(crate) fn is_on_terminal() -> bool {
    libc::isatty(libc::STDOUT_FILENO) == 1
}

/// Writes bytes to standard output.
pub(crate) fn show<R: Print>(rt: &R, text: &[u8]) -> io::Result<()> {
    let mut output = io::writer(rt);
    output.write_all(text)
}
