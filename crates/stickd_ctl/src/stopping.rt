//! `stickd stop`: a running stickd is asked to stop, and waited for; `stickd` calls `stop_running`.
//!
//! The program is waited for by its socket alone, since its process may be in another namespace. As it ends it says its last word
//! to who is connected, and holds that connection until it is gone.

ghost use Rattle.std.specs.Prelude.{◌≡◌};
ghost use Rattle.stickd_ctl.specs.Stopping as spec;

use crate::client::{DONE, FAILED, Peer, answer_in_time, connect, is_late, say_late, send};
use crate::last_word::{LastWord, read_last_word};
use crate::lines::number_after;
use base_lines::Parts;
use std::alloc::{AllocError, Global};
use std::io::{self, ErrorKind, Read};
use std::net::Net;
use std::os::unix::net::UnixStream;
use std::thread;
use std::time::{Clock, Duration, Instant};

/// What stands before the number of the process in what `show info` answers.
const PID: &[u8] = b"Pid: ";

/// How long it waits between two looks, in ms.
const LOOK: u64 = 50;

/// How many bytes of what a look is answered are read at most, which is more than any last word has.
const MOST_BYTES: usize = 64;

/// What `stickd stop` is asked.
#[derive(Clone, Copy, Drop)]
pub struct Stop<'a> {
    /// The stats socket of the program that is to stop.
    pub path: &'a str,
    /// How long its open connections may go on, in ms. None where the program's own time counts.
    pub drain: Option<u64>,
    /// How long it may say nothing, and how much longer than the drain it may take, in ms.
    pub patience: u64,
}

impl<'a> Stop<'a> {
    /// Whom it asks.
    fn peer(&self) -> Peer<'a> {
        Peer {
            path: self.path,
            patience: self.patience,
        }
    }
}

/// What a look at the socket of a program shows that was asked to stop.
#[derive(Clone, Copy, Debug, PartialEq, Eq)]
pub enum Seen {
    /// It still answers.
    Runs,
    /// It has said its last word, and is gone.
    Said(LastWord),
    /// The socket's file is gone.
    Gone,
    /// The file is there, and nobody listens.
    Dead,
    /// It took the client, and said nothing in time.
    Silent,
}

/// What to do after a look at the socket of a program that was asked to stop.
#[derive(Clone, Copy, Debug, PartialEq, Eq)]
pub enum AfterLook {
    /// It has ended in order.
    Done,
    /// It has ended, and couldn't save its tables.
    NotSaved,
    /// It has ended, and not in order.
    Died,
    /// It stands still.
    StandsStill,
    LookAgain,
    /// It has had its time.
    GiveUp,
}

/// What to do after a look, where it was waited for so many ms and may take `most`.
pub fn after_look(seen: Seen, waited: u64, most: u64) -> AfterLook
    ensures { result ≡ spec.after_look seen waited most }
{
    match seen {
        Seen::Runs if waited < most => AfterLook::LookAgain,
        Seen::Runs => AfterLook::GiveUp,
        Seen::Said(LastWord::Stopped) => AfterLook::Done,
        Seen::Said(LastWord::Unsaved) => AfterLook::NotSaved,
        Seen::Gone => AfterLook::Done,
        Seen::Dead => AfterLook::Died,
        Seen::Silent => AfterLook::StandsStill,
    }
}

/// The number of a running program's process, by what it answers to `show info`.
pub fn pid_of(answer: &[u8]) -> Option<u64>
    ensures { result ≡ spec.pid_of answer.now }
{
    let mut lines = Parts::new(answer, b'\n');
    while let Some(line) = lines.next() {
        if line.starts_with(PID) {
            return number_after(line, PID);
        }
    }
    None
}

/// Whether an answer says nothing, as that to a command which was done.
pub fn is_quiet(answer: &[u8]) -> bool
    ensures { result ≡ spec.is_quiet answer.now }
{
    answer.iter().all(|byte| *byte == b'\n')
}

/// The command that stops a program, whose connections may go on for so many ms, or for its own time.
fn stop_command(alloc: Global, drain: Option<u64>) -> Result<String, AllocError> {
    match drain {
        Some(drain) => format!(in alloc; "stop {drain}"),
        None => format!(in alloc; "stop"),
    }
}

/// How many ms a program may take to end that was asked so: its drain, and some more. Its own drain isn't known here.
fn most_wait(drain: Option<u64>, patience: u64) -> u64
    ensures { result ≡ spec.most_wait drain patience }
{
    match drain {
        Some(drain) => drain.saturating_add(patience),
        None => u64::MAX,
    }
}

/// Sends the command that stops a program, whose connections may go on for so many ms, or for its own time. Whether it took it.
fn ask_to_stop<R: Net + Eprint + AllocGlobal>(
    rt: &R,
    peer: Peer<'_>,
    drain: Option<u64>,
) -> io::Result<bool> {
    let Ok(command) = stop_command(rt.alloc(), drain) else {
        eprintln!(rt; "stickd: out of memory")?;
        return Ok(false);
    };
    match answer_in_time(rt, peer, command.as_bytes())? {
        Some(answer) if is_quiet(&answer) => Ok(true),
        Some(_words) => {
            let path = peer.path;
            eprintln!(rt; "stickd: {path} doesn't take 'stop'")?;
            Ok(false)
        }
        None => Ok(false),
    }
}

/// What comes on a connection until it ends, at most so many bytes. A connection that is reset has ended.
fn read_word(stream: &mut UnixStream, word: &mut [u8; MOST_BYTES]) -> io::Result<usize> {
    let mut count = 0usize;
    while count < MOST_BYTES {
        match stream.read(&mut word[count..]) {
            Ok(0) => return Ok(count),
            Ok(more) => count = count.saturating_add(more).min(MOST_BYTES),
            Err(reason) if reason.kind() == ErrorKind::ConnectionReset => return Ok(count),
            Err(reason) => return Err(reason),
        }
    }
    Ok(count)
}

/// What a connection shows on which nothing was said yet.
fn listen(stream: &mut UnixStream) -> io::Result<Seen> {
    let mut word = [0u8; MOST_BYTES];
    // A program that ends may have reset it before it read this.
    let _ = send(stream, b"");
    let count = read_word(stream, &mut word)?;
    match word.get(..count).and_then(read_last_word) {
        Some(word) => Ok(Seen::Said(word)),
        None => Ok(Seen::Runs),
    }
}

/// What an error of connecting, or of listening, shows.
fn seen_by(reason: &io::Error) -> Seen {
    if is_late(reason) {
        return Seen::Silent;
    }
    match reason.kind() {
        ErrorKind::NotFound => Seen::Gone,
        ErrorKind::ConnectionRefused => Seen::Dead,
        _ => Seen::Runs,
    }
}

/// Looks at a program's socket.
fn look_at<R: Net>(rt: &R, peer: Peer<'_>) -> Seen {
    let mut stream = match connect(rt, peer) {
        Ok(stream) => stream,
        Err(reason) => return seen_by(&reason),
    };
    match listen(&mut stream) {
        Ok(seen) => seen,
        Err(reason) => seen_by(&reason),
    }
}

/// How many ms are over since a moment.
pub(crate) fn ms_since<R: Clock>(rt: &R, began: Instant) -> io::Result<u64> {
    let waited = began.elapsed(rt)?;
    Ok(u64::try_from(waited.as_millis()).unwrap_or(u64::MAX))
}

/// Waits until a program has ended, for so many ms at most, or stands still.
fn wait_for<R: Net + Clock>(rt: &R, peer: Peer<'_>, most: u64) -> io::Result<AfterLook> {
    let began = Instant::now(rt)?;
    for _look in 0..u64::MAX {
        let seen = look_at(rt, peer);
        match after_look(seen, ms_since(rt, began)?, most) {
            AfterLook::LookAgain => thread::sleep(rt, Duration::from_millis(LOOK)),
            end => return Ok(end),
        }
    }
    Ok(AfterLook::GiveUp)
}

/// Says how a program ended that was asked to stop, or that it didn't, and answers the status.
fn report_end<R: Eprint>(rt: &R, asked: &Stop<'_>, end: AfterLook) -> io::Result<u8> {
    let Stop { path, patience, .. } = *asked;
    match end {
        AfterLook::Done => return Ok(DONE),
        AfterLook::NotSaved => {
            eprintln!(rt;
                "stickd: the program at {path} has stopped, and couldn't save its tables"
            )?;
        }
        AfterLook::Died => {
            eprintln!(rt; "stickd: the program at {path} ended, and not in order")?;
        }
        AfterLook::StandsStill => say_late(rt, asked.peer())?,
        AfterLook::LookAgain | AfterLook::GiveUp => {
            eprintln!(rt;
                "stickd: the program at {path} still runs, {patience} ms after its drain"
            )?;
        }
    }
    Ok(FAILED)
}

/// Asks a running stickd to stop, waits until it has ended, and answers the status: 0; 1 where nobody answers, or not in time, it
/// doesn't take the command, it is still there some time after the drain that was asked for, it couldn't save its tables, or it didn't
/// end in order. All that is said on standard error.
pub fn stop_running<R: Net + Clock + Eprint + AllocGlobal>(
    rt: &R,
    asked: &Stop<'_>,
) -> io::Result<u8> {
    let Stop {
        path,
        drain,
        patience,
    } = *asked;
    let Some(info) = answer_in_time(rt, asked.peer(), b"show info")? else {
        return Ok(FAILED);
    };
    if pid_of(&info).is_none() {
        eprintln!(rt; "stickd: {path} is no stats socket of stickd")?;
        return Ok(FAILED);
    }
    if !ask_to_stop(rt, asked.peer(), drain)? {
        return Ok(FAILED);
    }
    let end = wait_for(rt, asked.peer(), most_wait(drain, patience))?;
    report_end(rt, asked, end)
}
