//! `stickd reload`: a running stickd is asked to read its rules again, and says what came of it; `stickd` calls `reload_running`.

ghost use Rattle.std.specs.Prelude.{◌≡◌};
ghost use Rattle.stickd_ctl.specs.Reloading as spec;

use crate::client::{DONE, FAILED, Peer, answer_in_time};
use crate::lines::split_at_first;
use std::net::Net;
use std::{io, str};

/// How the answer begins of a program that has read its rules again.
const RELOADED: &[u8] = b"Reloaded: ";

/// How the answer begins of a socket that doesn't know the command.
const UNKNOWN: &[u8] = b"Unknown command";

/// What `stickd reload` is asked.
#[derive(Clone, Copy, Drop)]
pub struct Reload<'a> {
    /// The stats socket of the program whose rules are read again.
    pub path: &'a str,
    /// How long it may say nothing, in ms.
    pub patience: u64,
}

/// What a program's answer says that was asked to read its rules again.
#[derive(Clone, Copy, Debug, PartialEq, Eq)]
pub enum Outcome {
    /// It judges by the new rules.
    Reloaded,
    /// It says why it goes on by the old ones.
    Refused,
    /// It doesn't know the command, or says nothing of it.
    NotTaken,
}

/// What an answer says: its first line.
pub fn said_by(answer: &[u8]) -> &[u8]
    ensures { result.now ≡ spec.said_by answer.now }
{
    let (said, _rest) = split_at_first(answer, b'\n');
    said
}

/// What came of the wish that rules be read again, by what was said.
pub fn outcome_of(said: &[u8]) -> Outcome
    ensures { result ≡ spec.outcome_of said.now }
{
    if said.is_empty() || said.starts_with(UNKNOWN) {
        return Outcome::NotTaken;
    }
    if said.starts_with(RELOADED) {
        return Outcome::Reloaded;
    }
    Outcome::Refused
}

/// Asks a running stickd to read its rules again, and answers the status: 0 where it did, and what it says stands on standard output; 1
/// where it goes on by the old ones, it doesn't take the command, or nobody answers, or not in time, which is said on standard error.
pub fn reload_running<R: Net + Print + Eprint + AllocGlobal>(
    rt: &R,
    asked: &Reload<'_>,
) -> io::Result<u8> {
    let Reload { path, patience } = *asked;
    let Some(answer) = answer_in_time(rt, Peer { path, patience }, b"reload")? else {
        return Ok(FAILED);
    };
    let said = said_by(&answer);
    // What a program says of its rules is UTF-8, as all words of its command line are.
    let shown = str::from_utf8(said).unwrap_or("?");
    match outcome_of(said) {
        Outcome::Reloaded => {
            println!(rt; "{shown}")?;
            return Ok(DONE);
        }
        Outcome::Refused => eprintln!(rt; "stickd: {shown}")?,
        Outcome::NotTaken => eprintln!(rt; "stickd: {path} doesn't take 'reload'")?,
    }
    Ok(FAILED)
}
