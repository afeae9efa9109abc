//! Which sockets the service manager hands over, what each is for, and which can be served; `stickd` reads them of the environment as it
//! starts, and `tcp_proxy` takes them.

ghost use Rattle.std.specs.Prelude.{◌≡◌, ◌≤◌, ◌<◌, Err, IfOk};
ghost use Rattle.std.specs.Option.{option_map};
ghost use Rattle.tcp_watch.specs.Handed as spec;

use base_lines::{Parts, read_number};
use base_sequence::{NoMemory, Sequence};
use std::alloc::Global;
use thiserror::Error;

/// The first descriptor that is handed over: those below are standard input, output and error (sd_listen_fds(3)).
pub const FIRST_HANDED: u32 = 3;

/// How many sockets can be handed over.
pub const MOST_HANDED: u32 = 64;

/// The name of a socket of which none is told, as sd_listen_fds_with_names(3) has it.
const UNKNOWN: &[u8] = b"unknown";

/// What a socket is for that is handed over.
#[derive(Clone, Copy, Debug, PartialEq, Eq)]
pub enum Purpose {
    /// Clients of the proxy come in there.
    Clients,
    /// It is the command socket.
    Commands,
    /// It is a stats socket.
    Stats,
}

/// A socket that is handed over.
#[derive(Debug, Drop)]
pub struct HandedSocket {
    /// Its descriptor.
    pub number: u32,
    /// Its name (`FileDescriptorName=` in systemd.socket(5)).
    pub name: Sequence<u8>,
}

/// What the system says of a socket.
#[derive(Clone, Copy, Debug, PartialEq, Eq)]
pub struct SocketFacts {
    /// Whether it takes options of TCP (tcp(7)).
    pub is_tcp: bool,
    /// Whether it is a Unix socket (unix(7)).
    pub is_unix: bool,
    /// What can be done there at once, of reading (1) and writing (4), and what else is told (8, 16, 32), as poll(2) answers.
    pub events: u16,
}

/// Why a socket that is handed over can't be served.
#[derive(Clone, Copy, Debug, PartialEq, Eq, Error)]
pub enum Refusal {
    /// Clients come by TCP alone.
    #[error("it is no TCP socket")]
    NotTcp,
    /// Commands come by Unix sockets alone.
    #[error("it is no Unix socket")]
    NotUnix,
    /// Nobody can connect to it, or one client is connected to it.
    #[error("it doesn't listen")]
    NotListening,
    /// There is one command socket, and one stats socket that is handed over.
    #[error("another one of its name is served")]
    Second,
}

/// Why the sockets that are handed over can't be told.
#[derive(Clone, Copy, Debug, PartialEq, Eq, Error)]
pub enum HandedFault {
    /// They are more than can be served.
    #[error("{0} sockets are handed over, and at most 64 can be served")]
    TooMany(u64),
    /// There is no memory for their names.
    #[error("out of memory")]
    Memory,
}

impl From<NoMemory> for HandedFault {
    fn from(_refused: NoMemory) -> HandedFault {
        HandedFault::Memory
    }
}

/// What a socket of this name is for.
pub fn purpose_of(name: &[u8]) -> Purpose
    ensures { result ≡ spec.purpose_of name.now }
{
    if name == b"commands".as_slice() {
        return Purpose::Commands;
    }
    if name == b"stats".as_slice() {
        return Purpose::Stats;
    }
    Purpose::Clients
}

/// Whether two purposes are one.
fn same_purpose(one: Purpose, another: Purpose) -> bool
    ensures { result ≡ spec.same_purpose one another }
{
    matches!(
        (one, another),
        (Purpose::Clients, Purpose::Clients)
            | (Purpose::Commands, Purpose::Commands)
            | (Purpose::Stats, Purpose::Stats)
    )
}

impl HandedSocket {
    /// Whether it is for this.
    pub fn is_for(&self, purpose: Purpose) -> bool
        ensures { result ≡ spec.is_for purpose self.now }
    {
        same_purpose(purpose_of(self.name.as_slice()), purpose)
    }
}

/// The first of these sockets that is for this.
pub fn first_handed(sockets: &[HandedSocket], purpose: Purpose) -> Option<&HandedSocket>
    ensures { option_map (λ socket. socket.now) result ≡ spec.first_for purpose sockets.now }
{
    sockets.iter().find(|socket| socket.is_for(purpose))
}

/// Whether one of these sockets is for this.
pub fn has_handed(sockets: &[HandedSocket], purpose: Purpose) -> bool
    ensures { result ≡ spec.has purpose sockets.now }
{
    sockets.iter().any(|socket| socket.is_for(purpose))
}

impl SocketFacts {
    /// Whether it listens: then it never takes bytes, and is never hung up.
    fn is_listening(&self) -> bool
        ensures { result ≡ spec.is_listening self.now }
    {
        self.events == 0 || self.events == 1
    }

    /// Whether it has the kind that this purpose wants.
    fn has_kind(&self, purpose: Purpose) -> bool
        ensures { result ≡ spec.has_kind purpose self.now }
    {
        match purpose {
            Purpose::Clients => self.is_tcp,
            Purpose::Commands | Purpose::Stats => self.is_unix,
        }
    }
}

/// What is said of a socket of another kind than this purpose wants.
fn kind_wanted(purpose: Purpose) -> Refusal
    ensures { result ≡ spec.kind_wanted purpose }
{
    match purpose {
        Purpose::Clients => Refusal::NotTcp,
        Purpose::Commands | Purpose::Stats => Refusal::NotUnix,
    }
}

/// Whether a socket for this purpose isn't served, as one of those before it is.
fn is_second(before: &[HandedSocket], purpose: Purpose) -> bool
    ensures { result ≡ spec.is_second purpose before.now }
{
    match purpose {
        Purpose::Clients => false,
        Purpose::Commands | Purpose::Stats => has_handed(before, purpose),
    }
}

/// Why a socket after others can't be served for this purpose, where the system says this of it. None where it can.
pub fn refusal_of(before: &[HandedSocket], purpose: Purpose, facts: SocketFacts) -> Option<Refusal>
    ensures { result ≡ spec.refusal_of before.now purpose facts }
{
    if is_second(before, purpose) {
        return Some(Refusal::Second);
    }
    if !facts.has_kind(purpose) {
        return Some(kind_wanted(purpose));
    }
    if facts.is_listening() {
        return None;
    }
    Some(Refusal::NotListening)
}

/// The number that a text tells. None where none is told.
fn told_number(text: Option<&[u8]>) -> Option<u64>
    ensures { result ≡ spec.number_told (option_map (λ text. text.now) text.entry) }
{
    match text {
        Some(text) => read_number(text),
        None => None,
    }
}

/// How many sockets are handed over to the process of this number, by `LISTEN_PID` and `LISTEN_FDS`.
fn count_handed(process: Option<&[u8]>, count: Option<&[u8]>, own: u32) -> u64
    ensures { result ≡ spec.count_of (option_map (λ text. text.now) process.entry) (option_map (λ text. text.now) count.entry) own }
{
    match told_number(process) {
        Some(process) if process == u64::from(own) => told_number(count).unwrap_or(0),
        _ => 0,
    }
}

/// The next name.
fn next_name<'a>(names: &mut Parts<'a>) -> &'a [u8]
    ensures name { result.now ≡ spec.first_name names.old }
    ensures names { names.new ≡ spec.other_names names.old }
{
    match names.next() {
        Some(name) => name,
        None => UNKNOWN,
    }
}

/// So many sockets from the first on, by their names, which colons part.
fn name_sockets(alloc: Global, count: u32, names: &[u8]) -> Result<Sequence<HandedSocket>, NoMemory>
    requires { count ≤ MOST_HANDED }
    ensures { IfOk result (λ sockets. sockets ≡ spec.sockets_from 3 (spec.names_of names.now) count) }
{
    let mut sockets = Sequence::new(alloc);
    let mut names = Parts::new(names, b':');
    let mut number = FIRST_HANDED;
    let mut left = count;
    while left > 0 {
        let name = Sequence::from_slice(alloc, next_name(&mut names))?;
        sockets.push(HandedSocket { number, name })?;
        number += 1;
        left -= 1;
    }
    Ok(sockets)
}

/// What is handed over to the process of this number, by `LISTEN_PID`, `LISTEN_FDS` and `LISTEN_FDNAMES` (sd_listen_fds(3)).
pub fn read_handed(
    alloc: Global,
    process: Option<&[u8]>,
    count: Option<&[u8]>,
    names: Option<&[u8]>,
    own: u32,
) -> Result<Sequence<HandedSocket>, HandedFault>
    ensures sockets { IfOk result (λ sockets. sockets ≡ spec.sockets_of (spec.count_of (option_map (λ text. text.now) process.entry) (option_map (λ text. text.now) count.entry) own) (option_map (λ text. text.now) names.entry)) }
    ensures many { MOST_HANDED < spec.count_of (option_map (λ text. text.now) process.entry) (option_map (λ text. text.now) count.entry) own → result ≡ Err (HandedFault.TooMany (spec.count_of (option_map (λ text. text.now) process.entry) (option_map (λ text. text.now) count.entry) own)) }
{
    let count = count_handed(process, count, own);
    if count > u64::from(MOST_HANDED) {
        return Err(HandedFault::TooMany(count));
    }
    let sockets = name_sockets(alloc, count as u32, names.unwrap_or(UNKNOWN))?;
    Ok(sockets)
}
