//! Which signals that ask the program to stop wait to be delivered; `process_status` reads what it is told by.

ghost use Rattle.std.specs.Prelude.{◌≡◌};
ghost use Rattle.base_lines.specs.Words.{is_blank, words};
ghost use Rattle.base_lines.specs.declared.words.Blanks.TheVariants.{SpacesAndTabs};
ghost use Rattle.tcp_watch.specs.Pending as spec;
ghost use Rattle.base_lines.specs.Parts.{parts, is_line_end};

use base_lines::{Blanks, Parts, Words};

/// What SIGINT is worth in a set of signals: signal n is bit n - 1, and it is signal 2 (signal(7)).
const INTERRUPT: u64 = 1 << 1;

/// What SIGTERM is worth: it is signal 15.
const TERMINATE: u64 = 1 << 14;

/// The number with one more hexadecimal digit behind it. None for another byte, and where that doesn't fit.
fn with_hex_digit(number: u64, byte: u8) -> Option<u64>
    ensures { result ≡ spec.with_hex_digit number byte }
{
    let digit = char::from(byte).to_digit(16)?;
    number.checked_mul(16)?.checked_add(u64::from(digit))
}

/// The number that hexadecimal digits write.
fn read_hex(text: &[u8]) -> Option<u64>
    ensures { result ≡ spec.hex_number text.now }
{
    let mut number = 0;
    for byte in text {
        number = with_hex_digit(number, *byte)?;
    }
    Some(number)
}

/// A signal that asks the program to stop.
#[derive(Clone, Copy, Debug, PartialEq, Eq)]
pub enum StopSignal {
    /// SIGINT, as Ctrl-C sends it.
    Interrupt,
    /// SIGTERM, as `kill` sends it, and `docker stop`.
    Terminate,
}

impl StopSignal {
    /// Whether a set of signals has it.
    fn is_in(self, signals: u64) -> bool
        ensures { result ≡ spec.is_in self signals }
    {
        match self {
            StopSignal::Interrupt => signals / INTERRUPT % 2 == 1,
            StopSignal::Terminate => signals / TERMINATE % 2 == 1,
        }
    }
}

/// Which sets of signals a status has (proc_pid_status(5)).
#[derive(Clone, Copy)]
enum Signals {
    /// Those that wait to be delivered, to the thread or to the process.
    Pending,
    /// Those that are held back.
    Blocked,
}

impl Signals {
    /// Whether a line of this name tells them.
    fn are_named(self, name: &[u8]) -> bool
        ensures { result ≡ spec.are_named self name.now }
    {
        match self {
            Signals::Pending => name == b"SigPnd:".as_slice() || name == b"ShdPnd:".as_slice(),
            Signals::Blocked => name == b"SigBlk:".as_slice(),
        }
    }
}

/// Whether a line tells such signals, and has this one.
fn tells_stop(signals: Signals, stop: StopSignal, line: &[u8]) -> bool
    ensures { result ≡ spec.tells_stop signals stop (words (is_blank SpacesAndTabs) line.now) }
{
    let mut words = Words::new(line, Blanks::SpacesAndTabs);
    let (Some(name), Some(digits)) = (words.next(), words.next()) else {
        return false;
    };
    if !signals.are_named(name) {
        return false;
    }
    match read_hex(digits) {
        Some(signals) => stop.is_in(signals),
        None => false,
    }
}

/// Whether a status says of this signal that it is among those.
fn has_stop(signals: Signals, stop: StopSignal, status: &[u8]) -> bool
    ensures { result ≡ spec.has_stop signals stop (parts is_line_end status.now) }
{
    let mut lines = Parts::new(status, b'\n');
    while let Some(line) = lines.next() {
        if tells_stop(signals, stop, line) {
            return true;
        }
    }
    false
}

/// How many of SIGINT and SIGTERM wait to be delivered, by what `/proc/self/status` has: 0, 1 or 2. A signal waits as long as it is
/// blocked; one that isn't blocked has ended the program before it could ask. That one came twice isn't told (signal(7)).
pub fn count_pending(status: &[u8]) -> u32
    ensures { result ≡ spec.count_pending status.now }
{
    u32::from(has_stop(Signals::Pending, StopSignal::Interrupt, status))
        + u32::from(has_stop(Signals::Pending, StopSignal::Terminate, status))
}

/// Whether a signal is blocked, so that it can wait.
pub fn is_blocked(stop: StopSignal, status: &[u8]) -> bool
    ensures { result ≡ spec.is_blocked stop status.now }
{
    has_stop(Signals::Blocked, stop, status)
}
