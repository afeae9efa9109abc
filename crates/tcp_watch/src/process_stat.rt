//! What the system says of the process in one line (proc_pid_stat(5)), read; `process_facts` asks the system for it.

ghost use Rattle.std.specs.Prelude.{◌≡◌, ◌≤◌, []};
ghost use Rattle.base_lines.specs.Parts.{parts, is_byte};
ghost use Rattle.base_lines.specs.Words.{words_left};
ghost use Rattle.tcp_watch.specs.ProcessStats as spec;

use base_lines::{Blanks, Parts, Words, read_number};

/// The places of its words after the program's name, from 0.
const USER_TICKS: usize = 11;

const SYSTEM_TICKS: usize = 12;

const VIRTUAL_BYTES: usize = 20;

const RESIDENT_PAGES: usize = 21;

/// What such a line says. None of each that isn't there.
#[derive(Clone, Copy, Debug, PartialEq, Eq)]
pub struct ProcessStat {
    /// The processor time that its program has used, in ticks of the system.
    pub user_ticks: Option<u64>,
    /// That which the system has used for it.
    pub system_ticks: Option<u64>,
    /// The memory that it has addresses for.
    pub virtual_bytes: Option<u64>,
    /// The pages that it has in use.
    pub resident_pages: Option<u64>,
}

/// What follows the name, which is in round brackets and may have such itself.
fn behind_name(line: &[u8]) -> &[u8]
    ensures { result.now ≡ spec.last_or [] (parts (is_byte 41) line.now) }
{
    let mut last: &[u8] = b"";
    let mut parts = Parts::new(line, b')');
    while let Some(part) = parts.next() {
        last = part;
    }
    last
}

/// The number that follows so many words.
fn number_behind(mut words: Words<'_>, count: usize) -> Option<u64>
    ensures { result ≡ spec.number_behind count (words_left words.entry) }
{
    let mut left = count;
    while left > 0 {
        let Some(_word) = words.next() else {
            return None;
        };
        left -= 1;
    }
    match words.next() {
        Some(word) => read_number(word),
        None => None,
    }
}

/// The number that follows so many words of a line.
fn number_in(line: &[u8], count: usize) -> Option<u64>
    ensures { result ≡ spec.number_behind count (spec.words_of line.now) }
{
    number_behind(Words::new(behind_name(line), Blanks::Spaces), count)
}

/// What a line says of a process.
pub fn read_stat(line: &[u8]) -> ProcessStat
    ensures { result ≡ spec.stat_of line.now }
{
    ProcessStat {
        user_ticks: number_in(line, USER_TICKS),
        system_ticks: number_in(line, SYSTEM_TICKS),
        virtual_bytes: number_in(line, VIRTUAL_BYTES),
        resident_pages: number_in(line, RESIDENT_PAGES),
    }
}

/// Ticks of which a second has so many, in ms.
pub fn ms_of(ticks: u64, per_second: u64) -> u64
    requires { 1 ≤ per_second }
    ensures { result ≡ spec.ms_of ticks per_second }
{
    let ms = u128::from(ticks) * 1_000 / u128::from(per_second);
    ms.min(u128::from(u64::MAX)) as u64
}
