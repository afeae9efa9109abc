//! The bad lines of a script, their first numbers and their count; `noting` notes them, and `stickd` prints them.

ghost use Rattle.std.specs.Prelude.{◌≡◌, [], option_map};
ghost use Rattle.stickd_script.specs.BadLines.{is_bad, noted, with_bad};
ghost use Rattle.stickd_script.specs.Script.{line_of};

use crate::line::{Line, read_line};
use rule_addresses::read_address;
use std::marker::Model;

/// How many of them are kept by their numbers.
const KEPT: usize = 10;

/// The bad lines of a script: the numbers of the first ten, counted from 1, and how many there are. It takes no memory,
/// however many they are.
#[derive(Drop)]
pub struct BadLines {
    numbers: [u64; KEPT],
    count: u64,
}

impl Model for BadLines {
    ghost use Rattle.std.specs.Prelude.{take};
    ghost use Rattle.stickd_script.specs.BadLines.{Noted};

    ghost Value = { Noted };

    ghost view = { λ bad. record { first = take bad.count bad.numbers; count = bad.count } };
}

impl BadLines {
    /// None so far.
    pub fn new() -> BadLines
        ensures { result ≡ noted [] }
    {
        BadLines {
            numbers: [0; KEPT],
            count: 0,
        }
    }

    /// Notes the line of this number.
    #[tactic(auto, using(crate::proofs::NotingLemmas::number_not_kept))]
    pub(crate) fn add(&mut self, number: u64)
        ensures { self.new ≡ with_bad number self.old }
    {
        if self.count >= KEPT as u64 {
            self.count = self.count.saturating_add(1);
            return;
        }
        self.numbers[self.count as usize] = number;
        self.count += 1;
    }

    /// The numbers of the first ten, or of all where there are fewer, in order.
    pub fn first(&self) -> &[u64]
        ensures { result.now ≡ self.now.first }
    {
        let kept = self.count.min(KEPT as u64) as usize;
        &self.numbers[..kept]
    }

    /// How many there are; the count stops at 2^64 - 1.
    pub fn count(&self) -> u64
        ensures { result ≡ self.now.count }
    {
        self.count
    }
}

/// Whether a line is answered `bad line`.
pub(crate) fn is_bad_line(line: Option<&[u8]>) -> bool
    ensures { result ≡ is_bad (line_of (option_map (λ bytes. bytes.now) line.entry)) }
{
    match read_line(line) {
        Line::Bad => true,
        Line::Open { address, .. } => read_address(address).is_none(),
        Line::Empty | Line::Commands(..) | Line::Close { .. } => false,
    }
}
