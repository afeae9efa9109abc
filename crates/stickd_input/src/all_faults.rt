//! All faults of a configuration.

ghost use Rattle.std.specs.Prelude.{◌≡◌, length};
ghost use Rattle.rule_words.specs.Lines.{lines_of};
ghost use Rattle.stickd_input.specs.Faults.{Finds, blanked, faults_of};

use base_sequence::Sequence;
use rule_config::{ConfigFault, read_config};
use rule_model::ReadError;
use rule_words::Lines;
use std::alloc::Global;

/// The faults that were found of a configuration.
#[derive(Drop)]
pub struct Found {
    /// In the order in which they were found.
    pub faults: Sequence<ConfigFault>,
    /// The line in hand as memory was short. None where all faults were found.
    pub short: Option<u64>,
}

/// How many lines a text has.
fn count_lines(text: &[u8]) -> usize
    ensures { result ≡ length (lines_of text.now) }
{
    let mut lines = Lines::new(text);
    let mut count = 0;
    while lines.next().is_some() {
        count += 1;
    }
    count
}

/// Makes the line of this number, from 1, blank: each of its bytes a space.
#[tactic(auto, unfolding(crate::specs::Faults::blanked))]
fn blank_line(text: &mut Vec<u8>, number: u64)
    ensures { text.new.items ≡ blanked number text.old.items }
{
    let mut others = number.saturating_sub(1);
    for place in 0..text.len() {
        if text[place] == b'\n' {
            if others == 0 {
                return;
            }
            others -= 1;
        } else if others == 0 {
            text[place] = b' ';
        }
    }
}

/// Finds all faults of a text. The line of each is made blank, so that reading the text again gives the next one.
#[tactic(auto, unfolding(crate::specs::Faults::first_faults))]
pub(crate) fn find_faults(alloc: Global, text: &mut Vec<u8>) -> Found
    ensures { Finds (faults_of text.old.items) result }
{
    let mut left = count_lines(text.as_slice());
    let mut faults = Sequence::new(alloc);
    while left > 0 {
        let Err(fault) = read_config(alloc, text.as_slice()) else {
            return Found {
                faults,
                short: None,
            };
        };
        let short = Some(fault.line);
        let ReadError::Wrong(_kind) = fault.kind else {
            return Found { faults, short };
        };
        if faults.push(fault).is_err() {
            return Found { faults, short };
        }
        blank_line(text, fault.line);
        left -= 1;
    }
    Found {
        faults,
        short: None,
    }
}
