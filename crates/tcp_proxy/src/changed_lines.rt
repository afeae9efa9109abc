//! The lines that changed as rules were renewed; `reloading` has them told.

use log::{Log, info, warn};
use rule_difference::{line_at, lines_beyond};
use std::alloc::Global;
use std::str;

/// How many lines are told each way at most: lists may change in thousands.
const MOST_LINES: usize = 20;

/// Up to how many bytes two texts are compared: each line is with each.
const MOST_BYTES: usize = 32_768;

/// Tells the lines of a text that say what no line of another says, each with its number and what became of it.
fn tell_lines<R: Log>(alloc: Global, rt: &R, text: &[u8], other: &[u8], became: &str) {
    let Ok(numbers) = lines_beyond(alloc, text, other) else {
        warn!(rt; "there is no memory to tell which lines changed");
        return;
    };
    for number in numbers.as_slice().iter().take(MOST_LINES) {
        let line = line_at(text, *number).trim_ascii();
        let line = str::from_utf8(line).unwrap_or("?");
        info!(rt; "line {number} {became}: {line}");
    }
    let others = numbers.len().saturating_sub(MOST_LINES);
    if others > 0 {
        info!(rt; "{others} lines more of which that is so");
    }
}

/// Tells what changed from one text to the next: the lines that are gone, with their numbers there, and those that are new.
pub(crate) fn tell_changes<R: Log>(alloc: Global, rt: &R, former: &[u8], next: &[u8]) {
    if former.len() > MOST_BYTES || next.len() > MOST_BYTES {
        info!(rt; "which lines changed isn't told of more than {MOST_BYTES} bytes");
        return;
    }
    tell_lines(alloc, rt, former, next, "is gone");
    tell_lines(alloc, rt, next, former, "is new");
}
