//! How far something long has come, as a line on a terminal tells it, and when; `progress_line` shows it.

ghost use Rattle.std.specs.Prelude.{◌≡◌, ◌++◌, OnOk};
ghost use Rattle.stickd_ctl.specs.Progressing as spec;
ghost use Rattle.stickd_ctl.specs.Progressing.{done_text, line_text, rate_text, whole_text};

use base_lines::push_decimal;
use base_sequence::NoMemory;

/// How long something takes before the first line tells of it, in ms.
const FIRST: u64 = 1_000;

/// How many ms lie between two lines at least.
const PAUSE: u64 = 200;

/// The entries of something long that are done.
#[derive(Clone, Copy, Debug, PartialEq, Eq)]
pub struct Progress {
    pub entries: u64,
    /// How many there are in all, where that is known.
    pub whole: Option<u64>,
    /// How many ms they took.
    pub ms: u64,
}

/// Whether a line is due after so many ms, where the last one was shown after those, if one was.
pub fn is_due(ms: u64, last: Option<u64>) -> bool
    ensures { result ≡ spec.is_due ms last }
{
    match last {
        None => ms >= FIRST,
        Some(last) => ms.saturating_sub(last) >= PAUSE,
    }
}

/// How many entries were done a second. What took less than a ms counts as one.
fn rate_of(progress: Progress) -> u64
    ensures { result ≡ spec.rate_of progress }
{
    progress.entries.saturating_mul(1_000) / progress.ms.max(1)
}

/// Appends how many there are in all, where that is known, and no more are done.
fn push_whole(text: &mut Vec<u8>, entries: u64, whole: Option<u64>) -> Result<(), NoMemory>
    ensures { OnOk result (text.new.items ≡ text.old.items ++ whole_text entries whole) }
{
    let Some(whole) = whole else {
        return Ok(());
    };
    if whole < entries {
        return Ok(());
    }
    text.extend_from_slice(b" of ")?;
    push_decimal(text, whole)?;
    Ok(())
}

/// Appends what was done, from the line's beginning on.
fn push_done(text: &mut Vec<u8>, verb: &[u8], progress: Progress) -> Result<(), NoMemory>
    ensures { OnOk result (text.new.items ≡ text.old.items ++ done_text verb.now progress) }
{
    text.push(b'\r')?;
    text.extend_from_slice(verb)?;
    text.push(b' ')?;
    push_decimal(text, progress.entries)?;
    push_whole(text, progress.entries, progress.whole)?;
    Ok(())
}

/// Appends the rate, and what clears the rest of the line.
fn push_rate(text: &mut Vec<u8>, progress: Progress) -> Result<(), NoMemory>
    ensures { OnOk result (text.new.items ≡ text.old.items ++ rate_text progress) }
{
    text.extend_from_slice(b" entries, ")?;
    push_decimal(text, rate_of(progress))?;
    text.extend_from_slice(b" a second")?;
    text.extend_from_slice(b"\x1b[K")?;
    Ok(())
}

/// Appends the line that tells what was done, by a verb such as `listed`. On a terminal it stands where the line before stood.
pub fn push_progress(text: &mut Vec<u8>, verb: &[u8], progress: Progress) -> Result<(), NoMemory>
    ensures { OnOk result (text.new.items ≡ text.old.items ++ line_text verb.now progress) }
{
    push_done(text, verb, progress)?;
    push_rate(text, progress)?;
    Ok(())
}
