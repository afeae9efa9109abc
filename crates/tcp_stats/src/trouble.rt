//! What went wrong between two moments, and what is said of it; the proxy's reporting says one line a second of each cause.

ghost use Rattle.std.specs.Prelude.{◌≡◌, ◌++◌, IfOk, OnOk};
ghost use Rattle.std.specs.List.{filter_map};
ghost use Rattle.tcp_stats.specs.Trouble.{last_text, trouble_of, trouble_text, troubles_between};

use crate::{Count, Counts};
use base_lines::push_decimal;
use base_sequence::{NoMemory, Sequence};
use std::alloc::Global;

/// A cause, and how often it came up.
#[derive(Clone, Copy, Debug, PartialEq, Eq)]
pub struct Trouble {
    /// The cause.
    pub count: Count,
    /// How often it came up, at least once.
    pub times: u64,
}

/// A count as a trouble, where it is one and has grown.
fn grown_trouble(
    count: Count,
    before: &Counts,
    now: &Counts,
    tells_rejected: bool,
) -> Option<Trouble>
    ensures { result ≡ trouble_of before.now now.now tells_rejected count }
{
    let earlier = before.get(count);
    let later = now.get(count);
    if !count.is_trouble(tells_rejected) || later <= earlier {
        return None;
    }
    Some(Trouble {
        count,
        times: later - earlier,
    })
}

/// Those of the counts that are troubles and have grown.
fn troubles_among(
    alloc: Global,
    counts: &[Count],
    before: &Counts,
    now: &Counts,
    tells_rejected: bool,
) -> Result<Sequence<Trouble>, NoMemory>
    ensures { IfOk result (λ list. list ≡ filter_map (trouble_of before.now now.now tells_rejected) counts.now) }
{
    let mut list = Sequence::new(alloc);
    for count in counts {
        let Some(grown) = grown_trouble(*count, before, now, tells_rejected) else {
            continue;
        };
        list.push(grown)?;
    }
    Ok(list)
}

/// What went wrong between two moments, in the order of counts. Rejections count as such where that is asked.
pub fn troubles(
    alloc: Global,
    before: &Counts,
    now: &Counts,
    tells_rejected: bool,
) -> Result<Sequence<Trouble>, NoMemory>
    ensures { IfOk result (λ list. list ≡ troubles_between before.now now.now tells_rejected) }
{
    troubles_among(alloc, &Count::ALL, before, now, tells_rejected)
}

/// Appends what is known of the last time, where something is known.
fn push_last(text: &mut Vec<u8>, last: &[u8]) -> Result<(), NoMemory>
    ensures { OnOk result (text.new.items ≡ text.old.items ++ last_text last.now) }
{
    if last.is_empty() {
        return Ok(());
    }
    text.extend_from_slice(b"; last ")?;
    text.extend_from_slice(last)?;
    Ok(())
}

/// Appends a trouble: how often it came up, its words, and what is known of the last time. That is one line without its
/// end.
pub fn push_trouble(text: &mut Vec<u8>, trouble: Trouble, last: &[u8]) -> Result<(), NoMemory>
    ensures { OnOk result (text.new.items ≡ text.old.items ++ trouble_text trouble last.now) }
{
    push_decimal(text, trouble.times)?;
    text.extend_from_slice(b" ")?;
    text.extend_from_slice(trouble.count.words().as_bytes())?;
    push_last(text, last)?;
    Ok(())
}
