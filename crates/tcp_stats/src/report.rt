//! What the program says of itself in one line; `--report`, the status for systemd and the program's end say it.

ghost use Rattle.std.specs.Prelude.{◌≡◌, ◌++◌, OnOk};
ghost use Rattle.std.specs.List.{flat_map};
ghost use Rattle.tcp_stats.specs.Report as spec;
ghost use Rattle.tcp_stats.specs.Report.{count_item, report_text, start_text, state_text, table_item, table_part};

use crate::{Count, Snapshot, TableFacts};
use base_lines::push_decimal;
use base_sequence::NoMemory;

/// Appends a count with its words, if there was one or it is told always.
#[tactic(auto, unfolding(crate::specs::Report::count_item))]
fn push_count(text: &mut Vec<u8>, count: Count, now: &Snapshot<'_>) -> Result<(), NoMemory>
    ensures { OnOk result (text.new.items ≡ text.old.items ++ count_item now.now count) }
{
    let number = now.counts.get(count);
    if !is_told(count, number) {
        return Ok(());
    }
    text.extend_from_slice(b", ")?;
    push_decimal(text, number)?;
    text.extend_from_slice(b" ")?;
    text.extend_from_slice(count.words().as_bytes())?;
    Ok(())
}

/// Whether a count of this number is told.
fn is_told(count: Count, number: u64) -> bool
    ensures { result ≡ spec.is_told count number }
{
    count.is_always_told() || number > 0
}

/// Appends counts.
fn push_counts(text: &mut Vec<u8>, counts: &[Count], now: &Snapshot<'_>) -> Result<(), NoMemory>
    ensures { OnOk result (text.new.items ≡ text.old.items ++ flat_map (count_item now.now) counts.now) }
{
    for count in counts {
        push_count(text, *count, now)?;
    }
    Ok(())
}

/// Appends a number of a table with its words, if there is one.
#[tactic(auto, unfolding(crate::specs::Report::table_part))]
fn push_table_part(text: &mut Vec<u8>, number: u64, words: &[u8]) -> Result<(), NoMemory>
    ensures { OnOk result (text.new.items ≡ text.old.items ++ table_part number words.now) }
{
    if number == 0 {
        return Ok(());
    }
    text.extend_from_slice(b", ")?;
    push_decimal(text, number)?;
    text.extend_from_slice(b" ")?;
    text.extend_from_slice(words)?;
    Ok(())
}

/// Appends what a table has.
#[tactic(auto, unfolding(crate::specs::Report::table_item))]
fn push_table(text: &mut Vec<u8>, table: &TableFacts<'_>) -> Result<(), NoMemory>
    ensures { OnOk result (text.new.items ≡ text.old.items ++ table_item table.now) }
{
    text.extend_from_slice(b"; ")?;
    text.extend_from_slice(table.name.as_bytes())?;
    text.extend_from_slice(b": ")?;
    push_decimal(text, table.used)?;
    text.extend_from_slice(b" of ")?;
    push_decimal(text, table.size)?;
    text.extend_from_slice(b" entries")?;
    push_table_part(text, table.references, b"references out")?;
    push_table_part(text, table.purged, b"purged")?;
    Ok(())
}

/// Appends what each table has.
fn push_tables(text: &mut Vec<u8>, tables: &[TableFacts<'_>]) -> Result<(), NoMemory>
    ensures { OnOk result (text.new.items ≡ text.old.items ++ flat_map table_item tables.now) }
{
    for table in tables {
        push_table(text, table)?;
    }
    Ok(())
}

/// What a report says first of a program that takes no new clients.
fn state_words(is_draining: bool) -> &'static str
    ensures { result.now ≡ state_text is_draining }
{
    if is_draining { "draining, " } else { "" }
}

/// Appends how many connections are open, and how many were at most.
fn push_start(text: &mut Vec<u8>, now: &Snapshot<'_>) -> Result<(), NoMemory>
    ensures { OnOk result (text.new.items ≡ text.old.items ++ start_text now.now) }
{
    text.extend_from_slice(state_words(now.is_draining).as_bytes())?;
    push_decimal(text, now.open)?;
    text.extend_from_slice(b" open, ")?;
    push_decimal(text, now.most)?;
    text.extend_from_slice(b" at most")?;
    Ok(())
}

/// Appends the report: one line without its end. It tells the connections that are open, each count that is not 0 or is
/// told always, and each table.
pub fn push_report(text: &mut Vec<u8>, now: &Snapshot<'_>) -> Result<(), NoMemory>
    ensures { OnOk result (text.new.items ≡ text.old.items ++ report_text now.now) }
{
    push_start(text, now)?;
    push_counts(text, &Count::ALL, now)?;
    push_tables(text, now.tables)?;
    Ok(())
}
