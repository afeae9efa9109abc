//! The metrics in Prometheus' text format 0.0.4; the metrics' listener answers with them.

ghost use Rattle.std.specs.Prelude.{◌≡◌, ◌++◌, OnOk, option_map};
ghost use Rattle.std.specs.List.{flat_map};
ghost use Rattle.tcp_stats.specs.Metrics as spec;
ghost use Rattle.tcp_stats.specs.Metrics.{build_text, comment_text, counter_text, head_if, head_text, label_byte, label_text, labelled_text, metrics_text, reading_text, sample_text, table_sample, table_text};

use crate::readings::{Reading, TableReading};
use crate::{Count, Snapshot, TableFacts};
use base_lines::push_decimal;
use base_sequence::NoMemory;

/// Appends a label's value, in which a backslash, a quote and a line's end are escaped.
fn push_label(text: &mut Vec<u8>, value: &[u8]) -> Result<(), NoMemory>
    ensures { OnOk result (text.new.items ≡ text.old.items ++ label_text value.now) }
{
    for byte in value {
        push_label_byte(text, *byte)?;
    }
    Ok(())
}

fn push_label_byte(text: &mut Vec<u8>, byte: u8) -> Result<(), NoMemory>
    ensures { OnOk result (text.new.items ≡ text.old.items ++ label_byte byte) }
{
    if byte == b'\\' {
        text.extend_from_slice(b"\\\\")?;
        return Ok(());
    }
    if byte == b'"' {
        text.extend_from_slice(b"\\\"")?;
        return Ok(());
    }
    if byte == b'\n' {
        text.extend_from_slice(b"\\n")?;
        return Ok(());
    }
    text.push(byte)?;
    Ok(())
}

/// Appends a line that says something of a metric.
#[tactic(auto, unfolding(crate::specs::Metrics::comment_text))]
fn push_comment(
    text: &mut Vec<u8>,
    keyword: &[u8],
    name: &[u8],
    said: &[u8],
) -> Result<(), NoMemory>
    ensures { OnOk result (text.new.items ≡ text.old.items ++ comment_text keyword.now name.now said.now) }
{
    text.extend_from_slice(b"# ")?;
    text.extend_from_slice(keyword)?;
    text.push(b' ')?;
    text.extend_from_slice(name)?;
    text.push(b' ')?;
    text.extend_from_slice(said)?;
    text.push(b'\n')?;
    Ok(())
}

/// Appends what stands in front of a metric's samples: what it is, and its type.
#[tactic(auto, unfolding(crate::specs::Metrics::head_text))]
pub(crate) fn push_head(
    text: &mut Vec<u8>,
    name: &[u8],
    help: &[u8],
    kind: &[u8],
) -> Result<(), NoMemory>
    ensures { OnOk result (text.new.items ≡ text.old.items ++ head_text name.now help.now kind.now) }
{
    push_comment(text, b"HELP", name, help)?;
    push_comment(text, b"TYPE", name, kind)?;
    Ok(())
}

/// Appends a sample with one label.
#[tactic(auto, unfolding(crate::specs::Metrics::labelled_text))]
fn push_labelled(
    text: &mut Vec<u8>,
    name: &[u8],
    label: &[u8],
    value: &[u8],
    number: u64,
) -> Result<(), NoMemory>
    ensures { OnOk result (text.new.items ≡ text.old.items ++ labelled_text name.now label.now value.now number) }
{
    text.extend_from_slice(name)?;
    text.push(b'{')?;
    text.extend_from_slice(label)?;
    text.extend_from_slice(b"=\"")?;
    push_label(text, value)?;
    text.extend_from_slice(b"\"} ")?;
    push_decimal(text, number)?;
    text.push(b'\n')?;
    Ok(())
}

/// Appends a sample: the metric's name with its labels, and a value.
#[tactic(auto, unfolding(crate::specs::Metrics::sample_text))]
fn push_sample(text: &mut Vec<u8>, name: &[u8], labels: &[u8], value: u64) -> Result<(), NoMemory>
    ensures { OnOk result (text.new.items ≡ text.old.items ++ sample_text name.now labels.now value) }
{
    text.extend_from_slice(name)?;
    text.extend_from_slice(labels)?;
    text.push(b' ')?;
    push_decimal(text, value)?;
    text.push(b'\n')?;
    Ok(())
}

/// Appends the head of a count's metric, where the count is its first.
fn push_head_if(text: &mut Vec<u8>, name: &[u8], help: Option<&'static str>) -> Result<(), NoMemory>
    ensures { OnOk result (text.new.items ≡ text.old.items ++ head_if name.now (option_map (λ text. text.now) help.entry)) }
{
    match help {
        Some(help) => push_head(text, name, help.as_bytes(), b"counter"),
        None => Ok(()),
    }
}

/// Appends a count's sample, behind the head of its metric where the count is its first.
#[tactic(auto, unfolding(crate::specs::Metrics::counter_text))]
fn push_counter(text: &mut Vec<u8>, count: Count, now: &Snapshot<'_>) -> Result<(), NoMemory>
    ensures { OnOk result (text.new.items ≡ text.old.items ++ counter_text now.now count) }
{
    push_head_if(text, count.metric().as_bytes(), count.help())?;
    push_sample(
        text,
        count.metric().as_bytes(),
        count.labels().as_bytes(),
        now.counts.get(count),
    )?;
    Ok(())
}

/// Appends the samples of counts.
fn push_counters(text: &mut Vec<u8>, counts: &[Count], now: &Snapshot<'_>) -> Result<(), NoMemory>
    ensures { OnOk result (text.new.items ≡ text.old.items ++ flat_map (counter_text now.now) counts.now) }
{
    for count in counts {
        push_counter(text, *count, now)?;
    }
    Ok(())
}

/// Appends a reading: its head and its sample.
#[tactic(auto, unfolding(crate::specs::Metrics::reading_text))]
fn push_reading(text: &mut Vec<u8>, reading: Reading, now: &Snapshot<'_>) -> Result<(), NoMemory>
    ensures { OnOk result (text.new.items ≡ text.old.items ++ reading_text now.now reading) }
{
    let (name, help) = reading.names();
    push_head(text, name.as_bytes(), help.as_bytes(), b"gauge")?;
    push_sample(text, name.as_bytes(), b"", reading.value(now))?;
    Ok(())
}

/// Appends readings.
fn push_readings(
    text: &mut Vec<u8>,
    readings: &[Reading],
    now: &Snapshot<'_>,
) -> Result<(), NoMemory>
    ensures { OnOk result (text.new.items ≡ text.old.items ++ flat_map (reading_text now.now) readings.now) }
{
    for reading in readings {
        push_reading(text, *reading, now)?;
    }
    Ok(())
}

/// Appends a reading's sample of a table.
#[tactic(auto, unfolding(crate::specs::Metrics::table_sample))]
fn push_table_sample(
    text: &mut Vec<u8>,
    reading: TableReading,
    name: &[u8],
    table: &TableFacts<'_>,
) -> Result<(), NoMemory>
    ensures { OnOk result (text.new.items ≡ text.old.items ++ table_sample reading name.now table.now) }
{
    push_labelled(
        text,
        name,
        b"table",
        table.name.as_bytes(),
        reading.value(table),
    )
}

/// Appends a reading's samples of tables.
fn push_table_samples(
    text: &mut Vec<u8>,
    reading: TableReading,
    name: &[u8],
    tables: &[TableFacts<'_>],
) -> Result<(), NoMemory>
    ensures { OnOk result (text.new.items ≡ text.old.items ++ flat_map (table_sample reading name.now) tables.now) }
{
    for table in tables {
        push_table_sample(text, reading, name, table)?;
    }
    Ok(())
}

/// Appends a reading of all tables: its head, and a sample of each.
#[tactic(auto, unfolding(crate::specs::Metrics::table_text))]
fn push_table_reading(
    text: &mut Vec<u8>,
    reading: TableReading,
    tables: &[TableFacts<'_>],
) -> Result<(), NoMemory>
    ensures { OnOk result (text.new.items ≡ text.old.items ++ table_text tables.now reading) }
{
    let (name, help, kind) = reading.names();
    push_head(text, name.as_bytes(), help.as_bytes(), kind.as_bytes())?;
    push_table_samples(text, reading, name.as_bytes(), tables)?;
    Ok(())
}

/// Appends the readings of all tables.
fn push_table_readings(
    text: &mut Vec<u8>,
    readings: &[TableReading],
    tables: &[TableFacts<'_>],
) -> Result<(), NoMemory>
    ensures { OnOk result (text.new.items ≡ text.old.items ++ flat_map (table_text tables.now) readings.now) }
{
    for reading in readings {
        push_table_reading(text, *reading, tables)?;
    }
    Ok(())
}

/// Appends which version runs: a sample whose value is always 1.
#[tactic(auto, unfolding(crate::specs::Metrics::build_text))]
fn push_build(text: &mut Vec<u8>, version: &[u8]) -> Result<(), NoMemory>
    ensures { OnOk result (text.new.items ≡ text.old.items ++ build_text version.now) }
{
    push_head(
        text,
        b"stickd_build_info",
        b"The version that runs.",
        b"gauge",
    )?;
    push_labelled(text, b"stickd_build_info", b"version", version, 1)?;
    Ok(())
}

/// Appends the metrics: the version, the readings, the counts, and the readings of each table.
pub fn push_metrics(text: &mut Vec<u8>, now: &Snapshot<'_>) -> Result<(), NoMemory>
    ensures { OnOk result (text.new.items ≡ text.old.items ++ metrics_text now.now) }
{
    push_build(text, now.version.as_bytes())?;
    push_readings(text, &Reading::ALL, now)?;
    push_counters(text, &Count::ALL, now)?;
    push_table_readings(text, &TableReading::ALL, now.tables)?;
    Ok(())
}
