//! A name in a line of values with commas between (RFC 4180); `value` prints by it.

ghost use Rattle.std.specs.Prelude.{◌≡◌, ◌++◌, OnOk};
ghost use Rattle.std.specs.List.{flat_map, list_any};
ghost use Rattle.tcp_stats.specs.Csv as spec;
ghost use Rattle.tcp_stats.specs.Csv.{csv_text, quoted_byte};

use base_sequence::NoMemory;

/// Whether a byte can stand in a name between quotes alone.
fn is_special(byte: u8) -> bool
    ensures { result ≡ spec.is_special byte }
{
    byte == b',' || byte == b'"' || byte == b'\n' || byte == b'\r'
}

/// Whether a name has such a byte.
fn has_special(name: &[u8]) -> bool
    ensures { result ≡ list_any spec.is_special name.now }
{
    name.iter().any(|byte| is_special(*byte))
}

/// Appends what stands between the quotes: a quote is written twice.
fn push_quoted(text: &mut Vec<u8>, name: &[u8]) -> Result<(), NoMemory>
    ensures { OnOk result (text.new.items ≡ text.old.items ++ flat_map quoted_byte name.now) }
{
    for byte in name {
        if *byte == b'"' {
            text.extend_from_slice(b"\"\"")?;
            continue;
        }
        text.push(*byte)?;
    }
    Ok(())
}

/// Appends a name, between quotes where it has to be.
pub(crate) fn push_csv(text: &mut Vec<u8>, name: &[u8]) -> Result<(), NoMemory>
    ensures { OnOk result (text.new.items ≡ text.old.items ++ csv_text name.now) }
{
    if !has_special(name) {
        text.extend_from_slice(name)?;
        return Ok(());
    }
    text.push(b'"')?;
    push_quoted(text, name)?;
    text.push(b'"')?;
    Ok(())
}
