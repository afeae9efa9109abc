//! The header of a listing; `answer_text` puts it before rows, and `table_cli` prints those of all tables.

ghost use Rattle.std.specs.Prelude.{◌≡◌, ◌++◌, OnOk};
ghost use Rattle.table_texts.specs.Text as spec;
ghost use Rattle.table_texts.specs.Text.{header_text};

use base_lines::push_decimal;
use base_sequence::NoMemory;
use stick_key::KeyType;

/// The word for a kind of key (HAProxy Configuration Manual 2.8, `stick-table type`).
pub fn kind_word(kind: KeyType) -> &'static str
    ensures { result.now ≡ spec.kind_word kind }
{
    match kind {
        KeyType::Ip => "ip",
        KeyType::Ipv6 => "ipv6",
        KeyType::Integer => "integer",
        KeyType::Text(_) => "string",
        KeyType::Binary(_) => "binary",
    }
}

/// Appends a table's header: its name, what its keys are, its whole size and how many entries it has.
pub fn push_header(
    text: &mut Vec<u8>,
    table: &[u8],
    kind: KeyType,
    size: u64,
    used: u64,
) -> Result<(), NoMemory>
    ensures { OnOk result (text.new.items ≡ text.old.items ++ header_text table.now kind size used) }
{
    text.extend_from_slice(b"# table: ")?;
    text.extend_from_slice(table)?;
    text.extend_from_slice(b", type: ")?;
    text.extend_from_slice(kind_word(kind).as_bytes())?;
    text.extend_from_slice(b", size:")?;
    push_decimal(text, size)?;
    text.extend_from_slice(b", used:")?;
    push_decimal(text, used)?;
    text.extend_from_slice(b"\n")?;
    Ok(())
}
