//! Whether a word is a name, as of a section, a server or an ACL; `rule_config` asks it.

ghost use Rattle.std.specs.Prelude.{◌≡◌};
ghost use Rattle.std.specs.List.{list_all};
ghost use Rattle.rule_words.specs.Names as spec;
ghost use Rattle.rule_words.specs.Names.{is_name_byte as specified_byte};

fn is_name_byte(byte: u8) -> bool
    ensures { result ≡ specified_byte byte }
{
    byte.is_ascii_alphanumeric() || matches!(byte, b'-' | b'_' | b'.' | b':')
}

fn are_name_bytes(word: &[u8]) -> bool
    ensures { result ≡ list_all specified_byte word.now }
{
    word.iter().all(|byte| is_name_byte(*byte))
}

/// Whether a word is one or more letters, digits, `-`, `_`, `.` and `:`.
pub fn is_name(word: &[u8]) -> bool
    ensures { result ≡ spec.is_name word.now }
{
    !word.is_empty() && are_name_bytes(word)
}
