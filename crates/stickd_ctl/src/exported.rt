//! A table's listing, exported in a form; `exporting` writes it.

ghost use Rattle.std.specs.Prelude.{◌≡◌, ◌++◌, OnOk, length};
ghost use Rattle.stickd_ctl.specs.AddressSets.{left_out};
ghost use Rattle.stickd_ctl.specs.Exporting as spec;
ghost use Rattle.stickd_ctl.specs.Exporting.{export_text, head_text, rules_note, sets_text};

use crate::address_keys::{Family, is_left_out};
use crate::address_sets::{Tool, can_name, push_named, push_set};
use crate::csv_text::push_csv;
use crate::export_form::ExportForm;
use crate::json::push_json;
use base_lines::Parts;
use base_sequence::NoMemory;

/// What is said of rules that drop packets by sets.
const RULES_NOTE: &[u8] = b"\
# These sets drop no packet. Rules that do, added once:
#   add chain inet stickd input { type filter hook input priority -10; }
";

/// The rule that drops packets by a set of IPv4 addresses, up to its name.
const IPV4_RULE: &[u8] = b"#   add rule inet stickd input ip saddr @";

/// The rule that drops packets by a set of IPv6 addresses, up to its name.
const IPV6_RULE: &[u8] = b"#   add rule inet stickd input ip6 saddr @";

/// Appends the rules that drop packets by a table's sets, as comments.
fn push_rules_note(text: &mut Vec<u8>, table: &[u8]) -> Result<(), NoMemory>
    ensures { OnOk result (text.new.items ≡ text.old.items ++ rules_note table.now) }
{
    text.extend_from_slice(RULES_NOTE)?;
    push_named(text, IPV4_RULE, Family::V4, table, b" drop\n")?;
    push_named(text, IPV6_RULE, Family::V6, table, b" drop\n")?;
    Ok(())
}

/// Appends what stands before sets.
fn push_head(text: &mut Vec<u8>, tool: Tool, table: &[u8]) -> Result<(), NoMemory>
    ensures { OnOk result (text.new.items ≡ text.old.items ++ head_text tool table.now) }
{
    match tool {
        Tool::Nft => {
            push_rules_note(text, table)?;
            text.extend_from_slice(b"add table inet stickd\n")?;
            Ok(())
        }
        Tool::Ipset => Ok(()),
    }
}

/// Appends a table's two sets of addresses, as a tool takes them.
fn push_sets(text: &mut Vec<u8>, tool: Tool, table: &[u8], listing: &[u8]) -> Result<(), NoMemory>
    ensures { OnOk result (text.new.items ≡ text.old.items ++ sets_text tool table.now listing.now) }
{
    push_head(text, tool, table)?;
    push_set(text, tool, Family::V4, table, listing)?;
    push_set(text, tool, Family::V6, table, listing)?;
    Ok(())
}

/// Appends a table's listing in a form.
pub fn push_export(
    text: &mut Vec<u8>,
    form: ExportForm,
    table: &[u8],
    listing: &[u8],
) -> Result<(), NoMemory>
    ensures { OnOk result (text.new.items ≡ text.old.items ++ export_text form table.now listing.now) }
{
    match form {
        ExportForm::Csv => push_csv(text, listing),
        ExportForm::Json => push_json(text, listing),
        ExportForm::Nft => push_sets(text, Tool::Nft, table, listing),
        ExportForm::Ipset => push_sets(text, Tool::Ipset, table, listing),
    }
}

/// Whether a table of this name can be exported in a form. Where it can't, the names of its sets would be too long.
pub fn can_export(form: ExportForm, table: &[u8]) -> bool
    ensures { result ≡ spec.can_export form table.now }
{
    match form {
        ExportForm::Csv | ExportForm::Json => true,
        ExportForm::Nft => can_name(Tool::Nft, table),
        ExportForm::Ipset => can_name(Tool::Ipset, table),
    }
}

/// How many entries of a listing have keys that are no addresses.
fn count_others(listing: &[u8]) -> u64
    ensures { result ≡ length (left_out listing.now) }
{
    let mut lines = Parts::new(listing, b'\n');
    let mut count = 0;
    while let Some(line) = lines.next() {
        if !is_left_out(line) {
            continue;
        }
        count += 1;
    }
    count
}

/// How many entries of a listing a form leaves out: of sets those whose keys are no addresses.
pub fn count_left_out(form: ExportForm, listing: &[u8]) -> u64
    ensures { result ≡ spec.count_left_out form listing.now }
{
    match form {
        ExportForm::Csv | ExportForm::Json => 0,
        ExportForm::Nft | ExportForm::Ipset => count_others(listing),
    }
}
