//! How long a shard's record gets; `rounds` has it begin again then.

ghost use Rattle.std.specs.Prelude.{◌≡◌};
ghost use Rattle.stick_model.specs.Limits.{IsTableSpec};
ghost use Rattle.shard_housekeeping.specs.Keeping.{greatest_length as specified_length};

use stick_table::Spec;
use stored_data::words;

/// The bytes of a call in a record, and of an entry as it was before the call, but for the entry's words.
const CALL_BYTES: u64 = 96;

/// The bytes of an entry in a table, but for its words: its place, its key, and its links in the index and the order.
const ENTRY_BYTES: u64 = 110;

/// A record takes one byte for so many of its table.
const SHARE: u64 = 8;

/// So many calls are always kept: beginning again for fewer saves less than it takes.
const FEW_CALLS: u64 = 64;

/// With how many calls a shard's record begins again: with so many, or with those that take an eighth of the bytes of its table
/// where these are more than a few.
pub(crate) fn greatest_length(spec: &Spec, roll_at: u64) -> u64
    requires { IsTableSpec spec.now }
    ensures { result ≡ specified_length spec.now roll_at }
{
    let words = 8 * words::width(spec.columns.columns()) as u64;
    let bytes = u64::from(spec.size) * (ENTRY_BYTES + words);
    let fitting = bytes / SHARE / (CALL_BYTES + words);
    roll_at.min(fitting.max(FEW_CALLS))
}
