//! Numbers, sizes and times; `table` and `rule_config` read by it, and `adopt` and `stickd` read times.

ghost use Rattle.std.specs.Prelude.{◌≡◌, ◌≤◌, length};
ghost use Rattle.std.specs.Char.{is_ascii_digit};
ghost use Rattle.std.specs.List.{prefix_len};
ghost use Rattle.rule_words.specs.Numbers as spec;
ghost use Rattle.rule_words.specs.Numbers.{bounded_number, size_of, time_of};

use base_lines::read_number;
use rule_model::Fault;

/// The greatest size of a table.
const GREATEST_SIZE: u64 = 1 << 30;

/// The greatest time, in ms.
const GREATEST_TIME: u64 = (1 << 31) - 1;

/// Reads a decimal number from `least` to `greatest`; another text is a bad number.
pub fn read_bounded(text: &[u8], least: u32, greatest: u32) -> Result<u32, Fault>
    ensures { result ≡ bounded_number least greatest text.now }
{
    let Some(number) = read_number(text) else {
        return Err(Fault::BadNumber);
    };
    if number < u64::from(least) || number > u64::from(greatest) {
        return Err(Fault::BadNumber);
    }
    Ok(number as u32)
}

/// How many digits stand in front of a text.
fn digits_len(text: &[u8]) -> usize
    ensures value { result ≡ prefix_len is_ascii_digit text.now }
    ensures within { result ≤ length text.now }
{
    text.iter().take_while(|byte| byte.is_ascii_digit()).count()
}

#[tactic(auto, unfolding(crate::specs::Numbers::size_unit))]
fn size_unit(suffix: &[u8]) -> Option<u64>
    ensures { result ≡ spec.size_unit suffix.now }
{
    if suffix.is_empty() {
        Some(1)
    } else if suffix == b"k".as_slice() || suffix == b"K".as_slice() {
        Some(1 << 10)
    } else if suffix == b"m".as_slice() || suffix == b"M".as_slice() {
        Some(1 << 20)
    } else if suffix == b"g".as_slice() || suffix == b"G".as_slice() {
        Some(1 << 30)
    } else {
        None
    }
}

/// Reads a size: decimal, with an optional suffix k, m or g for 2^10, 2^20 and 2^30, from 1 to 2^30.
#[tactic(auto, unfolding(crate::specs::Numbers::size_of))]
pub(crate) fn read_size(text: &[u8]) -> Result<u32, Fault>
    ensures { result ≡ size_of text.now }
{
    let (digits, suffix) = text.split_at(digits_len(text));
    let (Some(number), Some(unit)) = (read_number(digits), size_unit(suffix)) else {
        return Err(Fault::BadSize);
    };
    let size = number.saturating_mul(unit);
    if size == 0 || size > GREATEST_SIZE {
        return Err(Fault::BadSize);
    }
    Ok(size as u32)
}

/// The microseconds of a unit.
#[tactic(auto, unfolding(crate::specs::Numbers::time_unit))]
fn time_unit(suffix: &[u8]) -> Option<u64>
    ensures { result ≡ spec.time_unit suffix.now }
{
    if suffix.is_empty() {
        Some(1_000)
    } else if suffix == b"us".as_slice() {
        Some(1)
    } else if suffix == b"ms".as_slice() {
        Some(1_000)
    } else if suffix == b"s".as_slice() {
        Some(1_000_000)
    } else if suffix == b"m".as_slice() {
        Some(60_000_000)
    } else if suffix == b"h".as_slice() {
        Some(3_600_000_000)
    } else if suffix == b"d".as_slice() {
        Some(86_400_000_000)
    } else {
        None
    }
}

/// Reads a time in ms: decimal, with an optional unit us, ms, s, m, h or d, from 1 to 2^31 - 1 ms. Microseconds are
/// rounded up to whole ms.
#[tactic(auto, unfolding(crate::specs::Numbers::time_of))]
pub fn read_time(text: &[u8]) -> Result<u32, Fault>
    ensures { result ≡ time_of text.now }
{
    let (digits, suffix) = text.split_at(digits_len(text));
    let (Some(number), Some(unit)) = (read_number(digits), time_unit(suffix)) else {
        return Err(Fault::BadNumber);
    };
    let time = number.saturating_mul(unit).div_ceil(1_000);
    if time == 0 || time > GREATEST_TIME {
        return Err(Fault::BadNumber);
    }
    Ok(time as u32)
}
