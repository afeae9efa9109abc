//! Decimal numbers, read and printed; readers of configurations, commands and scripts call it, and printers of answers and of
//! adopted files.

ghost use Rattle.std.specs.Prelude.{◌≡◌, ◌+◌, ◌*◌, ◌<◌, ◌≤◌, ◌^◌, ◌++◌, OnOk, OnErr, decimal, length, vec_len, vec_capacity};
ghost use Rattle.std.specs.Option.{SomeIff};
ghost use Rattle.base_lines.specs.Number.{number_of};

use base_sequence::NoMemory;

/// The number with one more digit behind it, where that fits.
fn with_digit(number: u64, digit: u8) -> Option<u64>
    ensures { SomeIff result (number * 10 + digit < 2 ^ 64) (number * 10 + digit) }
{
    number.checked_mul(10)?.checked_add(u64::from(digit))
}

/// The number that one or more decimal digits write. Leading zeros are allowed. None for any other text, and for a
/// number of 2^64 or more.
#[tactic(auto, unfolding(crate::specs::Number::number_of))]
pub fn read_number(text: &[u8]) -> Option<u64>
    ensures { result ≡ number_of text.now }
{
    if text.is_empty() {
        return None;
    }
    let mut number = 0;
    for byte in text {
        if !byte.is_ascii_digit() {
            return None;
        }
        number = with_digit(number, *byte - b'0')?;
    }
    Some(number)
}

/// The most digits that a number of 64 bits has.
const MOST_DIGITS: usize = 20;

/// Appends the decimal text of a number, for which there is room.
fn push_digits(text: &mut Vec<u8>, number: u64)
    requires { vec_len text.old + length (decimal number) ≤ vec_capacity text.old }
    ensures items { text.new.items ≡ text.old.items ++ decimal number }
    ensures room { vec_capacity text.new ≡ vec_capacity text.old }
{
    if number < 10 {
        text.push_reserved(b'0' + number as u8);
        return;
    }
    push_digits(text, number / 10);
    text.push_reserved(b'0' + (number % 10) as u8);
}

/// Appends the decimal text of a number, without leading zeros. It takes no other memory than the text's own.
pub fn push_decimal(text: &mut Vec<u8>, number: u64) -> Result<(), NoMemory>
    ensures ok { OnOk result (text.new.items ≡ text.old.items ++ decimal number) }
    ensures err { OnErr result (text.new.items ≡ text.old.items) }
{
    text.reserve(MOST_DIGITS)?;
    push_digits(text, number);
    Ok(())
}
