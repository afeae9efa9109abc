//! Keys made of samples, such as a client's address; `rule_eval` converts what a connection gives a table.
ghost use Rattle.std.specs.Prelude.{◌≡◌, ◌==◌, ◌≤◌, IfOk, IfErr, IsOk, length, take, Some, None, false, if◌then◌else◌};
ghost use Rattle.stick_key.specs.Convert.{converted, takes_memory};
ghost use Rattle.stick_key.specs.Hexadecimal.{fitted};
ghost use Rattle.stick_key.specs.declared.kind.KeyType.TheVariants.{Binary};

use crate::ipv6::{mapped, print_ipv6, unmapped};
use crate::text::{print_dotted, print_integer};
use crate::{KeyFault, KeyType, NoMemory, StickKey};
use base_sequence::Sequence;
use smallvec::SmallVec;
use std::alloc::Global;

/// A list of bytes.
pub type Bytes = Sequence<u8>;

/// What a key is made of: an address, a number or a text of a connection.
#[derive(Debug, Drop)]
pub enum Sample {
    V4([u8; 4]),
    V6([u8; 16]),
    Number(u32),
    Text(Bytes),
}

/// The first bytes of a text.
fn cut(text: &[u8], limit: u32) -> &[u8]
    ensures { result.now ≡ take limit text.now }
{
    &text[..text.len().min(limit as usize)]
}

/// The key of a text, if it has a byte.
fn text_key(alloc: Global, text: &[u8], limit: u32) -> Result<Option<StickKey>, KeyFault>
    ensures key { IfOk result (λ found. found ≡ (if length text.now == 0 then None else Some (take limit text.now))) }
    ensures fault { IfErr result (λ fault. fault ≡ KeyFault.Memory) }
{
    if text.is_empty() {
        return Ok(None);
    }
    Ok(Some(StickKey::from_bytes(alloc, cut(text, limit))?))
}

/// The key of so many bytes that begins with these.
fn binary_key(alloc: Global, bytes: &[u8], count: u32) -> Result<StickKey, NoMemory>
    ensures key { IfOk result (λ key. key ≡ fitted count bytes.now) }
    ensures inline { count ≤ 16 → IsOk result }
{
    StickKey::fitted(SmallVec::from_slice(alloc, cut(bytes, count))?, count)
}

/// The key of so many bytes that a sample gives, if any: an address and a number give their bytes, and so does a text that has
/// some.
fn convert_to_binary(
    alloc: Global,
    sample: &Sample,
    count: u32,
) -> Result<Option<StickKey>, KeyFault>
    ensures converted { IfOk result (λ found. found ≡ converted sample.now (Binary count)) }
    ensures fault { IfErr result (λ fault. fault ≡ KeyFault.Memory) }
    ensures memory { count ≤ 16 → IsOk result }
{
    match sample {
        Sample::V4(address) => Ok(Some(binary_key(alloc, address, count)?)),
        Sample::V6(address) => Ok(Some(binary_key(alloc, address, count)?)),
        Sample::Number(number) => Ok(Some(binary_key(alloc, &number.to_be_bytes(), count)?)),
        Sample::Text(text) => {
            if text.as_slice().is_empty() {
                return Ok(None);
            }
            Ok(Some(binary_key(alloc, text.as_slice(), count)?))
        }
    }
}

/// The key that a sample gives a table of this kind, if any. Only a text, or more than sixteen bytes, takes memory, and
/// `Memory` is the one fault.
pub fn convert(alloc: Global, sample: &Sample, kind: KeyType) -> Result<Option<StickKey>, KeyFault>
    ensures converted { IfOk result (λ found. found ≡ converted sample.now kind) }
    ensures fault { IfErr result (λ fault. fault ≡ KeyFault.Memory) }
    ensures memory { takes_memory kind ≡ false → IsOk result }
{
    if let KeyType::Binary(count) = kind {
        return convert_to_binary(alloc, sample, count);
    }
    match (sample, kind) {
        (Sample::V4(address), KeyType::Ip) => Ok(Some(StickKey::from_bytes(alloc, address)?)),
        (Sample::V4(address), KeyType::Ipv6) => {
            Ok(Some(StickKey::from_bytes(alloc, &mapped(*address))?))
        }
        (Sample::V4(address), KeyType::Text(limit)) => {
            let text = print_dotted(alloc, *address)?;
            Ok(Some(StickKey::from_bytes(alloc, cut(text.as_slice(), limit))?))
        }
        (Sample::V6(address), KeyType::Ip) => match unmapped(*address) {
            Some(address) => Ok(Some(StickKey::from_bytes(alloc, &address)?)),
            None => Ok(None),
        },
        (Sample::V6(address), KeyType::Ipv6) => Ok(Some(StickKey::from_bytes(alloc, address)?)),
        (Sample::V6(address), KeyType::Text(limit)) => {
            let text = print_ipv6(alloc, *address)?;
            Ok(Some(StickKey::from_bytes(alloc, cut(text.as_slice(), limit))?))
        }
        (Sample::Number(number), KeyType::Integer) => {
            Ok(Some(StickKey::from_bytes(alloc, &number.to_be_bytes())?))
        }
        (Sample::Number(number), KeyType::Text(limit)) => {
            let text = print_integer(alloc, *number)?;
            Ok(Some(StickKey::from_bytes(alloc, cut(text.as_slice(), limit))?))
        }
        (Sample::Text(text), KeyType::Text(limit)) => text_key(alloc, text.as_slice(), limit),
        _ => Ok(None),
    }
}
