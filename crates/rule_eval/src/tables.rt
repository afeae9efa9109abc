//! The tables of a setup, and the keys that a connection gives them; `measures` and `evaluation` look them up.
ghost use Rattle.std.specs.Prelude.{◌≡◌, true, false, IfOk, IsOk, is_some, position, slice_get};
ghost use Rattle.std.specs.Option.{option_map};
ghost use Rattle.std.specs.Str.{bytes_eq};
ghost use Rattle.stick_key.specs.Convert.{converted};
ghost use Rattle.rule_addresses.specs.Prefix.{masked};
ghost use Rattle.rule_eval.specs.Memory.{is_text, kind_takes_memory};
ghost use Rattle.rule_eval.specs.Tables.{in_32_bits, table_number, kind_of, stores, sample_of, key_of, address_sample, has_datum, has_field};

use crate::Samples;
use base_sequence::NoMemory;
use rule_addresses::{Address, Prefixes};
use rule_model::{Fetch, KeyExpression, NamedSpec, Setup};
use std::alloc::Global;
use stick_key::{KeyType, Sample, StickKey, convert, unmapped};
use stored_data::{Datum, Field};

/// The place of the first table of this name.
fn place_of(tables: &[NamedSpec], name: &[u8]) -> Option<usize>
    ensures { result ≡ position (λ named. bytes_eq named.name name.now) tables.now }
{
    tables
        .iter()
        .position(|named| named.name.as_slice() == name)
}

/// A place as a number of 32 bits, if it has as many.
fn in_32_bits(place: Option<usize>) -> Option<u32>
    ensures { result ≡ in_32_bits place }
{
    match place {
        Some(place) if place <= u32::MAX as usize => Some(place as u32),
        _ => None,
    }
}

/// The number of the first table of this name.
pub(crate) fn table_number(setup: &Setup, name: &[u8]) -> Option<u32>
    ensures { result ≡ table_number setup.now name.now }
{
    in_32_bits(place_of(setup.tables.as_slice(), name))
}

/// What the keys of a table are.
fn kind_of(setup: &Setup, table: u32) -> Option<KeyType>
    ensures { result ≡ kind_of setup.now table }
{
    let named = setup.tables.as_slice().get(table as usize)?;
    Some(named.spec.kind)
}

/// Whether a table stores a field.
fn has_field(setup: &Setup, table: u32, field: Field) -> bool
    ensures { result ≡ has_field (slice_get setup.now.tables table) field }
{
    match setup.tables.as_slice().get(table as usize) {
        None => false,
        Some(named) => named.spec.columns.stores(field),
    }
}

/// Whether a table stores the field that a datum's fetches mean.
fn has_datum(setup: &Setup, table: u32, datum: Datum) -> bool
    ensures { result ≡ has_datum (slice_get setup.now.tables table) datum }
{
    match setup.tables.as_slice().get(table as usize) {
        None => false,
        Some(named) => named.spec.columns.field_for(datum).is_some(),
    }
}

/// Whether a table stores what is read.
pub(crate) fn stores(setup: &Setup, table: u32, fetch: Fetch) -> bool
    ensures { result ≡ stores setup.now table fetch }
{
    match fetch {
        Fetch::Datum(datum) | Fetch::Kilobytes(datum) => has_datum(setup, table, datum),
        Fetch::Element(field) => has_field(setup, table, field),
        Fetch::Trackers => true,
    }
}

/// Whether an address can be a key of this kind.
fn address_converts(address: Address, kind: KeyType) -> bool
    ensures { result ≡ is_some (converted (address_sample address) kind) }
{
    match (address, kind) {
        (_, KeyType::Integer) => false,
        (Address::V6(address), KeyType::Ip) => unmapped(address).is_some(),
        _ => true,
    }
}

/// Whether what is left of a source can be a key of this kind. Of IPv4 addresses that needn't be known.
#[tactic(auto, unfolding(rule_addresses::specs::Prefix::masked))]
fn source_converts(prefixes: Prefixes, source: Address, kind: KeyType) -> bool
    ensures { result ≡ is_some (converted (address_sample (masked prefixes source)) kind) }
{
    match source {
        Address::V4(_) => kind != KeyType::Integer,
        Address::V6(_) => address_converts(prefixes.masked(source), kind),
    }
}

/// Whether an expression can be a key of this kind. This takes no memory.
fn converts(prefixes: Prefixes, samples: Samples, expression: &KeyExpression, kind: KeyType) -> bool
    ensures { result ≡ is_some (converted (sample_of prefixes samples expression.now) kind) }
{
    match expression {
        KeyExpression::Source => source_converts(prefixes, samples.src, kind),
        KeyExpression::SourcePort | KeyExpression::DestinationPort | KeyExpression::Integer(_) =>
            matches!(
                kind,
                KeyType::Integer | KeyType::Text(_) | KeyType::Binary(_)
            ),
        KeyExpression::Text(text) => matches!(kind, KeyType::Text(_) | KeyType::Binary(_))
            && text.len() > 0,
    }
}

/// Whether an expression gives a table a key.
pub(crate) fn has_key(
    setup: &Setup,
    samples: Samples,
    expression: &KeyExpression,
    table: u32,
) -> bool
    ensures { result ≡ is_some (key_of setup.now samples expression.now table) }
{
    match kind_of(setup, table) {
        None => false,
        Some(kind) => converts(setup.prefixes, samples, expression, kind),
    }
}

/// The sample that a key is made of; of a source that is what the prefixes leave of it.
fn sample_of(
    prefixes: Prefixes,
    samples: Samples,
    expression: &KeyExpression,
) -> Result<Sample, NoMemory>
    ensures sample { IfOk result (λ sample. sample ≡ sample_of prefixes samples expression.now) }
    ensures memory { is_text expression.now ≡ false → IsOk result }
{
    match expression {
        KeyExpression::Source => match prefixes.masked(samples.src) {
            Address::V4(address) => Ok(Sample::V4(address)),
            Address::V6(address) => Ok(Sample::V6(address)),
        },
        KeyExpression::SourcePort => Ok(Sample::Number(u32::from(samples.src_port))),
        KeyExpression::DestinationPort => Ok(Sample::Number(u32::from(samples.dst_port))),
        KeyExpression::Integer(number) => Ok(Sample::Number(*number)),
        KeyExpression::Text(text) => Ok(Sample::Text(text.copy()?)),
    }
}

/// The key that an expression gives a table, if it can be converted.
pub(crate) fn key_of(
    alloc: Global,
    setup: &Setup,
    samples: Samples,
    expression: &KeyExpression,
    table: u32,
) -> Result<Option<StickKey>, NoMemory>
    ensures key { IfOk result (λ key. key ≡ key_of setup.now samples expression.now table) }
    ensures memory { is_some (key_of setup.now samples expression.now table) ≡ true → kind_takes_memory (kind_of setup.now table) ≡ false → IsOk result }
{
    let Some(kind) = kind_of(setup, table) else {
        return Ok(None);
    };
    let sample = sample_of(setup.prefixes, samples, expression)?;
    match convert(alloc, &sample, kind) {
        Ok(key) => Ok(key),
        Err(_) => Err(NoMemory),
    }
}
