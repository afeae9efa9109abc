//! Whether parts of two setups are the same; `tables` and `versions` compare by it.
ghost use Rattle.std.specs.Prelude.{◌≡◌, ◌↔◌, IsTrue};

use rule_addresses::{Address, Endpoint, Prefixes};
use rule_model::NamedSpec;
use stick_model::same_spec;
use stored_data::Column;

/// Whether two lists of columns are the same: the same data in the same order, with the same periods and counts.
pub(crate) fn same_columns(columns: &[Column], others: &[Column]) -> bool
    ensures { IsTrue result ↔ (columns.now ≡ others.now) }
{
    columns == others
}

pub(crate) fn same_prefixes(prefixes: Prefixes, others: Prefixes) -> bool
    ensures { IsTrue result ↔ (prefixes ≡ others) }
{
    prefixes.ipv4 == others.ipv4 && prefixes.ipv6 == others.ipv6
}

fn same_address(address: Address, other: Address) -> bool
    ensures { IsTrue result ↔ (address ≡ other) }
{
    match (address, other) {
        (Address::V4(bytes), Address::V4(others)) => bytes == others,
        (Address::V6(bytes), Address::V6(others)) => bytes == others,
        _ => false,
    }
}

/// Whether two endpoints are the same, or neither is there.
pub(crate) fn same_endpoint(endpoint: Option<Endpoint>, other: Option<Endpoint>) -> bool
    ensures { IsTrue result ↔ (endpoint ≡ other) }
{
    match (endpoint, other) {
        (Some(endpoint), Some(other)) => {
            same_address(endpoint.address, other.address) && endpoint.port == other.port
        }
        (None, None) => true,
        _ => false,
    }
}

/// Whether two tables have one name and are made alike, in all that they are made with.
fn same_table(table: &NamedSpec, other: &NamedSpec) -> bool
    ensures { IsTrue result ↔ (table.now ≡ other.now) }
{
    table.name.as_slice() == other.name.as_slice() && same_spec(&table.spec, &other.spec)
}

/// Whether two lists of tables are the same, table by table.
pub(crate) fn same_tables(tables: &[NamedSpec], others: &[NamedSpec]) -> bool
    ensures { IsTrue result ↔ (tables.now ≡ others.now) }
{
    if tables.len() != others.len() {
        return false;
    }
    for place in 0..tables.len() {
        if !same_table(&tables[place], &others[place]) {
            return false;
        }
    }
    true
}
