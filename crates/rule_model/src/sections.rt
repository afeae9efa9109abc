//! Sections of a configuration, and the setup that is served of it; `rule_config` makes sections, and most crates above read
//! setups.

use crate::Rule;
use base_sequence::Sequence;
use rule_addresses::{Endpoint, Prefixes};
use stick_key::KeyType;
use stick_model::Spec;
use stored_data::StoredSet;

/// The name of a section, and of its table.
pub type Name = Sequence<u8>;

/// What a section is.
#[derive(Clone, Copy, Debug, PartialEq, Eq)]
pub enum SectionKind {
    Frontend,
    Backend,
    Listen,
}

/// A line `stick-table`.
#[derive(Drop)]
pub struct TableSpec {
    pub kind: KeyType,
    /// The greatest number of entries, 1 to 2^30.
    pub size: u32,
    /// The longest life of an entry since it was refreshed last, 1 to 2^31 - 1 ms.
    pub expire: Option<u32>,
    pub nopurge: bool,
    pub columns: StoredSet,
}

/// A section, as its lines declare it.
#[derive(Drop)]
pub struct Section {
    pub kind: SectionKind,
    pub name: Name,
    pub table: Option<TableSpec>,
    /// Its rules, in order.
    pub rules: Sequence<Rule>,
    pub bind: Option<Endpoint>,
    pub server: Option<Endpoint>,
    pub default_backend: Option<Name>,
}

/// A configuration.
#[derive(Drop)]
pub struct Config {
    /// Its frontend, backend and listen sections, in order.
    pub sections: Sequence<Section>,
    /// The numbers of the lines that were read past with a warning, from 1, in order.
    pub warnings: Sequence<u64>,
}

/// A table to be made, and its name.
#[derive(Drop)]
pub struct NamedSpec {
    pub name: Name,
    pub spec: Spec,
}

/// What is served: the tables of a configuration in order of declaration, and of its proxy, which is its first frontend
/// or listen section, the rules and where it listens and connects to.
#[derive(Drop)]
pub struct Setup {
    pub tables: Sequence<NamedSpec>,
    pub rules: Sequence<Rule>,
    pub bind: Option<Endpoint>,
    pub server: Option<Endpoint>,
    /// In how many parts each table is kept.
    pub shards: u32,
    /// How much of a source counts where it is a key.
    pub prefixes: Prefixes,
}
