//! What is served of a configuration; `stickd_input` calls `Config::proxy`, and `stickd_script` makes a setup of one table.

ghost use Rattle.std.specs.Prelude.{◌≡◌, ◌≤◌, ◌-◌, ◌^◌, ◌∷◌, [], None, All, IfNone, IfOk, is_some, length, map, min};
ghost use Rattle.std.specs.List.{count_by, sum_by};
ghost use Rattle.std.specs.Option.{option_map, option_and_then};
ghost use Rattle.stick_model.specs.Limits.{IsTableSpec};
ghost use Rattle.rule_addresses.specs.Prefix.{whole};
ghost use Rattle.rule_model.specs.declared.sections.Section.{Section};
ghost use Rattle.rule_model.specs.Served as spec;
ghost use Rattle.rule_model.specs.Served.{AreTables, AreTableSpecs, backend_named, named_with_purge, narrow_table_of, proxy_of, server_of, setup_of, spec_of, tables_of};

use crate::{Config, Name, NamedSpec, Rule, Section, SectionKind, Setup, TableSpec};
use base_sequence::{NoMemory, Sequence};
use rule_addresses::{Endpoint, Prefixes};
use std::alloc::Global;
use stick_model::Spec;

/// The greatest number of outstanding references of a table's shard.
pub const MAX_REFS: u32 = 65_536;

/// How many of its oldest entries a full table removes at once, where that isn't said.
pub const PURGE: u32 = 1;

/// The life of a table's shard: what its events and its outstanding references come to at most.
pub const LIFE: u64 = 1 << 62;

impl SectionKind {
    /// Whether the section listens for clients: `frontend` and `listen`.
    pub fn has_frontend(self) -> bool
        ensures { result ≡ spec.has_frontend self }
    {
        matches!(self, SectionKind::Frontend | SectionKind::Listen)
    }

    /// Whether the section has a server: `backend` and `listen`.
    pub fn has_backend(self) -> bool
        ensures { result ≡ spec.has_backend self }
    {
        matches!(self, SectionKind::Backend | SectionKind::Listen)
    }
}

impl TableSpec {
    /// How the table is made, but for its name.
    fn spec(&self) -> Result<Spec, NoMemory>
        ensures { IfOk result (λ spec. spec ≡ spec_of self.now) }
    {
        Ok(Spec {
            kind: self.kind,
            size: self.size,
            expire: self.expire,
            nopurge: self.nopurge,
            purge: PURGE,
            columns: self.columns.copy()?,
            max_refs: MAX_REFS,
            life: LIFE,
            seed: 0,
        })
    }
}

/// The tables of sections, in order of declaration.
fn named_specs(alloc: Global, sections: &[Section]) -> Result<Sequence<NamedSpec>, NoMemory>
    ensures { IfOk result (λ tables. tables ≡ tables_of sections.now) }
{
    let mut tables = Sequence::new(alloc);
    for section in sections {
        let Some(table) = &section.table else {
            continue;
        };
        let spec = table.spec()?;
        let name = section.name.copy()?;
        tables.push(NamedSpec { name, spec })?;
    }
    Ok(tables)
}

/// The first section that listens for clients.
fn first_proxy(sections: &[Section]) -> Option<&Section>
    ensures { option_map (λ section. section.now) result ≡ proxy_of sections.now }
{
    for section in sections {
        if section.kind.has_frontend() {
            return Some(section);
        }
    }
    None
}

/// The server of the backend of this name.
fn backend_server(sections: &[Section], name: &[u8]) -> Option<Endpoint>
    ensures { result ≡ option_and_then (λ (section : Section). section.server) (backend_named sections.now name.now) }
{
    for section in sections {
        if section.kind.has_backend() && section.name.as_slice() == name {
            return section.server;
        }
    }
    None
}

/// A section's own server, or that of its default backend.
fn find_server(sections: &[Section], proxy: &Section) -> Option<Endpoint>
    ensures { result ≡ server_of sections.now proxy.now }
{
    if let Some(endpoint) = proxy.server {
        return Some(endpoint);
    }
    match &proxy.default_backend {
        Some(name) => backend_server(sections, name.as_slice()),
        None => None,
    }
}

fn copy_rules(alloc: Global, rules: &[Rule]) -> Result<Sequence<Rule>, NoMemory>
    ensures { IfOk result (λ copied. copied ≡ rules.now) }
{
    let mut copied = Sequence::new(alloc);
    for rule in rules {
        copied.push(rule.copy(alloc)?)?;
    }
    Ok(copied)
}

/// How many sections have a table.
fn count_tables(sections: &[Section]) -> usize
    ensures { result ≡ count_by (λ section. is_some section.table) sections.now }
{
    let mut count = 0;
    for section in sections {
        if section.table.is_some() {
            count += 1;
        }
    }
    count
}

/// How many rules sections have, cut to 2^64 - 1.
fn count_rules(sections: &[Section]) -> usize
    ensures { result ≡ min (2 ^ 64 - 1) (sum_by (λ section. length section.rules) sections.now) }
{
    let mut count = 0usize;
    for section in sections {
        count = count.saturating_add(section.rules.len());
    }
    count
}

/// Each table, where it is full, removes so many of its oldest entries for a new one.
fn set_purges(tables: &mut [NamedSpec], purge: u32)
    ensures { tables.new ≡ map (named_with_purge purge) tables.old }
{
    for named in tables.iter_mut() {
        named.spec.purge = purge;
    }
}

/// The same tables, but that each removes so many.
fn purging_tables(tables: Sequence<NamedSpec>, purge: u32) -> Sequence<NamedSpec>
    ensures { result ≡ map (named_with_purge purge) tables }
{
    let mut tables = tables.into_vec();
    set_purges(tables.as_mut_slice(), purge);
    Sequence::from_vec(tables)
}

impl Setup {
    /// One table, and no proxy.
    pub fn of_table(alloc: Global, name: &[u8], spec: Spec) -> Result<Setup, NoMemory>
        requires { IsTableSpec spec }
        ensures setup { IfOk result (λ setup. setup ≡ record { tables = record { name = name.now; spec = spec } ∷ []; rules = []; bind = None; server = None; shards = 1; prefixes = whole }) }
        ensures limits { IfOk result (λ setup. AreTableSpecs setup.tables) }
    {
        let name = Sequence::from_slice(alloc, name)?;
        let mut tables = Sequence::new(alloc);
        tables.push(NamedSpec { name, spec })?;
        Ok(Setup {
            tables,
            rules: Sequence::new(alloc),
            bind: None,
            server: None,
            shards: 1,
            prefixes: Prefixes::whole(),
        })
    }

    /// The same, but that each table, where it is full, removes so many of its oldest entries for a new one, 1 to 1,024.
    pub fn with_purge(self, purge: u32) -> Setup
        requires { (1 ≤ purge) × (purge ≤ 1024) }
        ensures purge { result ≡ spec.with_purge purge self }
        ensures limits { AreTableSpecs self.tables → AreTableSpecs result.tables }
    {
        let Setup {
            tables,
            rules,
            bind,
            server,
            shards,
            prefixes,
        } = self;
        Setup {
            tables: purging_tables(tables, purge),
            rules,
            bind,
            server,
            shards,
            prefixes,
        }
    }

    /// The same, but that so many of a source's first bits count where it is a key.
    pub fn with_prefixes(self, prefixes: Prefixes) -> Setup
        ensures prefixes { result ≡ spec.with_prefixes prefixes self }
        ensures limits { AreTableSpecs self.tables → AreTableSpecs result.tables }
    {
        let Setup {
            tables,
            rules,
            bind,
            server,
            shards,
            prefixes: _,
        } = self;
        Setup {
            tables,
            rules,
            bind,
            server,
            shards,
            prefixes,
        }
    }

    /// The first table that has fewer places than there are shards. It can't be opened, since each shard has a place.
    pub fn narrow_table(&self) -> Option<&NamedSpec>
        ensures first { option_map (λ named. named.now) result ≡ narrow_table_of self.now }
        ensures wide { IfNone result (All (λ named. self.now.shards ≤ named.spec.size) self.now.tables) }
    {
        self.tables
            .as_slice()
            .iter()
            .find(|named| named.spec.size < self.shards)
    }
}

impl Config {
    /// How many tables are declared.
    pub fn table_count(&self) -> usize
        ensures { result ≡ length (tables_of self.now.sections) }
    {
        count_tables(self.sections.as_slice())
    }

    /// How many rules there are in all sections, cut to 2^64 - 1.
    pub fn rule_count(&self) -> usize
        ensures { result ≡ min (2 ^ 64 - 1) (sum_by (λ section. length section.rules) self.now.sections) }
    {
        count_rules(self.sections.as_slice())
    }

    /// What is served: the tables of all sections, and the first section that listens for clients, each table in so
    /// many shards, and sources whole where they are keys.
    #[tactic(auto, unfolding(crate::specs::Served::setup_of))]
    pub fn proxy(&self, alloc: Global, shards: u32) -> Result<Setup, NoMemory>
        requires some { 1 ≤ shards }
        requires few { shards ≤ 64 }
        ensures setup { IfOk result (λ setup. setup ≡ setup_of self.now shards) }
        // Tables that are within their limits can be opened.
        ensures limits { AreTables self.now.sections → IfOk result (λ setup. AreTableSpecs setup.tables) }
    {
        let sections = self.sections.as_slice();
        let tables = named_specs(alloc, sections)?;
        let Some(proxy) = first_proxy(sections) else {
            return Ok(Setup {
                tables,
                rules: Sequence::new(alloc),
                bind: None,
                server: None,
                shards,
                prefixes: Prefixes::whole(),
            });
        };
        let rules = copy_rules(alloc, proxy.rules.as_slice())?;
        Ok(Setup {
            tables,
            rules,
            bind: proxy.bind,
            server: find_server(sections, proxy),
            shards,
            prefixes: Prefixes::whole(),
        })
    }
}
