//! What rules say that never comes to anything, whatever connection they judge; `warnings` tells it.

ghost use Rattle.std.specs.Prelude.{◌≡◌, ◌++◌, IfOk, length, option_map};
ghost use Rattle.std.specs.List.{list_any};
ghost use Rattle.rule_warnings.specs.NoEffect as spec;

use crate::limits::is_guarded;
use crate::untracked::same_slot;
use crate::warning::{Unread, Warning};
use base_sequence::{NoMemory, Sequence};
use rule_addresses::{Address, Endpoint, Network};
use rule_model::{
    Action, Condition, Criterion, Fetch, KeyExpression, Measure, NamedSpec, Rule, Setup, Slot, Term,
};
use stick_key::{KeyType, unmapped};
use stored_data::{Act, Datum, Field};

/// The table of a name.
fn table_named<'a>(tables: &'a [NamedSpec], name: &[u8]) -> Option<&'a NamedSpec>
    ensures { option_map (λ named. named.now) result ≡ spec.table_named tables.now name.now }
{
    tables.iter().find(|named| named.name.as_slice() == name)
}

/// Whether clients of a `bind` come with IPv6 addresses, those of IPv4 with mapped ones.
pub(crate) fn binds_ipv6(bind: Option<Endpoint>) -> bool
    ensures { result ≡ spec.binds_ipv6 bind }
{
    match bind {
        None => false,
        Some(endpoint) => matches!(endpoint.address, Address::V6(_)),
    }
}

/// Whether an expression gives a table of this type a key, of some connection at least.
fn can_be_key(kind: KeyType, key: &KeyExpression) -> bool
    ensures { result ≡ spec.can_be_key kind key.now }
{
    match (key, kind) {
        (_, KeyType::Text(_) | KeyType::Binary(_)) => true,
        (KeyExpression::Source, KeyType::Ip | KeyType::Ipv6) => true,
        (KeyExpression::SourcePort, KeyType::Integer) => true,
        (KeyExpression::DestinationPort, KeyType::Integer) => true,
        (KeyExpression::Integer(_), KeyType::Integer) => true,
        _ => false,
    }
}

fn is_source(key: &KeyExpression) -> bool
    ensures { result ≡ spec.is_source key.now }
{
    matches!(key, KeyExpression::Source)
}

fn is_ip(kind: KeyType) -> bool
    ensures { result ≡ spec.is_ip kind }
{
    matches!(kind, KeyType::Ip)
}

/// The warning of what a rule of this number tracks in a table of this type, if there is one.
fn key_warning_by(
    takes_ipv6: bool,
    is_guarded: bool,
    number: u64,
    slot: Slot,
    key: &KeyExpression,
    kind: KeyType,
) -> Option<Warning>
    ensures { result ≡ spec.key_warning_by takes_ipv6 is_guarded number slot key.now kind }
{
    if !can_be_key(kind, key) {
        return Some(Warning::NeverKey {
            rule: number,
            slot,
            kind,
        });
    }
    if takes_ipv6 && is_source(key) && is_ip(kind) && !is_guarded {
        return Some(Warning::UntrackedIpv6 { rule: number, slot });
    }
    None
}

/// The warning of what a rule of this number tracks, if there is one.
#[tactic(auto, unfolding(crate::specs::NoEffect::key_warning))]
fn key_warning(takes_ipv6: bool, setup: &Setup, number: u64, action: &Action) -> Option<Warning>
    ensures { result ≡ spec.key_warning takes_ipv6 setup.now number action.now }
{
    let Action::Track { slot, key, table } = action else {
        return None;
    };
    let Some(named) = table_named(setup.tables.as_slice(), table.as_slice()) else {
        return None;
    };
    let is_guarded = is_guarded(named.name.as_slice(), *slot, setup.rules.as_slice());
    key_warning_by(takes_ipv6, is_guarded, number, *slot, key, named.spec.kind)
}

/// Whether all addresses of a network are mapped ones, of `::ffff:0:0/96`.
fn is_mapped_network(network: &Network) -> bool
    ensures { result ≡ spec.is_mapped_network network.now }
{
    match network.address {
        Address::V4(_) => false,
        Address::V6(bytes) => network.length >= 96 && unmapped(bytes).is_some(),
    }
}

fn networks_have_mapped(networks: &[Network]) -> bool
    ensures { result ≡ list_any spec.is_mapped_network networks.now }
{
    networks.iter().any(|network| is_mapped_network(network))
}

fn has_mapped(criterion: &Criterion) -> bool
    ensures { result ≡ spec.has_mapped criterion.now }
{
    match criterion {
        Criterion::Source(networks) => networks_have_mapped(networks.as_slice()),
        _ => false,
    }
}

fn term_has_mapped(term: &Term) -> bool
    ensures { result ≡ spec.term_has_mapped term.now }
{
    term.criteria
        .as_slice()
        .iter()
        .any(|criterion| has_mapped(criterion))
}

fn terms_have_mapped(terms: &[Term]) -> bool
    ensures { result ≡ list_any spec.term_has_mapped terms.now }
{
    terms.iter().any(|term| term_has_mapped(term))
}

fn conjunctions_have_mapped(conjunctions: &[Sequence<Term>]) -> bool
    ensures { result ≡ list_any (list_any spec.term_has_mapped) conjunctions.now }
{
    conjunctions
        .iter()
        .any(|terms| terms_have_mapped(terms.as_slice()))
}

/// Whether a condition has a pattern of mapped addresses.
fn condition_has_mapped(condition: &Option<Condition>) -> bool
    ensures { result ≡ spec.condition_has_mapped condition.now }
{
    match condition {
        None => false,
        Some(conjunctions) => conjunctions_have_mapped(conjunctions.as_slice()),
    }
}

/// The warning of a pattern that holds no client, if a rule has one.
#[tactic(auto, unfolding(crate::specs::NoEffect::pattern_warning))]
fn pattern_warning(takes_ipv6: bool, number: u64, rule: &Rule) -> Option<Warning>
    ensures { result ≡ spec.pattern_warning takes_ipv6 number rule.now }
{
    if condition_has_mapped(&rule.condition) && !takes_ipv6 {
        Some(Warning::MappedPattern { rule: number })
    } else {
        None
    }
}

/// Whether a table stores what is read.
fn has(named: &NamedSpec, fetch: Fetch) -> bool
    ensures { result ≡ spec.has named.now fetch }
{
    match fetch {
        Fetch::Datum(datum) | Fetch::Kilobytes(datum) => named
            .spec
            .columns
            .field_for(datum)
            .is_some(),
        Fetch::Element(field) => named.spec.columns.stores(field),
        Fetch::Trackers => true,
    }
}

/// Whether the table of a name stores what is read.
fn table_has(tables: &[NamedSpec], name: &[u8], fetch: Fetch) -> bool
    ensures { result ≡ spec.has_in (spec.table_named tables.now name.now) fetch }
{
    match table_named(tables, name) {
        None => false,
        Some(named) => has(named, fetch),
    }
}

/// What an act that a criterion names reads as it counts.
fn counted_by(act: Act) -> Option<Fetch>
    ensures { result ≡ spec.counted_by act }
{
    match act {
        Act::IncGpc0 | Act::ClrGpc0 => Some(Fetch::Datum(Datum::Gpc0)),
        Act::IncGpc1 | Act::ClrGpc1 => Some(Fetch::Datum(Datum::Gpc1)),
        Act::IncGpc(index) => Some(Fetch::Element(Field {
            datum: Datum::Gpc,
            index,
        })),
        _ => None,
    }
}

/// Whether a rule tracks by a slot in a table that stores what is read.
fn tracks_with(tables: &[NamedSpec], slot: Slot, fetch: Fetch, rule: &Rule) -> bool
    ensures { result ≡ spec.tracks_with tables.now slot fetch rule.now }
{
    match &rule.action {
        Action::Track {
            slot: tracking,
            key: _,
            table,
        } => same_slot(*tracking, slot) && table_has(tables, table.as_slice(), fetch),
        _ => false,
    }
}

/// Whether one of some rules does so.
fn one_tracks_with(tables: &[NamedSpec], rules: &[Rule], slot: Slot, fetch: Fetch) -> bool
    ensures { result ≡ list_any (spec.tracks_with tables.now slot fetch) rules.now }
{
    rules
        .iter()
        .any(|rule| tracks_with(tables, slot, fetch, rule))
}

/// What is read by a slot that no rule in front tracks in such a table.
fn unread_by_slot(tables: &[NamedSpec], before: &[Rule], slot: Slot, fetch: Fetch) -> Option<Unread>
    ensures { result ≡ spec.unread_by_slot tables.now before.now slot fetch }
{
    if one_tracks_with(tables, before, slot, fetch) {
        return None;
    }
    Some(Unread::BySlot(slot, fetch))
}

/// What is read of the source in a table that doesn't store it, or of which no address is a key.
fn unread_of_source(tables: &[NamedSpec], name: &[u8], fetch: Fetch) -> Option<Unread>
    ensures { result ≡ spec.unread_of_source (spec.table_named tables.now name.now) fetch }
{
    let Some(named) = table_named(tables, name) else {
        return Some(Unread::OfSource(fetch));
    };
    if !has(named, fetch) {
        return Some(Unread::OfSource(fetch));
    }
    if can_be_key(named.spec.kind, &KeyExpression::Source) {
        return None;
    }
    Some(Unread::NoKey(named.spec.kind))
}

/// An integer that no connection has, by the rules in front.
fn unread_measure(tables: &[NamedSpec], before: &[Rule], measure: &Measure) -> Option<Unread>
    ensures { result ≡ spec.unread_measure tables.now before.now measure.now }
{
    match measure {
        Measure::SourcePort | Measure::DestinationPort => None,
        Measure::Tracked(slot, fetch) => unread_by_slot(tables, before, *slot, *fetch),
        Measure::Counted(slot, act) => match counted_by(*act) {
            None => None,
            Some(fetch) => unread_by_slot(tables, before, *slot, fetch),
        },
        Measure::Source(table, fetch) => unread_of_source(tables, table.as_slice(), *fetch),
    }
}

fn unread_of(tables: &[NamedSpec], before: &[Rule], criterion: &Criterion) -> Option<Unread>
    ensures { result ≡ spec.unread_of tables.now before.now criterion.now }
{
    match criterion {
        Criterion::Matches(measure, _) => unread_measure(tables, before, measure),
        _ => None,
    }
}

/// What the first of a term's criteria reads that no connection has.
fn unread_in_term(tables: &[NamedSpec], before: &[Rule], term: &Term) -> Option<Unread>
    ensures { result ≡ spec.unread_in_term tables.now before.now term.now }
{
    for criterion in term.criteria.as_slice() {
        if let Some(unread) = unread_of(tables, before, criterion) {
            return Some(unread);
        }
    }
    None
}

fn unread_in_terms(tables: &[NamedSpec], before: &[Rule], terms: &[Term]) -> Option<Unread>
    ensures { result ≡ spec.unread_in_terms tables.now before.now terms.now }
{
    for term in terms {
        if let Some(unread) = unread_in_term(tables, before, term) {
            return Some(unread);
        }
    }
    None
}

fn unread_in_conjunctions(
    tables: &[NamedSpec],
    before: &[Rule],
    conjunctions: &[Sequence<Term>],
) -> Option<Unread>
    ensures { result ≡ spec.first_of (spec.unread_in_terms tables.now before.now) conjunctions.now }
{
    for terms in conjunctions {
        if let Some(unread) = unread_in_terms(tables, before, terms.as_slice()) {
            return Some(unread);
        }
    }
    None
}

/// The warning of what a rule reads that no connection has by the rules in front, if it does.
#[tactic(auto, unfolding(crate::specs::NoEffect::data_warning))]
fn data_warning(setup: &Setup, number: u64, before: &[Rule], rule: &Rule) -> Option<Warning>
    ensures { result ≡ spec.data_warning setup.now number before.now rule.now }
{
    let Some(conjunctions) = &rule.condition else {
        return None;
    };
    let tables = setup.tables.as_slice();
    match unread_in_conjunctions(tables, before, conjunctions.as_slice()) {
        None => None,
        Some(unread) => Some(Warning::NeverRead {
            rule: number,
            unread,
        }),
    }
}

/// Warnings, and behind them one more, if it is to be given.
pub(crate) fn and_one(
    mut warnings: Sequence<Warning>,
    more: Option<Warning>,
) -> Result<Sequence<Warning>, NoMemory>
    ensures { IfOk result (λ all. all ≡ warnings ++ spec.listed more) }
{
    match more {
        Some(warning) => {
            warnings.push(warning)?;
            Ok(warnings)
        }
        None => Ok(warnings),
    }
}

/// Warnings, and behind them those of a rule behind others.
fn and_of_rule(
    warnings: Sequence<Warning>,
    takes_ipv6: bool,
    setup: &Setup,
    before: &[Rule],
    rule: &Rule,
) -> Result<Sequence<Warning>, NoMemory>
    ensures { IfOk result (λ all. all ≡ warnings ++ spec.warnings_of_rule takes_ipv6 setup.now before.now rule.now) }
{
    let number = before.len() as u64 + 1;
    let warnings = and_one(
        warnings,
        key_warning(takes_ipv6, setup, number, &rule.action),
    )?;
    let warnings = and_one(warnings, pattern_warning(takes_ipv6, number, rule))?;
    and_one(warnings, data_warning(setup, number, before, rule))
}

/// Warnings, and behind them those of all rules, where clients come with IPv6 addresses or with IPv4 ones alone.
pub(crate) fn and_rules(
    warnings: Sequence<Warning>,
    takes_ipv6: bool,
    setup: &Setup,
) -> Result<Sequence<Warning>, NoMemory>
    ensures { IfOk result (λ all. all ≡ warnings ++ spec.rule_warnings takes_ipv6 setup.now) }
{
    let rules = setup.rules.as_slice();
    let mut all = warnings;
    for place in 0..rules.len() {
        let (before, _) = rules.split_at(place);
        all = and_of_rule(all, takes_ipv6, setup, before, &rules[place])?;
    }
    Ok(all)
}
