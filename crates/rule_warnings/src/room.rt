//! What connections want of a table at once, and whether it has as much; `warnings` calls it.

ghost use Rattle.std.specs.Prelude.{◌≡◌, ◌≤◌, false};
ghost use Rattle.std.specs.List.{count_by};
ghost use Rattle.rule_warnings.specs.Limits as spec;

use crate::Shortage;
use crate::limits::{is_tracked, passes_untracked};
use rule_model::{Action, KeyExpression, NamedSpec, Rule, Slot};

/// Whether connections have keys of their own by an expression.
fn varies(key: &KeyExpression) -> bool
    ensures { result ≡ spec.varies key.now }
{
    matches!(key, KeyExpression::Source | KeyExpression::SourcePort)
}

/// Whether an action tracks a key in the table of a name: one that connections have of their own, or one that all share.
fn tracks(own: bool, name: &[u8], action: &Action) -> bool
    ensures { result ≡ spec.tracks own name.now action.now }
{
    match action {
        Action::Track {
            slot: _,
            key,
            table,
        } => varies(key) == own && table.as_slice() == name,
        _ => false,
    }
}

fn has_own_keys(name: &[u8], rules: &[Rule]) -> bool
    ensures { result ≡ spec.has_own_keys name.now rules.now }
{
    rules.iter().any(|rule| tracks(true, name, &rule.action))
}

/// How many rules track such a shared key.
fn shared_keys(name: &[u8], rules: &[Rule]) -> usize
    ensures { result ≡ count_by (λ rule. spec.tracks false name.now rule.action) rules.now }
{
    let mut count = 0;
    for rule in rules {
        if tracks(false, name, &rule.action) {
            count += 1;
        }
    }
    count
}

/// How many references a connection can hold in the table of a name.
fn slots_in(name: &[u8], rules: &[Rule]) -> u64
    ensures slots { result ≡ spec.slots_in name.now rules.now }
    ensures few { result ≤ 3 }
{
    u64::from(is_tracked(name, Slot::Sc0, rules))
        + u64::from(is_tracked(name, Slot::Sc1, rules))
        + u64::from(is_tracked(name, Slot::Sc2, rules))
}

/// How many references connections can hold there.
fn references_wanted(connections: u32, name: &[u8], rules: &[Rule]) -> u64
    ensures { result ≡ spec.references_wanted connections name.now rules.now }
{
    u64::from(connections) * slots_in(name, rules)
}

/// How many places they can want there.
#[tactic(auto, unfolding(crate::specs::Limits::places_wanted))]
fn places_wanted(connections: u32, name: &[u8], rules: &[Rule]) -> u64
    ensures { result ≡ spec.places_wanted connections name.now rules.now }
{
    if has_own_keys(name, rules) {
        references_wanted(connections, name, rules)
    } else {
        shared_keys(name, rules) as u64
    }
}

/// Whether connections may want more references of a shard than it has, or keys that none holds any more stay.
#[tactic(auto, unfolding(crate::specs::Limits::shortage_of_references))]
fn shortage_of_references(connections: u32, rules: &[Rule], named: &NamedSpec) -> Option<Shortage>
    ensures { result ≡ spec.shortage_of_references connections rules.now named.now }
{
    let name = named.name.as_slice();
    let references = named.spec.max_refs;
    let wanted = references_wanted(connections, name, rules);
    if u64::from(references) < wanted {
        return Some(Shortage::References { wanted, references });
    }
    if named.spec.nopurge && has_own_keys(name, rules) {
        return Some(Shortage::Unpurged);
    }
    None
}

/// Why a connection may find a table of so many shards full.
fn shortage(connections: u32, shards: u32, rules: &[Rule], named: &NamedSpec) -> Option<Shortage>
    requires { 1 ≤ shards }
    ensures { result ≡ spec.shortage connections shards rules.now named.now }
{
    let places = named.spec.size / shards;
    let wanted = places_wanted(connections, named.name.as_slice(), rules);
    if u64::from(places) < wanted {
        return Some(Shortage::Places { wanted, places });
    }
    shortage_of_references(connections, rules, named)
}

/// Why a limit by a slot fails open on a table, if it does.
pub(crate) fn failing(
    connections: u32,
    shards: u32,
    rules: &[Rule],
    slot: Slot,
    named: &NamedSpec,
) -> Option<Shortage>
    requires { 1 ≤ shards }
    ensures { result ≡ spec.failing connections shards rules.now slot named.now }
{
    if passes_untracked(named.name.as_slice(), slot, rules) {
        shortage(connections, shards, rules, named)
    } else {
        None
    }
}
