//! What criteria and actions come to, or ask first; `scan` calls it. Nothing here takes memory.
ghost use Rattle.std.specs.Prelude.{◌≡◌};
ghost use Rattle.std.specs.List.{list_any};
ghost use Rattle.rule_addresses.specs.Matching.{holds};
ghost use Rattle.rule_eval.specs.Readings.{read_of, value_of};
ghost use Rattle.rule_eval.specs.Slots.{slot_of};
ghost use Rattle.rule_eval.specs.Tables.{table_number};
ghost use Rattle.rule_eval.specs.Verdict.{looked, counted, source_shown, measured, judged, tracked_in, acted, effect};
ghost use Rattle.rule_eval.specs.Course.{Finds, Acts, reading, truth};

use crate::Verdict;
use crate::case::Case;
use crate::questions::{Effect, Found, Question, Request};
use crate::readings::matches_any;
use crate::tables::{has_key, stores, table_number};
use rule_addresses::{Address, Network};
use rule_model::{Action, Criterion, Fetch, KeyExpression, Measure, Slot};
use stored_data::Act;

/// An entry that is looked at through its slot.
#[tactic(auto, unfolding(crate::specs::Course::question_want, crate::specs::Course::is_asked))]
#[inline(always)]
fn look(case: &Case<'_>, slot: Slot, fetch: Fetch) -> Found<Option<u64>>
    ensures { Finds case.now.setup.now case.now.samples case.now.slots result (read_of fetch) (looked case.now.setup.now slot (slot_of case.now.slots slot) fetch) }
{
    match case.slots.get(slot) {
        None => Found::Known(None),
        Some(table) => {
            if stores(case.setup, table, fetch) {
                Found::Asks(Question::Look { slot })
            } else {
                Found::Known(None)
            }
        }
    }
}

/// An act on the entry of a slot.
#[tactic(auto, unfolding(crate::specs::Course::question_want, crate::specs::Course::is_asked))]
#[inline(always)]
fn count(case: &Case<'_>, slot: Slot, act: Act) -> Found<Option<u64>>
    ensures { Finds case.now.setup.now case.now.samples case.now.slots result value_of (counted slot (slot_of case.now.slots slot) act) }
{
    match case.slots.get(slot) {
        None => Found::Known(None),
        Some(_) => Found::Asks(Question::Count { slot, act }),
    }
}

/// The entry of the source in a table: 0, where the source can't be its key.
#[tactic(auto, unfolding(crate::specs::Course::question_want, crate::specs::Course::is_asked))]
#[inline(always)]
fn show(case: &Case<'_>, table: u32, fetch: Fetch) -> Found<Option<u64>>
    ensures { Finds case.now.setup.now case.now.samples case.now.slots result (read_of fetch) (source_shown case.now.setup.now case.now.samples (Some table) fetch) }
{
    if !stores(case.setup, table, fetch) {
        return Found::Known(None);
    }
    if has_key(case.setup, case.samples, &KeyExpression::Source, table) {
        Found::Asks(Question::Get { table })
    } else {
        Found::Known(Some(0))
    }
}

/// The value of a measure; none makes its criterion false.
#[inline(always)]
fn measure_of(case: &Case<'_>, measure: &Measure) -> Found<Option<u64>>
    ensures { Finds case.now.setup.now case.now.samples case.now.slots result (reading measure.now) (measured case.now.setup.now case.now.samples case.now.slots measure.now) }
{
    match measure {
        Measure::SourcePort => Found::Known(Some(u64::from(case.samples.src_port))),
        Measure::DestinationPort => Found::Known(Some(u64::from(case.samples.dst_port))),
        Measure::Tracked(slot, fetch) => look(case, *slot, *fetch),
        Measure::Counted(slot, act) => count(case, *slot, *act),
        Measure::Source(name, fetch) => match table_number(case.setup, name.as_slice()) {
            None => Found::Known(None),
            Some(table) => show(case, table, *fetch),
        },
    }
}

fn is_in_one(networks: &[Network], address: Address) -> bool
    ensures { result ≡ list_any (λ network. holds network address) networks.now }
{
    networks.iter().any(|network| network.holds(&address))
}

/// Whether a criterion holds.
#[tactic(auto, unfolding(crate::specs::Verdict::judged, crate::specs::Course::truth))]
#[inline(always)]
pub(crate) fn judge(case: &Case<'_>, criterion: &Criterion) -> Found<bool>
    ensures { Finds case.now.setup.now case.now.samples case.now.slots result (truth criterion.now) (judged case.now.setup.now case.now.samples case.now.slots criterion.now) }
{
    match criterion {
        Criterion::Always(value) => Found::Known(*value),
        Criterion::IsTracked(slot) => Found::Known(case.slots.get(*slot).is_some()),
        Criterion::Source(networks) => {
            Found::Known(is_in_one(networks.as_slice(), case.samples.src))
        }
        Criterion::Matches(measure, patterns) => match measure_of(case, measure) {
            Found::Known(value) => Found::Known(matches_any(patterns.as_slice(), value)),
            Found::Asks(question) => Found::Asks(question),
        },
    }
}

/// A reference for a slot, where it has none and the key can be converted.
#[tactic(auto, unfolding(crate::specs::Course::request_want, crate::specs::Course::is_requested))]
#[inline(always)]
fn track<'a>(case: &Case<'_>, slot: Slot, key: &'a KeyExpression, name: &[u8]) -> Effect<'a>
    ensures { Acts case.now.setup.now case.now.samples case.now.slots result (tracked_in case.now.setup.now case.now.samples case.now.slots slot key.now (table_number case.now.setup.now name.now)) }
{
    let Some(table) = table_number(case.setup, name) else {
        return Effect::Nothing;
    };
    if case.slots.get(slot).is_some() {
        return Effect::Nothing;
    }
    if has_key(case.setup, case.samples, key, table) {
        Effect::Asks(Request::Track { slot, table, key })
    } else {
        Effect::Nothing
    }
}

/// An act on the entry of a slot, where the slot tracks one.
#[tactic(auto, unfolding(crate::specs::Course::request_want, crate::specs::Course::is_requested))]
#[inline(always)]
fn act<'a>(case: &Case<'_>, slot: Slot, act: Act) -> Effect<'a>
    ensures { Acts case.now.setup.now case.now.samples case.now.slots result (acted case.now.slots slot (slot_of case.now.slots slot) act) }
{
    match case.slots.get(slot) {
        None => Effect::Nothing,
        Some(_) => Effect::Asks(Request::Count { slot, act }),
    }
}

/// What an action does: it ends with a verdict, or evaluation goes on.
#[tactic(auto, unfolding(crate::specs::Verdict::effect))]
#[inline(always)]
pub(crate) fn effect<'a>(case: &Case<'_>, action: &'a Action) -> Effect<'a>
    ensures { Acts case.now.setup.now case.now.samples case.now.slots result (effect case.now.setup.now case.now.samples case.now.slots action.now) }
{
    match action {
        Action::Accept => Effect::Ends(Verdict::Accept),
        Action::Reject => Effect::Ends(Verdict::Reject),
        Action::Track { slot, key, table } => track(case, *slot, key, table.as_slice()),
        Action::Count { slot, act: counted } => act(case, *slot, *counted),
    }
}
