//! What an answer tells of a criterion; `evaluation` and `measures` call it.
ghost use Rattle.std.specs.Prelude.{◌≡◌};
ghost use Rattle.std.specs.List.{list_any};
ghost use Rattle.rule_eval.specs.Readings.{field_in, value_in, read, read_of, value_of, compares, matches, matches_any};
ghost use Rattle.rule_eval.specs.Course.{reading, truth};

use crate::Answer;
use rule_model::{Criterion, Fetch, Measure, Operator, Pattern};
use stick_model::{Cell, Row};
use stored_data::{Datum, Field};

/// The value of a field in a row, where it is shown.
fn field_in(cells: &[Cell], field: Field) -> Option<u64>
    ensures { result ≡ field_in cells.now field }
{
    for cell in cells {
        if cell.field.is(field) {
            return Some(cell.value);
        }
    }
    None
}

/// The value of a datum in a row, or that of the element that stands for it; 0 where neither is shown.
fn value_in(cells: &[Cell], datum: Datum) -> u64
    ensures { result ≡ value_in cells.now datum }
{
    if let Some(value) = field_in(cells, Field::plain(datum)) {
        return value;
    }
    match datum.stand_in() {
        Some(element) => field_in(cells, element).unwrap_or(0),
        None => 0,
    }
}

/// What is read of a row.
fn read(fetch: Fetch, row: &Row) -> u64
    ensures { result ≡ read fetch row.now }
{
    match fetch {
        Fetch::Datum(datum) => value_in(row.cells.as_slice(), datum),
        Fetch::Kilobytes(datum) => {
            let kilobytes = value_in(row.cells.as_slice(), datum) / 1024;
            kilobytes.min(u64::from(u32::MAX))
        }
        Fetch::Element(field) => field_in(row.cells.as_slice(), field).unwrap_or(0),
        Fetch::Trackers => u64::from(row.refs),
    }
}

fn read_of(fetch: Fetch, answer: &Answer) -> Option<u64>
    ensures { result ≡ read_of fetch answer.now }
{
    match answer {
        Answer::Row(row) => Some(read(fetch, row)),
        _ => Some(0),
    }
}

fn value_of(answer: &Answer) -> Option<u64>
    ensures { result ≡ value_of answer.now }
{
    match answer {
        Answer::Value(value) => *value,
        _ => None,
    }
}

fn compares(operator: Operator, value: u64, bound: u64) -> bool
    ensures { result ≡ compares operator value bound }
{
    match operator {
        Operator::Eq => value == bound,
        Operator::Ge => value >= bound,
        Operator::Gt => value > bound,
        Operator::Le => value <= bound,
        Operator::Lt => value < bound,
    }
}

fn matches(value: u64, pattern: Pattern) -> bool
    ensures { result ≡ matches value pattern }
{
    match pattern {
        Pattern::Compare(operator, bound) => compares(operator, value, bound),
        Pattern::Between(low, high) => low <= value && value <= high,
    }
}

fn matches_one(patterns: &[Pattern], value: u64) -> bool
    ensures { result ≡ list_any (matches value) patterns.now }
{
    patterns.iter().any(|pattern| matches(value, *pattern))
}

/// Whether a value matches one of the patterns; no value matches none.
pub(crate) fn matches_any(patterns: &[Pattern], value: Option<u64>) -> bool
    ensures { result ≡ matches_any patterns.now value }
{
    match value {
        None => false,
        Some(value) => matches_one(patterns, value),
    }
}

fn reading(measure: &Measure, answer: &Answer) -> Option<u64>
    ensures { result ≡ reading measure.now answer.now }
{
    match measure {
        Measure::SourcePort | Measure::DestinationPort => None,
        Measure::Tracked(_, fetch) | Measure::Source(_, fetch) => read_of(*fetch, answer),
        Measure::Counted(..) => value_of(answer),
    }
}

/// Whether a criterion holds after the answer to its question.
#[tactic(auto, unfolding(crate::specs::Course::truth))]
pub(crate) fn truth(criterion: &Criterion, answer: &Answer) -> bool
    ensures { result ≡ truth criterion.now answer.now }
{
    match criterion {
        Criterion::Always(value) => *value,
        Criterion::IsTracked(_) | Criterion::Source(_) => false,
        Criterion::Matches(measure, patterns) => {
            matches_any(patterns.as_slice(), reading(measure, answer))
        }
    }
}
