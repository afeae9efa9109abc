//! The values of a criterion: networks, numbers, ranges and the operators between them; `criteria` calls it for each word.

ghost use Rattle.std.specs.Prelude.{◌≡◌, option_map};
ghost use Rattle.rule_words.specs.Values as spec;

use crate::term_names::value_of;
use base_lines::{Parts, read_number};
use rule_model::{Operator, Pattern};

const OPERATORS: [(&str, Operator); 5] = [
    ("eq", Operator::Eq),
    ("ge", Operator::Ge),
    ("gt", Operator::Gt),
    ("le", Operator::Le),
    ("lt", Operator::Lt),
];

/// The operator that a word is, if it is one.
#[tactic(auto, unfolding(crate::specs::Values::operator_of))]
pub(crate) fn read_operator(word: &[u8]) -> Option<Operator>
    ensures { result ≡ spec.operator_of word.now }
{
    value_of(word, &OPERATORS)
}

/// A bound of a range, which may be left out.
fn read_bound(text: &[u8], default: u64) -> Option<u64>
    ensures { result ≡ spec.bound_of text.now default }
{
    if text.is_empty() {
        return Some(default);
    }
    read_number(text)
}

/// A range by what stands before and behind its colon.
#[tactic(auto, unfolding(crate::specs::Values::range_of))]
fn read_range(low: &[u8], high: &[u8]) -> Option<Pattern>
    ensures { result ≡ spec.range_of low.now high.now }
{
    if low.is_empty() && high.is_empty() {
        return None;
    }
    let Some(low) = read_bound(low, 0) else {
        return None;
    };
    let Some(high) = read_bound(high, u64::MAX) else {
        return None;
    };
    Some(Pattern::Between(low, high))
}

/// A number under an operator, or under `eq` a range.
#[tactic(auto, unfolding(crate::specs::Values::pattern_of))]
pub(crate) fn read_pattern(operator: Operator, word: &[u8]) -> Option<Pattern>
    ensures { result ≡ spec.pattern_of operator word.now }
{
    let mut parts = Parts::new(word, b':');
    let Some(first) = parts.next() else {
        return None;
    };
    let Some(second) = parts.next() else {
        let Some(number) = read_number(first) else {
            return None;
        };
        return Some(Pattern::Compare(operator, number));
    };
    if !parts.is_done() || operator != Operator::Eq {
        return None;
    }
    read_range(first, second)
}
