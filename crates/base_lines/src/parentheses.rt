//! What stands in parentheses behind a name; readers of rules call it (`rule_words`, `rule_config`, `adopt`).

ghost use Rattle.std.specs.Prelude.{◌≡◌, MatchOption, None, Some};
ghost use Rattle.base_lines.specs.Parentheses as spec;

/// What stands before the first opening parenthesis, and from there on: all, and nothing, of a text that has none.
pub fn before_parenthesis(text: &[u8]) -> (&[u8], &[u8])
    ensures prefix { result.0.now ≡ spec.before_parenthesis text.now }
    ensures rest { result.1.now ≡ spec.from_parenthesis text.now }
{
    for (place, byte) in text.iter().enumerate() {
        if *byte == b'(' {
            return text.split_at(place);
        }
    }
    text.split_at(text.len())
}

/// What stands between the parentheses round a text, where it begins and ends with them.
pub fn inside(text: &[u8]) -> Option<&[u8]>
    ensures { MatchOption result (spec.inside text.now ≡ None) (λ inner. spec.inside text.now ≡ Some inner.now) }
{
    if text.len() >= 2 && text[0] == b'(' && text[text.len() - 1] == b')' {
        Some(&text[1..text.len() - 1])
    } else {
        None
    }
}

/// Whether a closing parenthesis stands in a text.
pub fn has_closing(text: &[u8]) -> bool
    ensures { result ≡ spec.has_closing text.now }
{
    text.iter().any(|byte| *byte == b')')
}
