//! The laws of the rule that a warning advises, and of keys that are none; they are the contracts of empty functions, which no code
//! calls.

ghost use Rattle.rule_warnings.specs.Laws.{AdviceLaw, KeyLaw};

/// With `reject unless { sc0_tracked }`, behind rules that aren't sure to judge what `sc0` doesn't track, no limit by `sc0` fails
/// open; and so for the other slots.
pub fn advice()
    ensures { AdviceLaw }
{}

/// What is warned of as never a key of a table's type is none, whatever the connection is.
pub fn keys()
    ensures { KeyLaw }
{}
