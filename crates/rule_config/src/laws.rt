//! Laws of the definition of a configuration; each is the contract of an empty function, which no code calls.

ghost use Rattle.rule_config.specs.Examples.{ExamplesLaw};
ghost use Rattle.rule_config.specs.Laws.{FaultLaw, Utf8Law};

/// A configuration's fault is that of its first faulty line: the lines before it are read without fault. Where no line
/// has a fault, it is that of the first line that needs a table or a backend which no section declares.
pub fn first_fault()
    ensures { FaultLaw }
{}

/// A line that is not UTF-8 has that fault, whatever else is wrong with it.
pub fn not_utf8_first()
    ensures { Utf8Law }
{}

/// What some small configurations come to: the fault of each with its line, and the rules of one.
pub fn examples()
    ensures { ExamplesLaw }
{}
