//! Laws of the definitions of parts and numbers; each is the contract of an empty function, which no code calls.

ghost use Rattle.base_lines.specs.Laws.{PartsAreSplit, PartsJoinBack, NumbersAreNumerals, NumbersReadBack};

/// The parts of bytes are those of std's `split`.
pub fn parts_are_split()
    ensures { PartsAreSplit }
{}

/// The parts at a byte, joined by that byte, are the whole again.
pub fn parts_join_back()
    ensures { PartsJoinBack }
{}

/// A text is read as the number that its digits write, exactly where it is a numeral below 2^64.
pub fn numbers_are_numerals()
    ensures { NumbersAreNumerals }
{}

/// What is printed of a number reads as the number.
pub fn numbers_read_back()
    ensures { NumbersReadBack }
{}
