//! Laws of several filters; each is the contract of an empty function, which no code calls.

ghost use Rattle.table_cli.specs.MatchingLaws.{FewFiltersLaw, MatchingLaw, OrderLaw};

/// What a table lists by the first of several filters, with the rows alone that match the others, are the entries that pass all.
pub fn all_filters()
    ensures { MatchingLaw }
{}

/// In whatever order the filters stand, the same entries pass all.
pub fn any_order()
    ensures { OrderLaw }
{}

/// All entries pass no filter, and those that pass one are the ones that a table lists by it.
pub fn few_filters()
    ensures { FewFiltersLaw }
{}
