//! Laws of the stored data; each is the contract of an empty function, which no code calls.
ghost use Rattle.stored_data.specs.Laws.{NamesDiffer, StaysInRange, CountsNeverLower, PutIsRead, KeepsData, NewShowsZero, RatesTally, RatesCount};

/// No two data have one name.
#[tactic(auto, using(crate::proofs::FindNames::names_differ))]
pub fn names_differ()
    ensures { NamesDiffer }
{}

/// A counter stops at its greatest value: the data of a new key are in range, whatever is counted
/// and put in range leaves them in range, and then no value is shown above the greatest.
#[tactic(auto, using(crate::proofs::Ranges::stays_in_range))]
pub fn stays_in_range()
    ensures { StaysInRange }
{}

/// A count lowers no value: a counter never wraps.
#[tactic(auto, using(crate::proofs::Ranges::counts_never_lower))]
pub fn counts_never_lower()
    ensures { CountsNeverLower }
{}

/// A number that is put is read back, and all other fields stay.
#[tactic(auto, using(crate::proofs::Shown::put_is_read))]
pub fn put_is_read()
    ensures { PutIsRead }
{}

/// An act and a put keep the fields that are stored, in their order.
#[tactic(auto, using(crate::proofs::Shown::keeps_data))]
pub fn keeps_data()
    ensures { KeepsData }
{}

/// A new key shows 0 for each field that is stored, but for the current connections, and nothing
/// for any other.
pub fn new_shows_zero()
    ensures { NewShowsZero }
{}

/// A rate stands for its counts after each act, with what the act counts in it as the last.
#[tactic(auto, using(crate::proofs::Tallies::rates_tally))]
pub fn rates_tally()
    ensures { RatesTally }
{}

/// What an act counts of a datum it counts in the datum's rate, and an act that names an element of an array
/// counts in no rate.
#[tactic(auto, using(crate::proofs::Tallies::rates_count))]
pub fn rates_count()
    ensures { RatesCount }
{}
