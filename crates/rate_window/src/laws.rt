//! Laws of rates; each is the contract of an empty function, which no code calls.
ghost use Rattle.rate_window.specs.Laws.{RatesStop, RatesAreCounted, RatesFade, TalliesGrow, TalliesTell, CountsGoOn};

/// A rate is never above 2^32 - 1.
pub fn rates_stop()
    ensures { RatesStop }
{}

/// A rate is never above the sum of all that was counted.
pub fn rates_are_counted()
    ensures { RatesAreCounted }
{}

/// From two periods after the last count on, a rate is 0.
pub fn rates_fade()
    ensures { RatesFade }
{}

/// The tally of a list of counts, with one count more, is the tally of the longer list.
pub fn tallies_grow()
    ensures { TalliesGrow }
{}

/// The tally of a list of counts tells the rate of that list.
pub fn tallies_tell()
    ensures { TalliesTell }
{}

/// Counts up to a moment stay in order with one more at it, and while time passes.
pub fn counts_go_on()
    ensures { CountsGoOn }
{}
