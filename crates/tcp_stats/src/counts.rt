//! So many of each count; a worker counts in one of its own, and reports print sums of them.

ghost use Rattle.std.specs.Prelude.{◌≡◌, ◌≢◌, ◌-◌};
ghost use Rattle.tcp_stats.specs.CountValues.{count_of, capped_sum, with_more};
ghost use Rattle.tcp_stats.specs.declared.count.Count.{Count};
ghost use Rattle.tcp_stats.specs.declared.count.Count.TheVariants.{Accepted, Admitted, Rejected};

use crate::{COUNTS, Count};

/// So many of each count, each at most 2^64 - 1.
#[derive(Clone, Copy, Debug, PartialEq, Eq)]
pub struct Counts {
    values: [u64; COUNTS],
}

impl Counts {
    /// None of any.
    pub fn new() -> Counts
        ensures { (count : Count) → count_of result count ≡ 0 }
    {
        Counts {
            values: [0; COUNTS],
        }
    }

    /// How many there are of a count.
    pub fn get(&self, count: Count) -> u64
        ensures { result ≡ count_of self.now count }
    {
        self.values[count.place()]
    }

    /// So many more of a count, which stays at 2^64 - 1; the others stay as they are.
    pub fn add(&mut self, count: Count, amount: u64)
        ensures whole { self.new ≡ with_more self.old count amount }
        ensures added { count_of self.new count ≡ capped_sum (count_of self.old count) amount }
        ensures others { (other : Count) → other ≢ count → count_of self.new other ≡ count_of self.old other }
    {
        let place = count.place();
        self.values[place] = self.values[place].saturating_add(amount);
    }

    /// The clients that were accepted and neither admitted nor rejected yet.
    pub fn in_hand(&self) -> u64
        ensures { result ≡ count_of self.now Accepted - count_of self.now Admitted - count_of self.now Rejected }
    {
        self.get(Count::Accepted)
            .saturating_sub(self.get(Count::Admitted))
            .saturating_sub(self.get(Count::Rejected))
    }

    /// The sums with other counts, one by one.
    pub fn with(&self, other: &Counts) -> Counts
        ensures { (count : Count) → count_of result count ≡ capped_sum (count_of self.now count) (count_of other.now count) }
    {
        let mut sums = *self;
        for place in 0..COUNTS {
            sums.values[place] = sums.values[place].saturating_add(other.values[place]);
        }
        sums
    }
}
