//! What is counted of rounds; `housekeep` counts by it.

ghost use Rattle.std.specs.Prelude.{◌≡◌};
ghost use Rattle.shard_housekeeping.specs.Keeping.{none_counted, noted, one_refused, with_expired};

use base_sequence::NoMemory;

/// How many records began again, how many expiries and rolls were refused, and how many entries went as their time was over. Each
/// stops at 2^64 - 1.
#[derive(Clone, Copy)]
pub struct Counts {
    pub rolled: u64,
    pub refused: u64,
    pub expired: u64,
}

impl Counts {
    /// Nothing was counted yet.
    pub fn none() -> Counts
        ensures { result ≡ none_counted }
    {
        Counts {
            rolled: 0,
            refused: 0,
            expired: 0,
        }
    }

    /// What a shard answered to a roll: whether its record began again, or that it was refused.
    pub fn note_roll(&mut self, answer: Result<bool, NoMemory>)
        ensures { self.new ≡ noted answer self.old }
    {
        match answer {
            Ok(true) => self.rolled = self.rolled.saturating_add(1),
            Ok(false) => {}
            Err(_) => self.refuse(),
        }
    }

    /// One expiry or roll was refused.
    pub fn refuse(&mut self)
        ensures { self.new ≡ one_refused self.old }
    {
        self.refused = self.refused.saturating_add(1);
    }

    /// So many entries more went as their time was over.
    pub fn add_expired(&mut self, count: u64)
        ensures { self.new ≡ with_expired count self.old }
    {
        self.expired = self.expired.saturating_add(count);
    }
}
