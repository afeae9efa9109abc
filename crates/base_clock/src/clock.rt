//! The trait `Clock`, which tells the moment; command services, housekeeping and connections on shared tables read it.

/// A clock, in ms.
pub trait Clock {
    ghost use Rattle.std.specs.Prelude.{◌<◌, ◌^◌, ℕ};

    // What looking changes.
    ghost State: { Type 0 };

    ghost state: { Self → State };

    // In a state, the clock may show this moment and leave that state.
    ghost shows: { State → ℕ → State → Type 0 };

    /// The moment, in ms, at most 2^62 - 1.
    fn now(&mut self) -> u64
        ensures shows { shows (state self.old) result (state self.new) }
        ensures bound { result < 2 ^ 62 };
}
