//! How many came in a second; the proxy's reporting keeps one each of clients and of admitted ones.

ghost use Rattle.std.specs.Prelude.{◌≡◌, max};

/// How many came in the last whole second, and the most that came in one.
#[derive(Clone, Copy, Debug, PartialEq, Eq)]
pub struct Rate {
    /// In the last whole second.
    pub last: u64,
    /// In one second, the most so far.
    pub most: u64,
}

impl Rate {
    /// None came yet.
    pub fn new() -> Rate
        ensures { result ≡ record { last = 0; most = 0 } }
    {
        Rate { last: 0, most: 0 }
    }

    /// The rate once a second is over in which so many came.
    pub fn after_second(self, count: u64) -> Rate
        ensures { result ≡ record { last = count; most = max self.most count } }
    {
        Rate {
            last: count,
            most: self.most.max(count),
        }
    }
}
