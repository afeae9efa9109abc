//! Numbers that look random and are the same in every run, for tests and benchmarks.

ghost use Rattle.std.specs.Prelude.{◌≡◌, ◌≤◌, ◌<◌};

/// A linear congruential generator with the constants of Knuth's MMIX.
#[derive(Drop)]
pub struct Random {
    state: u64,
}

impl Random {
    /// The numbers of a seed.
    pub fn new(seed: u64) -> Random
        ensures { result.state ≡ seed }
    {
        Random { state: seed }
    }

    /// A number below the limit.
    pub fn below(&mut self, limit: u32) -> u32
        requires { 1 ≤ limit }
        ensures { result < limit }
    {
        self.state = self
            .state
            .wrapping_mul(6_364_136_223_846_793_005)
            .wrapping_add(1_442_695_040_888_963_407);
        ((self.state >> 33) % u64::from(limit)) as u32
    }
}
