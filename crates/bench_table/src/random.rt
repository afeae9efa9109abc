//! Places that look random, and are the same at each run.
ghost use Rattle.std.specs.Prelude.{◌<◌};

/// How many slots the parts have.
pub const SLOTS: u32 = 65_536;

/// A linear congruential generator with the constants of Knuth's MMIX.
#[derive(Drop)]
pub struct Random {
    pub state: u64,
}

impl Random {
    /// The number of a slot.
    pub fn slot(&mut self) -> u32
        ensures { result < SLOTS }
    {
        self.state = self
            .state
            .wrapping_mul(6_364_136_223_846_793_005)
            .wrapping_add(1_442_695_040_888_963_407);
        ((self.state >> 33) % u64::from(SLOTS)) as u32
    }
}
