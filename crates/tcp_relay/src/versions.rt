//! The versions of the rules that have followed the first; `tcp_proxy` publishes them, and each worker follows them by `rules`.

use base_sequence::NoMemory;
use rule_model::Setup;
use std::alloc::Global;
use std::sync::Wait;

/// Rules that have followed others.
#[derive(Drop)]
pub struct Version {
    pub setup: Setup,
    /// Where its server is, as that is told.
    pub server: String,
}

/// The versions of the rules after the first. Each is written once, and stays where it is until all have ended: whoever is judged by it
/// borrows it, so that no lock and no count of references stands in a client's way.
#[derive(Drop)]
pub struct Versions {
    later: boxcar::Vec<Version>,
}

impl Versions {
    /// None has followed the first yet.
    pub fn new(alloc: Global) -> Result<Versions, NoMemory> {
        Ok(Versions {
            later: boxcar::Vec::new(alloc)?,
        })
    }

    /// How many have followed the first.
    #[inline(always)]
    pub fn count(&self) -> usize {
        self.later.count()
    }

    /// The last of the first so many that followed.
    pub fn last_of(&self, count: usize) -> Option<&Version> {
        self.later.get(count.checked_sub(1)?)
    }

    /// Has whoever comes from now on be judged by these rules, as far as they are what `rule_change::renew` may make of the first: a worker
    /// goes on by its own where they aren't. They come back where there is no memory. One thread at a time publishes.
    pub fn publish(&self, rt: &impl Wait, version: Version) -> Result<(), Version> {
        self.later.push_shown(rt, version)?;
        Ok(())
    }
}
