//! When something is due that is done each so many ms; the reports of `tcp_proxy` ask it.

ghost use Rattle.std.specs.Prelude.{◌≡◌, ◌≤◌, ◌<◌, ◌↔◌, ◌^◌, IsTrue};
ghost use Rattle.tcp_watch.specs.Rhythms.{next_beat, sum_within};

/// Something that is done each so many ms, at least one. Where it comes late, the beats that were missed aren't made up for.
#[derive(Clone, Copy, Debug, PartialEq, Eq)]
pub struct Rhythm {
    every: u64,
    /// When it is due.
    next: u64,
    ghost some: { 1 ≤ every },
}

impl Rhythm {
    /// Something that is done each so many ms, for the first time so long after this moment.
    pub fn new(every: u64, start: u64) -> Rhythm
        requires some { 1 ≤ every }
        ensures every { result.every ≡ every }
        ensures next { result.next ≡ sum_within start every }
    {
        Rhythm {
            every,
            next: start.saturating_add(every),
        }
    }

    /// Whether it is due at a moment. Then it is due next at the first beat behind that moment.
    pub fn is_due(&mut self, now: u64) -> bool
        requires moment { now < 2 ^ 62 }
        ensures due { IsTrue result ↔ (self.old.next ≤ now) }
        ensures next { self.new.next ≡ next_beat self.old.every self.old.next now }
        ensures every { self.new.every ≡ self.old.every }
        ensures later { now < self.new.next }
    {
        if now < self.next {
            return false;
        }
        let last = now - (now - self.next) % self.every;
        self.next = last.saturating_add(self.every);
        true
    }
}
