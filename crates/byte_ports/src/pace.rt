//! How many bytes pass in each call of a port in memory; `MemorySource` and `MemorySink` ask it.

ghost use Rattle.std.specs.Prelude.{◌≡◌, ◌-◌, ◌<◌, ◌≤◌, IfSome, option_map};
ghost use Rattle.byte_ports.specs.Memory.{passing};

/// How many bytes pass in a call at most, and how many more pass before every call fails.
#[derive(Drop)]
pub struct Pace {
    pub piece: usize,
    pub limit: Option<usize>,
    ghost some_pass: { 0 < piece },
}

impl Pace {
    /// How many of the bytes that are offered pass in a call. None where it fails.
    pub fn passing(&self, offered: usize) -> Option<usize>
        ensures exact { result ≡ passing self.now.piece self.now.limit offered }
        ensures within { IfSome result (λ count. count ≤ offered) }
        ensures some { 0 < offered → IfSome result (λ count. 0 < count) }
    {
        let most = offered.min(self.piece);
        match self.limit {
            None => Some(most),
            Some(0) => None,
            Some(limit) => Some(most.min(limit)),
        }
    }

    /// So many bytes have passed.
    pub fn spend(&mut self, count: usize)
        ensures limit { self.new.limit ≡ option_map (λ limit. limit - count) self.old.limit }
        ensures piece { self.new.piece ≡ self.old.piece }
    {
        self.limit = self.limit.map(|limit| limit.saturating_sub(count));
    }
}
