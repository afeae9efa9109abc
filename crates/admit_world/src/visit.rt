//! A connection that will come; `World::new` takes one for each connection.

use rule_eval::Samples;

/// A connection that will come: what is known of it, and the bytes that it will have had when it closes.
#[derive(Clone, Copy, Debug)]
pub struct Visit {
    pub samples: Samples,
    pub bytes_in: u64,
    pub bytes_out: u64,
}
