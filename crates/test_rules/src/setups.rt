//! What is served by the text of a configuration.

use rule_config::read_config;
use rule_model::Setup;
use std::alloc::Global;

/// What is served by a text in so many shards. None where it has a fault.
pub fn setup_of(alloc: Global, text: &[u8], shards: u32) -> Option<Setup> {
    let config = read_config(alloc, text).ok()?;
    config.proxy(alloc, shards.clamp(1, 64)).ok()
}
