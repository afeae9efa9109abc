//! A table in shards with the name that commands give it; `admit_drive` and `tcp_proxy` make it, and `table_cli` asks it.

use base_sequence::Sequence;

/// A table in shards, wherever they are kept, and the name that commands give it.
#[derive(Drop)]
pub struct Named<K> {
    pub name: Sequence<u8>,
    pub keeper: K,
}
