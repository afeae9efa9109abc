//! What a table is made with; `rule_model` makes it of a configuration, and every table is opened by it.
ghost use Rattle.std.specs.Prelude.{◌≡◌, IfOk};

use base_sequence::NoMemory;
use stick_key::KeyType;
use stored_data::StoredSet;

/// What a table is made with.
#[derive(Drop)]
pub struct Spec {
    /// What its keys are.
    pub kind: KeyType,
    /// The greatest number of entries, 1 to 2^30.
    pub size: u32,
    /// The longest life of an entry since it was refreshed last, 1 to 2^31 - 1 ms.
    pub expire: Option<u32>,
    /// Whether a full table keeps what it has, and takes no new entry.
    pub nopurge: bool,
    /// How many of the entries that no reference holds a full table removes for a new one, those that were refreshed
    /// first, 1 to 1,024.
    pub purge: u32,
    /// The data that it stores.
    pub columns: StoredSet,
    /// The greatest number of outstanding references, 1 to 2^20.
    pub max_refs: u32,
    /// The greatest number that its events and its outstanding references come to, at most 2^62.
    pub life: u64,
    /// What its hashes are made with. It changes no answer.
    pub seed: u64,
}

impl Spec {
    /// An equal specification.
    pub fn copy(&self) -> Result<Spec, NoMemory>
        ensures { IfOk result (λ spec. spec ≡ self.now) }
    {
        Ok(Spec {
            kind: self.kind,
            size: self.size,
            expire: self.expire,
            nopurge: self.nopurge,
            purge: self.purge,
            columns: self.columns.copy()?,
            max_refs: self.max_refs,
            life: self.life,
            seed: self.seed,
        })
    }
}
