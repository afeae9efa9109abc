//! Whether two specifications of tables are the same; `shard_settling` compares a shard's with the one that it was opened by.
ghost use Rattle.std.specs.Prelude.{◌≡◌, ◌↔◌, IsTrue};

use crate::equal_cells::same_columns;
use crate::specification::Spec;

/// Whether two tables make room alike.
fn same_when_full(spec: &Spec, other: &Spec) -> bool
    ensures { IsTrue result ↔ ((spec.now.nopurge ≡ other.now.nopurge) × (spec.now.purge ≡ other.now.purge)) }
{
    spec.nopurge == other.nopurge && spec.purge == other.purge
}

/// Whether two specifications are the same.
pub fn same_spec(spec: &Spec, other: &Spec) -> bool
    ensures { IsTrue result ↔ (spec.now ≡ other.now) }
{
    spec.kind == other.kind
        && spec.size == other.size
        && spec.expire == other.expire
        && same_when_full(spec, other)
        && same_columns(spec.columns.columns(), other.columns.columns())
        && spec.max_refs == other.max_refs
        && spec.life == other.life
        && spec.seed == other.seed
}
