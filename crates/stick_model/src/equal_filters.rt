//! Whether two filters are the same; `same_event` calls it.
ghost use Rattle.std.specs.Prelude.{◌≡◌, ◌↔◌, IsTrue};

use crate::filters::Filter;

/// Whether two filters are the same.
pub fn same_filter(filter: &Filter, other: &Filter) -> bool
    ensures { IsTrue result ↔ (filter.now ≡ other.now) }
{
    match (filter, other) {
        (Filter::Everything, Filter::Everything) | (Filter::Nothing, Filter::Nothing) => true,
        (Filter::Key(key), Filter::Key(another)) => key.bytes() == another.bytes(),
        (Filter::Compare(field, op, bound), Filter::Compare(field_2, op_2, bound_2)) => {
            field == field_2 && op == op_2 && bound == bound_2
        }
        _ => false,
    }
}
