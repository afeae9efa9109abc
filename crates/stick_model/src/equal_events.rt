//! Whether two events are the same; `shard_settling` compares receipts with recorded calls by it.
ghost use Rattle.std.specs.Prelude.{◌≡◌, ◌↔◌, IsTrue};

use crate::equal_cells::same_cells;
use crate::equal_filters::same_filter;
use crate::events::Event;

/// Whether two events ask the same at the same moment.
pub fn same_event(event: &Event, other: &Event) -> bool
    ensures { IsTrue result ↔ (event.now ≡ other.now) }
{
    match (event, other) {
        (Event::Get(now, key), Event::Get(moment, another)) => {
            now == moment && key.bytes() == another.bytes()
        }
        (Event::Track(now, key), Event::Track(moment, another)) => {
            now == moment && key.bytes() == another.bytes()
        }
        (Event::Look(now, ticket), Event::Look(moment, another)) => {
            now == moment && ticket == another
        }
        (Event::Count(now, ticket, act), Event::Count(moment, another, act_2)) => {
            now == moment && ticket == another && act == act_2
        }
        (Event::Release(now, ticket), Event::Release(moment, another)) => {
            now == moment && ticket == another
        }
        (Event::Put(now, key, pairs), Event::Put(moment, another, pairs_2)) => {
            now == moment
                && key.bytes() == another.bytes()
                && same_cells(pairs.as_slice(), pairs_2.as_slice())
        }
        (Event::Clear(now, key), Event::Clear(moment, another)) => {
            now == moment && key.bytes() == another.bytes()
        }
        (Event::ClearWhere(now, choice), Event::ClearWhere(moment, another)) => {
            now == moment && same_filter(choice, another)
        }
        (Event::List(now, choice), Event::List(moment, another)) => {
            now == moment && same_filter(choice, another)
        }
        (Event::Expire(now), Event::Expire(moment)) => now == moment,
        _ => false,
    }
}
