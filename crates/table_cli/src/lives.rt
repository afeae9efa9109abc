//! When an entry was refreshed that has so much of its life left, and when tables go on; `loading` and `tcp_proxy` ask it.

ghost use Rattle.std.specs.Prelude.{◌≡◌};
ghost use Rattle.shard_book.specs.NamedTables.{states_of};
ghost use Rattle.table_cli.specs.Lives as lives;
ghost use Rattle.table_cli.specs.Lives.{goes_on_at};

use shard_book::{Keeper, Named};
use stick_model::Spec;

/// How many ms ago an entry was refreshed that has so many left of its table's life. In a table without `expire` no moment tells.
pub fn age(expire: Option<u32>, left: u64) -> u64
    ensures { result ≡ lives.age expire left }
{
    match expire {
        Some(life) => u64::from(life).saturating_sub(left),
        None => 0,
    }
}

/// The life that a table gives, in ms, 0 where it gives none.
pub fn life_of(spec: &Spec) -> u32
    ensures { result ≡ lives.life_of spec.now }
{
    match spec.expire {
        Some(life) => life,
        None => 0,
    }
}

/// The longest life that tables give, in ms: the moment at which they go on once they are loaded.
pub fn longest_life<K: Keeper>(tables: &[Named<K>]) -> u32
    ensures { result ≡ goes_on_at (states_of K.table K.parts K.state tables.now) }
{
    let mut longest = 0u32;
    for named in tables {
        longest = longest.max(life_of(named.keeper.spec()));
    }
    longest
}
