//! Memory for the rows of a listing, taken before a table's lock; `Gathering` fills it, and `shard_locks` takes it.

ghost use Rattle.std.specs.Prelude.{◌≡◌, ◌≤◌, [], IfOk, vec_capacity};

use crate::gathering::Head;
use crate::specification::Spec;
use base_sequence::NoMemory;
use std::alloc::Global;
use std::marker::Model;
use stick_key::KeyType;
use stored_data::words;

/// The bytes that a key has room for at most, as texts are mostly far shorter than they may be.
const LONG_KEY: u32 = 32;

/// Memory for rows, with none in it. Each page of it was written, so that whoever fills it waits for none, which takes a
/// microsecond a page. Contracts see how many rows have a place.
#[derive(Drop)]
pub struct RowRoom {
    pub(crate) heads: Vec<Head>,
    pub(crate) bytes: Vec<u8>,
    pub(crate) words: Vec<u64>,
}

impl Model for RowRoom {
    ghost use Rattle.std.specs.Prelude.{◌≡◌, ℕ, [], vec_capacity};

    ghost Value = { ℕ };

    ghost view = { λ room. vec_capacity room.heads };

    ghost invariant = { λ room. (room.heads.items ≡ []) × (room.bytes.items ≡ []) × (room.words.items ≡ []) };
}

/// An empty list with so many places, in each of which an item was written.
fn written<T: Copy>(alloc: Global, item: T, places: usize) -> Result<Vec<T>, NoMemory>
    ensures empty { IfOk result (λ list. list.items ≡ []) }
    ensures room { IfOk result (λ list. places ≤ vec_capacity list) }
{
    let mut list = Vec::with_capacity(alloc, places)?;
    list.resize(places, item)?;
    list.clear();
    Ok(list)
}

/// How many bytes a key of a kind gets room for.
fn key_room(kind: KeyType) -> usize {
    match kind {
        KeyType::Ip | KeyType::Integer => 4,
        KeyType::Ipv6 => 16,
        KeyType::Text(most) | KeyType::Binary(most) => most.min(LONG_KEY) as usize,
    }
}

impl RowRoom {
    /// No memory.
    pub fn none(alloc: Global) -> RowRoom
        ensures { result ≡ 0 }
    {
        RowRoom {
            heads: Vec::new(alloc),
            bytes: Vec::new(alloc),
            words: Vec::new(alloc),
        }
    }

    /// Memory for so many rows of a table that is made with this, each page of it written. It isn't written with zeros, which an
    /// allocator has without a touch.
    pub fn for_rows(alloc: Global, spec: &Spec, rows: usize) -> Result<RowRoom, NoMemory>
        ensures { IfOk result (λ room. rows ≤ room) }
    {
        let wide = words::width(spec.columns.columns());
        let (Some(words), Some(bytes)) = (
            rows.checked_mul(wide),
            rows.checked_mul(key_room(spec.kind)),
        ) else {
            return Err(NoMemory);
        };
        let head = Head {
            size: 1,
            refs: 1,
            left: 1,
        };
        Ok(RowRoom {
            heads: written(alloc, head, rows)?,
            bytes: written(alloc, 1, bytes)?,
            words: written(alloc, 1, words)?,
        })
    }
}
