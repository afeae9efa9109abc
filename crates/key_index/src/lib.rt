//! From keys to handles, by hash chains through slot numbers; `stick_pooled` finds its entries by it.
#![tactic(auto)]

ghost use Rattle.std.specs.Prelude.{◌≡◌, ◌≢◌, ℕ, ◌<◌, ◌≤◌, ◌-◌, ◌/◌, ◌^◌, ◌%◌, bit_and, length, Some, None, IsSome, IfNone, IfOk, IfSome, IsTrue, ◌↔◌};
ghost use Rattle.key_index.specs.Keys.{no_keys, capacity_of, entry, entry_at, handle_at, MapsTo, HasKey, IsAbsent, HasDistinctKeys, with_key, without_slot};
ghost use Rattle.std.specs.Prelude.{◌⊎◌, List, eqb, vec_len};
ghost use Rattle.std.specs.List.{IsDistinct};
ghost use Rattle.std.specs.Int.{bit_at};
ghost use Rattle.key_index.specs.Chains.{hash_of, IsAmong, IsChain, IsBefore, LeadsTo, HoldsKey, link_at, heads_with_next, links_with_next, marks_behind};
ghost use Rattle.key_index.specs.declared.Node.{Node};

mod sip;
mod words;

use base_sequence::NoMemory;
use core::hash::keyed_hasher;
pub use entry_pool::Handle;
use entry_pool::NONE;
use sip::{hash_of_4, hash_of_16};
use std::alloc::Global;
use std::hash::Hasher;
use std::marker::Model;
use std::mem;
use stick_key::StickKey;
use words::{is_same_4, is_same_16};

/// A key, and the generation of its handle.
#[derive(Drop)]
struct Node {
    key: StickKey,
    generation: u64,
}

/// What a search reads of a slot before its key: the next slot of its chain, and the tag of its key.
#[derive(Clone, Copy)]
struct Link {
    next: u32,
    tag: u32,
}

/// A finite map from keys to handles: a slot has at most one key, and a key at most one slot.
/// Contracts see what each slot has. The seed changes nothing that they see: that the chains are those of the seed that
/// `new` is given, and that they are short, neither a contract nor a test says, but only this code and the benchmarks.
///
/// A key's chain is the low bits of its SipHash-1-3, with the seed for both halves of the hash's key. Without the
/// seed nobody can choose keys of one chain, as far as is known of SipHash; whoever knows it can, and then a call
/// takes steps in proportion to the keys.
///
/// A bucket has a byte of marks, of the keys in its chain and perhaps of some that left it, so that the search for an
/// absent key mostly reads no slot. The tags tell keys of one chain apart, so that it mostly reads one node at most.
#[derive(Drop)]
pub struct Index {
    heads: Vec<u32>,
    marks: Vec<u8>,
    links: Vec<Link>,
    nodes: Vec<Option<Node>>,
    seed: u64,
}

impl Model for Index {
    ghost use Rattle.std.specs.Prelude.{map};
    ghost use Rattle.key_index.specs.Keys.{Keys, keys, keys_code};

    ghost Value = { Keys };

    ghost coded = { keys_code };

    ghost use Rattle.key_index.specs.Chains.{entry_in, IsSound, IsMarked, IsTagged};

    ghost view = { λ i. keys (map entry_in i.nodes.items) };

    ghost invariant = { λ i. IsSound i.links.items i.nodes.items i.heads.items i.seed
        × IsMarked i.nodes.items i.heads.items i.marks.items i.seed
        × IsTagged i.links.items i.nodes.items i.seed };
}

// The hash of a key's bytes: SipHash-1-3, under the seed for both keys.
#[tactic(auto, unfolding(crate::specs::Chains::hash_of))]
fn hash(seed: u64, bytes: &[u8]) -> u64
    ensures { result ≡ hash_of seed bytes.now }
{
    match bytes.len() {
        4 => hash_of_4(seed, bytes),
        16 => hash_of_16(seed, bytes),
        _ => hash_of_any(seed, bytes),
    }
}

// The same of bytes of any length. It stands apart, so that its loop takes no registers from an address's few steps.
#[inline(never)]
#[tactic(auto, unfolding(crate::specs::Chains::hash_of))]
fn hash_of_any(seed: u64, bytes: &[u8]) -> u64
    ensures { result ≡ hash_of seed bytes.now }
{
    let mut hasher = keyed_hasher(seed, seed);
    hasher.write(bytes);
    hasher.finish()
}

// The tag of a key with this hash.
fn tag(hash: u64) -> u32
    ensures { result ≡ hash / 2 ^ 32 }
{
    (hash >> 32) as u32
}

// The bucket of a key with this hash, of so many, a power of two.
fn bucket(hash: u64, buckets: usize) -> usize
    requires { 0 < buckets }
    ensures bucket { result ≡ bit_and hash (buckets - 1) }
    ensures within { result < buckets }
{
    (hash & (buckets as u64 - 1)) as usize
}

// The mark of a key with this hash: one of eight, by bits that no bucket is told by.
fn mark(hash: u64) -> u32
    ensures mark { result ≡ hash / 2 ^ 61 }
    ensures within { result < 8 }
{
    (hash >> 61) as u32
}

fn has_mark(marks: u8, mark: u32) -> bool
    requires { mark < 8 }
    ensures { IsTrue result ↔ bit_at marks mark ≡ 1 }
{
    (marks >> mark) & 1 == 1
}

// The marks, and this one.
fn with_mark(marks: u8, mark: u32) -> u8
    requires { mark < 8 }
    ensures marked { bit_at result mark ≡ 1 }
    ensures kept { (other : ℕ) → bit_at marks other ≡ 1 → bit_at result other ≡ 1 }
{
    marks | (1 << mark)
}

// Forgets the marks of a bucket whose chain has ended.
fn forget_marks(marks: &mut Vec<u8>, bucket: usize, first: u32)
    requires { bucket < vec_len marks.old }
    ensures { marks.new.items ≡ marks_behind marks.old.items bucket first }
{
    if first == NONE {
        marks[bucket] = 0;
    }
}

// Whether two keys are the same.
fn is_same(key: &StickKey, other: &StickKey) -> bool
    ensures { IsTrue result ↔ key.now ≡ other.now }
{
    let (bytes, others) = (key.bytes(), other.bytes());
    match (bytes.len(), others.len()) {
        (4, 4) => is_same_4(bytes, others),
        (16, 16) => is_same_16(bytes, others),
        _ => is_same_any(bytes, others),
    }
}

// Whether bytes of any length are the same. It stands apart for the same reason.
#[inline(never)]
fn is_same_any(bytes: &[u8], others: &[u8]) -> bool
    ensures { IsTrue result ↔ bytes.now ≡ others.now }
{
    bytes == others
}

// Whether a slot has the key.
fn has_key(node: &Option<Node>, key: &StickKey) -> bool
    ensures { IsTrue result ↔ (n : Node) × (node.now ≡ Some n) × (n.key ≡ key.now) }
{
    match node {
        Some(node) => is_same(&node.key, key),
        None => false,
    }
}

// The slot that has the key, of the chain that begins at `first`. Each slot that has another tag is passed by.
fn find_in_chain(
    links: &[Link],
    nodes: &[Option<Node>],
    first: u32,
    tag: u32,
    key: &StickKey,
) -> Option<u32>
    requires small { length links.now ≤ 2 ^ 30 }
    requires long { length links.now ≡ length nodes.now }
    requires chained { LeadsTo links.now nodes.now first key.now }
    requires tagged { (slot : ℕ) → HoldsKey nodes.now slot key.now → (link_at links.now slot).tag ≡ tag }
    ensures found { IfSome result (λ slot. HoldsKey nodes.now slot key.now) }
    ensures absent { IfNone result ((slot : ℕ) → ¬ (HoldsKey nodes.now slot key.now)) }
{
    let mut slot = first;
    while slot != NONE {
        let link = links[slot as usize];
        if link.tag == tag && has_key(&nodes[slot as usize], key) {
            return Some(slot);
        }
        slot = link.next;
    }
    None
}

// The slot before this one in the chain that begins at `first`, or none where this one begins it.
fn before(links: &[Link], first: u32, slot: u32) -> u32
    requires small { length links.now ≤ 2 ^ 30 }
    requires chained { (slots : List ℕ) × IsChain links.now first slots × IsDistinct eqb slots × IsAmong slot slots }
    ensures { ((result ≡ NONE) × (first ≡ slot)) ⊎ IsBefore links.now first result slot }
{
    let mut before = NONE;
    let mut at = first;
    while at != slot {
        before = at;
        at = links[at as usize].next;
    }
    before
}

// Names the next of a slot, or the head of the bucket where there is no slot.
fn set_next(heads: &mut Vec<u32>, links: &mut Vec<Link>, bucket: usize, before: u32, next: u32)
    requires bucket { bucket < vec_len heads.old }
    requires slot { before ≢ NONE → before < vec_len links.old }
    ensures heads { heads.new.items ≡ heads_with_next heads.old.items bucket before next }
    ensures links { links.new.items ≡ links_with_next links.old.items before next }
{
    if before == NONE {
        heads[bucket] = next;
    } else {
        links[before as usize].next = next;
    }
}

impl Index {
    /// An empty index of `capacity` slots, 1 to 2^30. It takes the memory of them all, and of the heads and marks of
    /// its chains: the least power of two that is not below one and a half times the capacity.
    pub fn new(alloc: Global, capacity: u32, seed: u64) -> Result<Self, NoMemory>
        requires positive { 0 < capacity }
        requires within { capacity ≤ 2 ^ 30 }
        ensures { IfOk result (λ index. index ≡ no_keys capacity) }
    {
        let mut nodes = Vec::with_capacity(alloc, capacity as usize)?;
        for _slot in 0..capacity {
            nodes.push_reserved(None);
        }
        let alone = Link { next: NONE, tag: 0 };
        let buckets = (capacity + capacity / 2).next_power_of_two() as usize;
        Ok(Index {
            heads: Vec::from_elem(alloc, NONE, buckets)?,
            marks: Vec::from_elem(alloc, 0, buckets)?,
            links: Vec::from_elem(alloc, alone, capacity as usize)?,
            nodes,
            seed,
        })
    }

    /// The handle of a key, or `None` where no slot has the key. It also tells that no two slots have one key.
    #[inline(always)]
    pub fn get(&self, key: &StickKey) -> Option<Handle>
        ensures found { IfSome result (λ handle. MapsTo self.now key.now handle) }
        ensures absent { IfNone result (IsAbsent self.now key.now) }
        ensures distinct { HasDistinctKeys self.now }
    {
        let hash = hash(self.seed, key.bytes());
        let bucket = bucket(hash, self.heads.len());
        if !has_mark(self.marks[bucket], mark(hash)) {
            return None;
        }
        let slot = find_in_chain(&self.links, &self.nodes, self.heads[bucket], tag(hash), key)?;
        Some(self.handle_of(slot))
    }

    /// Maps a key that is absent to a handle whose slot has no key.
    pub fn insert(&mut self, key: StickKey, handle: Handle)
        requires below { handle.slot < capacity_of self.old }
        requires unused { entry_at self.old handle.slot ≡ None }
        requires absent { IsAbsent self.old key }
        ensures { self.new ≡ with_key self.old key handle }
    {
        let hash = hash(self.seed, key.bytes());
        let bucket = bucket(hash, self.heads.len());
        let next = self.heads[bucket];
        self.links[handle.slot as usize] = Link {
            next,
            tag: tag(hash),
        };
        self.nodes[handle.slot as usize] = Some(Node {
            key,
            generation: handle.generation,
        });
        self.heads[bucket] = handle.slot;
        self.marks[bucket] = with_mark(self.marks[bucket], mark(hash));
    }

    /// Takes the key of a slot that has one out, and gives it back.
    pub fn remove_slot(&mut self, slot: u32) -> StickKey
        requires { IsSome (entry_at self.old slot) }
        ensures key { HasKey self.old slot result }
        ensures removed { self.new ≡ without_slot self.old slot }
        ensures absent { IsAbsent self.new result }
    {
        let hash = hash(self.seed, self.key_of(slot).bytes());
        let bucket = bucket(hash, self.heads.len());
        let before = before(&self.links, self.heads[bucket], slot);
        let next = self.links[slot as usize].next;
        set_next(&mut self.heads, &mut self.links, bucket, before, next);
        forget_marks(&mut self.marks, bucket, self.heads[bucket]);
        match mem::replace(&mut self.nodes[slot as usize], None) {
            Some(Node { key, generation: _ }) => key,
            None => unreachable!(),
        }
    }

    // What a slot that has a key holds.
    fn node(&self, slot: u32) -> &Node
        requires { IsSome (entry_at self.now slot) }
        ensures { entry_at self.now slot ≡ Some (entry result.now.key result.now.generation) }
    {
        match &self.nodes[slot as usize] {
            Some(node) => node,
            None => unreachable!(),
        }
    }

    /// The key of a slot that has one.
    pub fn key_of(&self, slot: u32) -> &StickKey
        requires { IsSome (entry_at self.now slot) }
        ensures { HasKey self.now slot result.now }
    {
        &self.node(slot).key
    }

    /// The handle of the key of a slot that has one.
    pub fn handle_of(&self, slot: u32) -> Handle
        requires { IsSome (entry_at self.now slot) }
        ensures { handle_at self.now slot ≡ Some result }
    {
        Handle {
            slot,
            generation: self.node(slot).generation,
        }
    }
}
