//! The dictionary: look-ups, edits, growing, rehashing and shrinking.

ghost use Rattle.std.specs.Prelude.{◌≡◌, ◌≢◌, ℕ, ◌+◌, ◌*◌, ◌%◌, ◌^◌, ◌<◌, ◌≤◌, ◌↔◌, max, List, [], length, Option, Some, None, IfOk, IfErr, OnErr, OnOk, IfSome, IfNone, IsSome, IsTrue};
ghost use Rattle.std.specs.Prelude.{true, false, is_some, count_by, replicate, MatchBool};
ghost use Rattle.rev_cursor.specs.Span.{times};
ghost use Rattle.blocks.specs.declared.BlockRef.{BlockRef};
ghost use Rattle.blocks.specs.Blocks.{Blocks, bytes_at};
ghost use Rattle.rehash_dict.specs.Tables.{Tables, bucket, count, full_within, is_rehashing, stepped, inserted, removed, shrunk, wants_shrink, with_room, no_elements, least_power};
ghost use Rattle.rehash_dict.specs.Tables.{rehashed, IsSettled};
ghost use Rattle.rehash_dict.specs.Table.{Element, Table, item, tables, table_len, Agrees, Updates};
ghost use Rattle.rehash_dict.specs.Placed.{IsPlaced, IsSize};
ghost use Rattle.rehash_dict.specs.Keyed.{hash_of, key_of, same_key, Stands, Lacks, Keyed, key_tables};
ghost use Rattle.std.specs.FinMap.{empty, get, insert, remove, len};
ghost use Rattle.rehash_dict.specs.MapOf.{content, value_found, value_taken};
ghost use Rattle.rehash_dict.specs.Grown.{Grown};
ghost use Rattle.rehash_dict.specs.Steps.{table_of, table_rows, Holds, Adds, Swaps, Renames, Removes, Takes, IsSpot, IsOther};
ghost use Rattle.rehash_dict.specs.Sides.{IsBehind};

use crate::Memory;
use crate::chains::{Chains, Side, bucket_of};
use crate::tables::{
    FIRST_SIZE, begin, empty_heads, end_if_moved, make_room, side_for_new, step, step_if_rehashing,
};
use blocks::{BlockRef, BlockStore};
use digests::sip;
use std::alloc::Global;
use std::marker::Model;

/// A map from the bytes of key blocks to values.
///
/// Its elements have item numbers, which stay while an element stands, whatever the tables do. They stand in the
/// buckets of no table, of one, or of two during a rehash, as in Redis's dict: an element is in the bucket of the low
/// bits of its key's hash.
///
/// An element takes 24 bytes beside its key's reference and its value, and a bucket takes 8.
#[derive(Drop)]
pub struct Dict<V> {
    alloc: Global,
    chains: Chains<V>,
    // the buckets of the older table below this one have been moved
    position: usize,
    seed: u64,
    top: usize,
}

impl<V> Model for Dict<V> {
    ghost use Rattle.rehash_dict.specs.Table.{Table};
    ghost use Rattle.rehash_dict.specs.TableCode.{table_code};
    ghost use Rattle.rehash_dict.specs.Placed.{IsPlaced};

    ghost Value = { Table V };

    ghost coded = { table_code V.code };

    ghost view = { λ d. record { items = d.chains.items; older = d.chains.older; newer = d.chains.newer; position = d.position; seed = d.seed; top = d.top } };

    ghost invariant = { λ d. IsPlaced (record { items = d.chains.items; older = d.chains.older; newer = d.chains.newer; position = d.position; seed = d.seed; top = d.top }) };
}

/// Where an element stands in its bucket: behind another one, or first.
#[derive(Clone, Copy)]
struct Spot {
    at: usize,
    before: Option<usize>,
}

fn same_bytes(left: &[u8], right: &[u8]) -> bool
    ensures { IsTrue result ↔ (left.now ≡ right.now) }
{
    left == right
}

impl<V> Dict<V> {
    /// A dictionary without an element and without a table. The seed is that of its hashes.
    pub fn new(alloc: Global, seed: u64) -> Dict<V>
        ensures empty { result.items ≡ [] }
        ensures older { result.older ≡ [] }
        ensures newer { result.newer ≡ [] }
        ensures position { result.position ≡ 0 }
        ensures seed { result.seed ≡ seed }
        ensures top { result.top ≡ 0 }
        ensures keyed { (blocks : Blocks) → Keyed blocks result }
        ensures map { (blocks : Blocks) → content blocks result ≡ empty }
    {
        Dict {
            alloc,
            chains: Chains::new(alloc),
            position: 0,
            seed,
            top: 0,
        }
    }

    /// The number of elements.
    pub fn len(&self) -> usize
        ensures value { result ≡ table_len self.now }
        ensures placed { IsPlaced self.now }
        ensures map { (blocks : Blocks) → Keyed blocks self.now → result ≡ len (content blocks self.now) }
    {
        self.chains.len()
    }

    /// Whether there is no element.
    pub fn is_empty(&self) -> bool
        ensures { IsTrue result ↔ (table_len self.now ≡ 0) }
    {
        self.chains.len() == 0
    }

    /// The hash of a key: SipHash with one and two rounds, under the seed and its bitwise complement.
    pub fn hash(&self, key: &[u8]) -> u64
        ensures { result ≡ hash_of self.now.seed key.now }
    {
        sip(1, 2, self.seed, !self.seed, key)
    }

    /// The item number of a key. `None` comes exactly where no element has the key.
    pub fn find<B: BlockStore>(&self, store: &B, key: &[u8]) -> Option<usize>
        requires { Keyed (B.blocks store.now) self.now }
        ensures found { IfSome result (λ at. Stands (B.blocks store.now) self.now at key.now) }
        ensures none { IfNone result (Lacks (B.blocks store.now) self.now key.now) }
        ensures map { get (content (B.blocks store.now) self.now) key.now ≡ value_found self.now result }
    {
        self.find_hashed(store, self.hash(key), key)
    }

    /// The item number of a key whose hash is at hand.
    pub fn find_hashed<B: BlockStore>(&self, store: &B, hash: u64, key: &[u8]) -> Option<usize>
        requires keyed { Keyed (B.blocks store.now) self.now }
        requires hashed { hash ≡ hash_of self.now.seed key.now }
        ensures found { IfSome result (λ at. Stands (B.blocks store.now) self.now at key.now) }
        ensures none { IfNone result (Lacks (B.blocks store.now) self.now key.now) }
        ensures map { get (content (B.blocks store.now) self.now) key.now ≡ value_found self.now result }
    {
        match self.search(Side::Older, store, hash, key) {
            Some(spot) => Some(spot.at),
            None => match self.search(Side::Newer, store, hash, key) {
                Some(spot) => Some(spot.at),
                None => None,
            },
        }
    }

    /// The key block and the value of an element.
    pub fn entry(&self, at: usize) -> (BlockRef, &V)
        requires { IsSome (item self.now at) }
        ensures { Holds self.now at result.0 result.1.now }
    {
        let Some(entry) = self.chains.entry(at) else {
            unreachable!()
        };
        (entry.key(), &entry.value)
    }

    /// Whether an element has the item number.
    pub fn is_entry(&self, at: usize) -> bool
        ensures { IsTrue result ↔ IsSome (item self.now at) }
    {
        match self.chains.entry(at) {
            Some(_) => true,
            None => false,
        }
    }

    /// A number above each item number that was ever given.
    pub fn top(&self) -> usize
        ensures value { result ≡ self.now.top }
        ensures above { (at : ℕ) → IsSome (item self.now at) → at < result }
    {
        let _chains = &self.chains;
        self.top
    }

    /// Swaps the value of an element, and answers the one that stood there.
    pub fn swap_value(&mut self, at: usize, value: V) -> V
        requires { IsSome (item self.old at) }
        ensures swaps { Swaps self.old self.new at result value }
        ensures keyed { (blocks : Blocks) → Keyed blocks self.old → Keyed blocks self.new }
        ensures tables { (blocks : Blocks) → key_tables blocks self.new ≡ key_tables blocks self.old }
        ensures map { (blocks : Blocks) → Keyed blocks self.old → content blocks self.new ≡ insert (content blocks self.old) (key_of blocks (item self.old at)) value }
        ensures had { (blocks : Blocks) → Keyed blocks self.old → get (content blocks self.old) (key_of blocks (item self.old at)) ≡ Some result }
    {
        self.chains.swap_value(at, value)
    }

    /// Names an element's key by another block, which has the same bytes.
    pub fn swap_ref(&mut self, at: usize, new: BlockRef)
        requires { IsSome (item self.old at) }
        ensures { Renames self.old self.new at new }
    {
        self.chains.swap_key(at, new);
    }

    /// Adds an element whose key isn't there, and answers its item number.
    ///
    /// Where no rehash is going on and there are at least as many elements as buckets, it begins one, to the least
    /// power of two above their number; the first table has 4 buckets. During a rehash it makes one step. `Memory`
    /// hands the value back and leaves all.
    pub fn insert<B: BlockStore>(
        &mut self,
        store: &B,
        key: BlockRef,
        value: V,
    ) -> Result<usize, (V, Memory)>
        requires keyed { Keyed (B.blocks store.now) self.old }
        requires live { IsSome (B.blocks store.now key) }
        requires absent { Lacks (B.blocks store.now) self.old (bytes_at (B.blocks store.now) key) }
        ensures added { IfOk result (λ at. Adds self.old self.new at (record { key = key; hash = hash_of self.old.seed (bytes_at (B.blocks store.now) key); value = value })) }
        ensures keyed { Keyed (B.blocks store.now) self.new }
        ensures tables { OnOk result (key_tables (B.blocks store.now) self.new ≡ inserted (hash_of self.old.seed) (key_tables (B.blocks store.now) self.old) (bytes_at (B.blocks store.now) key)) }
        ensures value_returned { IfErr result (λ failed. failed.0 ≡ value) }
        ensures err { OnErr result (self.new ≡ self.old) }
        ensures map { OnOk result (content (B.blocks store.now) self.new ≡ insert (content (B.blocks store.now) self.old) (bytes_at (B.blocks store.now) key) value) }
        ensures grown { Grown (hash_of self.old.seed) (key_tables (B.blocks store.now) self.old) (key_tables (B.blocks store.now) self.new) }
    {
        let hash = self.hash(store.bytes(key));
        self.insert_hashed(hash, key, value)
    }

    /// Adds an element whose key isn't there and whose hash is at hand.
    pub fn insert_hashed(
        &mut self,
        hash: u64,
        key: BlockRef,
        value: V,
    ) -> Result<usize, (V, Memory)>
        ensures added { IfOk result (λ at. Adds self.old self.new at (record { key = key; hash = hash; value = value })) }
        ensures value_returned { IfErr result (λ failed. failed.0 ≡ value) }
        ensures err { OnErr result (self.new ≡ self.old) }
        ensures grown { (blocks : Blocks) → Keyed blocks self.old → IsSome (blocks key) → hash ≡ hash_of self.old.seed (bytes_at blocks key) → Lacks blocks self.old (bytes_at blocks key)
            → Grown (hash_of self.old.seed) (key_tables blocks self.old) (key_tables blocks self.new) }
    {
        if let Err(error) = make_room(&mut self.chains, self.alloc, self.position) {
            return Err((value, error));
        }
        self.position = step_if_rehashing(&mut self.chains, self.position);
        let side = side_for_new(&self.chains);
        let at = self.chains.add(side, key, hash, value);
        self.top = self.top.max(at + 1);
        Ok(at)
    }

    /// Takes a key out, and answers its block and the value. `None` comes exactly where no element has the key.
    pub fn remove<B: BlockStore>(&mut self, store: &B, key: &[u8]) -> Option<(BlockRef, V)>
        requires keyed { Keyed (B.blocks store.now) self.old }
        ensures removed { IfSome result (λ pair. Removes (B.blocks store.now) self.old self.new key.now pair.0 pair.1) }
        ensures keyed { Keyed (B.blocks store.now) self.new }
        ensures tables { IfSome result (λ _. key_tables (B.blocks store.now) self.new ≡ removed same_key (key_tables (B.blocks store.now) self.old) key.now) }
        ensures none { IfNone result ((self.new ≡ self.old) × Lacks (B.blocks store.now) self.old key.now) }
        ensures map { content (B.blocks store.now) self.new ≡ remove (content (B.blocks store.now) self.old) key.now }
        ensures had { get (content (B.blocks store.now) self.old) key.now ≡ value_taken result }
        ensures grown { Grown (hash_of self.old.seed) (key_tables (B.blocks store.now) self.old) (key_tables (B.blocks store.now) self.new) }
    {
        let hash = self.hash(key);
        self.remove_hashed(store, hash, key)
    }

    /// Takes out a key whose hash is at hand, as `remove` does.
    pub fn remove_hashed<B: BlockStore>(
        &mut self,
        store: &B,
        hash: u64,
        key: &[u8],
    ) -> Option<(BlockRef, V)>
        requires keyed { Keyed (B.blocks store.now) self.old }
        requires hashed { hash ≡ hash_of self.old.seed key.now }
        ensures removed { IfSome result (λ pair. Removes (B.blocks store.now) self.old self.new key.now pair.0 pair.1) }
        ensures keyed { Keyed (B.blocks store.now) self.new }
        ensures tables { IfSome result (λ _. key_tables (B.blocks store.now) self.new ≡ removed same_key (key_tables (B.blocks store.now) self.old) key.now) }
        ensures none { IfNone result ((self.new ≡ self.old) × Lacks (B.blocks store.now) self.old key.now) }
        ensures map { content (B.blocks store.now) self.new ≡ remove (content (B.blocks store.now) self.old) key.now }
        ensures had { get (content (B.blocks store.now) self.old) key.now ≡ value_taken result }
        ensures grown { Grown (hash_of self.old.seed) (key_tables (B.blocks store.now) self.old) (key_tables (B.blocks store.now) self.new) }
    {
        if let Some(spot) = self.search(Side::Older, store, hash, key) {
            return Some(self.take(Side::Older, hash, spot));
        }
        match self.search(Side::Newer, store, hash, key) {
            Some(spot) => Some(self.take(Side::Newer, hash, spot)),
            None => None,
        }
    }

    /// Makes one step of a rehash: passes up to ten empty buckets of the older table, and moves the first full one.
    /// `false` comes exactly where no rehash is going on.
    pub fn rehash_step(&mut self) -> bool
        ensures value { result ≡ is_rehashing (tables self.old) }
        ensures same { result ≡ false → self.new ≡ self.old }
        ensures keyed { (blocks : Blocks) → Keyed blocks self.old → Keyed blocks self.new }
        ensures items { self.new.items ≡ self.old.items }
        ensures seed { self.new.seed ≡ self.old.seed }
        ensures top { self.new.top ≡ self.old.top }
        ensures tables { (blocks : Blocks) → Keyed blocks self.old → key_tables blocks self.new ≡ rehashed (hash_of self.old.seed) (key_tables blocks self.old) 1 }
        ensures map { (blocks : Blocks) → content blocks self.new ≡ content blocks self.old }
    {
        if self.chains.buckets(Side::Newer) == 0 {
            return false;
        }
        self.position = step(&mut self.chains, self.position);
        true
    }

    /// Begins a rehash to a smaller table where none is going on, there are more than 4 buckets, and ten times the
    /// elements are fewer than the buckets. `true` comes exactly where it began one. `Memory` leaves all.
    pub fn shrink(&mut self) -> Result<bool, Memory>
        ensures value { IfOk result (λ began. began ≡ wants_shrink (tables self.old)) }
        ensures keyed { (blocks : Blocks) → Keyed blocks self.old → Keyed blocks self.new }
        ensures items { self.new.items ≡ self.old.items }
        ensures seed { self.new.seed ≡ self.old.seed }
        ensures top { self.new.top ≡ self.old.top }
        ensures tables { (blocks : Blocks) → OnOk result (key_tables blocks self.new ≡ shrunk (key_tables blocks self.old)) }
        ensures err { OnErr result (self.new ≡ self.old) }
        ensures map { (blocks : Blocks) → content blocks self.new ≡ content blocks self.old }
        ensures grown { (blocks : Blocks) → Grown (hash_of self.old.seed) (key_tables blocks self.old) (key_tables blocks self.new) }
        ensures settled { OnOk result (IsSettled (tables self.new)) }
    {
        let buckets = self.chains.buckets(Side::Older);
        let len = self.chains.len();
        if self.chains.buckets(Side::Newer) > 0
            || buckets <= FIRST_SIZE
            || len.saturating_mul(10) >= buckets
        {
            return Ok(false);
        }
        let heads = empty_heads(self.alloc, len.next_power_of_two().max(FIRST_SIZE))?;
        begin(&mut self.chains, heads);
        Ok(true)
    }

    /// The elements and the chains of the buckets.
    pub(crate) fn chains(&self) -> &Chains<V>
        ensures value { table_of result.now self.now.position self.now.seed self.now.top ≡ self.now }
        ensures placed { IsPlaced self.now }
    {
        &self.chains
    }

    /// Takes out the element that stands at a spot of the bucket of this hash.
    fn take(&mut self, side: Side, hash: u64, spot: Spot) -> (BlockRef, V)
        requires table { 0 < length (table_rows side self.old) }
        requires behind { IsBehind (bucket (table_rows side self.old) (hash % length (table_rows side self.old))) spot.before spot.at }
        ensures { Takes self.old self.new spot.at result.0 result.1 }
    {
        let number = bucket_of(hash, self.chains.buckets(side));
        let pair = self.chains.remove(side, number, spot.before, spot.at);
        self.position = end_if_moved(&mut self.chains, self.position);
        pair
    }

    /// Whether an element has the hash and the key.
    fn has_key<B: BlockStore>(&self, at: usize, store: &B, hash: u64, key: &[u8]) -> bool
        requires { Keyed (B.blocks store.now) self.now }
        ensures { MatchBool result (Stands (B.blocks store.now) self.now at key.now) (IsOther (B.blocks store.now) self.now hash key.now at) }
    {
        match self.chains.entry(at) {
            None => false,
            Some(entry) => entry.hash == hash && same_bytes(store.bytes(entry.key()), key),
        }
    }

    /// Where a key stands in a table.
    fn search<B: BlockStore>(&self, side: Side, store: &B, hash: u64, key: &[u8]) -> Option<Spot>
        requires { Keyed (B.blocks store.now) self.now }
        ensures found { IfSome result (λ spot. IsSpot (B.blocks store.now) self.now side hash key.now spot.before spot.at) }
        ensures none { IfNone result ((at : ℕ) → 0 < times at (bucket (table_rows side self.now) (hash % length (table_rows side self.now))) → IsOther (B.blocks store.now) self.now hash key.now at) }
    {
        let buckets = self.chains.buckets(side);
        if buckets == 0 {
            return None;
        }
        let mut before = None;
        for at in self.chains.chain(side, bucket_of(hash, buckets)) {
            if self.has_key(at, store, hash, key) {
                return Some(Spot { at, before });
            }
            before = Some(at);
        }
        None
    }
}
