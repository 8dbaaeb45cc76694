//! Two tables of chains over one slab of entries.

ghost use Rattle.std.specs.Prelude.{◌≡◌, ◌≢◌, ◌+◌, ◌<◌, ◌≤◌, ◌%◌, ◌^◌, ℕ, length, [], ◌∷◌, ◌++◌, Some, None, IsSome, IfSome, IfNone, OnOk, is_some, count_by, slice_index, slice_set};
ghost use Rattle.std.specs.Prelude.{replicate, IsTrue, ◌↔◌, vec_len, MatchBool};
ghost use Rattle.std.specs.Option.{option_copied};
ghost use Rattle.slab.specs.Slab.{get, slab_len, HasRoomFor};
ghost use Rattle.rehash_dict.specs.declared.chains.Entry.{Entry};
ghost use Rattle.rehash_dict.specs.Table.{Element, Chaining, at_item, Agrees, Updates};
ghost use Rattle.rehash_dict.specs.Tables.{bucket, count, put, put_all, without, no_elements};
ghost use Rattle.rehash_dict.specs.Placed.{IsSize, Stand};
ghost use Rattle.rehash_dict.specs.Chains.{element_of, key_of_entry, Links, Pops, Unlinks, chain_left};
ghost use Rattle.rehash_dict.specs.Sides.{side_rows, Changed, HasRoom, IsBehind, AddsTo, MovesOne, MovesRow, LeavesFrom, SwapsIn};

use blocks::BlockRef;
use slab::Slab;
use std::alloc::{AllocError, Global};
use std::marker::Model;
use std::mem;

// Item numbers stay below it, so that a link has 32 bits.
const MOST_ENTRIES: usize = u32::MAX as usize;

/// An element, in the chain of its bucket. A link is 0, or an item number plus one. The key's block is named by its two
/// parts, between which no byte is left: a million keys each carry one.
#[derive(Drop)]
pub(crate) struct Entry<V> {
    slab: usize,
    slot: u32,
    pub(crate) next: u32,
    pub(crate) hash: u64,
    pub(crate) value: V,
}

impl<V> Entry<V> {
    /// The key's block.
    pub(crate) fn key(&self) -> BlockRef
        ensures { result ≡ key_of_entry self.now }
    {
        BlockRef {
            slab: self.slab,
            slot: self.slot,
        }
    }
}

/// The older table, and during a rehash a newer one.
#[derive(Clone, Copy)]
pub(crate) enum Side {
    Older,
    Newer,
}

/// The elements, and the chains of the buckets. Each list of heads has a power of two of them, or none.
#[derive(Drop)]
pub(crate) struct Chains<V> {
    alloc: Global,
    entries: Slab<Entry<V>>,
    older: Vec<u32>,
    newer: Vec<u32>,
    // how many elements the older table has
    waiting: usize,
}

impl<V> Model for Chains<V> {
    ghost use Rattle.rehash_dict.specs.Table.{Chaining};
    ghost use Rattle.rehash_dict.specs.TableCode.{held_code};
    ghost use Rattle.std.specs.Prelude.{map};

    ghost Value = { Chaining V };

    ghost coded = { held_code V.code };

    ghost use Rattle.rehash_dict.specs.Chains.{element_of, room, rows, IsLinked};

    ghost view = { λ c. record { items = map element_of c.entries.slots; older = rows c.entries.slots c.older.items; newer = rows c.entries.slots c.newer.items; capacity = room c.entries } };

    ghost invariant = { λ c. IsLinked c.entries.slots c.older.items c.newer.items c.waiting };
}

/// The item numbers of a chain, from a link on.
#[derive(Drop)]
pub(crate) struct Chain<'a, V> {
    entries: &'a Slab<Entry<V>>,
    left: usize,
    link: u32,
}

impl<'a, V> Iterator for Chain<'a, V> {
    type Item = usize;

    ghost use Rattle.std.specs.Iterator.{YieldsFirst, item_count};
    ghost use Rattle.rehash_dict.specs.Chains.{chain};

    ghost next_gives = { YieldsFirst (λ c. chain c.entries.now.slots c.left c.link) };

    ghost remaining = { item_count (λ c. chain c.entries.now.slots c.left c.link) };

    fn next(&mut self) -> Option<usize> {
        if self.left == 0 || self.link == 0 {
            return None;
        }
        let at = (self.link - 1) as usize;
        match self.entries.get(at) {
            None => None,
            Some(entry) => {
                self.link = entry.next;
                self.left -= 1;
                Some(at)
            }
        }
    }
}

/// The bucket of a hash in a table of so many.
pub(crate) fn bucket_of(hash: u64, buckets: usize) -> usize
    requires size { IsSize buckets }
    requires table { 0 < buckets }
    ensures { result ≡ hash % buckets }
{
    (hash & (buckets as u64 - 1)) as usize
}

/// Puts an entry at the head of the chain of its bucket.
fn link<V>(entries: &mut Slab<Entry<V>>, heads: &mut Vec<u32>, at: usize)
    requires few { at + 1 < 2 ^ 32 }
    requires there { IsSome (get entries.old at) }
    requires size { IsSize (vec_len heads.old) }
    requires table { 0 < vec_len heads.old }
    ensures { Links entries.old heads.old.items at entries.new heads.new.items }
{
    let Some(entry) = entries.get_mut(at) else {
        unreachable!()
    };
    let bucket = bucket_of(entry.hash, heads.len());
    entry.next = heads[bucket];
    heads[bucket] = at as u32 + 1;
}

/// Takes the entry at the head of a chain out of it, where there is one.
fn pop<V>(entries: &Slab<Entry<V>>, heads: &mut Vec<u32>, number: usize) -> Option<usize>
    requires { number < vec_len heads.old }
    ensures pops { Pops entries.now heads.old.items number result heads.new.items }
    ensures few { IfSome result (λ at. at + 1 < 2 ^ 32) }
{
    let link = heads[number];
    if link == 0 {
        return None;
    }
    let at = (link - 1) as usize;
    match entries.get(at) {
        None => None,
        Some(entry) => {
            let next = entry.next;
            heads[number] = next;
            Some(at)
        }
    }
}

/// Takes an entry out of the chain of a bucket, where it stands behind another one or first.
fn unlink<V>(
    entries: &mut Slab<Entry<V>>,
    heads: &mut Vec<u32>,
    number: usize,
    before: Option<usize>,
    at: usize,
) -> (BlockRef, V)
    requires there { IsSome (get entries.old at) }
    requires table { number < vec_len heads.old }
    requires behind { IfSome before (λ p. IsSome (get entries.old p) × (p ≢ at)) }
    ensures { Unlinks entries.old heads.old.items number before at result.0 result.1 entries.new heads.new.items }
{
    let Entry {
        slab,
        slot,
        next,
        hash: _,
        value,
    } = entries.remove(at);
    match before {
        None => heads[number] = next,
        Some(before) => {
            let Some(last) = entries.get_mut(before) else {
                unreachable!()
            };
            last.next = next;
        }
    }
    (BlockRef { slab, slot }, value)
}

impl<V> Chains<V> {
    /// No element, and no table.
    pub(crate) fn new(alloc: Global) -> Self
        ensures items { result.items ≡ [] }
        ensures older { result.older ≡ [] }
        ensures newer { result.newer ≡ [] }
        ensures stand { Stand result.items result.older result.newer }
    {
        Chains {
            alloc,
            entries: Slab::new(alloc),
            older: Vec::new(alloc),
            newer: Vec::new(alloc),
            waiting: 0,
        }
    }

    /// How many elements there are.
    pub(crate) fn len(&self) -> usize
        ensures { result ≡ count_by is_some self.now.items }
    {
        self.entries.len()
    }

    /// How many elements the older table has.
    pub(crate) fn waiting(&self) -> usize
        ensures { result ≡ count self.now.older }
    {
        self.waiting
    }

    /// How many buckets a table has.
    pub(crate) fn buckets(&self, side: Side) -> usize
        ensures { result ≡ length (side_rows side self.now) }
    {
        match side {
            Side::Older => self.older.len(),
            Side::Newer => self.newer.len(),
        }
    }

    /// The item numbers of a bucket, from the head of its chain on.
    pub(crate) fn chain(&self, side: Side, number: usize) -> Chain<'_, V>
        requires { number < length (side_rows side self.now) }
        ensures { chain_left result ≡ bucket (side_rows side self.now) number }
    {
        let link = match side {
            Side::Older => self.older[number],
            Side::Newer => self.newer[number],
        };
        Chain {
            entries: &self.entries,
            left: self.entries.len(),
            link,
        }
    }

    /// Whether a bucket has no element.
    pub(crate) fn is_empty(&self, side: Side, number: usize) -> bool
        requires { number < length (side_rows side self.now) }
        ensures { IsTrue result ↔ (bucket (side_rows side self.now) number ≡ []) }
    {
        self.chain(side, number).next().is_none()
    }

    /// The element of an item number.
    pub(crate) fn entry(&self, at: usize) -> Option<&Entry<V>>
        ensures { element_of (option_copied result) ≡ at_item self.now.items at }
    {
        self.entries.get(at)
    }

    /// Makes room for one more element. `Memory` leaves all.
    pub(crate) fn reserve(&mut self) -> Result<(), AllocError>
        ensures room { OnOk result (HasRoom self.new) }
        ensures kept { self.new ≡ record self.old { capacity = self.new.capacity } }
    {
        self.entries.reserve(1)?;
        if self.entries.vacant_key() >= MOST_ENTRIES {
            return Err(AllocError);
        }
        Ok(())
    }

    /// Puts an element at the head of its bucket, where there is room for it.
    pub(crate) fn add(&mut self, side: Side, key: BlockRef, hash: u64, value: V) -> usize
        requires room { HasRoom self.old }
        requires table { 0 < length (side_rows side self.old) }
        ensures fits { result + 1 < 2 ^ 64 }
        ensures adds { AddsTo side self.old self.new result (record { key = key; hash = hash; value = value }) }
    {
        let room = self.entries.capacity();
        let BlockRef { slab, slot } = key;
        let at = self.entries.insert_reserved(Entry {
            slab,
            slot,
            next: 0,
            hash,
            value,
        });
        prove!(at < room);
        match side {
            Side::Older => {
                link(&mut self.entries, &mut self.older, at);
                self.waiting += 1;
            }
            Side::Newer => link(&mut self.entries, &mut self.newer, at),
        }
        at
    }

    /// Moves the element at the head of a bucket of the older table to the newer one, and answers whether there was
    /// one.
    pub(crate) fn move_first(&mut self, number: usize) -> bool
        requires bucket { number < length self.old.older }
        requires table { 0 < length self.old.newer }
        ensures moves { MatchBool result (MovesOne self.old self.new number) ((self.new ≡ self.old) × (bucket self.old.older number ≡ [])) }
        ensures stand { Stand self.new.items self.new.older self.new.newer }
    {
        let Some(at) = pop(&self.entries, &mut self.older, number) else {
            return false;
        };
        self.waiting -= 1;
        link(&mut self.entries, &mut self.newer, at);
        true
    }

    /// Moves all elements of a bucket of the older table to the newer one.
    pub(crate) fn move_bucket(&mut self, number: usize)
        requires bucket { number < length self.old.older }
        requires table { 0 < length self.old.newer }
        ensures { MovesRow self.old self.new number }
    {
        while self.move_first(number) {}
    }

    /// Takes an element out of its bucket, in which it stands behind another one or first.
    pub(crate) fn remove(
        &mut self,
        side: Side,
        number: usize,
        before: Option<usize>,
        at: usize,
    ) -> (BlockRef, V)
        requires bucket { number < length (side_rows side self.old) }
        requires behind { IsBehind (bucket (side_rows side self.old) number) before at }
        ensures { LeavesFrom side self.old self.new number at result.0 result.1 }
    {
        match side {
            Side::Older => {
                self.waiting -= 1;
                unlink(&mut self.entries, &mut self.older, number, before, at)
            }
            Side::Newer => unlink(&mut self.entries, &mut self.newer, number, before, at),
        }
    }

    /// Swaps the value of an element.
    pub(crate) fn swap_value(&mut self, at: usize, value: V) -> V
        requires { IsSome (at_item self.old.items at) }
        ensures { SwapsIn self.old self.new at (λ e. (e.value ≡ result) × (at_item self.new.items at ≡ Some (record e { value = value }))) }
    {
        let Some(entry) = self.entries.get_mut(at) else {
            unreachable!()
        };
        mem::replace(&mut entry.value, value)
    }

    /// Names an element's key by another block.
    pub(crate) fn swap_key(&mut self, at: usize, new: BlockRef)
        requires { IsSome (at_item self.old.items at) }
        ensures { SwapsIn self.old self.new at (λ e. at_item self.new.items at ≡ Some (record e { key = new })) }
    {
        let Some(entry) = self.entries.get_mut(at) else {
            unreachable!()
        };
        entry.slab = new.slab;
        entry.slot = new.slot;
    }

    /// Gives the side that has no bucket these empty ones.
    pub(crate) fn open(&mut self, side: Side, heads: Vec<u32>)
        requires none { side_rows side self.old ≡ [] }
        requires size { IsSize (vec_len heads) }
        requires empty { heads.items ≡ replicate (vec_len heads) 0 }
        ensures rows { Changed side self.old self.new (no_elements (vec_len heads)) }
        ensures items { self.new.items ≡ self.old.items }
        ensures capacity { self.new.capacity ≡ self.old.capacity }
        ensures stand { Stand self.new.items self.new.older self.new.newer }
    {
        match side {
            Side::Older => self.older = heads,
            Side::Newer => self.newer = heads,
        }
    }

    /// Puts the newer table in the place of the older one, which has no element left.
    pub(crate) fn end(&mut self)
        requires { count self.old.older ≡ 0 }
        ensures older { self.new.older ≡ self.old.newer }
        ensures newer { self.new.newer ≡ [] }
        ensures items { self.new.items ≡ self.old.items }
        ensures capacity { self.new.capacity ≡ self.old.capacity }
        ensures stand { Stand self.new.items self.new.older self.new.newer }
    {
        let none = Vec::new(self.alloc);
        self.older = mem::replace(&mut self.newer, none);
        self.waiting = self.entries.len();
    }
}
