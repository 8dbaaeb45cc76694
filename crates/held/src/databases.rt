ghost use Rattle.std.specs.Prelude.{◌≡◌, ◌≢◌, ◌<◌, ◌≤◌, ◌+◌, ◌%◌, ◌⊎◌, ℕ, List, false, Ok, IfOk, IfErr, OnOk, OnErr, Some, IfSome, IfNone, IsSome, IsTrue, length, replicate};
ghost use Rattle.std.specs.FinMap.{get, insert, remove};
ghost use Rattle.blocks.specs.Blocks.{Blocks, bytes_at};
ghost use Rattle.rehash_dict.specs.Tables.{removed, shrunk, IsSettled};
ghost use Rattle.rehash_dict.specs.Table.{table_len, tables};
ghost use Rattle.rehash_dict.specs.Keyed.{hash_of, same_key, key_tables};
ghost use Rattle.rehash_dict.specs.Steps.{Renames};
ghost use Rattle.expiry.specs.Timed.{moments, Grows, KeepsCursor};
ghost use Rattle.expiry.specs.Changes.{HasDeadline, Sets, Clears};
ghost use Rattle.expiry.specs.Found.{move_of, AreGone};
ghost use Rattle.rev_cursor.specs.Span.{times as span_times};
ghost use Rattle.held.specs.Table.{Element, item, value_at, key_at, no_keys, Stands, Lacks, Keyed, Adds, Swaps, Removes, TableGrows};
ghost use Rattle.held.specs.Sound.{IsTimed};
ghost use Rattle.held.specs.Calls.{IsDeadline, Begins, Joins, KeepsTimes};
ghost use Rattle.held.specs.Databases.{no_base, base_at, table_at, deadlines_at, ChangesBase, ChangesTable, ChangesDeadlines};
ghost use Rattle.held.specs.Gone.{IsPassed};
ghost use Rattle.held.specs.Rehash.{keys_move, deadlines_move, StepsTable, AreStill};
ghost use Rattle.held.specs.Expiry.{found_in, cursor_behind};

use blocks::{BlockRef, BlockStore, Memory};
use expiry::{Deadlines, Gone};
use object_codec::Limits;
use rehash_dict::Dict;
use std::alloc::Global;
use std::marker::Model;
use std::mem;

// How many databases there are.
const COUNT: usize = 16;

/// The keys of one database with their values, and the deadlines of those keys that have one. A key's block is named by both.
#[derive(Drop)]
pub struct Base<V> {
    keys: Dict<V>,
    deadlines: Deadlines,
}

/// The 16 databases, what every value is made with, and the number of the database whose turn the next expiry step is. The
/// calls of the keyspace alone use it.
#[derive(Drop)]
pub struct Databases<V> {
    alloc: Global,
    bases: Vec<Base<V>>,
    limits: Limits,
    seed: u64,
    turn: usize,
    // whether a table may be in a rehash: so that a rehash step of calm databases looks at no table
    stirs: bool,
}

impl<V> Model for Databases<V> {
    ghost use Rattle.held.specs.Sound.{IsTimed};
    ghost use Rattle.held.specs.Calls.{IsDeadline, Begins, Joins, KeepsTimes};
    ghost use Rattle.held.specs.Databases.{Bases};
    ghost use Rattle.held.specs.Rehash.{IsAware};

    ghost Value = { Bases V };

    ghost view = { λ d. record { bases = d.bases.items; limits = d.limits; seed = d.seed; turn = d.turn } };

    ghost invariant = { λ d. IsAware d.stirs (record { bases = d.bases.items; limits = d.limits; seed = d.seed; turn = d.turn }) };
}

// Whether a table may be in a rehash behind a call of `shrink`, by whether one may have been before it.
fn stirs_behind(stirs: bool, began: &Result<bool, Memory>) -> bool
    ensures { result ≡ false → (stirs ≡ false) × (began.now ≡ Ok false) }
{
    stirs || !matches!(began, Ok(false))
}

impl<V: Drop> Base<V> {
    // No key.
    fn new(alloc: Global, seed: u64) -> Base<V>
        ensures { result ≡ no_base seed }
    {
        Base {
            keys: Dict::new(alloc, seed),
            deadlines: Deadlines::new(alloc, seed),
        }
    }
}

impl<V: Drop> Databases<V> {
    // 16 databases without a key.
    pub(crate) fn new(alloc: Global, limits: Limits, seed: u64) -> Result<Databases<V>, Memory>
        ensures bases { IfOk result (λ bases. bases.bases ≡ replicate 16 (no_base seed)) }
        ensures limits { IfOk result (λ bases. bases.limits ≡ limits) }
        ensures seed { IfOk result (λ bases. bases.seed ≡ seed) }
        ensures turn { IfOk result (λ bases. bases.turn ≡ 0) }
    {
        let mut bases = Vec::new(alloc);
        for _ in 0..COUNT {
            bases.push(Base::new(alloc, seed))?;
        }
        Ok(Databases {
            alloc,
            bases,
            limits,
            seed,
            turn: 0,
            stirs: true,
        })
    }

    pub(crate) fn alloc(&self) -> Global {
        self.alloc
    }

    pub(crate) fn limits(&self) -> Limits
        ensures { result ≡ self.now.limits }
    {
        self.limits
    }

    pub(crate) fn seed(&self) -> u64
        ensures { result ≡ self.now.seed }
    {
        self.seed
    }

    // The key table of a database.
    pub(crate) fn table(&self, db: usize) -> &Dict<V>
        requires { db < length self.now.bases }
        ensures { result.now ≡ table_at self.now db }
    {
        &self.bases[db].keys
    }

    // The number of a database's keys.
    pub(crate) fn len(&self, db: usize) -> usize
        requires { db < length self.now.bases }
        ensures { result ≡ table_len (table_at self.now db) }
    {
        self.bases[db].keys.len()
    }

    // The hash of a key, under the seed of a database's keys.
    pub(crate) fn hash(&self, db: usize, key: &[u8]) -> u64
        requires { db < length self.now.bases }
        ensures { result ≡ hash_of (table_at self.now db).seed key.now }
    {
        self.bases[db].keys.hash(key)
    }

    // The item number of a key whose hash is at hand.
    pub(crate) fn find_hashed<B: BlockStore>(
        &self,
        store: &B,
        db: usize,
        hash: u64,
        key: &[u8],
    ) -> Option<usize>
        requires db { db < length self.now.bases }
        requires keyed { Keyed (B.blocks store.now) (table_at self.now db) }
        requires hashed { hash ≡ hash_of (table_at self.now db).seed key.now }
        ensures found { IfSome result (λ at. Stands (B.blocks store.now) (table_at self.now db) at key.now) }
        ensures none { IfNone result (Lacks (B.blocks store.now) (table_at self.now db) key.now) }
    {
        self.bases[db].keys.find_hashed(store, hash, key)
    }

    // The value of an item number.
    pub(crate) fn value(&self, db: usize, at: usize) -> &V
        requires db { db < length self.now.bases }
        requires item { IsSome (item (table_at self.now db) at) }
        ensures { value_at (item (table_at self.now db) at) ≡ Some result.now }
    {
        self.bases[db].keys.entry(at).1
    }

    // The key block of an item number.
    pub(crate) fn key(&self, db: usize, at: usize) -> BlockRef
        requires db { db < length self.now.bases }
        requires item { IsSome (item (table_at self.now db) at) }
        ensures { key_at (item (table_at self.now db) at) ≡ Some result }
    {
        self.bases[db].keys.entry(at).0
    }

    // Whether no key of a database has a deadline.
    fn has_no_deadline(&self, db: usize) -> bool
        requires { db < length self.now.bases }
        ensures { IsTrue result → (blocks : Blocks) (key : List ℕ) → Keyed blocks (deadlines_at self.now db).table → Lacks blocks (deadlines_at self.now db).table key }
    {
        self.bases[db].deadlines.table().is_empty()
    }

    // The deadline of a key, in milliseconds.
    pub(crate) fn deadline<B: BlockStore>(&self, store: &B, db: usize, key: &[u8]) -> Option<u64>
        requires db { db < length self.now.bases }
        requires keyed { Keyed (B.blocks store.now) (deadlines_at self.now db).table }
        ensures value { get (moments (B.blocks store.now) (deadlines_at self.now db)) key.now ≡ result }
        ensures found { IfSome result (λ deadline. HasDeadline (B.blocks store.now) (deadlines_at self.now db).table key.now deadline) }
    {
        if self.has_no_deadline(db) {
            return None;
        }
        self.bases[db].deadlines.get(store, key)
    }

    // The item number of the deadline of a key whose hash is at hand, and that deadline.
    pub(crate) fn timed_hashed<B: BlockStore>(
        &self,
        store: &B,
        db: usize,
        hash: u64,
        key: &[u8],
    ) -> (Option<usize>, Option<u64>)
        requires db { db < length self.now.bases }
        requires keyed { Keyed (B.blocks store.now) (deadlines_at self.now db).table }
        requires hashed { hash ≡ hash_of (deadlines_at self.now db).table.seed key.now }
        ensures stands { IfSome result.0 (λ at. Stands (B.blocks store.now) (deadlines_at self.now db).table at key.now) }
        ensures lacks { IfNone result.0 (Lacks (B.blocks store.now) (deadlines_at self.now db).table key.now) }
        ensures value { get (moments (B.blocks store.now) (deadlines_at self.now db)) key.now ≡ result.1 }
        ensures found { IfSome result.1 (λ deadline. HasDeadline (B.blocks store.now) (deadlines_at self.now db).table key.now deadline) }
    {
        if self.has_no_deadline(db) {
            return (None, None);
        }
        let table = self.bases[db].deadlines.table();
        match table.find_hashed(store, hash, key) {
            None => (None, None),
            Some(at) => (Some(at), Some(*table.entry(at).1)),
        }
    }

    // A number above each item number of a database's deadlines.
    pub(crate) fn deadlines_top(&self, db: usize) -> usize
        requires { db < length self.now.bases }
        ensures { (at : ℕ) → IsSome (item (deadlines_at self.now db).table at) → at < result }
    {
        self.bases[db].deadlines.table().top()
    }

    // The key block of an item number of the deadlines, where that deadline is past at the moment, in milliseconds.
    pub(crate) fn passed(&self, db: usize, at: usize, moment: u64) -> Option<BlockRef>
        requires { db < length self.now.bases }
        ensures passed { IfSome result (λ name. IsPassed (deadlines_at self.now db) at moment name) }
        ensures none { IfNone result ((e : Element ℕ) → item (deadlines_at self.now db).table at ≡ Some e → moment ≤ e.value) }
    {
        let deadlines = self.bases[db].deadlines.table();
        if !deadlines.is_entry(at) {
            return None;
        }
        let (name, deadline) = deadlines.entry(at);
        if moment <= *deadline {
            return None;
        }
        Some(name)
    }

    // Gives the key of this block a deadline, in milliseconds, by what was found of the one that it has: its item number.
    // `Memory` leaves all.
    pub(crate) fn set_deadline<B: BlockStore>(
        &mut self,
        store: &B,
        db: usize,
        timed: Option<usize>,
        hash: u64,
        key: BlockRef,
        deadline: u64,
    ) -> Result<(), Memory>
        requires db { db < length self.old.bases }
        requires keyed { Keyed (B.blocks store.now) (deadlines_at self.old db).table }
        requires live { IsSome (B.blocks store.now key) }
        requires hashed { hash ≡ hash_of (deadlines_at self.old db).table.seed (bytes_at (B.blocks store.now) key) }
        requires stands { IfSome timed (λ at. Stands (B.blocks store.now) (deadlines_at self.old db).table at (bytes_at (B.blocks store.now) key)) }
        requires lacks { IfNone timed (Lacks (B.blocks store.now) (deadlines_at self.old db).table (bytes_at (B.blocks store.now) key)) }
        ensures changes { ChangesDeadlines self.old self.new db }
        ensures set { OnOk result (Sets (B.blocks store.now) (deadlines_at self.old db).table (deadlines_at self.new db).table key deadline) }
        ensures grown { Grows (B.blocks store.now) (deadlines_at self.old db) (deadlines_at self.new db) }
        ensures cursor { KeepsCursor (deadlines_at self.old db) (deadlines_at self.new db) }
        ensures moments { OnOk result
            (moments (B.blocks store.now) (deadlines_at self.new db) ≡ insert (moments (B.blocks store.now) (deadlines_at self.old db)) (bytes_at (B.blocks store.now) key) deadline) }
        ensures keyed { Keyed (B.blocks store.now) (deadlines_at self.new db).table }
        ensures err { OnErr result (self.new ≡ self.old) }
    {
        self.stirs = true;
        self.bases[db]
            .deadlines
            .set_found(store, timed, hash, key, deadline)
    }

    // Takes the deadline of a key away, where it has one. The key's hash is at hand.
    pub(crate) fn clear_deadline<B: BlockStore>(
        &mut self,
        store: &B,
        db: usize,
        hash: u64,
        key: &[u8],
    )
        requires db { db < length self.old.bases }
        requires keyed { Keyed (B.blocks store.now) (deadlines_at self.old db).table }
        requires hashed { hash ≡ hash_of (deadlines_at self.old db).table.seed key.now }
        ensures changes { ChangesDeadlines self.old self.new db }
        ensures grown { Grows (B.blocks store.now) (deadlines_at self.old db) (deadlines_at self.new db) }
        ensures cursor { KeepsCursor (deadlines_at self.old db) (deadlines_at self.new db) }
        ensures moments { moments (B.blocks store.now) (deadlines_at self.new db) ≡ remove (moments (B.blocks store.now) (deadlines_at self.old db)) key.now }
        ensures cleared { Clears (B.blocks store.now) (deadlines_at self.old db).table (deadlines_at self.new db).table key.now
            ⊎ ((self.new ≡ self.old) × Lacks (B.blocks store.now) (deadlines_at self.old db).table key.now) }
        ensures keyed { Keyed (B.blocks store.now) (deadlines_at self.new db).table }
    {
        if !self.has_no_deadline(db) {
            self.stirs = true;
            let _was = self.bases[db].deadlines.clear_hashed(store, hash, key);
        }
    }

    // Begins a rehash of a database's keys to a smaller table, where they are few in theirs. `Memory` leaves all.
    pub(crate) fn shrink_keys(&mut self, db: usize) -> Result<bool, Memory>
        requires db { db < length self.old.bases }
        ensures changes { ChangesTable self.old self.new db }
        ensures items { (table_at self.new db).items ≡ (table_at self.old db).items }
        ensures seed { (table_at self.new db).seed ≡ (table_at self.old db).seed }
        ensures keyed { (blocks : Blocks) → Keyed blocks (table_at self.old db) → Keyed blocks (table_at self.new db) }
        ensures grown { (blocks : Blocks) → TableGrows blocks (table_at self.old db) (table_at self.new db) }
        ensures settled { OnOk result (IsSettled (tables (table_at self.new db))) }
        ensures tables { (blocks : Blocks) → OnOk result (key_tables blocks (table_at self.new db) ≡ shrunk (key_tables blocks (table_at self.old db))) }
        ensures err { OnErr result (table_at self.new db ≡ table_at self.old db) }
    {
        let began = self.bases[db].keys.shrink();
        self.stirs = stirs_behind(self.stirs, &began);
        began
    }

    // The same of the deadlines.
    pub(crate) fn shrink_deadlines(&mut self, db: usize) -> Result<bool, Memory>
        requires db { db < length self.old.bases }
        ensures changes { ChangesDeadlines self.old self.new db }
        ensures items { (deadlines_at self.new db).table.items ≡ (deadlines_at self.old db).table.items }
        ensures seed { (deadlines_at self.new db).table.seed ≡ (deadlines_at self.old db).table.seed }
        ensures keyed { (blocks : Blocks) → Keyed blocks (deadlines_at self.old db).table → Keyed blocks (deadlines_at self.new db).table }
        ensures grown { (blocks : Blocks) → Grows blocks (deadlines_at self.old db) (deadlines_at self.new db) }
        ensures cursor { KeepsCursor (deadlines_at self.old db) (deadlines_at self.new db) }
        ensures settled { OnOk result (IsSettled (tables (deadlines_at self.new db).table)) }
        ensures tables { (blocks : Blocks) → OnOk result (key_tables blocks (deadlines_at self.new db).table ≡ shrunk (key_tables blocks (deadlines_at self.old db).table)) }
        ensures err { OnErr result (deadlines_at self.new db ≡ deadlines_at self.old db) }
    {
        let began = self.bases[db].deadlines.shrink();
        self.stirs = stirs_behind(self.stirs, &began);
        began
    }

    // Makes one step of a rehash of a database's keys. `false` comes exactly where none is going on.
    pub(crate) fn step_keys(&mut self, db: usize) -> bool
        requires { db < length self.old.bases }
        ensures value { result ≡ keys_move self.old db }
        ensures same { result ≡ false → self.new ≡ self.old }
        ensures changes { ChangesTable self.old self.new db }
        ensures items { (table_at self.new db).items ≡ (table_at self.old db).items }
        ensures seed { (table_at self.new db).seed ≡ (table_at self.old db).seed }
        ensures keyed { (blocks : Blocks) → Keyed blocks (table_at self.old db) → Keyed blocks (table_at self.new db) }
        ensures steps { (blocks : Blocks) → Keyed blocks (table_at self.old db) → StepsTable blocks (table_at self.old db) (table_at self.new db) }
    {
        self.stirs = true;
        self.bases[db].keys.rehash_step()
    }

    // The same of the deadlines.
    pub(crate) fn step_deadlines(&mut self, db: usize) -> bool
        requires { db < length self.old.bases }
        ensures value { result ≡ deadlines_move self.old db }
        ensures same { result ≡ false → self.new ≡ self.old }
        ensures changes { ChangesDeadlines self.old self.new db }
        ensures items { (deadlines_at self.new db).table.items ≡ (deadlines_at self.old db).table.items }
        ensures seed { (deadlines_at self.new db).table.seed ≡ (deadlines_at self.old db).table.seed }
        ensures keyed { (blocks : Blocks) → Keyed blocks (deadlines_at self.old db).table → Keyed blocks (deadlines_at self.new db).table }
        ensures steps { (blocks : Blocks) → Keyed blocks (deadlines_at self.old db).table → StepsTable blocks (deadlines_at self.old db).table (deadlines_at self.new db).table }
        ensures cursor { KeepsCursor (deadlines_at self.old db) (deadlines_at self.new db) }
    {
        self.stirs = true;
        self.bases[db].deadlines.rehash_step()
    }

    // Whether a table may be in a rehash.
    pub(crate) fn stirs(&self) -> bool
        ensures { result ≡ false → AreStill self.now }
    {
        self.stirs
    }

    // Notes that no table is in a rehash.
    pub(crate) fn rest(&mut self)
        requires { AreStill self.old }
        ensures { self.new ≡ self.old }
    {
        self.stirs = false;
    }

    // The number of the database whose turn the next expiry step is.
    pub(crate) fn turn(&self) -> usize
        ensures { result ≡ self.now.turn }
    {
        self.turn
    }

    // The turn passes to the next database, and from the last one to database 0.
    pub(crate) fn pass_turn(&mut self)
        requires { self.old.turn < 16 }
        ensures { self.new ≡ record self.old { turn = (self.old.turn + 1) % 16 } }
    {
        self.turn = (self.turn + 1) % COUNT;
    }

    // Looks for keys of a database that are gone at the moment, in milliseconds, by one move of the search.
    pub(crate) fn cycle(&mut self, db: usize, moment: u64, found: &mut Gone)
        requires { db < length self.old.bases }
        ensures changes { ChangesDeadlines self.old self.new db }
        ensures table { (deadlines_at self.new db).table ≡ (deadlines_at self.old db).table }
        ensures cursor { (deadlines_at self.new db).cursor ≡ cursor_behind (deadlines_at self.old db) moment }
        ensures found { found.new ≡ found_in (deadlines_at self.old db) moment }
        ensures gone { AreGone (deadlines_at self.old db).table moment found.new }
        ensures once { (at : ℕ) → span_times at (move_of (deadlines_at self.old db)).0 ≤ 1 }
    {
        self.bases[db].deadlines.cycle(moment, found);
    }

    // Puts a value in the place of another, which it answers.
    pub(crate) fn swap_value(&mut self, db: usize, at: usize, value: V) -> V
        requires db { db < length self.old.bases }
        requires item { IsSome (item (table_at self.old db) at) }
        ensures changes { ChangesTable self.old self.new db }
        ensures swaps { Swaps (table_at self.old db) (table_at self.new db) at result value }
        ensures keyed { (blocks : Blocks) → Keyed blocks (table_at self.old db) → Keyed blocks (table_at self.new db) }
        ensures tables { (blocks : Blocks) → key_tables blocks (table_at self.new db) ≡ key_tables blocks (table_at self.old db) }
    {
        self.bases[db].keys.swap_value(at, value)
    }

    // Adds a key that is not there and whose hash is at hand, and answers its item number.
    fn insert<B: BlockStore>(
        &mut self,
        store: &B,
        db: usize,
        hash: u64,
        key: BlockRef,
        value: V,
    ) -> Result<usize, (V, Memory)>
        requires db { db < length self.old.bases }
        requires keyed { Keyed (B.blocks store.now) (table_at self.old db) }
        requires live { IsSome (B.blocks store.now key) }
        requires hashed { hash ≡ hash_of (table_at self.old db).seed (bytes_at (B.blocks store.now) key) }
        requires lacks { Lacks (B.blocks store.now) (table_at self.old db) (bytes_at (B.blocks store.now) key) }
        ensures changes { ChangesTable self.old self.new db }
        ensures adds { IfOk result (λ at. Adds (table_at self.old db) (table_at self.new db) at (record { key = key; hash = hash; value = value })) }
        ensures keyed { Keyed (B.blocks store.now) (table_at self.new db) }
        ensures grown { TableGrows (B.blocks store.now) (table_at self.old db) (table_at self.new db) }
        ensures err { OnErr result (self.new ≡ self.old) }
        ensures value_returned { IfErr result (λ e. e.0 ≡ value) }
    {
        let _ = store;
        self.stirs = true;
        self.bases[db].keys.insert_hashed(hash, key, value)
    }

    // Gives a key that is to join its deadline, where it has one. `Memory` leaves all.
    fn set_new<B: BlockStore>(
        &mut self,
        store: &B,
        db: usize,
        hash: u64,
        name: BlockRef,
        key: &[u8],
        deadline: Option<u64>,
    ) -> Result<(), Memory>
        requires db { db < length self.old.bases }
        requires timed { IsTimed (B.blocks store.now) (table_at self.old db) (deadlines_at self.old db) }
        requires named { B.blocks store.now name ≡ Some key.now }
        requires hashed { hash ≡ hash_of (deadlines_at self.old db).table.seed key.now }
        requires lacks { Lacks (B.blocks store.now) (table_at self.old db) key.now }
        requires latest { IsDeadline deadline }
        ensures begins { OnOk result (Begins self.old self.new (B.blocks store.now) db name key.now deadline) }
        ensures err { OnErr result (self.new ≡ self.old) }
    {
        let _ = key;
        match deadline {
            None => Ok(()),
            Some(deadline) => self.set_deadline(store, db, None, hash, name, deadline),
        }
    }

    // Adds a key that is not there and whose hash is at hand, with its deadline. Where memory is refused the keys stay, and so does
    // each deadline.
    pub(crate) fn insert_hashed<B: BlockStore>(
        &mut self,
        store: &B,
        db: usize,
        hash: u64,
        name: BlockRef,
        key: &[u8],
        value: V,
        deadline: Option<u64>,
    ) -> Result<(), (V, Memory)>
        requires db { db < length self.old.bases }
        requires keyed { Keyed (B.blocks store.now) (table_at self.old db) }
        requires timed { IsTimed (B.blocks store.now) (table_at self.old db) (deadlines_at self.old db) }
        requires hashed { hash ≡ hash_of (table_at self.old db).seed key.now }
        requires times_hashed { hash ≡ hash_of (deadlines_at self.old db).table.seed key.now }
        requires named { B.blocks store.now name ≡ Some key.now }
        requires lacks { Lacks (B.blocks store.now) (table_at self.old db) key.now }
        requires latest { IsDeadline deadline }
        ensures joins { OnOk result (Joins self.old self.new (B.blocks store.now) db name key.now value deadline) }
        ensures stays { OnErr result (KeepsTimes self.old self.new (B.blocks store.now) db) }
        ensures value_returned { IfErr result (λ e. e.0 ≡ value) }
    {
        if let Err(error) = self.set_new(store, db, hash, name, key, deadline) {
            return Err((value, error));
        }
        match self.insert(store, db, hash, name, value) {
            Ok(_at) => Ok(()),
            Err((value, error)) => {
                self.clear_deadline(store, db, hash, key);
                Err((value, error))
            }
        }
    }

    // Takes out a key whose hash is at hand, with its value.
    pub(crate) fn remove<B: BlockStore>(
        &mut self,
        store: &B,
        db: usize,
        hash: u64,
        key: &[u8],
    ) -> Option<(BlockRef, V)>
        requires db { db < length self.old.bases }
        requires keyed { Keyed (B.blocks store.now) (table_at self.old db) }
        requires hashed { hash ≡ hash_of (table_at self.old db).seed key.now }
        ensures changes { ChangesTable self.old self.new db }
        ensures removed { IfSome result (λ pair. Removes (B.blocks store.now) (table_at self.old db) (table_at self.new db) key.now pair.0 pair.1) }
        ensures keyed { Keyed (B.blocks store.now) (table_at self.new db) }
        ensures grown { TableGrows (B.blocks store.now) (table_at self.old db) (table_at self.new db) }
        ensures tables { IfSome result (λ _. key_tables (B.blocks store.now) (table_at self.new db) ≡ removed same_key (key_tables (B.blocks store.now) (table_at self.old db)) key.now) }
        ensures same { IfNone result (self.new ≡ self.old) }
        ensures none { IfNone result (Lacks (B.blocks store.now) (table_at self.old db) key.now) }
    {
        self.stirs = true;
        self.bases[db].keys.remove_hashed(store, hash, key)
    }

    // Takes out all keys with their values: the database has none afterwards.
    pub(crate) fn take(&mut self, db: usize) -> Dict<V>
        requires { db < length self.old.bases }
        ensures changes { ChangesBase self.old self.new db }
        ensures taken { result ≡ table_at self.old db }
        ensures none { base_at self.new db ≡ no_base self.old.seed }
    {
        let none = Base::new(self.alloc, self.seed);
        self.stirs = true;
        let was = mem::replace(&mut self.bases[db], none);
        was.keys
    }

    // The item number of a key's deadline.
    pub(crate) fn find_deadline<B: BlockStore>(
        &self,
        store: &B,
        db: usize,
        key: &[u8],
    ) -> Option<usize>
        requires db { db < length self.now.bases }
        requires keyed { Keyed (B.blocks store.now) (deadlines_at self.now db).table }
        ensures found { IfSome result (λ at. Stands (B.blocks store.now) (deadlines_at self.now db).table at key.now) }
        ensures none { IfNone result (Lacks (B.blocks store.now) (deadlines_at self.now db).table key.now) }
    {
        self.bases[db].deadlines.table().find(store, key)
    }

    // Names a key by another block, which has the same bytes.
    pub(crate) fn swap_name(&mut self, db: usize, at: usize, new: BlockRef)
        requires db { db < length self.old.bases }
        requires item { IsSome (item (table_at self.old db) at) }
        ensures changes { ChangesTable self.old self.new db }
        ensures renames { Renames (table_at self.old db) (table_at self.new db) at new }
    {
        self.stirs = true;
        self.bases[db].keys.swap_ref(at, new);
    }

    // The same of the deadline of a key.
    pub(crate) fn swap_timed(&mut self, db: usize, at: usize, new: BlockRef)
        requires db { db < length self.old.bases }
        requires item { IsSome (item (deadlines_at self.old db).table at) }
        ensures changes { ChangesDeadlines self.old self.new db }
        ensures renames { Renames (deadlines_at self.old db).table (deadlines_at self.new db).table at new }
        ensures cursor { KeepsCursor (deadlines_at self.old db) (deadlines_at self.new db) }
    {
        self.stirs = true;
        self.bases[db].deadlines.swap_ref(at, new);
    }
}
