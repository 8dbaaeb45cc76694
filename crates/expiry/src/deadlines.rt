ghost use Rattle.std.specs.Prelude.{false, ◌≡◌, ℕ, ◌+◌, ◌<◌, ◌≤◌, ◌++◌, ◌↔◌, List, [], length, take, nat_lt, nat_le, Option, Some, None, is_some, IfOk, OnOk, OnErr, IfSome, IfNone};
ghost use Rattle.std.specs.Prelude.{IsSome, IsTrue, MatchBool, if◌then◌else◌};
ghost use Rattle.blocks.specs.Blocks.{Blocks, bytes_at};
ghost use Rattle.rev_cursor.specs.Span.{Span};
ghost use Rattle.rehash_dict.specs.Tables.{is_rehashing, rehashed, shrunk, wants_shrink, IsSettled};
ghost use Rattle.rehash_dict.specs.Table.{Table, item, tables};
ghost use Rattle.rehash_dict.specs.Keyed.{hash_of, Stands, Lacks, Keyed, key_tables};
ghost use Rattle.rehash_dict.specs.Scan.{scanned};
ghost use Rattle.rehash_dict.specs.ScanPlaces.{place_in};
ghost use Rattle.rehash_dict.specs.Steps.{Renames};
ghost use Rattle.std.specs.FinMap.{empty, get, insert, remove};
ghost use Rattle.expiry.specs.Timed.{Timed, moments, no_deadline, Grows, KeepsCursor};
ghost use Rattle.expiry.specs.Found.{gone_of, gone_in, move_of, AreGone, NameAllGone};
ghost use Rattle.expiry.specs.Changes.{HasDeadline, Sets, Clears};

use crate::Memory;
use crate::gone::Gone;
use blocks::{BlockRef, BlockStore};
use rehash_dict::Dict;
use std::alloc::Global;
use std::marker::Model;

/// The deadlines of the keys of one database, in milliseconds, beside the place at which the search for keys that are gone
/// stands.
///
/// It is a dictionary whose elements are named by the blocks of their keys. These blocks belong to the table of the keys:
/// no call here places a block, writes into one or gives one back.
#[derive(Drop)]
pub struct Deadlines {
    table: Dict<u64>,
    cursor: u64,
}

impl Model for Deadlines {
    ghost use Rattle.expiry.specs.Timed.{Timed, timed_code};

    ghost Value = { Timed };

    ghost coded = { timed_code };

    ghost view = { λ d. record { table = d.table; cursor = d.cursor } };
}

impl Deadlines {
    /// No deadline, and no table. The seed is that of the hashes.
    pub fn new(alloc: Global, seed: u64) -> Deadlines
        ensures empty { result ≡ no_deadline seed }
        ensures moments { (blocks : Blocks) → moments blocks result ≡ empty }
        ensures keyed { (blocks : Blocks) → Keyed blocks result.table }
    {
        Deadlines {
            table: Dict::new(alloc, seed),
            cursor: 0,
        }
    }

    /// The dictionary from key blocks to deadlines.
    pub fn table(&self) -> &Dict<u64>
        ensures { result.now ≡ self.now.table }
    {
        &self.table
    }

    /// Makes one step of a rehash of the table. `false` comes exactly where no rehash is going on.
    pub fn rehash_step(&mut self) -> bool
        ensures value { result ≡ is_rehashing (tables self.old.table) }
        ensures same { result ≡ false → self.new ≡ self.old }
        ensures keyed { (blocks : Blocks) → Keyed blocks self.old.table → Keyed blocks self.new.table }
        ensures items { self.new.table.items ≡ self.old.table.items }
        ensures seed { self.new.table.seed ≡ self.old.table.seed }
        ensures top { self.new.table.top ≡ self.old.table.top }
        ensures tables { (blocks : Blocks) → Keyed blocks self.old.table → key_tables blocks self.new.table ≡ rehashed (hash_of self.old.table.seed) (key_tables blocks self.old.table) 1 }
        ensures moments { (blocks : Blocks) → moments blocks self.new ≡ moments blocks self.old }
        ensures cursor { KeepsCursor self.old self.new }
    {
        self.table.rehash_step()
    }

    /// Begins a rehash to a smaller table where none is going on, there are more than 4 buckets, and ten times the
    /// deadlines are fewer than the buckets. `true` comes exactly where it began one. `Memory` leaves all.
    pub fn shrink(&mut self) -> Result<bool, Memory>
        ensures value { IfOk result (λ began. began ≡ wants_shrink (tables self.old.table)) }
        ensures keyed { (blocks : Blocks) → Keyed blocks self.old.table → Keyed blocks self.new.table }
        ensures items { self.new.table.items ≡ self.old.table.items }
        ensures seed { self.new.table.seed ≡ self.old.table.seed }
        ensures top { self.new.table.top ≡ self.old.table.top }
        ensures tables { (blocks : Blocks) → OnOk result (key_tables blocks self.new.table ≡ shrunk (key_tables blocks self.old.table)) }
        ensures moments { (blocks : Blocks) → moments blocks self.new ≡ moments blocks self.old }
        ensures grown { (blocks : Blocks) → Grows blocks self.old self.new }
        ensures settled { OnOk result (IsSettled (tables self.new.table)) }
        ensures cursor { KeepsCursor self.old self.new }
        ensures err { OnErr result (self.new ≡ self.old) }
    {
        self.table.shrink()
    }

    /// Names a key by another block, which has the same bytes.
    pub fn swap_ref(&mut self, at: usize, new: BlockRef)
        requires { IsSome (item self.old.table at) }
        ensures renames { Renames self.old.table self.new.table at new }
        ensures cursor { KeepsCursor self.old self.new }
    {
        self.table.swap_ref(at, new);
    }

    /// Gives a key this deadline, in place of the one that it may have.
    ///
    /// A key that has one keeps its element, and the block that names it there; else the block handed in names it. `Memory`
    /// leaves all, and comes only where the key had no deadline.
    pub fn set<B: BlockStore>(
        &mut self,
        store: &B,
        key: BlockRef,
        deadline: u64,
    ) -> Result<(), Memory>
        requires keyed { Keyed (B.blocks store.now) self.old.table }
        requires live { IsSome (B.blocks store.now key) }
        ensures set { OnOk result (Sets (B.blocks store.now) self.old.table self.new.table key deadline) }
        ensures moments { OnOk result (moments (B.blocks store.now) self.new ≡ insert (moments (B.blocks store.now) self.old) (bytes_at (B.blocks store.now) key) deadline) }
        ensures grown { Grows (B.blocks store.now) self.old self.new }
        ensures keyed { Keyed (B.blocks store.now) self.new.table }
        ensures cursor { KeepsCursor self.old self.new }
        ensures err { OnErr result ((self.new ≡ self.old) × Lacks (B.blocks store.now) self.old.table (bytes_at (B.blocks store.now) key)) }
    {
        let hash = self.table.hash(store.bytes(key));
        self.set_hashed(store, hash, key, deadline)
    }

    /// Gives a key whose hash is at hand this deadline, as `set` does.
    pub fn set_hashed<B: BlockStore>(
        &mut self,
        store: &B,
        hash: u64,
        key: BlockRef,
        deadline: u64,
    ) -> Result<(), Memory>
        requires keyed { Keyed (B.blocks store.now) self.old.table }
        requires live { IsSome (B.blocks store.now key) }
        requires hashed { hash ≡ hash_of self.old.table.seed (bytes_at (B.blocks store.now) key) }
        ensures set { OnOk result (Sets (B.blocks store.now) self.old.table self.new.table key deadline) }
        ensures moments { OnOk result (moments (B.blocks store.now) self.new ≡ insert (moments (B.blocks store.now) self.old) (bytes_at (B.blocks store.now) key) deadline) }
        ensures grown { Grows (B.blocks store.now) self.old self.new }
        ensures keyed { Keyed (B.blocks store.now) self.new.table }
        ensures cursor { KeepsCursor self.old self.new }
        ensures err { OnErr result ((self.new ≡ self.old) × Lacks (B.blocks store.now) self.old.table (bytes_at (B.blocks store.now) key)) }
    {
        let found = self.table.find_hashed(store, hash, store.bytes(key));
        self.set_found(store, found, hash, key, deadline)
    }

    /// Gives a key this deadline, as `set` does. The item number of the deadline that it has is handed in, and that it has none
    /// by `None`.
    pub fn set_found<B: BlockStore>(
        &mut self,
        store: &B,
        found: Option<usize>,
        hash: u64,
        key: BlockRef,
        deadline: u64,
    ) -> Result<(), Memory>
        requires keyed { Keyed (B.blocks store.now) self.old.table }
        requires live { IsSome (B.blocks store.now key) }
        requires hashed { hash ≡ hash_of self.old.table.seed (bytes_at (B.blocks store.now) key) }
        requires stands { IfSome found (λ at. Stands (B.blocks store.now) self.old.table at (bytes_at (B.blocks store.now) key)) }
        requires lacks { IfNone found (Lacks (B.blocks store.now) self.old.table (bytes_at (B.blocks store.now) key)) }
        ensures set { OnOk result (Sets (B.blocks store.now) self.old.table self.new.table key deadline) }
        ensures moments { OnOk result (moments (B.blocks store.now) self.new ≡ insert (moments (B.blocks store.now) self.old) (bytes_at (B.blocks store.now) key) deadline) }
        ensures grown { Grows (B.blocks store.now) self.old self.new }
        ensures keyed { Keyed (B.blocks store.now) self.new.table }
        ensures cursor { KeepsCursor self.old self.new }
        ensures err { OnErr result ((self.new ≡ self.old) × Lacks (B.blocks store.now) self.old.table (bytes_at (B.blocks store.now) key)) }
    {
        // what was found, and the key's bytes, are those over this store
        let _ = store;
        match found {
            Some(at) => {
                let _was = self.table.swap_value(at, deadline);
                Ok(())
            }
            None => match self.table.insert_hashed(hash, key, deadline) {
                Ok(_at) => Ok(()),
                Err((_deadline, error)) => Err(error),
            },
        }
    }

    /// The deadline of a key. `None` comes exactly where it has none.
    pub fn get<B: BlockStore>(&self, store: &B, key: &[u8]) -> Option<u64>
        requires { Keyed (B.blocks store.now) self.now.table }
        ensures moments { get (moments (B.blocks store.now) self.now) key.now ≡ result }
        ensures found { IfSome result (λ deadline. HasDeadline (B.blocks store.now) self.now.table key.now deadline) }
        ensures none { IfNone result (Lacks (B.blocks store.now) self.now.table key.now) }
    {
        let at = self.table.find(store, key)?;
        let (_key, deadline) = self.table.entry(at);
        Some(*deadline)
    }

    /// Takes a key's deadline away. `false` comes exactly where it has none, and leaves all.
    ///
    /// The key's block stays: it belongs to the table of the keys.
    pub fn clear<B: BlockStore>(&mut self, store: &B, key: &[u8]) -> bool
        requires { Keyed (B.blocks store.now) self.old.table }
        ensures value { result ≡ is_some (get (moments (B.blocks store.now) self.old) key.now) }
        ensures moments { moments (B.blocks store.now) self.new ≡ remove (moments (B.blocks store.now) self.old) key.now }
        ensures grown { Grows (B.blocks store.now) self.old self.new }
        ensures cleared { MatchBool result (Clears (B.blocks store.now) self.old.table self.new.table key.now) ((self.new ≡ self.old) × Lacks (B.blocks store.now) self.old.table key.now) }
        ensures keyed { Keyed (B.blocks store.now) self.new.table }
        ensures cursor { KeepsCursor self.old self.new }
    {
        let hash = self.table.hash(key);
        self.clear_hashed(store, hash, key)
    }

    /// Takes away the deadline of a key whose hash is at hand, as `clear` does.
    pub fn clear_hashed<B: BlockStore>(&mut self, store: &B, hash: u64, key: &[u8]) -> bool
        requires keyed { Keyed (B.blocks store.now) self.old.table }
        requires hashed { hash ≡ hash_of self.old.table.seed key.now }
        ensures value { result ≡ is_some (get (moments (B.blocks store.now) self.old) key.now) }
        ensures moments { moments (B.blocks store.now) self.new ≡ remove (moments (B.blocks store.now) self.old) key.now }
        ensures grown { Grows (B.blocks store.now) self.old self.new }
        ensures cleared { MatchBool result (Clears (B.blocks store.now) self.old.table self.new.table key.now) ((self.new ≡ self.old) × Lacks (B.blocks store.now) self.old.table key.now) }
        ensures keyed { Keyed (B.blocks store.now) self.new.table }
        ensures cursor { KeepsCursor self.old self.new }
    {
        match self.table.remove_hashed(store, hash, key) {
            Some(_pair) => true,
            None => false,
        }
    }

    /// Looks for keys that are gone at a moment, by one scan move at the kept cursor. `found` has then those of the move, and
    /// where they are more than 16 the first 16 of them; what it had before is out.
    ///
    /// The next cycle goes on behind the move. Where more than 16 were gone it comes back to the same move.
    pub fn cycle(&mut self, moment: u64, found: &mut Gone)
        ensures found { found.new ≡ take 16 (gone_in self.old moment) }
        ensures cursor { self.new.cursor ≡ (if nat_lt 16 (length (gone_in self.old moment)) then self.old.cursor else (move_of self.old).1) }
        ensures table { self.new.table ≡ self.old.table }

        // No other key is found, and none between the cursors is left out but where more than 16 are gone.
        ensures gone { AreGone self.old.table moment found.new }
        ensures whole { length (gone_in self.old moment) ≤ 16 → NameAllGone self.old.table moment self.old.cursor self.new.cursor found.new }

        // The move gives each element whose place lies from its cursor to the next one, once.
        ensures spans { Span (λ at. place_in (item self.old.table at)) self.old.cursor (move_of self.old).1 (move_of self.old).0 }
    {
        if gather(&self.table, self.cursor, moment, found) {
            self.cursor = self.table.scan_end(self.cursor);
        }
    }
}

/// Gathers the key blocks of a move that are gone at a moment, and answers whether 16 were enough for them.
fn gather(table: &Dict<u64>, cursor: u64, moment: u64, found: &mut Gone) -> bool
    ensures found { found.new ≡ take 16 (gone_of table.now moment (scanned table.now.older table.now.newer cursor).0) }
    ensures all { result ≡ nat_le (length (gone_of table.now moment (scanned table.now.older table.now.newer cursor).0)) 16 }
    ensures spans { Span (λ at. place_in (item table.now at)) cursor (scanned table.now.older table.now.newer cursor).1 (scanned table.now.older table.now.newer cursor).0 }
{
    found.clear();
    // the elements stand in their buckets, so the move gives none of them twice
    let _len = table.len();
    let mut next = table.scan_first(cursor);
    while let Some(at) = next {
        let (key, deadline) = table.entry(at);
        if *deadline < moment {
            if found.is_full() {
                return false;
            }
            found.push(key);
        }
        next = table.scan_after(cursor, at);
    }
    true
}
