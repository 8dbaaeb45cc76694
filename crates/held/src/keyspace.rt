ghost use Rattle.std.specs.Prelude.{◌≡◌, ◌≢◌, ◌<◌, ℕ, ◌++◌, [], ◌∷◌, List, Option, None, Some, IfOk, OnOk, OnErr, IfSome, IfNone, is_some, length, replicate};
ghost use Rattle.std.specs.FinMap as map;
ghost use Rattle.blocks.specs.declared.BlockRef.{BlockRef};
ghost use Rattle.blocks.specs.Blocks.{no_blocks, Changes, Owned, Served};
ghost use Rattle.object_codec.specs.Limits.{AreInRange};
ghost use Rattle.plain_world.specs.Worlds.{World, Entry, new_world, live, look, put, in_time, deadline_of};
ghost use Rattle.expiry.specs.Timed.{moments};
ghost use Rattle.held.specs.Databases.{no_base, means, owned, SameSettings, table_at, deadlines_at, with_deadline, ChangesDeadlines};
ghost use Rattle.held.specs.Sound.{IsArranged, IsIntact, IsIntactWith, Sound, SoundBeside};
ghost use Rattle.held.specs.Table.{Stands, refs, Element, item};
ghost use Rattle.object_codec.specs.declared.limits.Limits.{Limits};
ghost use Rattle.rehash_dict.specs.Keyed.{hash_of};
ghost use Rattle.held.specs.Scopes.{one_key, no_key, all_keys, AreGrown, Within, AreSettled};
ghost use Rattle.held.specs.Worlds.{without, emptied};
ghost use Rattle.held.specs.Shrinking.{Shrinks, BeginsToShrink};
ghost use Rattle.held.specs.Calls.{HasOnly, Found, StandsAt, IsPlace, IsVacant, IsDeadline, Lifts, AreParts};
ghost use Rattle.held.specs.Written.{KeepBytes};

use crate::Databases;
use blocks::{BlockRef, BlockStore, Memory};
use object_codec::Limits;
use rehash_dict::Dict;
use std::alloc::Global;
use stored::Stored;

/// A store, and the databases whose keys and values stand in its blocks. The databases are numbered below 16.
///
/// Each call asks that the databases, with a value that is handed in, name live blocks alone, and none twice. Where they are
/// all live blocks before a call, together with the values over the store that the caller has out, they are so after it.
#[derive(Drop)]
pub struct Keyspace<V, B> {
    pub store: B,
    pub bases: Databases<V>,
}

/// A value taken out of its place: the number of its database, the item number there, and the value. Between `lift` and
/// `lower` the value's blocks are the caller's, who may use the store and calls no other call of the keyspace.
#[derive(Drop)]
pub struct Lifted<V> {
    pub db: usize,
    pub item: usize,
    pub value: V,
}

// Gives back a key's block and all blocks of its value.
pub(crate) fn release_both<V: Stored, B: BlockStore>(store: &mut B, key: BlockRef, value: V)
    requires owned { Owned (key ∷ V.refs_of (B.blocks store.old) value) (B.blocks store.old) }
    requires sound { (limits : Limits) × (seed : ℕ) × V.IsSound limits seed (B.blocks store.old) value }
    ensures changes { Changes (B.blocks store.old) (B.blocks store.new) (key ∷ V.refs_of (B.blocks store.old) value) [] }
    ensures served { Served B.step store.old store.new }
{
    value.release(store);
    store.give_back(key);
}

// Gives back the blocks of all keys of a table, and all blocks of their values.
fn release_all<V: Stored, B: BlockStore>(store: &mut B, mut table: Dict<V>)
    requires owned { Owned (refs (V.refs_of (B.blocks store.old)) table) (B.blocks store.old) }
    requires sound { (limits : Limits) × (seed : ℕ) × ((at : ℕ) (e : Element V) → item table at ≡ Some e → V.IsSound limits seed (B.blocks store.old) e.value) }
    ensures changes { Changes (B.blocks store.old) (B.blocks store.new) (refs (V.refs_of (B.blocks store.old)) table) [] }
    ensures served { Served B.step store.old store.new }
{
    for at in 0..table.top() {
        if table.is_entry(at) {
            let value = table.swap_value(at, V::zero());
            let key = table.entry(at).0;
            release_both(store, key, value);
        }
    }
}

// Whether a deadline, in milliseconds, is not past at the moment: as with EXPIRE, a key stays through the moment of its
// deadline.
pub(crate) fn is_in_time(moment: u64, deadline: Option<u64>) -> bool
    ensures { result ≡ in_time moment deadline }
{
    match deadline {
        None => true,
        Some(deadline) => moment <= deadline,
    }
}

impl<V: Stored, B: BlockStore> Keyspace<V, B> {
    /// A keyspace without a key, over a store without a live block. Values are made with these limits, and hashes
    /// with this seed. Expiry steps begin at database 0.
    pub fn new(alloc: Global, store: B, limits: Limits, seed: u64) -> Result<Keyspace<V, B>, Memory>
        requires empty { B.blocks store ≡ no_blocks }
        requires limits { AreInRange limits }
        ensures means { IfOk result (λ keyspace. means V.value_of 0 keyspace.bases (B.blocks keyspace.store) ≡ new_world) }
        ensures sound { IfOk result (λ keyspace. Sound V.refs_of V.IsSound keyspace.bases (B.blocks keyspace.store)) }
        ensures store { IfOk result (λ keyspace. keyspace.store ≡ store) }
        ensures limits { IfOk result (λ keyspace. keyspace.bases.limits ≡ limits) }
        ensures seed { IfOk result (λ keyspace. keyspace.bases.seed ≡ seed) }
        ensures turn { IfOk result (λ keyspace. keyspace.bases.turn ≡ 0) }
        ensures bases { IfOk result (λ keyspace. keyspace.bases.bases ≡ replicate 16 (no_base seed)) }
        ensures grown { IfOk result (λ keyspace. AreGrown keyspace.bases (B.blocks keyspace.store)) }
    {
        let bases = Databases::new(alloc, limits, seed)?;
        Ok(Keyspace { store, bases })
    }

    /// Where memory is taken.
    pub fn alloc(&self) -> Global {
        self.bases.alloc()
    }

    /// The limits that `new` was given.
    pub fn limits(&self) -> Limits
        ensures { result ≡ self.now.bases.limits }
    {
        self.bases.limits()
    }

    /// The seed that `new` was given.
    pub fn seed(&self) -> u64
        ensures { result ≡ self.now.bases.seed }
    {
        self.bases.seed()
    }

    /// The key table of a database.
    pub fn table(&self, db: usize) -> &Dict<V>
        requires db { db < 16 }
        requires intact { IsIntact V.refs_of V.IsSound self.now.bases (B.blocks self.now.store) [] }
        ensures { result.now ≡ table_at self.now.bases db }
    {
        self.bases.table(db)
    }

    /// The number of a database's keys.
    pub fn count(&self, db: usize) -> u64
        requires db { db < 16 }
        requires intact { IsIntact V.refs_of V.IsSound self.now.bases (B.blocks self.now.store) [] }
        ensures { result ≡ map.len ((means V.value_of db self.now.bases (B.blocks self.now.store)).bases db) }
    {
        self.bases.len(db) as u64
    }

    /// The value that stands at a key at the moment, in milliseconds. `None` comes exactly where none does.
    pub fn look(&self, db: usize, key: &[u8], moment: u64) -> Option<&V>
        requires db { db < 16 }
        requires intact { IsIntact V.refs_of V.IsSound self.now.bases (B.blocks self.now.store) [] }
        ensures found { IfSome result (λ value. Found V.refs_of V.value_of self.now.bases (B.blocks self.now.store) db key.now moment value.now) }
        ensures none { IfNone result (look (live (means V.value_of db self.now.bases (B.blocks self.now.store)) moment) key.now ≡ None) }
    {
        let at = self.find(db, key, moment)?;
        Some(self.value_at(db, at))
    }

    // The item number of a key that is there at the moment.
    fn find(&self, db: usize, key: &[u8], moment: u64) -> Option<usize>
        requires db { db < 16 }
        requires arranged { IsArranged V.IsSound self.now.bases (B.blocks self.now.store) }
        ensures found { IfSome result (λ at. StandsAt self.now.bases (B.blocks self.now.store) db key.now moment at) }
        ensures none { IfNone result (look (live (means V.value_of db self.now.bases (B.blocks self.now.store)) moment) key.now ≡ None) }
    {
        self.seek_at(db, key, moment).there
    }

    /// The deadline of a key in milliseconds, whether it is past or not. `None` comes exactly where the key isn't there, or
    /// has none.
    pub fn deadline(&self, db: usize, key: &[u8]) -> Option<u64>
        requires db { db < 16 }
        requires intact { IsIntact V.refs_of V.IsSound self.now.bases (B.blocks self.now.store) [] }
        ensures value { result ≡ deadline_of (look (means V.value_of db self.now.bases (B.blocks self.now.store)) key.now) }
        ensures latest { IsDeadline result }
    {
        self.bases.deadline(&self.store, db, key)
    }

    // The key of an item number, whose hash is at hand, gets this deadline, or loses the one that it has. `Memory` leaves all.
    pub(crate) fn retime(
        &mut self,
        db: usize,
        at: usize,
        hash: u64,
        key: &[u8],
        deadline: Option<u64>,
    ) -> Result<(), Memory>
        requires db { db < 16 }
        requires arranged { IsArranged V.IsSound self.old.bases (B.blocks self.old.store) }
        requires stands { Stands (B.blocks self.old.store) (table_at self.old.bases db) at key.now }
        requires hashed { hash ≡ hash_of (table_at self.old.bases db).seed key.now }
        requires latest { IsDeadline deadline }
        ensures changes { ChangesDeadlines self.old.bases self.new.bases db }
        ensures arranged { IsArranged V.IsSound self.new.bases (B.blocks self.old.store) }
        ensures times { OnOk result
            (moments (B.blocks self.old.store) (deadlines_at self.new.bases db) ≡ with_deadline (moments (B.blocks self.old.store) (deadlines_at self.old.bases db)) key.now deadline) }
        ensures err { OnErr result (self.new.bases ≡ self.old.bases) }
        ensures store { self.new.store ≡ self.old.store }
        ensures within { Within V.refs_of (no_key db) self.old.bases self.new.bases (B.blocks self.old.store) (B.blocks self.old.store) }
    {
        match deadline {
            None => {
                self.bases.clear_deadline(&self.store, db, hash, key);
                Ok(())
            }
            Some(deadline) => {
                let timed = self.bases.timed_hashed(&self.store, db, hash, key).0;
                let name = self.bases.key(db, at);
                self.bases
                    .set_deadline(&self.store, db, timed, hash, name, deadline)
            }
        }
    }

    /// Takes out the value that stands at a key at the moment, in milliseconds; `vacant`, which owns no block,
    /// then stands there. `None` comes exactly where no value does, and then nothing changes.
    pub fn lift(&mut self, db: usize, key: &[u8], moment: u64) -> Option<Lifted<V>>
        requires db { db < 16 }
        requires intact { IsIntact V.refs_of V.IsSound self.old.bases (B.blocks self.old.store) [] }
        ensures lifts { IfSome result (λ lifted. Lifts V.refs_of V.value_of V.vacant self.old.bases self.new.bases (B.blocks self.old.store) db key.now moment lifted) }
        ensures sound { IfSome result
            (λ lifted. (out : List BlockRef) → SoundBeside V.refs_of V.IsSound self.old.bases (B.blocks self.old.store) out
            → SoundBeside V.refs_of V.IsSound self.new.bases (B.blocks self.old.store) (V.refs_of (B.blocks self.old.store) lifted.value ++ out)) }
        ensures none { IfNone result (look (live (means V.value_of db self.old.bases (B.blocks self.old.store)) moment) key.now ≡ None) }
        ensures same { IfNone result (self.new.bases ≡ self.old.bases) }
        ensures store { self.new.store ≡ self.old.store }
        ensures settings { SameSettings self.old.bases self.new.bases }
        ensures within { Within V.refs_of (one_key db key.now) self.old.bases self.new.bases (B.blocks self.old.store) (B.blocks self.old.store) }
    {
        let item = self.find(db, key, moment)?;
        Some(self.lift_at(db, item))
    }

    /// Puts a lifted value back into its place, in which `vacant` still stands.
    pub fn lower(&mut self, lifted: Lifted<V>)
        requires intact { IsIntactWith V.refs_of V.IsSound self.old.bases (B.blocks self.old.store) lifted.value }
        requires vacant { IsVacant V.vacant self.old.bases lifted.db lifted.item }
        ensures means { (key : List ℕ) (deadline : Option ℕ) → IsPlace self.old.bases (B.blocks self.old.store) lifted.db lifted.item key deadline →
            means V.value_of lifted.db self.new.bases (B.blocks self.old.store) ≡ put (means V.value_of lifted.db self.old.bases (B.blocks self.old.store)) key
            (record { value = V.value_of (B.blocks self.old.store) lifted.value; deadline = deadline }) }
        ensures sound { (all out : List BlockRef) → SoundBeside V.refs_of V.IsSound self.old.bases (B.blocks self.old.store) all → AreParts all (V.refs_of (B.blocks self.old.store) lifted.value) out
            → SoundBeside V.refs_of V.IsSound self.new.bases (B.blocks self.old.store) out }
        ensures has { (key : List ℕ) (deadline : Option ℕ) → IsPlace self.old.bases (B.blocks self.old.store) lifted.db lifted.item key deadline
            → HasOnly self.new.bases (B.blocks self.old.store) lifted.db key lifted.value }
        ensures store { self.new.store ≡ self.old.store }
        ensures settings { SameSettings self.old.bases self.new.bases }
        ensures within { (key : List ℕ) (deadline : Option ℕ) → IsPlace self.old.bases (B.blocks self.old.store) lifted.db lifted.item key deadline
            → Within V.refs_of (one_key lifted.db key) self.old.bases self.new.bases (B.blocks self.old.store) (B.blocks self.old.store) }
    {
        let Lifted { db, item, value } = lifted;
        let _zero = self.bases.swap_value(db, item, value);
    }

    /// Lets a value stand at a key, with this deadline in milliseconds or without one. What stood there is released, and its
    /// deadline goes.
    ///
    /// `Memory` leaves the keys, their deadlines and all their blocks, and releases the value that was handed in.
    pub fn put(
        &mut self,
        db: usize,
        key: &[u8],
        value: V,
        deadline: Option<u64>,
    ) -> Result<(), Memory>
        requires db { db < 16 }
        requires latest { IsDeadline deadline }
        requires intact { IsIntactWith V.refs_of V.IsSound self.old.bases (B.blocks self.old.store) value }
        ensures means { OnOk result
            (means V.value_of db self.new.bases (B.blocks self.new.store) ≡ put (means V.value_of db self.old.bases (B.blocks self.old.store)) key.now
            (record { value = V.value_of (B.blocks self.old.store) value; deadline = deadline })) }
        ensures has { OnOk result (HasOnly self.new.bases (B.blocks self.new.store) db key.now value) }
        ensures value_blocks { OnOk result (KeepBytes (B.blocks self.old.store) (B.blocks self.new.store) (V.refs_of (B.blocks self.old.store) value)) }
        ensures kept { OnErr result (means V.value_of db self.new.bases (B.blocks self.new.store) ≡ means V.value_of db self.old.bases (B.blocks self.old.store)) }
        ensures sound { (all out : List BlockRef) → SoundBeside V.refs_of V.IsSound self.old.bases (B.blocks self.old.store) all → AreParts all (V.refs_of (B.blocks self.old.store) value) out
            → SoundBeside V.refs_of V.IsSound self.new.bases (B.blocks self.new.store) out }
        ensures changes { Changes (B.blocks self.old.store) (B.blocks self.new.store) (owned (V.refs_of (B.blocks self.old.store)) self.old.bases ++ V.refs_of (B.blocks self.old.store) value)
            (owned (V.refs_of (B.blocks self.new.store)) self.new.bases) }
        ensures err_keys { OnErr result ((number : ℕ) → table_at self.new.bases number ≡ table_at self.old.bases number) }
        ensures err_blocks { OnErr result (Changes (B.blocks self.old.store) (B.blocks self.new.store) (V.refs_of (B.blocks self.old.store) value) []) }
        ensures served { Served B.step self.old.store self.new.store }
        ensures settings { SameSettings self.old.bases self.new.bases }
        ensures within { Within V.refs_of (one_key db key.now) self.old.bases self.new.bases (B.blocks self.old.store) (B.blocks self.new.store) }
    {
        let sought = self.seek(db, key);
        self.put_sought(db, key, sought, value, deadline)
    }

    /// Removes a key with all its blocks, without memory. The answer is whether it was there.
    pub fn drop_key(&mut self, db: usize, key: &[u8]) -> bool
        requires db { db < 16 }
        requires intact { IsIntact V.refs_of V.IsSound self.old.bases (B.blocks self.old.store) [] }
        ensures answer { result ≡ is_some (look (means V.value_of db self.old.bases (B.blocks self.old.store)) key.now) }
        ensures means { means V.value_of db self.new.bases (B.blocks self.new.store) ≡ without (means V.value_of db self.old.bases (B.blocks self.old.store)) key.now }
        ensures sound { (out : List BlockRef) → SoundBeside V.refs_of V.IsSound self.old.bases (B.blocks self.old.store) out
            → SoundBeside V.refs_of V.IsSound self.new.bases (B.blocks self.new.store) out }
        ensures changes { Changes (B.blocks self.old.store) (B.blocks self.new.store) (owned (V.refs_of (B.blocks self.old.store)) self.old.bases)
            (owned (V.refs_of (B.blocks self.new.store)) self.new.bases) }
        ensures served { Served B.step self.old.store self.new.store }
        ensures settings { SameSettings self.old.bases self.new.bases }
        ensures within { Within V.refs_of (no_key db) self.old.bases self.new.bases (B.blocks self.old.store) (B.blocks self.new.store) }
    {
        let hash = self.bases.hash(db, key);
        self.drop_hashed(db, hash, key)
    }

    /// Removes a key whose hash is at hand, as `drop_key` does.
    pub fn drop_hashed(&mut self, db: usize, hash: u64, key: &[u8]) -> bool
        requires db { db < 16 }
        requires intact { IsIntact V.refs_of V.IsSound self.old.bases (B.blocks self.old.store) [] }
        requires hashed { hash ≡ hash_of (table_at self.old.bases db).seed key.now }
        ensures answer { result ≡ is_some (look (means V.value_of db self.old.bases (B.blocks self.old.store)) key.now) }
        ensures means { means V.value_of db self.new.bases (B.blocks self.new.store) ≡ without (means V.value_of db self.old.bases (B.blocks self.old.store)) key.now }
        ensures sound { (out : List BlockRef) → SoundBeside V.refs_of V.IsSound self.old.bases (B.blocks self.old.store) out
            → SoundBeside V.refs_of V.IsSound self.new.bases (B.blocks self.new.store) out }
        ensures changes { Changes (B.blocks self.old.store) (B.blocks self.new.store) (owned (V.refs_of (B.blocks self.old.store)) self.old.bases)
            (owned (V.refs_of (B.blocks self.new.store)) self.new.bases) }
        ensures served { Served B.step self.old.store self.new.store }
        ensures settings { SameSettings self.old.bases self.new.bases }
        ensures within { Within V.refs_of (no_key db) self.old.bases self.new.bases (B.blocks self.old.store) (B.blocks self.new.store) }
    {
        self.bases.clear_deadline(&self.store, db, hash, key);
        let Some((at, value)) = self.bases.remove(&self.store, db, hash, key) else {
            return false;
        };
        release_both(&mut self.store, at, value);
        true
    }

    /// Removes all keys of a database with all their blocks, without memory.
    pub fn clear(&mut self, db: usize)
        requires db { db < 16 }
        requires intact { IsIntact V.refs_of V.IsSound self.old.bases (B.blocks self.old.store) [] }
        ensures means { means V.value_of db self.new.bases (B.blocks self.new.store) ≡ emptied (means V.value_of db self.old.bases (B.blocks self.old.store)) }
        ensures sound { (out : List BlockRef) → SoundBeside V.refs_of V.IsSound self.old.bases (B.blocks self.old.store) out
            → SoundBeside V.refs_of V.IsSound self.new.bases (B.blocks self.new.store) out }
        ensures changes { Changes (B.blocks self.old.store) (B.blocks self.new.store) (owned (V.refs_of (B.blocks self.old.store)) self.old.bases)
            (owned (V.refs_of (B.blocks self.new.store)) self.new.bases) }
        ensures served { Served B.step self.old.store self.new.store }
        ensures settings { SameSettings self.old.bases self.new.bases }
        ensures within { Within V.refs_of (all_keys db) self.old.bases self.new.bases (B.blocks self.old.store) (B.blocks self.new.store) }
    {
        let table = self.bases.take(db);
        release_all(&mut self.store, table);
    }

    /// Begins a rehash of a database's keys to a smaller table, and then of their deadlines, each where no rehash is going on,
    /// the table has more than 4 buckets, and ten times its elements are fewer than its buckets.
    ///
    /// `Memory` leaves the keys, their values and their deadlines; where the table of the deadlines finds none, what was begun
    /// with the keys goes on.
    pub fn shrink(&mut self, db: usize) -> Result<(), Memory>
        requires db { db < 16 }
        requires intact { IsIntact V.refs_of V.IsSound self.old.bases (B.blocks self.old.store) [] }
        ensures means { means V.value_of db self.new.bases (B.blocks self.old.store) ≡ means V.value_of db self.old.bases (B.blocks self.old.store) }
        ensures sound { (out : List BlockRef) → SoundBeside V.refs_of V.IsSound self.old.bases (B.blocks self.old.store) out
            → SoundBeside V.refs_of V.IsSound self.new.bases (B.blocks self.old.store) out }
        ensures store { self.new.store ≡ self.old.store }
        ensures settings { SameSettings self.old.bases self.new.bases }
        ensures within { Within V.refs_of (no_key db) self.old.bases self.new.bases (B.blocks self.old.store) (B.blocks self.old.store) }
        ensures settled { OnOk result (AreSettled self.new.bases db) }
        ensures shrunk { OnOk result (Shrinks self.old.bases self.new.bases db) }
        ensures err { OnErr result (BeginsToShrink self.old.bases self.new.bases db) }
    {
        let _of_keys = self.bases.shrink_keys(db)?;
        let _of_deadlines = self.bases.shrink_deadlines(db)?;
        Ok(())
    }
}
