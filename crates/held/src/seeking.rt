ghost use Rattle.std.specs.Prelude.{◌≡◌, ◌<◌, ℕ, ◌++◌, [], List, Option, None, Some, IfErr, IfOk, OnOk, OnErr, IfSome, IfNone, IsSome, is_some};
ghost use Rattle.blocks.specs.declared.BlockRef.{BlockRef};
ghost use Rattle.blocks.specs.Blocks.{Changes, Served, times};
ghost use Rattle.plain_world.specs.Worlds.{Entry, live, look, put};
ghost use Rattle.rehash_dict.specs.Keyed.{hash_of};
ghost use Rattle.expiry.specs.Timed.{moments};
ghost use Rattle.held.specs.Databases.{means, owned, SameSettings, table_at, deadlines_at, with_deadline, ChangesDeadlines};
ghost use Rattle.held.specs.Sound.{IsArranged, IsIntact, IsIntactWith, SoundBeside};
ghost use Rattle.held.specs.Table.{item, Stands, Lacks};
ghost use Rattle.held.specs.Scopes.{one_key, no_key, Within};
ghost use Rattle.held.specs.Calls.{HasOnly, Found, StandsAt, Seeks, IsDeadline, Lifts, AreParts, Sees};
ghost use Rattle.held.specs.Written.{KeepBytes};

use crate::keyspace::is_in_time;
use crate::{Keyspace, Lifted};
use blocks::{BlockStore, Memory, put_block};
use std::alloc::AllocError;
use stored::Stored;

/// What a search for a key found. It holds as long as no key joins its database or leaves it.
#[derive(Clone, Copy)]
pub struct Sought {
    /// The hash of the key.
    pub hash: u64,
    /// Its item number, whether it is gone or not. `None` where it has none.
    pub item: Option<usize>,
}

/// What a search for a key and for its deadline found, and what is seen of the key at a moment. It holds as long as no key
/// joins its database or leaves it, and no deadline either.
#[derive(Clone, Copy)]
pub struct SoughtAt {
    pub sought: Sought,
    /// The item number of its deadline. `None` where it has none.
    pub timed: Option<usize>,
    /// The item number of the key, where it is there at the moment.
    pub there: Option<usize>,
    /// The deadline of the key in milliseconds, whether it is past or not.
    pub deadline: Option<u64>,
}

impl<V: Stored, B: BlockStore> Keyspace<V, B> {
    /// Seeks a key: it is hashed once, and searched for once in the table of the keys.
    pub fn seek(&self, db: usize, key: &[u8]) -> Sought
        requires db { db < 16 }
        requires arranged { IsArranged V.IsSound self.now.bases (B.blocks self.now.store) }
        ensures { Seeks self.now.bases (B.blocks self.now.store) db key.now result }
    {
        let hash = self.bases.hash(db, key);
        let item = self.bases.find_hashed(&self.store, db, hash, key);
        Sought { hash, item }
    }

    /// Seeks a key, and its deadline by the same hash, to say whether it is there at the moment, in milliseconds.
    pub fn seek_at(&self, db: usize, key: &[u8], moment: u64) -> SoughtAt
        requires db { db < 16 }
        requires arranged { IsArranged V.IsSound self.now.bases (B.blocks self.now.store) }
        ensures { Sees V.value_of self.now.bases (B.blocks self.now.store) db key.now moment result }
    {
        let sought = self.seek(db, key);
        match sought.item {
            None => SoughtAt {
                sought,
                timed: None,
                there: None,
                deadline: None,
            },
            Some(at) => {
                let (timed, deadline) = self.bases.timed_hashed(&self.store, db, sought.hash, key);
                if !is_in_time(moment, deadline) {
                    return SoughtAt {
                        sought,
                        timed,
                        there: None,
                        deadline,
                    };
                }
                SoughtAt {
                    sought,
                    timed,
                    there: Some(at),
                    deadline,
                }
            }
        }
    }

    /// The value of an item number.
    pub fn value_at(&self, db: usize, at: usize) -> &V
        requires db { db < 16 }
        requires intact { IsIntact V.refs_of V.IsSound self.now.bases (B.blocks self.now.store) [] }
        requires item { IsSome (item (table_at self.now.bases db) at) }
        ensures { (key : List ℕ) (moment : ℕ) → StandsAt self.now.bases (B.blocks self.now.store) db key moment at
            → Found V.refs_of V.value_of self.now.bases (B.blocks self.now.store) db key moment result.now }
    {
        self.bases.value(db, at)
    }

    /// Takes out the value of an item number; `vacant`, which owns no block, then stands there.
    pub fn lift_at(&mut self, db: usize, at: usize) -> Lifted<V>
        requires db { db < 16 }
        requires intact { IsIntact V.refs_of V.IsSound self.old.bases (B.blocks self.old.store) [] }
        requires item { IsSome (item (table_at self.old.bases db) at) }
        ensures lifts { (key : List ℕ) (moment : ℕ) → StandsAt self.old.bases (B.blocks self.old.store) db key moment at
            → Lifts V.refs_of V.value_of V.vacant self.old.bases self.new.bases (B.blocks self.old.store) db key moment result }
        ensures sound { (key : List ℕ) (moment : ℕ) → StandsAt self.old.bases (B.blocks self.old.store) db key moment at → (out : List BlockRef)
            → SoundBeside V.refs_of V.IsSound self.old.bases (B.blocks self.old.store) out
            → SoundBeside V.refs_of V.IsSound self.new.bases (B.blocks self.old.store) (V.refs_of (B.blocks self.old.store) result.value ++ out) }
        ensures within { (key : List ℕ) (moment : ℕ) → StandsAt self.old.bases (B.blocks self.old.store) db key moment at
            → Within V.refs_of (one_key db key) self.old.bases self.new.bases (B.blocks self.old.store) (B.blocks self.old.store) }
        ensures store { self.new.store ≡ self.old.store }
        ensures settings { SameSettings self.old.bases self.new.bases }
    {
        let value = self.bases.swap_value(db, at, V::zero());
        Lifted {
            db,
            item: at,
            value,
        }
    }

    /// Gives a key another deadline, in milliseconds, or takes the one away that it has, as `set_sought` does.
    pub fn set_deadline(&mut self, db: usize, key: &[u8], to: Option<u64>) -> Result<bool, Memory>
        requires db { db < 16 }
        requires intact { IsIntact V.refs_of V.IsSound self.old.bases (B.blocks self.old.store) [] }
        requires latest { IsDeadline to }
        ensures answer { IfOk result (λ there. there ≡ is_some (look (means V.value_of db self.old.bases (B.blocks self.old.store)) key.now)) }
        ensures means { OnOk result
            ((entry : Entry) → look (means V.value_of db self.old.bases (B.blocks self.old.store)) key.now ≡ Some entry
            → means V.value_of db self.new.bases (B.blocks self.old.store) ≡ put (means V.value_of db self.old.bases (B.blocks self.old.store)) key.now
            (record { value = entry.value; deadline = to })) }
        ensures absent { look (means V.value_of db self.old.bases (B.blocks self.old.store)) key.now ≡ None → self.new.bases ≡ self.old.bases }
        ensures err { OnErr result (self.new.bases ≡ self.old.bases) }
        ensures sound { (out : List BlockRef) → SoundBeside V.refs_of V.IsSound self.old.bases (B.blocks self.old.store) out
            → SoundBeside V.refs_of V.IsSound self.new.bases (B.blocks self.old.store) out }
        ensures store { self.new.store ≡ self.old.store }
        ensures settings { SameSettings self.old.bases self.new.bases }
        ensures within { Within V.refs_of (no_key db) self.old.bases self.new.bases (B.blocks self.old.store) (B.blocks self.old.store) }
    {
        let found = self.seek_at(db, key, 0);
        self.set_sought(db, key, found, to)
    }

    /// Gives a key that was sought with its deadline another one, in milliseconds, or takes the one away that it has. The answer
    /// is whether the key is there, whether it is gone or not; where it isn't, nothing changes.
    ///
    /// `Memory` leaves all.
    pub fn set_sought(
        &mut self,
        db: usize,
        key: &[u8],
        found: SoughtAt,
        to: Option<u64>,
    ) -> Result<bool, Memory>
        requires db { db < 16 }
        requires intact { IsIntact V.refs_of V.IsSound self.old.bases (B.blocks self.old.store) [] }
        requires seeks { Seeks self.old.bases (B.blocks self.old.store) db key.now found.sought }
        requires timed { IfSome found.timed (λ at. Stands (B.blocks self.old.store) (deadlines_at self.old.bases db).table at key.now) }
        requires untimed { IfNone found.timed (Lacks (B.blocks self.old.store) (deadlines_at self.old.bases db).table key.now) }
        requires latest { IsDeadline to }
        ensures answer { IfOk result (λ there. there ≡ is_some (look (means V.value_of db self.old.bases (B.blocks self.old.store)) key.now)) }
        ensures means { OnOk result
            ((entry : Entry) → look (means V.value_of db self.old.bases (B.blocks self.old.store)) key.now ≡ Some entry
            → means V.value_of db self.new.bases (B.blocks self.old.store) ≡ put (means V.value_of db self.old.bases (B.blocks self.old.store)) key.now
            (record { value = entry.value; deadline = to })) }
        ensures absent { look (means V.value_of db self.old.bases (B.blocks self.old.store)) key.now ≡ None → self.new.bases ≡ self.old.bases }
        ensures err { OnErr result (self.new.bases ≡ self.old.bases) }
        ensures sound { (out : List BlockRef) → SoundBeside V.refs_of V.IsSound self.old.bases (B.blocks self.old.store) out
            → SoundBeside V.refs_of V.IsSound self.new.bases (B.blocks self.old.store) out }
        ensures store { self.new.store ≡ self.old.store }
        ensures settings { SameSettings self.old.bases self.new.bases }
        ensures within { Within V.refs_of (no_key db) self.old.bases self.new.bases (B.blocks self.old.store) (B.blocks self.old.store) }
    {
        match found.sought.item {
            None => Ok(false),
            Some(at) => {
                self.retime_found(db, at, found.sought.hash, found.timed, key, to)?;
                Ok(true)
            }
        }
    }

    // Gives the key of an item number this deadline, or takes the one away that it has, by what was found of that: its item
    // number. `Memory` leaves all.
    fn retime_found(
        &mut self,
        db: usize,
        at: usize,
        hash: u64,
        timed: Option<usize>,
        key: &[u8],
        deadline: Option<u64>,
    ) -> Result<(), Memory>
        requires db { db < 16 }
        requires arranged { IsArranged V.IsSound self.old.bases (B.blocks self.old.store) }
        requires stands { Stands (B.blocks self.old.store) (table_at self.old.bases db) at key.now }
        requires hashed { hash ≡ hash_of (table_at self.old.bases db).seed key.now }
        requires timed { IfSome timed (λ item. Stands (B.blocks self.old.store) (deadlines_at self.old.bases db).table item key.now) }
        requires untimed { IfNone timed (Lacks (B.blocks self.old.store) (deadlines_at self.old.bases db).table key.now) }
        requires latest { IsDeadline deadline }
        ensures changes { ChangesDeadlines self.old.bases self.new.bases db }
        ensures arranged { IsArranged V.IsSound self.new.bases (B.blocks self.old.store) }
        ensures times { OnOk result
            (moments (B.blocks self.old.store) (deadlines_at self.new.bases db) ≡ with_deadline (moments (B.blocks self.old.store) (deadlines_at self.old.bases db)) key.now deadline) }
        ensures err { OnErr result (self.new.bases ≡ self.old.bases) }
        ensures store { self.new.store ≡ self.old.store }
        ensures within { Within V.refs_of (no_key db) self.old.bases self.new.bases (B.blocks self.old.store) (B.blocks self.old.store) }
    {
        match deadline {
            None => match timed {
                None => Ok(()),
                Some(_) => {
                    self.bases.clear_deadline(&self.store, db, hash, key);
                    Ok(())
                }
            },
            Some(deadline) => {
                let name = self.bases.key(db, at);
                self.bases
                    .set_deadline(&self.store, db, timed, hash, name, deadline)
            }
        }
    }

    // Lets a value stand at a key that was sought, with this deadline or without one. What stood there is released, and its
    // deadline goes. Where memory is refused no block changes, no key and no deadline, and the value is handed back.
    pub(crate) fn place_sought(
        &mut self,
        db: usize,
        key: &[u8],
        sought: Sought,
        value: V,
        deadline: Option<u64>,
    ) -> Result<(), V>
        requires db { db < 16 }
        requires latest { IsDeadline deadline }
        requires intact { IsIntactWith V.refs_of V.IsSound self.old.bases (B.blocks self.old.store) value }
        requires seeks { Seeks self.old.bases (B.blocks self.old.store) db key.now sought }
        ensures means { OnOk result
            (means V.value_of db self.new.bases (B.blocks self.new.store) ≡ put (means V.value_of db self.old.bases (B.blocks self.old.store)) key.now
            (record { value = V.value_of (B.blocks self.old.store) value; deadline = deadline })) }
        ensures has { OnOk result (HasOnly self.new.bases (B.blocks self.new.store) db key.now value) }
        ensures value_blocks { OnOk result (KeepBytes (B.blocks self.old.store) (B.blocks self.new.store) (V.refs_of (B.blocks self.old.store) value)) }
        ensures kept { OnErr result (means V.value_of db self.new.bases (B.blocks self.new.store) ≡ means V.value_of db self.old.bases (B.blocks self.old.store)) }
        ensures arranged { IsArranged V.IsSound self.new.bases (B.blocks self.new.store) }
        ensures changes { OnOk result
            (Changes (B.blocks self.old.store) (B.blocks self.new.store) (owned (V.refs_of (B.blocks self.old.store)) self.old.bases ++ V.refs_of (B.blocks self.old.store) value)
            (owned (V.refs_of (B.blocks self.new.store)) self.new.bases)) }
        ensures err_blocks { OnErr result (B.blocks self.new.store ≡ B.blocks self.old.store) }
        ensures err_keys { OnErr result ((number : ℕ) → table_at self.new.bases number ≡ table_at self.old.bases number) }
        ensures err_owned { OnErr result
            ((r : BlockRef) → times r (owned (V.refs_of (B.blocks self.new.store)) self.new.bases) ≡ times r (owned (V.refs_of (B.blocks self.old.store)) self.old.bases)) }
        ensures value_returned { IfErr result (λ refused. refused ≡ value) }
        ensures served { Served B.step self.old.store self.new.store }
        ensures settings { SameSettings self.old.bases self.new.bases }
        ensures within { Within V.refs_of (one_key db key.now) self.old.bases self.new.bases (B.blocks self.old.store) (B.blocks self.new.store) }
    {
        match sought.item {
            None => self.place_first(db, key, sought.hash, value, deadline),
            Some(at) => {
                if let Err(_error) = self.retime(db, at, sought.hash, key, deadline) {
                    return Err(value);
                }
                let was = self.bases.swap_value(db, at, value);
                was.release(&mut self.store);
                Ok(())
            }
        }
    }

    // The same where nothing stands at the key, whose hash is at hand.
    fn place_first(
        &mut self,
        db: usize,
        key: &[u8],
        hash: u64,
        value: V,
        deadline: Option<u64>,
    ) -> Result<(), V>
        requires db { db < 16 }
        requires latest { IsDeadline deadline }
        requires intact { IsIntactWith V.refs_of V.IsSound self.old.bases (B.blocks self.old.store) value }
        requires hashed { hash ≡ hash_of (table_at self.old.bases db).seed key.now }
        requires lacks { Lacks (B.blocks self.old.store) (table_at self.old.bases db) key.now }
        ensures means { OnOk result
            (means V.value_of db self.new.bases (B.blocks self.new.store) ≡ put (means V.value_of db self.old.bases (B.blocks self.old.store)) key.now
            (record { value = V.value_of (B.blocks self.old.store) value; deadline = deadline })) }
        ensures has { OnOk result (HasOnly self.new.bases (B.blocks self.new.store) db key.now value) }
        ensures value_blocks { OnOk result (KeepBytes (B.blocks self.old.store) (B.blocks self.new.store) (V.refs_of (B.blocks self.old.store) value)) }
        ensures kept { OnErr result (means V.value_of db self.new.bases (B.blocks self.new.store) ≡ means V.value_of db self.old.bases (B.blocks self.old.store)) }
        ensures arranged { IsArranged V.IsSound self.new.bases (B.blocks self.new.store) }
        ensures changes { OnOk result
            (Changes (B.blocks self.old.store) (B.blocks self.new.store) (owned (V.refs_of (B.blocks self.old.store)) self.old.bases ++ V.refs_of (B.blocks self.old.store) value)
            (owned (V.refs_of (B.blocks self.new.store)) self.new.bases)) }
        ensures err_blocks { OnErr result (B.blocks self.new.store ≡ B.blocks self.old.store) }
        ensures err_keys { OnErr result ((number : ℕ) → table_at self.new.bases number ≡ table_at self.old.bases number) }
        ensures err_owned { OnErr result
            ((r : BlockRef) → times r (owned (V.refs_of (B.blocks self.new.store)) self.new.bases) ≡ times r (owned (V.refs_of (B.blocks self.old.store)) self.old.bases)) }
        ensures value_returned { IfErr result (λ refused. refused ≡ value) }
        ensures served { Served B.step self.old.store self.new.store }
        ensures settings { SameSettings self.old.bases self.new.bases }
        ensures within { Within V.refs_of (one_key db key.now) self.old.bases self.new.bases (B.blocks self.old.store) (B.blocks self.new.store) }
    {
        let Ok(at) = put_block(&mut self.store, key) else {
            return Err(value);
        };
        match self
            .bases
            .insert_hashed(&self.store, db, hash, at, key, value, deadline)
        {
            Ok(()) => Ok(()),
            Err((value, _)) => {
                self.store.give_back(at);
                Err(value)
            }
        }
    }

    /// Lets a value stand at a key that was sought, as `put` does.
    pub fn put_sought(
        &mut self,
        db: usize,
        key: &[u8],
        sought: Sought,
        value: V,
        deadline: Option<u64>,
    ) -> Result<(), Memory>
        requires db { db < 16 }
        requires latest { IsDeadline deadline }
        requires intact { IsIntactWith V.refs_of V.IsSound self.old.bases (B.blocks self.old.store) value }
        requires seeks { Seeks self.old.bases (B.blocks self.old.store) db key.now sought }
        ensures means { OnOk result
            (means V.value_of db self.new.bases (B.blocks self.new.store) ≡ put (means V.value_of db self.old.bases (B.blocks self.old.store)) key.now
            (record { value = V.value_of (B.blocks self.old.store) value; deadline = deadline })) }
        ensures has { OnOk result (HasOnly self.new.bases (B.blocks self.new.store) db key.now value) }
        ensures value_blocks { OnOk result (KeepBytes (B.blocks self.old.store) (B.blocks self.new.store) (V.refs_of (B.blocks self.old.store) value)) }
        ensures kept { OnErr result (means V.value_of db self.new.bases (B.blocks self.new.store) ≡ means V.value_of db self.old.bases (B.blocks self.old.store)) }
        ensures sound { (all out : List BlockRef) → SoundBeside V.refs_of V.IsSound self.old.bases (B.blocks self.old.store) all → AreParts all (V.refs_of (B.blocks self.old.store) value) out
            → SoundBeside V.refs_of V.IsSound self.new.bases (B.blocks self.new.store) out }
        ensures changes { Changes (B.blocks self.old.store) (B.blocks self.new.store) (owned (V.refs_of (B.blocks self.old.store)) self.old.bases ++ V.refs_of (B.blocks self.old.store) value)
            (owned (V.refs_of (B.blocks self.new.store)) self.new.bases) }
        ensures err_keys { OnErr result ((number : ℕ) → table_at self.new.bases number ≡ table_at self.old.bases number) }
        ensures err_blocks { OnErr result (Changes (B.blocks self.old.store) (B.blocks self.new.store) (V.refs_of (B.blocks self.old.store) value) []) }
        ensures served { Served B.step self.old.store self.new.store }
        ensures settings { SameSettings self.old.bases self.new.bases }
        ensures within { Within V.refs_of (one_key db key.now) self.old.bases self.new.bases (B.blocks self.old.store) (B.blocks self.new.store) }
    {
        match self.place_sought(db, key, sought, value, deadline) {
            Ok(()) => Ok(()),
            Err(value) => {
                value.release(&mut self.store);
                Err(AllocError)
            }
        }
    }
}
