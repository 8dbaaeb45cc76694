ghost use Rattle.std.specs.Prelude.{◌≡◌, ◌<◌, ◌++◌, ℕ, [], List, Option, None, Some, IfOk, IfErr, OnOk, OnErr, is_some};
ghost use Rattle.blocks.specs.declared.BlockRef.{BlockRef};
ghost use Rattle.blocks.specs.Blocks.{Changes, Served, times};
ghost use Rattle.plain_world.specs.Worlds.{Entry, deadline_of, look, put, put_in, remove};
ghost use Rattle.held.specs.Databases.{means, owned, SameSettings, table_at};
ghost use Rattle.held.specs.Sound.{IsArranged, IsIntact, SoundBeside};
ghost use Rattle.held.specs.Table.{Lacks, item};
ghost use Rattle.held.specs.Calls.{HasOnly, IsDeadline, Seeks};
ghost use Rattle.held.specs.Scopes.{one_key, two_keys, Within};
ghost use Rattle.held.specs.Written.{Carried, Written};

use crate::{Keyspace, Sought, SoughtAt};
use blocks::{BlockStore, Memory};
use std::alloc::AllocError;
use stored::Stored;

impl<V: Stored, B: BlockStore> Keyspace<V, B> {
    /// Moves what stands at a key, its deadline with it, to another key of this or another database, as `rename_sought` does.
    pub fn rename(
        &mut self,
        db: usize,
        from: &[u8],
        to_db: usize,
        to: &[u8],
    ) -> Result<bool, Memory>
        requires db { db < 16 }
        requires to_db { to_db < 16 }
        requires intact { IsIntact V.refs_of V.IsSound self.old.bases (B.blocks self.old.store) [] }
        ensures answer { IfOk result (λ there. there ≡ is_some (look (means V.value_of db self.old.bases (B.blocks self.old.store)) from.now)) }
        ensures means { OnOk result
            (((db ≡ to_db) × (from.now ≡ to.now) → ⊥) → (entry : Entry) → look (means V.value_of db self.old.bases (B.blocks self.old.store)) from.now ≡ Some entry
            → means V.value_of db self.new.bases (B.blocks self.new.store) ≡ put_in (remove (means V.value_of db self.old.bases (B.blocks self.old.store)) from.now) to_db to.now entry) }
        ensures same { db ≡ to_db → from.now ≡ to.now → (self.new.bases ≡ self.old.bases) × (self.new.store ≡ self.old.store) }
        ensures writes { OnOk result
            ((out : List BlockRef) → SoundBeside V.refs_of V.IsSound self.old.bases (B.blocks self.old.store) out
            → Written V.refs_of (Carried V.refs_of self.old.bases (B.blocks self.old.store) (B.blocks self.new.store) db from.now) self.old.bases self.new.bases (B.blocks self.old.store)
            (B.blocks self.new.store)) }
        ensures absent { look (means V.value_of db self.old.bases (B.blocks self.old.store)) from.now ≡ None → (self.new.bases ≡ self.old.bases) × (self.new.store ≡ self.old.store) }
        ensures err { OnErr result (means V.value_of db self.new.bases (B.blocks self.new.store) ≡ means V.value_of db self.old.bases (B.blocks self.old.store)) }
        ensures err_items { OnErr result ((number at : ℕ) → item (table_at self.new.bases number) at ≡ item (table_at self.old.bases number) at) }
        ensures err_blocks { OnErr result (B.blocks self.new.store ≡ B.blocks self.old.store) }
        ensures err_owned { OnErr result
            ((r : BlockRef) → times r (owned (V.refs_of (B.blocks self.new.store)) self.new.bases) ≡ times r (owned (V.refs_of (B.blocks self.old.store)) self.old.bases)) }
        ensures sound { (out : List BlockRef) → SoundBeside V.refs_of V.IsSound self.old.bases (B.blocks self.old.store) out
            → SoundBeside V.refs_of V.IsSound self.new.bases (B.blocks self.new.store) out }
        ensures changes { Changes (B.blocks self.old.store) (B.blocks self.new.store) (owned (V.refs_of (B.blocks self.old.store)) self.old.bases)
            (owned (V.refs_of (B.blocks self.new.store)) self.new.bases) }
        ensures served { Served B.step self.old.store self.new.store }
        ensures settings { SameSettings self.old.bases self.new.bases }
        ensures within { Within V.refs_of (two_keys db from.now to_db to.now) self.old.bases self.new.bases (B.blocks self.old.store) (B.blocks self.new.store) }
    {
        let found = self.seek_at(db, from, 0);
        let place = self.seek(to_db, to);
        self.rename_sought(db, from, found, to_db, to, place)
    }

    /// Moves what stands at a key that was sought, its deadline with it, to another key of this or another database, which was
    /// sought too. What stood there is released, and its deadline goes. A key that is gone moves too.
    ///
    /// The answer is whether the key is there; where it isn't, nothing changes. Where both are one key of one database nothing
    /// changes either. `Memory` leaves the keys, their deadlines, and the blocks that are owned.
    pub fn rename_sought(
        &mut self,
        db: usize,
        from: &[u8],
        found: SoughtAt,
        to_db: usize,
        to: &[u8],
        place: Sought,
    ) -> Result<bool, Memory>
        requires db { db < 16 }
        requires to_db { to_db < 16 }
        requires intact { IsIntact V.refs_of V.IsSound self.old.bases (B.blocks self.old.store) [] }
        requires seeks { Seeks self.old.bases (B.blocks self.old.store) db from.now found.sought }
        requires place { Seeks self.old.bases (B.blocks self.old.store) to_db to.now place }
        requires lasts { found.deadline ≡ deadline_of (look (means V.value_of db self.old.bases (B.blocks self.old.store)) from.now) }
        ensures answer { IfOk result (λ there. there ≡ is_some (look (means V.value_of db self.old.bases (B.blocks self.old.store)) from.now)) }
        ensures means { OnOk result
            (((db ≡ to_db) × (from.now ≡ to.now) → ⊥) → (entry : Entry) → look (means V.value_of db self.old.bases (B.blocks self.old.store)) from.now ≡ Some entry
            → means V.value_of db self.new.bases (B.blocks self.new.store) ≡ put_in (remove (means V.value_of db self.old.bases (B.blocks self.old.store)) from.now) to_db to.now entry) }
        ensures same { db ≡ to_db → from.now ≡ to.now → (self.new.bases ≡ self.old.bases) × (self.new.store ≡ self.old.store) }
        ensures writes { OnOk result
            ((out : List BlockRef) → SoundBeside V.refs_of V.IsSound self.old.bases (B.blocks self.old.store) out
            → Written V.refs_of (Carried V.refs_of self.old.bases (B.blocks self.old.store) (B.blocks self.new.store) db from.now) self.old.bases self.new.bases (B.blocks self.old.store)
            (B.blocks self.new.store)) }
        ensures absent { look (means V.value_of db self.old.bases (B.blocks self.old.store)) from.now ≡ None → (self.new.bases ≡ self.old.bases) × (self.new.store ≡ self.old.store) }
        ensures err { OnErr result (means V.value_of db self.new.bases (B.blocks self.new.store) ≡ means V.value_of db self.old.bases (B.blocks self.old.store)) }
        ensures err_items { OnErr result ((number at : ℕ) → item (table_at self.new.bases number) at ≡ item (table_at self.old.bases number) at) }
        ensures err_blocks { OnErr result (B.blocks self.new.store ≡ B.blocks self.old.store) }
        ensures err_owned { OnErr result
            ((r : BlockRef) → times r (owned (V.refs_of (B.blocks self.new.store)) self.new.bases) ≡ times r (owned (V.refs_of (B.blocks self.old.store)) self.old.bases)) }
        ensures sound { (out : List BlockRef) → SoundBeside V.refs_of V.IsSound self.old.bases (B.blocks self.old.store) out
            → SoundBeside V.refs_of V.IsSound self.new.bases (B.blocks self.new.store) out }
        ensures changes { Changes (B.blocks self.old.store) (B.blocks self.new.store) (owned (V.refs_of (B.blocks self.old.store)) self.old.bases)
            (owned (V.refs_of (B.blocks self.new.store)) self.new.bases) }
        ensures served { Served B.step self.old.store self.new.store }
        ensures settings { SameSettings self.old.bases self.new.bases }
        ensures within { Within V.refs_of (two_keys db from.now to_db to.now) self.old.bases self.new.bases (B.blocks self.old.store) (B.blocks self.new.store) }
    {
        let Some(at) = found.sought.item else {
            return Ok(false);
        };
        if db == to_db && from == to {
            return Ok(true);
        }
        let value = self.bases.swap_value(db, at, V::zero());
        match self.place_sought(to_db, to, place, value, found.deadline) {
            Ok(()) => {
                let _there = self.drop_hashed(db, found.sought.hash, from);
                Ok(true)
            }
            Err(value) => {
                let _zero = self.bases.swap_value(db, at, value);
                Err(AllocError)
            }
        }
    }
}
