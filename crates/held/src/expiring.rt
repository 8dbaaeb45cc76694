ghost use Rattle.std.specs.Prelude.{◌≡◌, ◌<◌, ◌≤◌, ℕ, [], List, length};
ghost use Rattle.blocks.specs.declared.BlockRef.{BlockRef};
ghost use Rattle.blocks.specs.Blocks.{Changes, Served, times};
ghost use Rattle.plain_world.specs.Worlds.{live};
ghost use Rattle.expiry.specs.Timed.{KeepsCursor};
ghost use Rattle.expiry.specs.Found.{AreGone};
ghost use Rattle.held.specs.Databases.{means, owned, SameSettings, table_at, deadlines_at};
ghost use Rattle.held.specs.Sound.{IsArranged, IsIntact, SoundBeside};
ghost use Rattle.held.specs.Table.{Element, item};
ghost use Rattle.held.specs.Scopes.{Stayed};
ghost use Rattle.held.specs.Gone.{Thins};
ghost use Rattle.held.specs.Expiry.{found_at, Thinned, Expires, Expired};

use crate::Keyspace;
use blocks::BlockStore;
use expiry::Gone;
use stored::Stored;

impl<V: Stored, B: BlockStore> Keyspace<V, B> {
    // Removes the keys that these blocks name, each of them gone at the moment, with their deadlines and all their blocks.
    fn drop_found(&mut self, db: usize, moment: u64, found: &Gone)
        requires db { db < 16 }
        requires intact { IsIntact V.refs_of V.IsSound self.old.bases (B.blocks self.old.store) [] }
        requires gone { AreGone (deadlines_at self.old.bases db).table moment found.now }
        requires once { (r : BlockRef) → times r found.now ≤ 1 }
        ensures thins { Thins V.value_of self.old.bases self.new.bases (B.blocks self.old.store) (B.blocks self.new.store) db moment (length found.now) }
        ensures thinned { Thinned V.refs_of found.now self.old.bases self.new.bases (B.blocks self.old.store) (B.blocks self.new.store) db }
        ensures cursor { KeepsCursor (deadlines_at self.old.bases db) (deadlines_at self.new.bases db) }
        ensures arranged { IsArranged V.IsSound self.new.bases (B.blocks self.new.store) }
        ensures changes { Changes (B.blocks self.old.store) (B.blocks self.new.store) (owned (V.refs_of (B.blocks self.old.store)) self.old.bases)
            (owned (V.refs_of (B.blocks self.new.store)) self.new.bases) }
        ensures served { Served B.step self.old.store self.new.store }
        ensures settings { SameSettings self.old.bases self.new.bases }
    {
        let _ = moment;
        for index in 0..found.len() {
            self.drop_named(db, found.at(index));
        }
    }

    // Makes one expiry step. The answer is how many keys it dropped.
    fn expire_one(&mut self, moment: u64, found: &mut Gone) -> u64
        requires intact { IsIntact V.refs_of V.IsSound self.old.bases (B.blocks self.old.store) [] }
        ensures step { Expires V.refs_of moment self.old.bases self.new.bases (B.blocks self.old.store) (B.blocks self.new.store) }
        ensures answer { result ≡ length (found_at self.old.bases moment) }
        ensures few { result ≤ 16 }
        ensures lives { (number : ℕ) → live (means V.value_of number self.new.bases (B.blocks self.new.store)) moment ≡ live (means V.value_of number self.old.bases (B.blocks self.old.store)) moment }
        ensures arranged { IsArranged V.IsSound self.new.bases (B.blocks self.new.store) }
        ensures changes { Changes (B.blocks self.old.store) (B.blocks self.new.store) (owned (V.refs_of (B.blocks self.old.store)) self.old.bases)
            (owned (V.refs_of (B.blocks self.new.store)) self.new.bases) }
        ensures served { Served B.step self.old.store self.new.store }
    {
        let db = self.bases.turn();
        self.bases.cycle(db, moment, found);
        self.bases.pass_turn();
        self.drop_found(db, moment, found);
        found.len() as u64
    }

    /// Makes so many expiry steps, without memory. Each is one cycle of a database, which looks for keys that are gone at the
    /// moment, in milliseconds, and each key that it finds, at most 16, is removed with all its blocks. The databases have
    /// their turns one after the other, and database 0 comes after the last one; the next call goes on where this one ended.
    /// The answer is how many keys were removed.
    ///
    /// As with EXPIRE, a key stays through the moment of its deadline (Redis command reference, "EXPIRE").
    pub fn expire(&mut self, steps: u32, moment: u64) -> u64
        requires intact { IsIntact V.refs_of V.IsSound self.old.bases (B.blocks self.old.store) [] }
        ensures steps { Expired V.refs_of moment self.old.bases (B.blocks self.old.store) steps result self.new.bases (B.blocks self.new.store) }
        ensures none { steps ≡ 0 → self.new ≡ self.old }
        ensures lives { (number later : ℕ) → moment ≤ later → live (means V.value_of number self.new.bases (B.blocks self.new.store)) later ≡ live
            (means V.value_of number self.old.bases (B.blocks self.old.store)) later }
        ensures stayed { (db at : ℕ) (e : Element V) → item (table_at self.new.bases db) at ≡ Some e → Stayed V.refs_of self.old.bases (B.blocks self.old.store) (B.blocks self.new.store) db at e }
        ensures sound { (out : List BlockRef) → SoundBeside V.refs_of V.IsSound self.old.bases (B.blocks self.old.store) out
            → SoundBeside V.refs_of V.IsSound self.new.bases (B.blocks self.new.store) out }
        ensures changes { Changes (B.blocks self.old.store) (B.blocks self.new.store) (owned (V.refs_of (B.blocks self.old.store)) self.old.bases)
            (owned (V.refs_of (B.blocks self.new.store)) self.new.bases) }
        ensures served { Served B.step self.old.store self.new.store }
        ensures limits { self.new.bases.limits ≡ self.old.bases.limits }
        ensures seed { self.new.bases.seed ≡ self.old.bases.seed }
    {
        let mut found = Gone::new();
        let mut dropped = 0;
        for _ in 0..steps {
            dropped += self.expire_one(moment, &mut found);
        }
        dropped
    }
}
