ghost use Rattle.std.specs.Prelude.{◌≡◌, ◌<◌, ◌≤◌, ◌+◌, ℕ, [], ◌∷◌, List, Option, None, Some, IfSome, IfNone, is_some, true, if◌then◌else◌};
ghost use Rattle.std.specs.FinMap as map;
ghost use Rattle.blocks.specs.declared.BlockRef.{BlockRef};
ghost use Rattle.blocks.specs.Blocks.{Changes, Served, bytes_at};
ghost use Rattle.plain_world.specs.Worlds.{live, live_keys, look, with_base};
ghost use Rattle.held.specs.Databases.{means, owned, SameSettings, table_at, deadlines_at};
ghost use Rattle.held.specs.Sound.{Names, IsArranged, IsIntact, SoundBeside};
ghost use Rattle.held.specs.Table.{Element, item};
ghost use Rattle.held.specs.Scopes.{no_key, Within};
ghost use Rattle.held.specs.Worlds.{without};
ghost use Rattle.held.specs.Calls.{StandsAt};
ghost use Rattle.held.specs.Gone.{Loses, Thins};
ghost use Rattle.held.specs.Expiry.{Thinned};

use crate::Keyspace;
use crate::keyspace::{is_in_time, release_both};
use blocks::{BlockRef, BlockStore};
use stored::Stored;

impl<V: Stored, B: BlockStore> Keyspace<V, B> {
    // Removes the key that this block names, with its deadline and all its blocks.
    pub(crate) fn drop_named(&mut self, db: usize, name: BlockRef)
        requires db { db < 16 }
        requires intact { IsIntact V.refs_of V.IsSound self.old.bases (B.blocks self.old.store) [] }
        requires named { Names (table_at self.old.bases db) name }
        ensures means { means V.value_of db self.new.bases (B.blocks self.new.store) ≡ without (means V.value_of db self.old.bases (B.blocks self.old.store))
            (bytes_at (B.blocks self.old.store) name) }
        ensures thinned { Thinned V.refs_of (name ∷ []) self.old.bases self.new.bases (B.blocks self.old.store) (B.blocks self.new.store) db }
        ensures loses { Loses (B.blocks self.old.store) (deadlines_at self.old.bases db) (deadlines_at self.new.bases db) (bytes_at (B.blocks self.old.store) name) }
        ensures arranged { IsArranged V.IsSound self.new.bases (B.blocks self.new.store) }
        ensures changes { Changes (B.blocks self.old.store) (B.blocks self.new.store) (owned (V.refs_of (B.blocks self.old.store)) self.old.bases)
            (owned (V.refs_of (B.blocks self.new.store)) self.new.bases) }
        ensures served { Served B.step self.old.store self.new.store }
        ensures settings { SameSettings self.old.bases self.new.bases }
        ensures within { Within V.refs_of (no_key db) self.old.bases self.new.bases (B.blocks self.old.store) (B.blocks self.new.store) }
    {
        let key = self.store.bytes(name);
        let hash = self.bases.hash(db, key);
        self.bases.clear_deadline(&self.store, db, hash, key);
        let Some((at, value)) = self.bases.remove(&self.store, db, hash, key) else {
            return;
        };
        release_both(&mut self.store, at, value);
    }

    // Removes the key of an item number of the deadlines where it is gone at the moment. The answer is whether it is.
    fn drop_passed(&mut self, db: usize, at: usize, moment: u64) -> bool
        requires db { db < 16 }
        requires intact { IsIntact V.refs_of V.IsSound self.old.bases (B.blocks self.old.store) [] }
        ensures thins { Thins V.value_of self.old.bases self.new.bases (B.blocks self.old.store) (B.blocks self.new.store) db moment (if result then 1 else 0) }
        ensures in_time { (e : Element ℕ) → item (deadlines_at self.new.bases db).table at ≡ Some e → moment ≤ e.value }
        ensures arranged { IsArranged V.IsSound self.new.bases (B.blocks self.new.store) }
        ensures changes { Changes (B.blocks self.old.store) (B.blocks self.new.store) (owned (V.refs_of (B.blocks self.old.store)) self.old.bases)
            (owned (V.refs_of (B.blocks self.new.store)) self.new.bases) }
        ensures served { Served B.step self.old.store self.new.store }
        ensures settings { SameSettings self.old.bases self.new.bases }
        ensures within { Within V.refs_of (no_key db) self.old.bases self.new.bases (B.blocks self.old.store) (B.blocks self.new.store) }
    {
        let Some(name) = self.bases.passed(db, at, moment) else {
            return false;
        };
        self.drop_named(db, name);
        true
    }

    /// Removes all keys of a database that are gone at the moment, in milliseconds, with all their blocks, without memory. The
    /// answer is how many they are.
    pub fn purge(&mut self, db: usize, moment: u64) -> u64
        requires db { db < 16 }
        requires intact { IsIntact V.refs_of V.IsSound self.old.bases (B.blocks self.old.store) [] }
        ensures means { means V.value_of db self.new.bases (B.blocks self.new.store) ≡ with_base (means V.value_of db self.old.bases (B.blocks self.old.store))
            (live_keys ((means V.value_of db self.old.bases (B.blocks self.old.store)).bases db) moment) }
        ensures answer { map.len ((means V.value_of db self.old.bases (B.blocks self.old.store)).bases db) ≡ result
            + map.len ((means V.value_of db self.new.bases (B.blocks self.new.store)).bases db) }
        ensures sound { (out : List BlockRef) → SoundBeside V.refs_of V.IsSound self.old.bases (B.blocks self.old.store) out
            → SoundBeside V.refs_of V.IsSound self.new.bases (B.blocks self.new.store) out }
        ensures changes { Changes (B.blocks self.old.store) (B.blocks self.new.store) (owned (V.refs_of (B.blocks self.old.store)) self.old.bases)
            (owned (V.refs_of (B.blocks self.new.store)) self.new.bases) }
        ensures served { Served B.step self.old.store self.new.store }
        ensures settings { SameSettings self.old.bases self.new.bases }
        ensures within { Within V.refs_of (no_key db) self.old.bases self.new.bases (B.blocks self.old.store) (B.blocks self.new.store) }
    {
        let mut count = 0;
        for at in 0..self.bases.deadlines_top(db) {
            if self.drop_passed(db, at, moment) {
                count += 1;
            }
        }
        count
    }

    /// The bytes of the key of an item number, where it is there at the moment, in milliseconds. `None` comes exactly where the
    /// number is no key's, or the key is gone.
    pub fn there(&self, db: usize, at: usize, moment: u64) -> Option<&[u8]>
        requires db { db < 16 }
        requires arranged { IsArranged V.IsSound self.now.bases (B.blocks self.now.store) }
        ensures found { IfSome result (λ key. StandsAt self.now.bases (B.blocks self.now.store) db key.now moment at) }
        ensures none { IfNone result ((key : List ℕ) → StandsAt self.now.bases (B.blocks self.now.store) db key moment at → ⊥) }
    {
        if !self.bases.table(db).is_entry(at) {
            return None;
        }
        let key = self.store.bytes(self.bases.key(db, at));
        let deadline = self.bases.deadline(&self.store, db, key);
        if !is_in_time(moment, deadline) {
            return None;
        }
        Some(key)
    }

    // The bytes of the first key that is there at the moment, among these item numbers.
    fn first_there(&self, db: usize, from: usize, to: usize, moment: u64) -> Option<&[u8]>
        requires db { db < 16 }
        requires arranged { IsArranged V.IsSound self.now.bases (B.blocks self.now.store) }
        ensures found { IfSome result (λ key. is_some (look (live (means V.value_of db self.now.bases (B.blocks self.now.store)) moment) key.now) ≡ true) }
        ensures none { IfNone result ((at : ℕ) (key : List ℕ) → from ≤ at → at < to → StandsAt self.now.bases (B.blocks self.now.store) db key moment at → ⊥) }
    {
        for at in from..to {
            if let Some(key) = self.there(db, at, moment) {
                return Some(key);
            }
        }
        None
    }

    /// The bytes of some key that is there at the moment, in milliseconds: of the first one whose item number is `start`, taken
    /// modulo the table's top, or comes behind it, or else of the first one from 0 on. `None` comes exactly where no key is there.
    pub fn pick(&self, db: usize, start: usize, moment: u64) -> Option<&[u8]>
        requires db { db < 16 }
        requires intact { IsIntact V.refs_of V.IsSound self.now.bases (B.blocks self.now.store) [] }
        ensures found { IfSome result (λ key. is_some (look (live (means V.value_of db self.now.bases (B.blocks self.now.store)) moment) key.now) ≡ true) }
        ensures none { IfNone result ((key : List ℕ) → look (live (means V.value_of db self.now.bases (B.blocks self.now.store)) moment) key ≡ None) }
    {
        let top = self.bases.table(db).top();
        if top == 0 {
            return None;
        }
        let middle = start % top;
        match self.first_there(db, middle, top, moment) {
            Some(key) => Some(key),
            None => self.first_there(db, 0, middle, moment),
        }
    }
}
