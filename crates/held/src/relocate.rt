// Blocks that move, a bounded part of one key's at a time.

ghost use Rattle.std.specs.Prelude.{◌≡◌, ◌<◌, ◌≤◌, ℕ, [], List, Some, IsSome};
ghost use Rattle.blocks.specs.declared.BlockRef.{BlockRef};
ghost use Rattle.blocks.specs.Slabs.{Calmer};
ghost use Rattle.held.specs.Databases.{table_at};
ghost use Rattle.held.specs.Sound.{IsIntact, SoundBeside};
ghost use Rattle.held.specs.Table.{item};
ghost use Rattle.held.specs.Relocation.{Relocates, PassesName, PassesElement};

use crate::Keyspace;
use blocks::{BlockStore, Moved, settle};
use stored::Stored;

impl<V: Stored, B: BlockStore> Keyspace<V, B> {
    // Moves the block of a key, and lets both tables name it where it stands then.
    fn move_name(&mut self, db: usize, at: usize)
        requires db { db < 16 }
        requires element { IsSome (item (table_at self.old.bases db) at) }
        requires intact { IsIntact V.refs_of V.IsSound self.old.bases (B.blocks self.old.store) [] }
        ensures relocates { Relocates V.refs_of V.value_of V.IsSound self.old.bases self.new.bases (B.blocks self.old.store) (B.blocks self.new.store) }
        ensures passes { PassesName V.refs_of (B.blocks self.old.store) (B.blocks self.new.store) (B.heap self.new.store) self.old.bases self.new.bases db at }
        ensures calmer { Calmer (B.heap self.old.store) (B.heap self.new.store) }
    {
        let name = self.bases.key(db, at);
        let key = self.store.bytes(name);
        let timed = self.bases.find_deadline(&self.store, db, key);
        let new = settle(&mut self.store, name);
        self.bases.swap_name(db, at, new);
        match timed {
            None => {}
            Some(number) => self.bases.swap_timed(db, number, new),
        }
    }

    // Passes the block of a key.
    fn pass_name(&mut self, db: usize, at: usize)
        requires db { db < 16 }
        requires element { IsSome (item (table_at self.old.bases db) at) }
        requires intact { IsIntact V.refs_of V.IsSound self.old.bases (B.blocks self.old.store) [] }
        ensures relocates { Relocates V.refs_of V.value_of V.IsSound self.old.bases self.new.bases (B.blocks self.old.store) (B.blocks self.new.store) }
        ensures passes { PassesName V.refs_of (B.blocks self.old.store) (B.blocks self.new.store) (B.heap self.new.store) self.old.bases self.new.bases db at }
        ensures calmer { Calmer (B.heap self.old.store) (B.heap self.new.store) }
    {
        let name = self.bases.key(db, at);
        if self.store.wants_move(name) {
            self.move_name(db, at);
        }
    }

    // Passes the blocks of a key's value from a mark on.
    fn pass_value(&mut self, db: usize, at: usize, from: u128, room: u32) -> Moved
        requires db { db < 16 }
        requires element { IsSome (item (table_at self.old.bases db) at) }
        requires room { 32 ≤ room }
        requires intact { IsIntact V.refs_of V.IsSound self.old.bases (B.blocks self.old.store) [] }
        ensures relocates { Relocates V.refs_of V.value_of V.IsSound self.old.bases self.new.bases (B.blocks self.old.store) (B.blocks self.new.store) }
        ensures passes { PassesElement V.refs_of V.marks V.tables V.encoding (B.blocks self.old.store) (B.blocks self.new.store) (B.heap self.new.store) self.old.bases self.new.bases db at
            (Some from) room result }
        ensures calmer { Calmer (B.heap self.old.store) (B.heap self.new.store) }
    {
        let mut value = self.bases.swap_value(db, at, V::zero());
        let moved = value.relocate_part(&mut self.store, from, room);
        let _zero = self.bases.swap_value(db, at, value);
        moved
    }

    /// Goes through the blocks of one key, at most `room` of them and of vacant places, and moves each that wants it: the key's
    /// own block first where there is no mark, and those of its value from the mark on. It takes no memory.
    ///
    /// The answer is the mark to go on from, and how many blocks and vacant places were passed; the key's own block counts as one.
    pub fn relocate_key_part(
        &mut self,
        db: usize,
        at: usize,
        mark: Option<u128>,
        room: u32,
    ) -> Moved
        requires db { db < 16 }
        requires element { IsSome (item (table_at self.old.bases db) at) }
        requires room { 33 ≤ room }
        requires intact { IsIntact V.refs_of V.IsSound self.old.bases (B.blocks self.old.store) [] }
        ensures relocates { Relocates V.refs_of V.value_of V.IsSound self.old.bases self.new.bases (B.blocks self.old.store) (B.blocks self.new.store) }
        ensures sound { (out : List BlockRef) → SoundBeside V.refs_of V.IsSound self.old.bases (B.blocks self.old.store) out
            → SoundBeside V.refs_of V.IsSound self.new.bases (B.blocks self.new.store) out }
        ensures passes { PassesElement V.refs_of V.marks V.tables V.encoding (B.blocks self.old.store) (B.blocks self.new.store) (B.heap self.new.store) self.old.bases self.new.bases db at mark room
            result }
        ensures calmer { Calmer (B.heap self.old.store) (B.heap self.new.store) }
    {
        let Some(from) = mark else {
            self.pass_name(db, at);
            let moved = self.pass_value(db, at, 0, room - 1);
            return Moved {
                next: moved.next,
                used: moved.used + 1,
            };
        };
        self.pass_value(db, at, from, room)
    }
}
