//! What stands at a key, read out of the engine.

ghost use Rattle.std.specs.Prelude.{◌≡◌, ◌<◌, IfOk};
ghost use Rattle.plain_world.specs.Worlds.{live, look_in};
ghost use Rattle.keyspace.specs.Databases.{means};
ghost use Rattle.told_values.specs.Entries.{entry_told};

use crate::engine::Engine;
use blocks::{BlockStore, Memory};
use told_values::{Entry, read_entry};

impl<B: BlockStore> Engine<B> {
    /// What stands at a key of a database at this moment, in milliseconds: its value, read out whole, and its deadline where it
    /// has one. `None` comes exactly where no key that is there then has the name. `Memory` for want of memory alone, which
    /// leaves the engine.
    pub fn entry(&self, db: usize, key: &[u8], moment: u64) -> Result<Option<Entry>, Memory>
        requires { db < 16 }
        ensures { IfOk result (λ entry. entry_told entry ≡ look_in (live (means 0 self.now.bases (B.blocks self.now.store)) moment) db key.now) }
    {
        let keyspace = self.keyspace();
        read_entry(keyspace.alloc(), keyspace, db, key, moment)
    }
}
