//! The engine, as a desk asks it.

ghost use Rattle.std.specs.Prelude.{◌≡◌, ◌↔◌, IsTrue};
ghost use Rattle.told_values.specs.Entries.{entry_told};
ghost use Rattle.session_desk.specs.OverEngine.{engine_view, engine_modelled};

use crate::engine::DeskEngine;
use blocks::BlockStore;
use plain_world::Memory;
use redis_core::Engine;
use std::alloc::Global;
use told_values::Entry;

// Whether the same stood there, or nothing at both.
fn same_entries(one: &Option<Entry>, other: &Option<Entry>) -> bool
    ensures { IsTrue result ↔ (entry_told one.now ≡ entry_told other.now) }
{
    match (one, other) {
        (None, None) => true,
        (Some(one), Some(other)) => one.same(other),
        (None, Some(_)) => false,
        (Some(_), None) => false,
    }
}

impl<B: BlockStore> DeskEngine for Engine<B> {
    type Told = Option<Entry>;

    ghost told = { entry_told };

    ghost model = { engine_view B.blocks };

    fn db(&self) -> usize {
        Engine::db(self)
    }

    fn moment(&self) -> u64 {
        Engine::moment(self)
    }

    fn is_spent(&self) -> bool {
        Engine::is_spent(self)
    }

    fn select(&mut self, db: usize) {
        self.set_db(db);
    }

    fn look(
        &self,
        _alloc: Global,
        db: usize,
        key: &[u8],
        moment: u64,
    ) -> Result<Option<Entry>, Memory> {
        self.entry(db, key, moment)
    }

    fn is_still(
        &self,
        _alloc: Global,
        db: usize,
        key: &[u8],
        found: &Option<Entry>,
        moment: u64,
    ) -> Result<bool, Memory> {
        let now = self.entry(db, key, moment)?;
        Ok(same_entries(&now, found))
    }

    ghost modelled = { engine_modelled B.blocks B.heap B.step };
}
