//! What a desk asks of the engine below it.

ghost use Rattle.std.specs.Prelude.{◌≡◌, ◌↔◌, ◌<◌, ◌≤◌, Option, false, IfOk, IsTrue};
ghost use Rattle.plain_world.specs.Worlds.{Entry};
ghost use Rattle.session_desk.specs.Engines.{View, seen, IsModelled};

use plain_world::Memory;
use serving::Server;
use std::alloc::Global;

/// An engine that runs the model over 16 databases, of which one is selected.
pub trait DeskEngine: Server {
    /// What stood at a key: a value with its deadline, or nothing.
    type Told: Drop;

    // What is told of a key.
    ghost told: { Self.Told → Option Entry };

    // The world that it holds, its last moment, its seed, and the engine with a database selected.
    ghost model: { View Self };

    /// The number of the database that is selected.
    fn db(&self) -> usize
        ensures is { result ≡ (model.world self.now).selected }
        ensures within { result < 16 };

    /// The last moment that it used, in milliseconds.
    fn moment(&self) -> u64
        ensures { result ≡ model.last self.now };

    /// Whether a call answered `Memory`.
    fn is_spent(&self) -> bool
        ensures { result ≡ Self.spent self.now };

    /// Selects a database.
    fn select(&mut self, db: usize)
        requires { db < 16 }
        ensures is { self.new ≡ model.choose self.old db }
        ensures spent { Self.spent self.new ≡ Self.spent self.old };

    /// What stands at a key of a database, at this moment in milliseconds.
    fn look(&self, alloc: Global, db: usize, key: &[u8], moment: u64) -> Result<Self::Told, Memory>
        requires alive { Self.spent self.now ≡ false }
        requires db { db < 16 }
        requires late { model.last self.now ≤ moment }
        ensures { IfOk result (λ found. told found ≡ seen model moment self.now db key.now) };

    /// Whether at a key of a database, at this moment in milliseconds, stands what was told of it.
    fn is_still(
        &self,
        alloc: Global,
        db: usize,
        key: &[u8],
        found: &Self::Told,
        moment: u64,
    ) -> Result<bool, Memory>
        requires alive { Self.spent self.now ≡ false }
        requires db { db < 16 }
        requires late { model.last self.now ≤ moment }
        ensures { IfOk result (λ same. IsTrue same ↔ (seen model moment self.now db key.now ≡ told found.now)) };

    /// It runs the model.
    ghost modelled: { IsModelled model Self.executes Self.works Self.quits };
}
