ghost use Rattle.std.specs.Prelude.{◌≡◌, ◌<◌, ℕ, [], List, true, false};
ghost use Rattle.blocks.specs.declared.BlockRef.{BlockRef};
ghost use Rattle.held.specs.Databases.{means, SameSettings};
ghost use Rattle.held.specs.Sound.{IsArranged, IsIntact, SoundBeside};
ghost use Rattle.held.specs.Rehash.{keys_move, deadlines_move, Preserves, Rehashes, Rehashed, AreStill};

use crate::Keyspace;
use blocks::BlockStore;
use stored::Stored;

// How many databases there are.
const DATABASES: usize = 16;

impl<V: Stored, B: BlockStore> Keyspace<V, B> {
    // Makes one step of a rehash in the lowest database whose keys are in one. `false` comes exactly where none is.
    fn step_keys(&mut self) -> bool
        requires arranged { IsArranged V.IsSound self.old.bases (B.blocks self.old.store) }
        ensures steps { result ≡ true → Rehashes (B.blocks self.old.store) self.old.bases self.new.bases }
        ensures still { result ≡ false → (db : ℕ) → keys_move self.old.bases db ≡ false }
        ensures same { result ≡ false → self.new.bases ≡ self.old.bases }
        ensures kept { Preserves V.refs_of V.value_of V.IsSound (B.blocks self.old.store) self.old.bases self.new.bases }
        ensures store { self.new.store ≡ self.old.store }
    {
        for db in 0..DATABASES {
            if self.bases.step_keys(db) {
                return true;
            }
        }
        false
    }

    // The same of the deadlines.
    fn step_deadlines(&mut self) -> bool
        requires arranged { IsArranged V.IsSound self.old.bases (B.blocks self.old.store) }
        requires still { (db : ℕ) → keys_move self.old.bases db ≡ false }
        ensures steps { result ≡ true → Rehashes (B.blocks self.old.store) self.old.bases self.new.bases }
        ensures still { result ≡ false → AreStill self.old.bases }
        ensures same { result ≡ false → self.new.bases ≡ self.old.bases }
        ensures kept { Preserves V.refs_of V.value_of V.IsSound (B.blocks self.old.store) self.old.bases self.new.bases }
        ensures store { self.new.store ≡ self.old.store }
    {
        for db in 0..DATABASES {
            if self.bases.step_deadlines(db) {
                return true;
            }
        }
        false
    }

    // Makes one step of a rehash, and looks at no table where none may be in one. `false` comes exactly where no table is in one.
    fn step(&mut self) -> bool
        requires arranged { IsArranged V.IsSound self.old.bases (B.blocks self.old.store) }
        ensures steps { result ≡ true → Rehashes (B.blocks self.old.store) self.old.bases self.new.bases }
        ensures still { result ≡ false → AreStill self.old.bases }
        ensures same { result ≡ false → self.new.bases ≡ self.old.bases }
        ensures kept { Preserves V.refs_of V.value_of V.IsSound (B.blocks self.old.store) self.old.bases self.new.bases }
        ensures store { self.new.store ≡ self.old.store }
    {
        if !self.bases.stirs() {
            return false;
        }
        if self.step_keys() {
            return true;
        }
        if self.step_deadlines() {
            return true;
        }
        self.bases.rest();
        false
    }

    /// Makes so many rehash steps, each in the lowest database whose keys are in a rehash, or else in the lowest whose deadlines
    /// are, without memory. The answer is how many of them found one.
    pub fn rehash(&mut self, steps: u32) -> u32
        requires intact { IsIntact V.refs_of V.IsSound self.old.bases (B.blocks self.old.store) [] }
        ensures steps { Rehashed (B.blocks self.old.store) steps result self.old.bases self.new.bases }
        ensures means { (number : ℕ) → means V.value_of number self.new.bases (B.blocks self.old.store) ≡ means V.value_of number self.old.bases (B.blocks self.old.store) }
        ensures sound { (out : List BlockRef) → SoundBeside V.refs_of V.IsSound self.old.bases (B.blocks self.old.store) out
            → SoundBeside V.refs_of V.IsSound self.new.bases (B.blocks self.old.store) out }
        ensures store { self.new.store ≡ self.old.store }
        ensures settings { SameSettings self.old.bases self.new.bases }
    {
        for made in 0..steps {
            if !self.step() {
                return made;
            }
        }
        steps
    }
}
