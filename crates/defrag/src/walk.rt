ghost use Rattle.std.specs.Prelude.{◌≡◌, ℕ, ◌+◌, ◌-◌, ◌*◌, ◌^◌, ◌<◌, ◌≤◌, ◌↔◌, List, [], None, is_some, IsSome, if◌then◌else◌, IsTrue, MatchBool};
ghost use Rattle.blocks.specs.declared.BlockRef.{BlockRef};
ghost use Rattle.blocks.specs.Slabs.{Begun, Calmer, slabs_of, needed};
ghost use Rattle.held.specs.Databases.{table_at};
ghost use Rattle.held.specs.Sound.{IsIntact, Sound, SoundBeside};
ghost use Rattle.held.specs.Table.{item};
ghost use Rattle.held.specs.Relocation.{Relocates, SameTops};
ghost use Rattle.defrag.specs.Swept.{IsSwept};
ghost use Rattle.defrag.specs.Ways.{shapes, SameShapes, Leg, Way, Goes, IsForward, MayGo, MustStop};

use blocks::BlockStore;
use held::Keyspace;
use stored::Stored;

// How many databases there are.
const DATABASES: usize = 16;

// How many units a step passes at most.
const UNITS: u32 = 64;

// How many of them a part of a key's blocks may take at least.
const KEY_ROOM: u32 = 33;

/// Where a pass over a keyspace stands: all keys of lower databases are passed, in its database those with lower item numbers, and
/// where there is a mark, the key block of its item and the blocks of its value with lower marks.
#[derive(Clone, Copy, Debug, PartialEq, Eq)]
pub struct Walk {
    database: usize,
    item: usize,
    mark: Option<u128>,
}

/// What a step of a walk leaves.
#[derive(Clone, Copy, Debug, PartialEq, Eq)]
pub enum Visit {
    /// Some databases are still to be passed.
    More,
    /// The walk went through all databases, and its pass ended.
    Done,
}

impl Walk {
    /// Begins a pass over the store of a keyspace, and first ends one that is open.
    pub fn start<V: Stored, B: BlockStore>(keyspace: &mut Keyspace<V, B>) -> Walk
        ensures place { result ≡ record { database = 0; item = 0; mark = None } }
        ensures begun { Begun (B.heap keyspace.old.store) (B.heap keyspace.new.store) }
        ensures swept { IsSwept (V.refs_of (B.blocks keyspace.new.store)) (V.marks (B.blocks keyspace.new.store)) keyspace.new.bases (B.heap keyspace.new.store) result }
        ensures bases { keyspace.new.bases ≡ keyspace.old.bases }
        ensures blocks { B.blocks keyspace.new.store ≡ B.blocks keyspace.old.store }
    {
        keyspace.store.begin_pass();
        Walk {
            database: 0,
            item: 0,
            mark: None,
        }
    }

    // Whether so many units are enough for what stands at the walk's place.
    fn goes_on<V: Stored, B: BlockStore>(&self, keyspace: &Keyspace<V, B>, left: u32) -> bool
        requires intact { IsIntact V.refs_of V.IsSound keyspace.now.bases (B.blocks keyspace.now.store) [] }
        ensures { MatchBool result (MayGo keyspace.now.bases self.now left) (MustStop keyspace.now.bases self.now left) }
    {
        if self.database >= DATABASES || left == 0 {
            return false;
        }
        left >= KEY_ROOM || !keyspace.table(self.database).is_entry(self.item)
    }

    // Passes keys from the start of one on where no block wants to move, while the units that are left are enough for any key. The
    // answer is how many units that took.
    fn pass_calm<V: Stored, B: BlockStore>(&mut self, keyspace: &Keyspace<V, B>, room: u32) -> u32
        requires database { self.old.database < 16 }
        requires start { self.old.mark ≡ None }
        requires intact { IsIntact V.refs_of V.IsSound keyspace.now.bases (B.blocks keyspace.now.store) [] }
        ensures swept { IsSwept (V.refs_of (B.blocks keyspace.now.store)) (V.marks (B.blocks keyspace.now.store)) keyspace.now.bases (B.heap keyspace.now.store) self.old
            → IsSwept (V.refs_of (B.blocks keyspace.now.store)) (V.marks (B.blocks keyspace.now.store)) keyspace.now.bases (B.heap keyspace.now.store) self.new }
        ensures way { Way (shapes (V.marks (B.blocks keyspace.now.store)) keyspace.now.bases) self.old result self.new }
        ensures few { result ≤ room }
        ensures database { self.new.database ≡ self.old.database }
        ensures start { self.new.mark ≡ None }
        ensures none { result ≡ 0 → self.new ≡ self.old }
    {
        if !keyspace.store.is_calm() {
            return 0;
        }
        let table = keyspace.table(self.database);
        // an element's item number is below the top, so that there is a next one
        let _top = table.top();
        // they stand in locals, so that no look at the table comes behind a write
        let mut item = self.item;
        let mut left = room;
        'keys: while left >= KEY_ROOM && table.is_entry(item) {
            let (_name, value) = table.entry(item);
            let units = value.units();
            if units >= left {
                break;
            }
            item += 1;
            left -= units + 1;
        }
        self.item = item;
        room - left
    }

    // Passes a part of the blocks of the key at the walk's place, of which some may move. The answer is how many units that took.
    fn pass_part<V: Stored, B: BlockStore>(
        &mut self,
        keyspace: &mut Keyspace<V, B>,
        left: u32,
    ) -> u32
        requires database { self.old.database < 16 }
        requires element { IsSome (item (table_at keyspace.old.bases self.old.database) self.old.item) }
        requires next { self.old.item + 1 < 2 ^ 64 }
        requires room { 33 ≤ left }
        requires intact { IsIntact V.refs_of V.IsSound keyspace.old.bases (B.blocks keyspace.old.store) [] }
        ensures relocates { Relocates V.refs_of V.value_of V.IsSound keyspace.old.bases keyspace.new.bases (B.blocks keyspace.old.store) (B.blocks keyspace.new.store) }
        ensures swept { IsSwept (V.refs_of (B.blocks keyspace.old.store)) (V.marks (B.blocks keyspace.old.store)) keyspace.old.bases (B.heap keyspace.old.store) self.old
            → IsSwept (V.refs_of (B.blocks keyspace.new.store)) (V.marks (B.blocks keyspace.new.store)) keyspace.new.bases (B.heap keyspace.new.store) self.new }
        ensures leg { Leg (shapes (V.marks (B.blocks keyspace.old.store)) keyspace.old.bases) self.old result self.new }
        ensures shapes { SameShapes (V.marks (B.blocks keyspace.old.store)) (V.marks (B.blocks keyspace.new.store)) keyspace.old.bases keyspace.new.bases }
        ensures tops { SameTops keyspace.old.bases keyspace.new.bases }
        ensures encodings { SameShapes V.encoding V.encoding keyspace.old.bases keyspace.new.bases }
        ensures tables { SameShapes (V.tables (B.blocks keyspace.old.store)) (V.tables (B.blocks keyspace.new.store)) keyspace.old.bases keyspace.new.bases }
        ensures few { result ≤ left }
        ensures smaller { 2 * (left - result) + (if is_some self.new.mark then 1 else 0) < 2 * left + (if is_some self.old.mark then 1 else 0) }
        ensures inside { self.new.database ≡ self.old.database }
    {
        let moved = keyspace.relocate_key_part(self.database, self.item, self.mark, left);
        match moved.next {
            None => {
                self.item += 1;
                self.mark = None;
                moved.used
            }
            Some(next) => {
                self.mark = Some(next);
                moved.used
            }
        }
    }

    // Passes what stands at the walk's place: keys of which no block wants to move, a part of a key's blocks, an item number that is
    // vacant, or the end of a database. The answer is how many units that took.
    fn pass<V: Stored, B: BlockStore>(&mut self, keyspace: &mut Keyspace<V, B>, left: u32) -> u32
        requires may { MayGo keyspace.old.bases self.old left }
        requires intact { IsIntact V.refs_of V.IsSound keyspace.old.bases (B.blocks keyspace.old.store) [] }
        ensures relocates { Relocates V.refs_of V.value_of V.IsSound keyspace.old.bases keyspace.new.bases (B.blocks keyspace.old.store) (B.blocks keyspace.new.store) }
        ensures swept { IsSwept (V.refs_of (B.blocks keyspace.old.store)) (V.marks (B.blocks keyspace.old.store)) keyspace.old.bases (B.heap keyspace.old.store) self.old
            → IsSwept (V.refs_of (B.blocks keyspace.new.store)) (V.marks (B.blocks keyspace.new.store)) keyspace.new.bases (B.heap keyspace.new.store) self.new }
        ensures way { Way (shapes (V.marks (B.blocks keyspace.old.store)) keyspace.old.bases) self.old result self.new }
        ensures shapes { SameShapes (V.marks (B.blocks keyspace.old.store)) (V.marks (B.blocks keyspace.new.store)) keyspace.old.bases keyspace.new.bases }
        ensures tops { SameTops keyspace.old.bases keyspace.new.bases }
        ensures encodings { SameShapes V.encoding V.encoding keyspace.old.bases keyspace.new.bases }
        ensures tables { SameShapes (V.tables (B.blocks keyspace.old.store)) (V.tables (B.blocks keyspace.new.store)) keyspace.old.bases keyspace.new.bases }
        ensures few { result ≤ left }
        ensures smaller { 2 * (left - result) + (if is_some self.new.mark then 1 else 0) < 2 * left + (if is_some self.old.mark then 1 else 0) }
        ensures inside { self.new.database ≤ 16 }
    {
        let table = keyspace.table(self.database);
        if self.item >= table.top() {
            self.database += 1;
            self.item = 0;
            self.mark = None;
            return 1;
        }
        if !table.is_entry(self.item) {
            self.item += 1;
            self.mark = None;
            return 1;
        }
        if self.mark.is_some() {
            return self.pass_part(keyspace, left);
        }
        let calm = self.pass_calm(keyspace, left);
        if calm > 0 {
            return calm;
        }
        self.pass_part(keyspace, left)
    }

    /// Goes on with the pass until 64 units are used, or fewer than 33 are left where a key is to be begun or continued, or all
    /// databases are passed. It moves each block passed that wants it, without memory. A unit is a block of a key passed, a vacant
    /// item number passed, or the end of a database.
    ///
    /// It asks for a walk that hasn't answered `Done`.
    pub fn step<V: Stored, B: BlockStore>(&mut self, keyspace: &mut Keyspace<V, B>) -> Visit
        requires place { self.old.database < 16 }
        requires intact { IsIntact V.refs_of V.IsSound keyspace.old.bases (B.blocks keyspace.old.store) [] }
        ensures relocates { Relocates V.refs_of V.value_of V.IsSound keyspace.old.bases keyspace.new.bases (B.blocks keyspace.old.store) (B.blocks keyspace.new.store) }
        ensures sound { (out : List BlockRef) → SoundBeside V.refs_of V.IsSound keyspace.old.bases (B.blocks keyspace.old.store) out
            → SoundBeside V.refs_of V.IsSound keyspace.new.bases (B.blocks keyspace.new.store) out }
        ensures more { result ≡ Visit.More ↔ (self.new.database < 16) }
        ensures done { result ≡ Visit.Done ↔ (self.new.database ≡ 16) }
        ensures forward { IsForward self.old self.new }
        ensures encodings { SameShapes V.encoding V.encoding keyspace.old.bases keyspace.new.bases }
        ensures tables { SameShapes (V.tables (B.blocks keyspace.old.store)) (V.tables (B.blocks keyspace.new.store)) keyspace.old.bases keyspace.new.bases }
        ensures goes { Goes (shapes (V.marks (B.blocks keyspace.old.store)) keyspace.old.bases) self.old self.new result }
        ensures swept { result ≡ Visit.More → IsSwept (V.refs_of (B.blocks keyspace.old.store)) (V.marks (B.blocks keyspace.old.store)) keyspace.old.bases (B.heap keyspace.old.store) self.old
            → IsSwept (V.refs_of (B.blocks keyspace.new.store)) (V.marks (B.blocks keyspace.new.store)) keyspace.new.bases (B.heap keyspace.new.store) self.new }
        ensures least { result ≡ Visit.Done → Sound V.refs_of V.IsSound keyspace.old.bases (B.blocks keyspace.old.store)
            → IsSwept (V.refs_of (B.blocks keyspace.old.store)) (V.marks (B.blocks keyspace.old.store)) keyspace.old.bases (B.heap keyspace.old.store) self.old → (class : ℕ) → class < 36
            → slabs_of (B.heap keyspace.new.store) class ≡ needed (B.heap keyspace.new.store) class }
    {
        let mut left = UNITS;
        'legs: while self.goes_on(keyspace, left) {
            left -= self.pass(keyspace, left);
        }
        if self.database < DATABASES {
            return Visit::More;
        }
        keyspace.store.end_pass();
        Visit::Done
    }
}
