ghost use Rattle.std.specs.Prelude.{◌≡◌, ℕ, ◌+◌, ◌-◌, ◌^◌, ◌≤◌, List, [], length, min};
ghost use Rattle.blocks.specs.declared.BlockRef.{BlockRef};
ghost use Rattle.blocks.specs.Blocks.{Blocks, Changes, Owned, Served};
ghost use Rattle.object_codec.specs.declared.limits.Limits.{Limits};
ghost use Rattle.plain_world.specs.Worlds.{Value};
ghost use Rattle.rehash_dict.specs.Tables.{Tables};
ghost use Rattle.stored.specs.Owning.{ReadsOwn, RestsOn, KeepsTables, IsBlank};
ghost use Rattle.stored.specs.Passing.{Marks, PassesPart};

use blocks::{BlockStore, Moved};

/// What can stand at a key. It owns its blocks in the store that each call is lent, and no other block.
pub trait Stored: Drop {
    /// The references that it owns.
    ghost refs_of: { Blocks → Self → List BlockRef };

    /// The mark of each of these, in the same order, and those of the vacant item numbers between them.
    ghost marks: { Blocks → Self → Marks };

    /// The tables of its dictionary, with elements named by their bytes. One without a dictionary has no table.
    ghost tables: { Blocks → Self → Tables (List ℕ) };

    /// What tells how a value is encoded.
    ghost Encoding: { Type 0 };

    /// How it is encoded.
    ghost encoding: { Self → Encoding };

    /// What it means over the blocks of a store.
    ghost value_of: { Blocks → Self → Value };

    /// It is sound over the blocks of a store, and was made with these limits and this seed where it keeps them.
    ghost IsSound: { Limits → ℕ → Blocks → Self → Type 0 };

    /// What stands in the place of a value that was taken out.
    ghost vacant: { Self };

    /// What stands in the place of a value that was taken out. It owns no block.
    fn zero() -> Self
        ensures { result ≡ vacant };

    /// Gives back all its blocks.
    fn release<B: BlockStore>(self, store: &mut B)
        requires owned { Owned (refs_of (B.blocks store.old) self) (B.blocks store.old) }
        requires sound { (limits : Limits) × (seed : ℕ) × IsSound limits seed (B.blocks store.old) self }
        ensures changes { Changes (B.blocks store.old) (B.blocks store.new) (refs_of (B.blocks store.old) self) [] }
        ensures served { Served B.step store.old store.new };

    /// Goes through its blocks from the mark `from` on, at most `room` of them and of vacant item numbers, and moves each that wants
    /// it. It takes no memory.
    fn relocate_part<B: BlockStore>(&mut self, store: &mut B, from: u128, room: u32) -> Moved
        requires owned { Owned (refs_of (B.blocks store.old) self.old) (B.blocks store.old) }
        requires sound { (limits : Limits) × (seed : ℕ) × IsSound limits seed (B.blocks store.old) self.old }
        requires room { 32 ≤ room }
        ensures { PassesPart refs_of value_of IsSound marks tables encoding (B.blocks store.old) (B.blocks store.new) (B.heap store.old) (B.heap store.new) self.old self.new from room result };

    /// How many blocks and vacant item numbers it has: what calls of `relocate_part` pass in all that begin at the mark 0 and go on
    /// to the end. The greatest number stands for all above it too. It looks at no block.
    fn units(&self) -> u32
        ensures { (limits : Limits) (seed : ℕ) (m : Blocks) → IsSound limits seed m self.now → result ≡ min (length (marks m self.now).named + length (marks m self.now).vacant) (2 ^ 32 - 1) };

    /// Each of its references has a mark.
    ghost marked: { (m : Blocks) (value : Self) → length (marks m value).named ≡ length (refs_of m value) };

    /// What it means is read out of its own blocks, and so is whether it is sound.
    ghost reads_own: { ReadsOwn refs_of value_of IsSound };

    /// So are its marks.
    ghost marks_own: { RestsOn refs_of marks };

    /// So are its tables.
    ghost tables_own: { KeepsTables refs_of IsSound tables };

    /// What stands in the place of a value that was taken out owns no block, and is sound.
    ghost is_blank: { IsBlank refs_of IsSound vacant };
}
