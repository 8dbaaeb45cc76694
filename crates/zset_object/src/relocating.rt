// Sorted sets whose blocks move.

ghost use Rattle.std.specs.Prelude.{◌≡◌, ◌+◌, ◌-◌, ◌^◌, ◌<◌, ◌≤◌, ◌⊎◌, min, length};
ghost use Rattle.blocks.specs.Slabs.{wants, Calmer};
ghost use Rattle.score_table.specs.Scored.{IsScoreTable};
ghost use Rattle.score_table.specs.Relocation.{IsRelocatedTable};
ghost use Rattle.zset_object.specs.Scored.{IsScored, refs};
ghost use Rattle.zset_object.specs.Relocation.{IsRelocated, PassesPart, marks, marks_end, vacant_marks};
ghost use Rattle.collection_walk.specs.Marks.{ArePassed, IsCalm, is_within, items_from, vacant_below};

use crate::Scored;
use crate::scored::Body;
use blocks::{BlockStore, Moved};
use collection_walk::{Part, answer_for, part_from, settle_first};
use score_table::ScoreTable;

// Moves the blocks of the members whose item numbers are in a part that want it.
fn settle_items<B: BlockStore>(store: &mut B, table: &mut ScoreTable, part: Part)
    requires sound { IsScoreTable (B.blocks store.old) table.old }
    requires order { part.start ≤ part.end }
    ensures settled { IsRelocatedTable (B.blocks store.old) (B.blocks store.new) table.old table.new (λ i. (i < part.start) ⊎ (part.end ≤ i)) }
    ensures calm { IsCalm (B.heap store.new) table.new.table part.start part.end }
    ensures calmer { Calmer (B.heap store.old) (B.heap store.new) }
{
    if store.is_calm() {
        return;
    }
    for item in part.start..part.end {
        table.settle_item(store, item);
    }
}

// How many item numbers a table has given, or the greatest number where they are more: each is that of a member's block, or vacant.
fn table_units(table: &ScoreTable) -> u32
    ensures { result ≡ min (length (items_from 0 table.now.table.items) + length (vacant_below table.now.table table.now.table.top)) (2 ^ 32 - 1) }
{
    (table.top() as u128).min(u32::MAX as u128) as u32
}

impl Scored {
    // A number above each mark.
    fn count_marks(&self) -> usize
        ensures { result ≡ marks_end self.now }
    {
        match &self.body {
            Body::Empty => 0,
            Body::Pack(_) => 1,
            Body::Table(table) => table.top(),
        }
    }

    // Moves the blocks whose marks are in a part that want it.
    fn settle_part<B: BlockStore>(&mut self, store: &mut B, part: Part)
        requires sound { IsScored (B.blocks store.old) self.old }
        requires order { part.start ≤ part.end }
        ensures relocated { IsRelocated (B.blocks store.old) (B.blocks store.new) self.old self.new }
        ensures marks { marks self.new ≡ marks self.old }
        ensures vacant { vacant_marks self.new ≡ vacant_marks self.old }
        ensures passed { ArePassed (B.heap store.new) (is_within part.start part.end) (marks self.new) (refs self.old) (refs self.new) }
        ensures calmer { Calmer (B.heap store.old) (B.heap store.new) }
    {
        match &mut self.body {
            Body::Empty => {}
            Body::Pack(packed) => {
                packed.at = settle_first(store, packed.at, part.start as u128, part.end as u128);
            }
            Body::Table(table) => settle_items(store, table, part),
        }
    }

    /// Goes through the blocks from the mark `from` on, at most `room` of them and of vacant item numbers, and moves each that wants
    /// it. The mark of a listpack's block is 0, and that of a member's block its item number. A block that moves gets its new name in
    /// the dictionary and in the ordered list. It takes no memory.
    pub fn relocate_part<B: BlockStore>(&mut self, store: &mut B, from: u128, room: u32) -> Moved
        requires sound { IsScored (B.blocks store.old) self.old }
        requires room { 32 ≤ room }
        ensures relocated { IsRelocated (B.blocks store.old) (B.blocks store.new) self.old self.new }
        ensures passed { PassesPart (B.heap store.new) self.old self.new from room result }
        ensures calmer { Calmer (B.heap store.old) (B.heap store.new) }
    {
        let count = self.count_marks();
        let part = part_from(count, from, room);
        self.settle_part(store, part);
        answer_for(part, count)
    }

    /// How many blocks and vacant item numbers there are: what calls of `relocate_part` pass in all that begin at the mark 0 and go on
    /// to the end. The greatest number stands for all above it too. It looks at no block.
    pub fn units(&self) -> u32
        ensures { result ≡ min (length (marks self.now) + length (vacant_marks self.now)) (2 ^ 32 - 1) }
    {
        match &self.body {
            Body::Empty => 0,
            Body::Pack(_) => 1,
            Body::Table(table) => table_units(table),
        }
    }
}
