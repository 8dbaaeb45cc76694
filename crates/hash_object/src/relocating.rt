// Hashes whose blocks move.

ghost use Rattle.std.specs.Prelude.{◌≡◌, ◌≢◌, ◌+◌, ◌-◌, ◌*◌, ◌^◌, ◌<◌, ◌≤◌, ◌⊎◌, min, length, IsSome, Some, None};
ghost use Rattle.blocks.specs.Blocks.{Owned};
ghost use Rattle.blocks.specs.Slabs.{wants, Calmer};
ghost use Rattle.rehash_dict.specs.Table.{item};
ghost use Rattle.rehash_dict.specs.Keyed.{Keyed};
ghost use Rattle.hash_object.specs.declared.fields.Body.TheVariants.{Table};
ghost use Rattle.hash_object.specs.Hashed.{blocks_of};
ghost use Rattle.hash_object.specs.Fields.{IsFields, refs};
ghost use Rattle.hash_object.specs.Relocation.{IsRelocated, PassesPart, IsRelocatedTable, IsCalm, marks, marks_from, marks_end, vacant_marks, vacant_below, units, units_in, block_in};
ghost use Rattle.collection_walk.specs.Marks.{ArePassed, is_within};

use crate::Fields;
use crate::fields::Body;
use blocks::{BlockRef, BlockStore, Moved, settle};
use collection_walk::{answer_at, settle_first};
use rehash_dict::Dict;

// The marks from `start` to below `end`, and how many blocks and vacant item numbers have them.
#[derive(Clone, Copy)]
struct Part {
    start: u128,
    end: u128,
    used: u32,
}

// The block of a mark.
fn block_at(table: &Dict<BlockRef>, mark: u128) -> Option<BlockRef>
    requires { mark < 2 ^ 65 }
    ensures { result ≡ block_in table.now.items mark }
{
    let at = (mark / 2) as usize;
    if !table.is_entry(at) {
        return None;
    }
    let (field, value) = table.entry(at);
    if mark % 2 == 0 {
        Some(field)
    } else {
        Some(*value)
    }
}

// How many blocks and vacant item numbers have a mark: a vacant one has the even mark alone.
fn unit_at(table: &Dict<BlockRef>, mark: u128) -> u32
    requires fits { mark < 2 ^ 65 }
    requires below { mark < 2 * table.now.top }
    ensures { result ≡ units_in (Table table.now) mark (mark + 1) }
{
    if mark % 2 == 0 {
        return 1;
    }
    u32::from(block_at(table, mark).is_some())
}

// The part that a call goes through from a mark of a dictionary on.
fn table_part(table: &Dict<BlockRef>, start: u128, room: u32) -> Part
    requires { start ≤ 2 * table.now.top }
    ensures start { result.start ≡ start }
    ensures order { result.start ≤ result.end }
    ensures below { result.end ≤ 2 * table.now.top }
    ensures fits { result.end ≤ 2 ^ 65 }
    ensures used { result.used ≡ units_in (Table table.now) result.start result.end }
    ensures within { result.used ≤ room }
    ensures full { result.end < 2 * table.now.top → result.used ≡ room }
{
    let count = 2 * table.top() as u128;
    let mut used = 0;
    for mark in start..count {
        let unit = unit_at(table, mark);
        if unit > room - used {
            return Part {
                start,
                end: mark,
                used,
            };
        }
        used += unit;
    }
    Part {
        start,
        end: count,
        used,
    }
}

// How many blocks and vacant item numbers a dictionary has, or the greatest number where they are more.
fn table_units(table: &Dict<BlockRef>) -> u32
    ensures { result ≡ min (length (marks_from 0 table.now.items) + length (vacant_below table.now table.now.top)) (2 ^ 32 - 1) }
{
    let units = table.top() as u128 + table.len() as u128;
    units.min(u32::MAX as u128) as u32
}

// Moves the block of the field of an item number where it wants that.
fn settle_field<B: BlockStore>(store: &mut B, table: &mut Dict<BlockRef>, at: usize)
    requires keyed { Keyed (B.blocks store.old) table.old }
    requires owned { Owned (blocks_of table.old) (B.blocks store.old) }
    requires entry { IsSome (item table.old at) }
    ensures settled { IsRelocatedTable (B.blocks store.old) (B.blocks store.new) table.old table.new (λ mark. mark ≢ 2 * at) }
    ensures calm { IsCalm (B.heap store.new) table.new (2 * at) (2 * at + 1) }
    ensures calmer { Calmer (B.heap store.old) (B.heap store.new) }
{
    let new = settle(store, table.entry(at).0);
    table.swap_ref(at, new);
}

// Moves the block of the value of an item number where it wants that.
fn settle_value<B: BlockStore>(store: &mut B, table: &mut Dict<BlockRef>, at: usize)
    requires keyed { Keyed (B.blocks store.old) table.old }
    requires owned { Owned (blocks_of table.old) (B.blocks store.old) }
    requires entry { IsSome (item table.old at) }
    ensures settled { IsRelocatedTable (B.blocks store.old) (B.blocks store.new) table.old table.new (λ mark. mark ≢ 2 * at + 1) }
    ensures calm { IsCalm (B.heap store.new) table.new (2 * at + 1) (2 * at + 2) }
    ensures calmer { Calmer (B.heap store.old) (B.heap store.new) }
{
    let new = settle(store, *table.entry(at).1);
    let _old = table.swap_value(at, new);
}

// Moves the block of a mark where it wants that.
fn settle_mark<B: BlockStore>(store: &mut B, table: &mut Dict<BlockRef>, mark: u128)
    requires keyed { Keyed (B.blocks store.old) table.old }
    requires owned { Owned (blocks_of table.old) (B.blocks store.old) }
    requires fits { mark < 2 ^ 65 }
    ensures settled { IsRelocatedTable (B.blocks store.old) (B.blocks store.new) table.old table.new (λ other. other ≢ mark) }
    ensures calm { IsCalm (B.heap store.new) table.new mark (mark + 1) }
    ensures calmer { Calmer (B.heap store.old) (B.heap store.new) }
{
    let at = (mark / 2) as usize;
    if !table.is_entry(at) {
        return;
    }
    if mark % 2 == 0 {
        settle_field(store, table, at);
        return;
    }
    settle_value(store, table, at);
}

// Moves the blocks whose marks are in a part that want it.
fn settle_marks<B: BlockStore>(store: &mut B, table: &mut Dict<BlockRef>, part: Part)
    requires keyed { Keyed (B.blocks store.old) table.old }
    requires owned { Owned (blocks_of table.old) (B.blocks store.old) }
    requires order { part.start ≤ part.end }
    requires fits { part.end ≤ 2 ^ 65 }
    ensures settled { IsRelocatedTable (B.blocks store.old) (B.blocks store.new) table.old table.new (λ mark. (mark < part.start) ⊎ (part.end ≤ mark)) }
    ensures calm { IsCalm (B.heap store.new) table.new part.start part.end }
    ensures calmer { Calmer (B.heap store.old) (B.heap store.new) }
{
    if store.is_calm() {
        return;
    }
    for mark in part.start..part.end {
        settle_mark(store, table, mark);
    }
}

impl Fields {
    // A number above each mark.
    fn count_marks(&self) -> u128
        ensures { result ≡ marks_end self.now }
    {
        match &self.body {
            Body::Empty => 0,
            Body::Pack(_) => 1,
            Body::Table(table) => 2 * table.top() as u128,
        }
    }

    // The part that a call goes through from a mark on.
    fn part_from(&self, from: u128, room: u32) -> Part
        requires { 32 ≤ room }
        ensures start { result.start ≡ min from (marks_end self.now) }
        ensures order { result.start ≤ result.end }
        ensures below { result.end ≤ marks_end self.now }
        ensures fits { result.end ≤ 2 ^ 65 }
        ensures used { result.used ≡ units self.now result.start result.end }
        ensures within { result.used ≤ room }
        ensures full { result.end < marks_end self.now → result.used ≡ room }
    {
        let count = self.count_marks();
        let start = from.min(count);
        match &self.body {
            Body::Table(table) => table_part(table, start, room),
            _ => Part {
                start,
                end: count,
                used: (count - start) as u32,
            },
        }
    }

    // Moves the blocks whose marks are in a part that want it.
    fn settle_part<B: BlockStore>(&mut self, store: &mut B, part: Part)
        requires sound { IsFields (B.blocks store.old) self.old }
        requires order { part.start ≤ part.end }
        requires fits { part.end ≤ 2 ^ 65 }
        ensures relocated { IsRelocated (B.blocks store.old) (B.blocks store.new) self.old self.new }
        ensures marks { marks self.new ≡ marks self.old }
        ensures vacant { vacant_marks self.new ≡ vacant_marks self.old }
        ensures count { marks_end self.new ≡ marks_end self.old }
        ensures passed { ArePassed (B.heap store.new) (is_within part.start part.end) (marks self.new) (refs self.old) (refs self.new) }
        ensures calmer { Calmer (B.heap store.old) (B.heap store.new) }
    {
        match &mut self.body {
            Body::Empty => {}
            Body::Pack(packed) => {
                packed.at = settle_first(store, packed.at, part.start, part.end);
            }
            Body::Table(table) => settle_marks(store, table, part),
        }
    }

    /// Goes through the blocks from the mark `from` on, at most `room` of them and of vacant item numbers, and moves each that wants
    /// it. The mark of a listpack's block is 0, that of a field's block twice its item number, and that of a value's block one more. It
    /// takes no memory.
    pub fn relocate_part<B: BlockStore>(&mut self, store: &mut B, from: u128, room: u32) -> Moved
        requires sound { IsFields (B.blocks store.old) self.old }
        requires room { 32 ≤ room }
        ensures relocated { IsRelocated (B.blocks store.old) (B.blocks store.new) self.old self.new }
        ensures passed { PassesPart (B.heap store.new) self.old self.new from room result }
        ensures calmer { Calmer (B.heap store.old) (B.heap store.new) }
    {
        let count = self.count_marks();
        let part = self.part_from(from, room);
        self.settle_part(store, part);
        answer_at(part.end, count, part.used)
    }

    /// How many blocks and vacant item numbers there are: what calls of `relocate_part` pass in all that begin at the mark 0 and go on
    /// to the end. The greatest number stands for all above it too. It looks at no block.
    pub fn units(&self) -> u32
        ensures { result ≡ min (length (marks self.now) + length (vacant_marks self.now)) (2 ^ 32 - 1) }
    {
        match &self.body {
            Body::Empty => 0,
            Body::Pack(_) => 1,
            Body::Table(table) => table_units(table),
        }
    }
}
