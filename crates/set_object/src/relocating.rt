// Sets whose blocks move.

ghost use Rattle.std.specs.Prelude.{◌≡◌, ◌≢◌, ◌+◌, ◌-◌, ◌^◌, ◌<◌, ◌≤◌, ◌⊎◌, ◌&&◌, min, length, IfSome, IfNone, IsSome, Some, None, true, false, MatchBool};
ghost use Rattle.blocks.specs.Slabs.{wants, Calmer};
ghost use Rattle.rehash_dict.specs.Keyed.{Keyed};
ghost use Rattle.set_object.specs.Members.{IsMembers, refs};
ghost use Rattle.set_object.specs.Relocation.{IsRelocated, PassesPart, IsRelocatedTable, WantsMove, ItemWaits, marks, marks_end, vacant_marks};
ghost use Rattle.collection_walk.specs.Marks.{ArePassed, IsCalm, is_within, items_from, vacant_below};

use crate::Members;
use crate::members::{Body, Packed};
use blocks::{BlockStore, Moved, settle};
use collection_walk::{Part, answer_for, part_from, settle_first};
use rehash_dict::Dict;

// Moves the block of the member of an item number where it wants that.
fn settle_item<B: BlockStore>(store: &mut B, table: &mut Dict<()>, at: usize)
    requires { Keyed (B.blocks store.old) table.old }
    ensures settled { IsRelocatedTable (B.blocks store.old) (B.blocks store.new) table.old table.new (λ i. i ≢ at) }
    ensures calm { IsCalm (B.heap store.new) table.new at (at + 1) }
    ensures calmer { Calmer (B.heap store.old) (B.heap store.new) }
{
    if table.is_entry(at) {
        let new = settle(store, table.entry(at).0);
        table.swap_ref(at, new);
    }
}

// Moves the blocks of the members whose item numbers are in a part that want it.
fn settle_items<B: BlockStore>(store: &mut B, table: &mut Dict<()>, part: Part)
    requires keyed { Keyed (B.blocks store.old) table.old }
    requires order { part.start ≤ part.end }
    ensures settled { IsRelocatedTable (B.blocks store.old) (B.blocks store.new) table.old table.new (λ i. (i < part.start) ⊎ (part.end ≤ i)) }
    ensures calm { IsCalm (B.heap store.new) table.new part.start part.end }
    ensures calmer { Calmer (B.heap store.old) (B.heap store.new) }
{
    if store.is_calm() {
        return;
    }
    for at in part.start..part.end {
        settle_item(store, table, at);
    }
}

// Whether a member whose item number is in a part has a block that wants to move.
fn item_waits<B: BlockStore>(store: &B, table: &Dict<()>, part: Part) -> bool
    requires { Keyed (B.blocks store.now) table.now }
    ensures { MatchBool result (ItemWaits (B.heap store.now) table.now part.start part.end) (IsCalm (B.heap store.now) table.now part.start part.end) }
{
    for at in part.start..part.end {
        if table.is_entry(at) && store.wants_move(table.entry(at).0) {
            return true;
        }
    }
    false
}

// Whether the block of a packed form wants to move and its mark is in the part.
fn packed_waits<B: BlockStore>(store: &B, packed: Packed, part: Part) -> bool
    requires { IsSome (B.blocks store.now packed.at) }
    ensures { result ≡ (is_within part.start part.end 0 && wants (B.heap store.now) packed.at) }
{
    part.start == 0 && part.end > 0 && store.wants_move(packed.at)
}

// How many item numbers a dictionary has given, or the greatest number where they are more: each is that of a member's block, or
// vacant.
fn table_units(table: &Dict<()>) -> u32
    ensures { result ≡ min (length (items_from 0 table.now.items) + length (vacant_below table.now table.now.top)) (2 ^ 32 - 1) }
{
    (table.top() as u128).min(u32::MAX as u128) as u32
}

impl Members {
    // A number above each mark.
    fn count_marks(&self) -> usize
        ensures { result ≡ marks_end self.now }
    {
        match &self.body {
            Body::Empty => 0,
            Body::Numbers(_) => 1,
            Body::Pack(_) => 1,
            Body::Table(table) => table.top(),
        }
    }

    // Moves the blocks whose marks are in a part that want it.
    fn settle_part<B: BlockStore>(&mut self, store: &mut B, part: Part)
        requires sound { IsMembers (B.blocks store.old) self.old }
        requires order { part.start ≤ part.end }
        ensures relocated { IsRelocated (B.blocks store.old) (B.blocks store.new) self.old self.new }
        ensures marks { marks self.new ≡ marks self.old }
        ensures vacant { vacant_marks self.new ≡ vacant_marks self.old }
        ensures count { marks_end self.new ≡ marks_end self.old }
        ensures passed { ArePassed (B.heap store.new) (is_within part.start part.end) (marks self.new) (refs self.old) (refs self.new) }
        ensures calmer { Calmer (B.heap store.old) (B.heap store.new) }
    {
        match &mut self.body {
            Body::Empty => {}
            Body::Numbers(packed) => {
                packed.at = settle_first(store, packed.at, part.start as u128, part.end as u128);
            }
            Body::Pack(packed) => {
                packed.at = settle_first(store, packed.at, part.start as u128, part.end as u128);
            }
            Body::Table(table) => settle_items(store, table, part),
        }
    }

    // Whether a block whose mark is in a part wants to move.
    fn part_waits<B: BlockStore>(&self, store: &B, part: Part) -> bool
        requires sound { IsMembers (B.blocks store.now) self.now }
        ensures { MatchBool result (WantsMove (B.heap store.now) self.now part.start part.end)
            (ArePassed (B.heap store.now) (is_within part.start part.end) (marks self.now) (refs self.now) (refs self.now)) }
    {
        match &self.body {
            Body::Empty => false,
            Body::Numbers(packed) => packed_waits(store, *packed, part),
            Body::Pack(packed) => packed_waits(store, *packed, part),
            Body::Table(table) => item_waits(store, table, part),
        }
    }

    /// Goes through the blocks from the mark `from` on, at most `room` of them and of vacant item numbers, and moves each that wants
    /// it. The mark of a packed form's block is 0, and that of a member's block its item number. It takes no memory.
    pub fn relocate_part<B: BlockStore>(&mut self, store: &mut B, from: u128, room: u32) -> Moved
        requires sound { IsMembers (B.blocks store.old) self.old }
        requires room { 32 ≤ room }
        ensures relocated { IsRelocated (B.blocks store.old) (B.blocks store.new) self.old self.new }
        ensures passed { PassesPart (B.heap store.new) self.old self.new from room result }
        ensures calmer { Calmer (B.heap store.old) (B.heap store.new) }
    {
        let count = self.count_marks();
        let part = part_from(count, from, room);
        self.settle_part(store, part);
        answer_for(part, count)
    }

    /// What `relocate_part` answers where no block that it would pass wants to move, so that nothing moves. `None` comes exactly
    /// where one wants to.
    pub fn passed<B: BlockStore>(&self, store: &B, from: u128, room: u32) -> Option<Moved>
        requires sound { IsMembers (B.blocks store.now) self.now }
        requires room { 32 ≤ room }
        ensures some { IfSome result (λ moved. PassesPart (B.heap store.now) self.now self.now from room moved) }
        ensures none { IfNone result (WantsMove (B.heap store.now) self.now from (from + room)) }
    {
        let count = self.count_marks();
        let part = part_from(count, from, room);
        if self.part_waits(store, part) {
            return None;
        }
        Some(answer_for(part, count))
    }
    /// How many blocks and vacant item numbers there are: what calls of `relocate_part` pass in all that begin at the mark 0 and go on
    /// to the end. The greatest number stands for all above it too. It looks at no block.
    pub fn units(&self) -> u32
        ensures { result ≡ min (length (marks self.now) + length (vacant_marks self.now)) (2 ^ 32 - 1) }
    {
        match &self.body {
            Body::Empty => 0,
            Body::Numbers(_) => 1,
            Body::Pack(_) => 1,
            Body::Table(table) => table_units(table),
        }
    }
}
