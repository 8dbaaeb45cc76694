// Members that are taken out.

ghost use Rattle.std.specs.Prelude.{◌≡◌, ◌≤◌, ℕ, ℤ, length, [], IfOk, OnOk, OnErr, IfSome, IfNone};
ghost use Rattle.std.specs.List.{remove_range as range_removed};
ghost use Rattle.std.specs.FinMap.{get, len, remove};
ghost use Rattle.blocks.specs.Blocks.{Blocks, Changes, Owned, Served};
ghost use Rattle.rehash_dict.specs.Keyed.{Keyed};
ghost use Rattle.rehash_dict.specs.Steps.{Holds};
ghost use Rattle.rehash_dict.specs.Tables.{IsSettled, shrunk, wants_shrink};
ghost use Rattle.score_table.specs.Scored.{IsScoreTable, IsChanged, Forgets, LeavesRange, scores, refs, table_of, tables};

use crate::ScoreTable;
use blocks::{BlockRef, BlockStore, Memory};
use collection_walk::end_table;
use rehash_dict::Dict;
use score_list::Scores;

// Takes the member that a block holds out of a dictionary, and gives its block back.
fn forget<B: BlockStore>(table: &mut Dict<i64>, store: &mut B, member: BlockRef)
    requires keyed { Keyed (B.blocks store.old) table.old }
    requires there { (at : ℕ) × (score : ℤ) × Holds table.old at member score }
    ensures forgets { Forgets (B.blocks store.old) (B.blocks store.new) table.old table.new member }
    ensures served { Served B.step store.old store.new }
{
    let bytes = store.bytes(member);
    match table.remove(store, bytes) {
        Some((taken, _score)) => store.give_back(taken),
        None => unreachable!(),
    }
}

// Takes the members from a rank of the list to below another one out of the dictionary, and gives their blocks back. The list keeps
// them.
fn forget_range<B: BlockStore>(
    table: &mut Dict<i64>,
    list: &Scores,
    store: &mut B,
    from: usize,
    to: usize,
)
    requires sound { IsScoreTable (B.blocks store.old) (table_of table.old list.now) }
    requires order { from ≤ to }
    requires inside { to ≤ length list.now }
    ensures leaves { LeavesRange (B.blocks store.old) (B.blocks store.new) (table_of table.old list.now) (table_of table.new (range_removed list.now from to)) from to }
    ensures served { Served B.step store.old store.new }
{
    let mut next = list.cursor(from);
    for _ in from..to {
        match next {
            None => unreachable!(),
            Some(cursor) => {
                let (_, member) = cursor.get();
                forget(table, store, member);
                next = cursor.next();
            }
        }
    }
}

impl ScoreTable {
    /// Takes a member out, gives its block back, and answers its score. `None` comes exactly where it isn't there. It takes no memory.
    pub fn take_out<B: BlockStore>(&mut self, store: &mut B, member: &[u8]) -> Option<i64>
        requires { IsScoreTable (B.blocks store.old) self.old }
        ensures had { result ≡ get (scores (B.blocks store.old) self.old) member.now }
        ensures removed { IfSome result (λ _. IsChanged (B.blocks store.old) (B.blocks store.new) self.old self.new (remove (scores (B.blocks store.old) self.old) member.now)) }
        ensures served { Served B.step store.old store.new }
        ensures none_table { IfNone result (self.new ≡ self.old) }
        ensures none_blocks { IfNone result (B.blocks store.new ≡ B.blocks store.old) }
    {
        match self.table.remove(store, member) {
            Some((taken, score)) => {
                let _there = self.list.remove(store, score, member);
                store.give_back(taken);
                Some(score)
            }
            None => None,
        }
    }

    /// Takes the members from a rank to below another one out, and gives their blocks back. Their place in the order is found once. It takes
    /// no memory.
    pub fn take_range<B: BlockStore>(&mut self, store: &mut B, from: usize, to: usize)
        requires sound { IsScoreTable (B.blocks store.old) self.old }
        requires order { from ≤ to }
        requires inside { to ≤ len (scores (B.blocks store.old) self.old) }
        ensures leaves { LeavesRange (B.blocks store.old) (B.blocks store.new) self.old self.new from to }
        ensures served { Served B.step store.old store.new }
    {
        forget_range(&mut self.table, &self.list, store, from, to);
        self.list.remove_range(from, to);
    }

    /// Begins a rehash of the dictionary to a smaller table where none is going on, there are more than 4 buckets, and ten times the
    /// members are fewer than the buckets. `true` comes exactly where it began one. `Memory` leaves all.
    pub fn shrink(&mut self) -> Result<bool, Memory>
        ensures value { (m : Blocks) → IfOk result (λ began. began ≡ wants_shrink (tables m self.old)) }
        ensures changed { (m : Blocks) → IsScoreTable m self.old → IsChanged m m self.old self.new (scores m self.old) }
        ensures tables { (m : Blocks) → OnOk result (tables m self.new ≡ shrunk (tables m self.old)) }
        ensures settled { (m : Blocks) → OnOk result (IsSettled (tables m self.new)) }
        ensures list { self.new.list ≡ self.old.list }
        ensures err { OnErr result (self.new ≡ self.old) }
    {
        self.table.shrink()
    }

    /// Gives back the blocks of all members. It takes no memory.
    pub fn release<B: BlockStore>(self, store: &mut B)
        requires { Owned (refs self) (B.blocks store.old) }
        ensures changes { Changes (B.blocks store.old) (B.blocks store.new) (refs self) [] }
        ensures served { Served B.step store.old store.new }
    {
        end_table(store, self.table);
    }
}
