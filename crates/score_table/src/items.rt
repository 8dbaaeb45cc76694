// Members by their item numbers.

ghost use Rattle.std.specs.Prelude.{◌≡◌, ℕ, ◌<◌, ◌↔◌, IsTrue, Some};
ghost use Rattle.blocks.specs.Blocks.{Blocks};
ghost use Rattle.rehash_dict.specs.Table.{item};
ghost use Rattle.rehash_dict.specs.MapOf.{value_of};
ghost use Rattle.score_table.specs.Scored.{IsScoreTable, IsItem, Names, pair_at};

use crate::ScoreTable;
use blocks::BlockRef;

impl ScoreTable {
    // The score of the member of an item number.
    pub(crate) fn score_at(&self, at: usize) -> i64
        requires { IsItem self.now at }
        ensures { value_of (item self.now.table at) ≡ Some result }
    {
        *self.table.entry(at).1
    }

    /// A number above each item number that was ever given.
    pub fn top(&self) -> usize
        ensures value { result ≡ self.now.table.top }
        ensures above { (at : ℕ) → IsItem self.now at → at < result }
    {
        self.table.top()
    }

    /// Whether a member has the item number.
    pub fn is_entry(&self, item: usize) -> bool
        ensures { IsTrue result ↔ IsItem self.now item }
    {
        self.table.is_entry(item)
    }

    /// The score and the member's block of an item number.
    pub fn entry(&self, item: usize) -> (i64, BlockRef)
        requires { IsItem self.now item }
        ensures { (m : Blocks) → IsScoreTable m self.now → Names m result (pair_at m self.now item) }
    {
        (self.score_at(item), self.table.entry(item).0)
    }
}
