// Tables of scores copied.

ghost use Rattle.std.specs.Prelude.{◌≡◌, ℕ, ℤ, List, None, Some, IfOk, OnOk, OnErr};
ghost use Rattle.std.specs.FinMap.{get};
ghost use Rattle.blocks.specs.Blocks.{Served};
ghost use Rattle.score_table.specs.Scored.{IsScoreTable, IsItem, pair_at, scores};
ghost use Rattle.score_table.specs.Copied.{IsCopied, TakesOver};

use crate::ScoreTable;
use blocks::{BlockStore, Memory};
use std::alloc::Global;

impl ScoreTable {
    // Puts the member of an item number into another table, which lacks it. `Memory` leaves that table and all blocks.
    fn copy_item<B: BlockStore>(
        &self,
        alloc: Global,
        store: &mut B,
        item: usize,
        copy: &mut ScoreTable,
    ) -> Result<(), Memory>
        requires source { IsScoreTable (B.blocks store.old) self.now }
        requires entry { IsItem self.now item }
        requires sound { IsScoreTable (B.blocks store.old) copy.old }
        requires absent { (score : ℤ) (member : List ℕ) → pair_at (B.blocks store.old) self.now item ≡ Some (score, member) → get (scores (B.blocks store.old) copy.old) member ≡ None }
        ensures added { OnOk result (TakesOver (B.blocks store.old) (B.blocks store.new) self.now copy.old copy.new item) }
        ensures served { Served B.step store.old store.new }
        ensures err_table { OnErr result (copy.new ≡ copy.old) }
        ensures err_blocks { OnErr result (B.blocks store.new ≡ B.blocks store.old) }
    {
        let (score, block) = self.entry(item);
        let bytes = Vec::from_slice(alloc, store.bytes(block))?;
        copy.add(store, score, &bytes)
    }

    /// The same members with the same scores, put in in the order of their item numbers, over blocks of its own. The seed is that of the
    /// copy. `Memory` leaves all blocks.
    pub fn copy<B: BlockStore>(
        &self,
        alloc: Global,
        seed: u64,
        store: &mut B,
    ) -> Result<ScoreTable, Memory>
        requires { IsScoreTable (B.blocks store.old) self.now }
        ensures copied { IfOk result (λ copy. IsCopied (B.blocks store.old) (B.blocks store.new) seed copy (scores (B.blocks store.old) self.now)) }
        ensures served { Served B.step store.old store.new }
        ensures err_blocks { OnErr result (B.blocks store.new ≡ B.blocks store.old) }
    {
        let mut copy = ScoreTable::new(alloc, seed);
        for item in 0..self.table.top() {
            if self.table.is_entry(item) {
                if let Err(error) = self.copy_item(alloc, store, item, &mut copy) {
                    copy.release(store);
                    return Err(error);
                }
            }
        }
        Ok(copy)
    }
}
