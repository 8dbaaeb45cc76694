// Tables of scores whose blocks move.

ghost use Rattle.std.specs.Prelude.{◌≢◌};
ghost use Rattle.blocks.specs.Slabs.{Calmer};
ghost use Rattle.score_table.specs.Scored.{IsScoreTable, IsItem};
ghost use Rattle.score_table.specs.Relocation.{IsRelocatedTable, IsCalm};

use crate::ScoreTable;
use blocks::{BlockStore, settle};

impl ScoreTable {
    // Moves the block of the member of an item number that wants it.
    fn move_item<B: BlockStore>(&mut self, store: &mut B, item: usize)
        requires sound { IsScoreTable (B.blocks store.old) self.old }
        requires item { IsItem self.old item }
        ensures settled { IsRelocatedTable (B.blocks store.old) (B.blocks store.new) self.old self.new (λ i. i ≢ item) }
        ensures calm { IsCalm (B.heap store.new) self.new item }
        ensures calmer { Calmer (B.heap store.old) (B.heap store.new) }
    {
        let (member, score) = self.table.entry(item);
        match self.list.rank_of(store, *score, store.bytes(member)) {
            Some(rank) => {
                let new = settle(store, member);
                self.table.swap_ref(item, new);
                self.list.swap_ref(rank, new);
            }
            None => unreachable!(),
        }
    }

    /// Moves the block of the member of an item number where there is one and it wants that, and rewrites the reference in the
    /// dictionary and in the list. It takes no memory.
    pub fn settle_item<B: BlockStore>(&mut self, store: &mut B, item: usize)
        requires { IsScoreTable (B.blocks store.old) self.old }
        ensures settled { IsRelocatedTable (B.blocks store.old) (B.blocks store.new) self.old self.new (λ i. i ≢ item) }
        ensures calm { IsCalm (B.heap store.new) self.new item }
        ensures calmer { Calmer (B.heap store.old) (B.heap store.new) }
    {
        if self.table.is_entry(item) && store.wants_move(self.table.entry(item).0) {
            self.move_item(store, item);
        }
    }
}
