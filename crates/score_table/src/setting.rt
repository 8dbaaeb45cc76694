// Members that are put in, and scores that change.

ghost use Rattle.std.specs.Prelude.{◌≡◌, None, IsSome, OnOk, OnErr, IfOk, not};
ghost use Rattle.std.specs.FinMap.{get, insert, contains_key};
ghost use Rattle.blocks.specs.Blocks.{bytes_at, Served};
ghost use Rattle.rehash_dict.specs.Keyed.{hash_of, Lacks, Stands};
ghost use Rattle.score_table.specs.Scored.{IsScoreTable, IsChanged, IsJoined, scores, seed_of};

use crate::ScoreTable;
use blocks::{BlockRef, BlockStore, Memory, put_block};

impl ScoreTable {
    // Names a block that holds a member that isn't there, whose hash is at hand. `Memory` leaves all.
    fn join<B: BlockStore>(
        &mut self,
        store: &B,
        hash: u64,
        score: i64,
        member: BlockRef,
    ) -> Result<(), Memory>
        requires sound { IsScoreTable (B.blocks store.now) self.old }
        requires live { IsSome (B.blocks store.now member) }
        requires hashed { hash ≡ hash_of (seed_of self.old) (bytes_at (B.blocks store.now) member) }
        requires absent { Lacks (B.blocks store.now) self.old.table (bytes_at (B.blocks store.now) member) }
        ensures joined { OnOk result (IsJoined (B.blocks store.now) self.old self.new member score) }
        ensures err { OnErr result (self.new ≡ self.old) }
    {
        self.list.insert(store, score, member)?;
        match self.table.insert_hashed(hash, member, score) {
            Ok(_) => Ok(()),
            Err((_, error)) => {
                let _there = self.list.remove(store, score, store.bytes(member));
                Err(error)
            }
        }
    }

    // Puts in a member that isn't there, whose hash is at hand. `Memory` leaves all members and all blocks.
    fn add_hashed<B: BlockStore>(
        &mut self,
        store: &mut B,
        hash: u64,
        score: i64,
        member: &[u8],
    ) -> Result<(), Memory>
        requires sound { IsScoreTable (B.blocks store.old) self.old }
        requires hashed { hash ≡ hash_of (seed_of self.old) member.now }
        requires absent { Lacks (B.blocks store.old) self.old.table member.now }
        ensures added { OnOk result (IsChanged (B.blocks store.old) (B.blocks store.new) self.old self.new (insert (scores (B.blocks store.old) self.old) member.now score)) }
        ensures served { Served B.step store.old store.new }
        ensures err_table { OnErr result (self.new ≡ self.old) }
        ensures err_blocks { OnErr result (B.blocks store.new ≡ B.blocks store.old) }
    {
        let at = put_block(store, member)?;
        match self.join(store, hash, score, at) {
            Ok(()) => Ok(()),
            Err(error) => {
                store.give_back(at);
                Err(error)
            }
        }
    }

    // Gives the member of an item number another score. It takes no memory.
    fn rescore<B: BlockStore>(&mut self, store: &B, item: usize, score: i64, member: &[u8])
        requires sound { IsScoreTable (B.blocks store.now) self.old }
        requires stands { Stands (B.blocks store.now) self.old.table item member.now }
        ensures changed { IsChanged (B.blocks store.now) (B.blocks store.now) self.old self.new (insert (scores (B.blocks store.now) self.old) member.now score) }
    {
        let old = self.score_at(item);
        if old == score {
            return;
        }
        let _there = self.list.rescore(store, old, score, member);
        let _old = self.table.swap_value(item, score);
    }

    /// Puts in a member that isn't there, with a score. `Memory` leaves all members and all blocks.
    pub fn add<B: BlockStore>(
        &mut self,
        store: &mut B,
        score: i64,
        member: &[u8],
    ) -> Result<(), Memory>
        requires sound { IsScoreTable (B.blocks store.old) self.old }
        requires absent { get (scores (B.blocks store.old) self.old) member.now ≡ None }
        ensures added { OnOk result (IsChanged (B.blocks store.old) (B.blocks store.new) self.old self.new (insert (scores (B.blocks store.old) self.old) member.now score)) }
        ensures served { Served B.step store.old store.new }
        ensures err_table { OnErr result (self.new ≡ self.old) }
        ensures err_blocks { OnErr result (B.blocks store.new ≡ B.blocks store.old) }
    {
        let hash = self.table.hash(member);
        self.add_hashed(store, hash, score, member)
    }

    /// Gives a member this score, and answers whether it is new. `Memory` leaves all members and all blocks.
    ///
    /// A member that was there keeps its block.
    pub fn set<B: BlockStore>(
        &mut self,
        store: &mut B,
        score: i64,
        member: &[u8],
    ) -> Result<bool, Memory>
        requires { IsScoreTable (B.blocks store.old) self.old }
        ensures there { IfOk result (λ new. new ≡ not (contains_key (scores (B.blocks store.old) self.old) member.now)) }
        ensures changed { OnOk result (IsChanged (B.blocks store.old) (B.blocks store.new) self.old self.new (insert (scores (B.blocks store.old) self.old) member.now score)) }
        ensures served { Served B.step store.old store.new }
        ensures err_table { OnErr result (self.new ≡ self.old) }
        ensures err_blocks { OnErr result (B.blocks store.new ≡ B.blocks store.old) }
    {
        let hash = self.table.hash(member);
        match self.table.find_hashed(store, hash, member) {
            Some(at) => {
                self.rescore(store, at, score, member);
                Ok(false)
            }
            None => {
                self.add_hashed(store, hash, score, member)?;
                Ok(true)
            }
        }
    }
}
