ghost use Rattle.std.specs.Prelude.{◌≡◌, ◌≤◌, [], None, MatchOption, length, count_by, int_lt, slice_get};
ghost use Rattle.std.specs.FinMap.{empty, get, len};
ghost use Rattle.blocks.specs.Blocks.{Blocks};
ghost use Rattle.score_list.specs.Cursor.{IsCursor};
ghost use Rattle.score_table.specs.Scored.{IsScoreTable, Names, RanksAt, scores, ranked, refs, tables, no_tables, seed_of};

use blocks::{BlockRef, BlockStore};
use rehash_dict::Dict;
use score_list::{Cursor, Scores};
use std::alloc::Global;

/// Members, which are byte strings, each with a score. It owns one block for each member in the store that each call is lent, and no
/// other block.
///
/// A member is found by its hash, and a rank by steps that are, by chance, logarithmic in the number of members.
#[derive(Drop)]
pub struct ScoreTable {
    pub(crate) table: Dict<i64>,
    pub(crate) list: Scores,
}

impl ScoreTable {
    /// No member. The seed is that of the dictionary's hashes and of the list's heights. It takes no memory.
    pub fn new(alloc: Global, seed: u64) -> ScoreTable
        ensures sound { (m : Blocks) → IsScoreTable m result }
        ensures empty { (m : Blocks) → scores m result ≡ empty }
        ensures refs { refs result ≡ [] }
        ensures tables { (m : Blocks) → tables m result ≡ no_tables }
        ensures seed { seed_of result ≡ seed }
    {
        ScoreTable {
            table: Dict::new(alloc, seed),
            list: Scores::new(alloc, seed),
        }
    }

    /// The number of members.
    pub fn len(&self) -> usize
        ensures { (m : Blocks) → IsScoreTable m self.now → result ≡ len (scores m self.now) }
    {
        self.table.len()
    }

    /// The score of a member. `None` comes exactly where it isn't there.
    pub fn score<B: BlockStore>(&self, store: &B, member: &[u8]) -> Option<i64>
        requires { IsScoreTable (B.blocks store.now) self.now }
        ensures { result ≡ get (scores (B.blocks store.now) self.now) member.now }
    {
        match self.table.find(store, member) {
            Some(at) => Some(*self.table.entry(at).1),
            None => None,
        }
    }

    /// The rank of a member, from 0 on. `None` comes exactly where it isn't there.
    pub fn rank<B: BlockStore>(&self, store: &B, member: &[u8]) -> Option<usize>
        requires { IsScoreTable (B.blocks store.now) self.now }
        ensures { MatchOption result (get (scores (B.blocks store.now) self.now) member.now ≡ None) (λ rank. RanksAt (B.blocks store.now) self.now member.now rank) }
    {
        match self.score(store, member) {
            Some(score) => self.list.rank_of(store, score, member),
            None => None,
        }
    }

    /// The score and the member's block at a rank. `None` comes exactly from the number of members on.
    pub fn at_rank(&self, rank: usize) -> Option<(i64, BlockRef)>
        ensures { (m : Blocks) → IsScoreTable m self.now → MatchOption result (len (scores m self.now) ≤ rank) (λ pair. Names m pair (slice_get (ranked m self.now) rank)) }
    {
        self.list.at_rank(rank)
    }

    /// How many scores are below this one: the rank of the first member with this score or a higher one.
    pub fn below(&self, least: i64) -> usize
        ensures { (m : Blocks) → result ≡ count_by (λ key. int_lt key.0 least) (ranked m self.now) }
    {
        self.list.first_in_range(least)
    }

    /// The cursor at a rank, from which a walk along the ranks goes on by one link each. `None` comes exactly from the number of
    /// members on. The members that it meets are those that `at_rank` answers.
    pub fn cursor(&self, rank: usize) -> Option<Cursor<'_>>
        ensures at { MatchOption result (length self.now.list ≤ rank) (λ cursor. IsCursor cursor self.now.list rank) }
        ensures none { (m : Blocks) → IsScoreTable m self.now → MatchOption result (len (scores m self.now) ≤ rank) (λ cursor. IsCursor cursor self.now.list rank) }
    {
        self.list.cursor(rank)
    }

    /// The dictionary from member blocks to scores.
    pub fn table(&self) -> &Dict<i64>
        ensures { result.now ≡ self.now.table }
    {
        &self.table
    }
}
