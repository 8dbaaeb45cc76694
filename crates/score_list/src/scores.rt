//! The list of scores and members.

ghost use Rattle.std.specs.Prelude.{◌≡◌, ◌≢◌, ℕ, suc, ◌+◌, ◌<◌, ◌≤◌, length, List, [], Some, None, IfSome, IfNone, MatchOption, OnOk, OnErr, int_lt, count_by, slice_get, slice_set};
ghost use Rattle.std.specs.Prelude.{slice_index_or, IsSome};
ghost use Rattle.std.specs.List.{remove_range as range_removed};
ghost use Rattle.blocks.specs.Blocks.{Blocks, bytes_at};
ghost use Rattle.score_list.specs.Linked.{Element, no_element, with_at, without_at, renamed_at};
ghost use Rattle.score_list.specs.Sorted.{IsSorted, Misses, place_of, HasAt, Removes, Rescores, Carries, key_of};
ghost use Rattle.score_list.specs.Cursor.{IsCursor};

use crate::Memory;
use crate::cursor::Cursor;
use crate::probes::{Least, Pair};
use crate::towers::{LEVELS, START, Towers};
use blocks::{BlockRef, BlockStore};
use rand_core::Rng;
use rand_pcg::Pcg32;
use std::alloc::Global;
use std::marker::Model;

/// A list of elements, each a score and the block of a member, sorted by score and then by the members' bytes.
///
/// It reads the bytes in the store that is lent to a call, and owns no block. The steps of each call are, by chance,
/// logarithmic in the number of elements.
#[derive(Drop)]
pub struct Scores {
    towers: Towers,
    dice: Pcg32,
}

impl Model for Scores {
    ghost use Rattle.std.specs.Prelude.{List, ℤ};
    ghost use Rattle.blocks.specs.declared.BlockRef.{BlockRef};

    ghost Value = { List (ℤ × BlockRef) };

    ghost use Rattle.score_list.specs.Linked.{items, IsLinked};
    ghost use Rattle.score_list.specs.Sorted.{IsRising};

    ghost view = { λ s. items s.towers };

    ghost invariant = { λ s. IsLinked s.towers × IsRising (items s.towers) };
}

/// A height of at least one level. A quarter of the heights that reach a level reach the next one.
fn height(dice: &mut Pcg32) -> usize
    ensures { 0 < result }
{
    let steps = dice.next_u32().trailing_zeros() as usize / 2;
    1 + steps.min(LEVELS - 1)
}

impl Scores {
    /// No element. The heights of towers are drawn from a generator with the seed.
    pub fn new(alloc: Global, seed: u64) -> Scores
        ensures { result ≡ [] }
    {
        Scores {
            towers: Towers::new(alloc),
            dice: Pcg32::new(seed, 54),
        }
    }

    /// The number of elements.
    pub fn len(&self) -> usize
        ensures { result ≡ length self.now }
    {
        self.towers.len
    }

    /// Puts a pair that isn't there at its place. `Memory` leaves the list.
    pub fn insert<B: BlockStore>(
        &mut self,
        store: &B,
        score: i64,
        member: BlockRef,
    ) -> Result<(), Memory>
        requires sorted { IsSorted (B.blocks store.now) self.old }
        requires live { IsSome (B.blocks store.now member) }
        requires fresh { Misses (B.blocks store.now) (score, bytes_at (B.blocks store.now) member) self.old }
        ensures ok { OnOk result (self.new ≡ with_at self.old (place_of (B.blocks store.now) (score, bytes_at (B.blocks store.now) member) self.old) (score, member)) }
        ensures err { OnErr result (self.new ≡ self.old) }
        ensures sorted { IsSorted (B.blocks store.now) self.new }
    {
        let bytes = store.bytes(member);
        let probe = Pair {
            store,
            score,
            member: bytes,
        };
        let high = height(&mut self.dice);
        self.towers.insert(&probe, score, member, high)
    }

    /// Takes a pair out, and answers whether it was there.
    pub fn remove<B: BlockStore>(&mut self, store: &B, score: i64, member: &[u8]) -> bool
        requires { IsSorted (B.blocks store.now) self.old }
        ensures removes { Removes (B.blocks store.now) (score, member.now) self.old result self.new }
        ensures sorted { IsSorted (B.blocks store.now) self.new }
    {
        let mut path = [START; LEVELS];
        match self.towers.locate(store, score, member, &mut path) {
            None => false,
            Some((rank, key)) => {
                self.towers.remove_at(rank, key, &path);
                true
            }
        }
    }

    /// Takes the elements from a rank to below another one out. Their place is found once.
    pub fn remove_range(&mut self, from: usize, to: usize)
        requires order { from ≤ to }
        requires inside { to ≤ length self.old }
        ensures { self.new ≡ range_removed self.old from to }
    {
        self.towers.remove_range(from, to);
    }

    /// Gives a pair that is there another score, and its place among the others then, and answers whether it was there. It takes no memory.
    pub fn rescore<B: BlockStore>(&mut self, store: &B, old: i64, new: i64, member: &[u8]) -> bool
        requires sorted { IsSorted (B.blocks store.now) self.old }
        requires fresh { Misses (B.blocks store.now) (new, member.now) self.old }
        ensures rescores { Rescores (B.blocks store.now) (old, member.now) new self.old result self.new }
        ensures sorted { IsSorted (B.blocks store.now) self.new }
    {
        let mut path = [START; LEVELS];
        match self.towers.locate(store, old, member, &mut path) {
            None => false,
            Some((rank, key)) => {
                let probe = Pair {
                    store,
                    score: new,
                    member,
                };
                self.towers.rescore(rank, key, &path, &probe, new);
                true
            }
        }
    }

    /// The rank of a pair, from 0 on. `None` comes exactly where there is none.
    pub fn rank_of<B: BlockStore>(&self, store: &B, score: i64, member: &[u8]) -> Option<usize>
        requires { IsSorted (B.blocks store.now) self.now }
        ensures found { IfSome result (λ rank. (rank ≡ place_of (B.blocks store.now) (score, member.now) self.now) × HasAt (B.blocks store.now) (score, member.now) self.now rank) }
        ensures none { IfNone result (Misses (B.blocks store.now) (score, member.now) self.now) }
    {
        match self
            .towers
            .locate(store, score, member, &mut [START; LEVELS])
        {
            None => None,
            Some((rank, _)) => Some(rank),
        }
    }

    /// The element at a rank. `None` comes exactly from the length on.
    pub fn at_rank(&self, rank: usize) -> Option<(i64, BlockRef)>
        ensures { result ≡ slice_get self.now rank }
    {
        if rank >= self.towers.len {
            return None;
        }
        let key = self.towers.key_at(rank);
        Some(self.towers.element(key))
    }

    /// The cursor at a rank, from which a walk goes on by one link each. `None` comes exactly from the length on.
    pub fn cursor(&self, rank: usize) -> Option<Cursor<'_>>
        ensures { MatchOption result (length self.now ≤ rank) (λ cursor. IsCursor cursor self.now rank) }
    {
        if rank >= self.towers.len {
            return None;
        }
        let key = self.towers.key_at(rank);
        Some(Cursor {
            towers: &self.towers,
            rank,
            key,
        })
    }

    /// How many scores are below this one: the rank of the first element with this score or a higher one.
    pub fn first_in_range(&self, least: i64) -> usize
        ensures { result ≡ count_by (λ e. int_lt e.0 least) self.now }
    {
        self.towers.find(&Least(least), &mut [START; LEVELS]).0
    }

    /// Names the member at a rank by another block, which has the same bytes. The list is sorted over any store that holds
    /// them there and the other members as before.
    pub fn swap_ref(&mut self, rank: usize, new: BlockRef)
        requires { rank < length self.old }
        ensures renamed { self.new ≡ renamed_at self.old rank new }
        ensures sorted { (before after : Blocks) → IsSorted before self.old → Carries before after self.old rank new → IsSorted after self.new }
    {
        self.towers.set_member(rank, new);
    }
}
