//! Elements join and leave the towers at a rank.

ghost use Rattle.std.specs.Prelude.{◌≡◌, ◌≢◌, ℕ, suc, ◌+◌, ◌<◌, ◌≤◌, ◌^◌, length, take, drop, get_or, true, false, List, [], Some, None, IfOk, OnOk, OnErr, IsTrue, count_by};
ghost use Rattle.std.specs.Prelude.{slice_set, slice_index_or};
ghost use Rattle.std.specs.List.{remove_range as range_removed};
ghost use Rattle.score_list.specs.Linked.{Element, no_element, element_at, order, items, IsLinked, IsPath, IsAt, Adds, with_at, without_at, renamed_at};
ghost use Rattle.score_list.specs.Sorted.{AllAre, IsParted, EachIs};

use crate::search::Probe;
use crate::towers::{LEVELS, Link, Place, START, Tower, Towers};
use blocks::BlockRef;
use std::alloc::AllocError;

/// How many elements there are at most.
const MOST: usize = 1 << 62;

impl Towers {
    /// Puts a tower beside the others, without links.
    fn add(&mut self, score: i64, member: BlockRef, height: usize) -> Result<usize, AllocError>
        requires linked { IsLinked self.old }
        requires height { 0 < height }
        ensures adds { IfOk result (λ key. Adds self.old self.new key (score, member)) }
        ensures linked { IsLinked self.new }
        ensures kept { items self.new ≡ items self.old }
    {
        let links = vec![in self.alloc; Link {
            next: 0,
            span: 0,
            score: 0,
        }; height]?;
        self.slab.reserve(1)?;
        let room = self.slab.capacity();
        let key = self.slab.insert_reserved(Tower {
            score,
            member,
            links,
        });
        prove!(key < room);
        Ok(key)
    }

    /// Puts an element where a probe stands. `AllocError` leaves the elements.
    pub(crate) fn insert<P: Probe>(
        &mut self,
        probe: &P,
        score: i64,
        member: BlockRef,
        height: usize,
    ) -> Result<(), AllocError>
        requires linked { IsLinked self.old }
        requires parted { IsParted (P.above probe.now) (items self.old) }
        requires compares { EachIs (P.compares probe.now) (items self.old) }
        requires height { 0 < height }
        ensures linked { IsLinked self.new }
        ensures ok { OnOk result (items self.new ≡ with_at (items self.old) (count_by (P.above probe.now) (items self.old)) (score, member)) }
        ensures err { OnErr result (items self.new ≡ items self.old) }
    {
        if self.len >= MOST {
            return Err(AllocError);
        }
        match self.add(score, member, height) {
            Err(error) => Err(error),
            Ok(key) => {
                let mut path = [START; LEVELS];
                let (rank, _) = self.find(probe, &mut path);
                self.thread(key, rank, &path);
                self.len += 1;
                Ok(())
            }
        }
    }

    /// Takes the element at a rank out, to which a path leads. The path leads to the rank then too.
    pub(crate) fn remove_at(&mut self, rank: usize, key: usize, path: &[Place; LEVELS])
        requires linked { IsLinked self.old }
        requires path { IsPath self.old rank path.now }
        requires rank { rank < length (order self.old) }
        requires key { get_or (order self.old) rank 0 ≡ key }
        requires fits { key + 1 < 2 ^ 64 }
        ensures linked { IsLinked self.new }
        ensures items { items self.new ≡ without_at (items self.old) rank }
        ensures path { IsPath self.new rank path.now }
    {
        self.unthread(key, rank, path);
        self.len -= 1;
        self.slab.remove(key);
    }

    /// Takes the elements from a rank to below another one out. The way to the first is the way to each that takes its place.
    pub(crate) fn remove_range(&mut self, from: usize, to: usize)
        requires linked { IsLinked self.old }
        requires order { from ≤ to }
        requires inside { to ≤ length (order self.old) }
        ensures linked { IsLinked self.new }
        ensures items { items self.new ≡ range_removed (items self.old) from to }
    {
        let mut path = [START; LEVELS];
        self.path_to(from, &mut path);
        for _ in from..to {
            let link = self.link(0, path[0].owner);
            let key = link.next - 1;
            self.remove_at(from, key, &path);
        }
    }

    /// The tower at a rank, to which a path leads, leaves it, and stands beside the others with another score.
    fn take_off(&mut self, rank: usize, key: usize, path: &[Place; LEVELS], score: i64)
        requires linked { IsLinked self.old }
        requires path { IsPath self.old rank path.now }
        requires rank { rank < length (order self.old) }
        requires key { get_or (order self.old) rank 0 ≡ key }
        requires fits { key + 1 < 2 ^ 64 }
        ensures linked { IsLinked self.new }
        ensures items { items self.new ≡ without_at (items self.old) rank }
        ensures beside { Adds self.new self.new key (score, (slice_index_or (items self.old) rank no_element).1) }
        ensures shorter { self.new.len < 2 ^ 62 }
    {
        self.unthread(key, rank, path);
        self.len -= 1;
        let Some(tower) = self.slab.get_mut(key) else {
            unreachable!()
        };
        tower.score = score;
    }

    // Gives the element at a rank, to which a path leads, another score, and the place where a probe stands among the others.
    fn move_to<P: Probe>(
        &mut self,
        rank: usize,
        key: usize,
        path: &[Place; LEVELS],
        probe: &P,
        score: i64,
    )
        requires linked { IsLinked self.old }
        requires path { IsPath self.old rank path.now }
        requires rank { rank < length (order self.old) }
        requires key { get_or (order self.old) rank 0 ≡ key }
        requires fits { key + 1 < 2 ^ 64 }
        requires parted { IsParted (P.above probe.now) (without_at (items self.old) rank) }
        requires compares { EachIs (P.compares probe.now) (without_at (items self.old) rank) }
        ensures linked { IsLinked self.new }
        ensures items { items self.new ≡ with_at (without_at (items self.old) rank) (count_by (P.above probe.now) (without_at (items self.old) rank))
            (score, (slice_index_or (items self.old) rank no_element).1) }
    {
        self.take_off(rank, key, path, score);
        let mut way = [START; LEVELS];
        let (to, _) = self.find(probe, &mut way);
        self.thread(key, to, &way);
        self.len += 1;
    }

    // Whether a probe stands above the element in front of a rank, to which a path leads, and so above all there.
    fn passes_front<P: Probe>(&self, rank: usize, path: &[Place; LEVELS], probe: &P) -> bool
        requires linked { IsLinked self.now }
        requires path { IsPath self.now rank path.now }
        requires rank { rank < length (order self.now) }
        requires parted { IsParted (P.above probe.now) (without_at (items self.now) rank) }
        requires compares { EachIs (P.compares probe.now) (without_at (items self.now) rank) }
        ensures { IsTrue result → AllAre (P.above probe.now) true (take rank (items self.now)) }
    {
        if rank == 0 {
            return true;
        }
        let before = path[0];
        probe.is_above(self.element(before.owner - 1))
    }

    // Whether a probe doesn't stand above the element behind that of a tower, and so above none there.
    fn stops_behind<P: Probe>(&self, rank: usize, key: usize, probe: &P) -> bool
        requires linked { IsLinked self.now }
        requires at { IsAt self.now rank (Some key) }
        requires fits { key + 1 < 2 ^ 64 }
        requires parted { IsParted (P.above probe.now) (without_at (items self.now) rank) }
        requires compares { EachIs (P.compares probe.now) (without_at (items self.now) rank) }
        ensures { IsTrue result → AllAre (P.above probe.now) false (drop (suc rank) (items self.now)) }
    {
        if rank + 1 == self.len {
            return true;
        }
        let link = self.link(0, key + 1);
        !self.passes(link, probe)
    }

    // Gives the element of the tower at a rank, to which a path leads, another score, and leaves its place.
    fn set_score(&mut self, rank: usize, key: usize, path: &[Place; LEVELS], score: i64)
        requires linked { IsLinked self.old }
        requires path { IsPath self.old rank path.now }
        requires at { IsAt self.old rank (Some key) }
        ensures linked { IsLinked self.new }
        ensures items { items self.new ≡ slice_set (items self.old) rank (score, (slice_index_or (items self.old) rank no_element).1) }
    {
        self.rescore_links(key, path, score);
        let Some(staying) = self.slab.get_mut(key) else {
            unreachable!()
        };
        staying.score = score;
    }

    /// Gives the element at a rank, to which a path leads, another score, and the place where a probe stands among the others: it
    /// stays where it is, if that is its place.
    pub(crate) fn rescore<P: Probe>(
        &mut self,
        rank: usize,
        key: usize,
        path: &[Place; LEVELS],
        probe: &P,
        score: i64,
    )
        requires linked { IsLinked self.old }
        requires path { IsPath self.old rank path.now }
        requires rank { rank < length (order self.old) }
        requires key { get_or (order self.old) rank 0 ≡ key }
        requires fits { key + 1 < 2 ^ 64 }
        requires parted { IsParted (P.above probe.now) (without_at (items self.old) rank) }
        requires compares { EachIs (P.compares probe.now) (without_at (items self.old) rank) }
        ensures linked { IsLinked self.new }
        ensures items { items self.new ≡ with_at (without_at (items self.old) rank) (count_by (P.above probe.now) (without_at (items self.old) rank))
            (score, (slice_index_or (items self.old) rank no_element).1) }
    {
        if self.passes_front(rank, path, probe) && self.stops_behind(rank, key, probe) {
            self.set_score(rank, key, path, score);
            return;
        }
        self.move_to(rank, key, path, probe, score);
    }

    /// Names the member of the element at a rank by another block.
    pub(crate) fn set_member(&mut self, rank: usize, new: BlockRef)
        requires linked { IsLinked self.old }
        requires rank { rank < length (order self.old) }
        ensures linked { IsLinked self.new }
        ensures items { items self.new ≡ renamed_at (items self.old) rank new }
    {
        let key = self.key_at(rank);
        let Some(tower) = self.slab.get_mut(key) else {
            unreachable!()
        };
        tower.member = new;
    }
}
