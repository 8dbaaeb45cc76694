//! Elements by rank, and the rank of the first element that a probe doesn't stand above.

ghost use Rattle.std.specs.Prelude.{◌≡◌, ◌≢◌, ℕ, suc, ◌+◌, ◌-◌, ◌<◌, ◌≤◌, ◌^◌, length, get_or, true, Bool, List, [], Option, Some, None, IfSome, IfNone, count_by};
ghost use Rattle.score_list.specs.Linked.{Element, element_at, score_of, order, items, IsLinked, StandsAt, Arrives, IsAt, IsBefore, IsPath};
ghost use Rattle.score_list.specs.Sorted.{IsParted, EachIs, Tells, IsSorted, Misses, Located};

use crate::probes::Pair;
use crate::towers::{LEVELS, Link, Place, START, Towers};
use blocks::{BlockRef, BlockStore};

/// What stands above some of the elements.
pub(crate) trait Probe {
    /// Whether it stands above an element.
    ghost above: { Self → Element → Bool };

    /// It can be compared with an element.
    ghost compares: { Self → Element → Type 0 };

    /// Whether it stands above an element.
    fn is_above(&self, element: (i64, BlockRef)) -> bool
        requires { compares self.now element }
        ensures { result ≡ above self.now element };

    /// Whether it stands above each element of a score. `None` comes where the score alone doesn't tell.
    fn by_score(&self, score: i64) -> Option<bool>
        ensures { IfSome result (Tells (above self.now) score) };
}

impl Towers {
    /// The element of a tower.
    pub(crate) fn element(&self, key: usize) -> (i64, BlockRef)
        ensures { result ≡ element_at self.now key }
    {
        match self.slab.get(key) {
            Some(tower) => (tower.score, tower.member),
            None => (0, BlockRef { slab: 0, slot: 0 }),
        }
    }

    /// Whether the probe stands above the element that a link leads to. Its tower is read only where the link's score doesn't tell.
    pub(crate) fn passes<P: Probe>(&self, link: Link, probe: &P) -> bool
        requires some { 0 < link.next }
        requires score { link.score ≡ score_of self.now (link.next - 1) }
        requires compares { P.compares probe.now (element_at self.now (link.next - 1)) }
        ensures { result ≡ P.above probe.now (element_at self.now (link.next - 1)) }
    {
        match probe.by_score(link.score) {
            Some(told) => told,
            None => probe.is_above(self.element(link.next - 1)),
        }
    }

    /// The last owner of the level with an element below the probe, from one on.
    fn pass<P: Probe>(&self, level: usize, from: Place, probe: &P) -> Place
        requires level { level < 16 }
        requires linked { IsLinked self.now }
        requires parted { IsParted (P.above probe.now) (items self.now) }
        requires compares { EachIs (P.compares probe.now) (items self.now) }
        requires stands { StandsAt self.now level (count_by (P.above probe.now) (items self.now)) from.owner from.rank }
        ensures { Arrives self.now level (count_by (P.above probe.now) (items self.now)) result.owner result.rank }
    {
        let mut place = from;
        loop {
            let link = self.link(level, place.owner);
            if link.next == 0 {
                return place;
            }
            if !self.passes(link, probe) {
                return place;
            }
            place = Place {
                owner: link.next,
                rank: place.rank + link.span,
            };
        }
    }

    /// The rank of the first element that the probe doesn't stand above, its tower where there is one. The path is the way there then.
    pub(crate) fn find<P: Probe>(
        &self,
        probe: &P,
        path: &mut [Place; LEVELS],
    ) -> (usize, Option<usize>)
        requires linked { IsLinked self.now }
        requires parted { IsParted (P.above probe.now) (items self.now) }
        requires compares { EachIs (P.compares probe.now) (items self.now) }
        ensures rank { result.0 ≡ count_by (P.above probe.now) (items self.now) }
        ensures tower { IsAt self.now result.0 result.1 }
        ensures fits { IfSome result.1 (λ key. key + 1 < 2 ^ 64) }
        ensures path { IsPath self.now result.0 path.new }
        ensures long { length path.new ≡ 16 }
    {
        let mut place = START;
        let mut level = LEVELS;
        while level > 0 {
            level -= 1;
            place = self.pass(level, place, probe);
            path[level] = place;
        }
        let next = self.link(0, place.owner).next;
        if next == 0 {
            (place.rank, None)
        } else {
            (place.rank, Some(next - 1))
        }
    }

    /// The tower at a rank.
    pub(crate) fn key_at(&self, rank: usize) -> usize
        requires linked { IsLinked self.now }
        requires rank { rank < length (order self.now) }
        ensures at { get_or (order self.now) rank 0 ≡ result }
        ensures fits { result + 1 < 2 ^ 64 }
    {
        let mut place = START;
        let mut level = LEVELS;
        while level > 0 {
            level -= 1;
            place = self.advance(level, place, rank);
        }
        self.link(0, place.owner).next - 1
    }

    /// Finds the path to a rank.
    pub(crate) fn path_to(&self, to: usize, path: &mut [Place; LEVELS])
        requires linked { IsLinked self.now }
        requires rank { to ≤ length (order self.now) }
        ensures path { IsPath self.now to path.new }
        ensures long { length path.new ≡ 16 }
    {
        let mut place = START;
        let mut level = LEVELS;
        while level > 0 {
            level -= 1;
            place = self.advance(level, place, to);
            path[level] = place;
        }
    }

    /// The rank and the tower of a pair, to which the path leads then. `None` comes exactly where there is none.
    pub(crate) fn locate<B: BlockStore>(
        &self,
        store: &B,
        score: i64,
        member: &[u8],
        path: &mut [Place; LEVELS],
    ) -> Option<(usize, usize)>
        requires linked { IsLinked self.now }
        requires sorted { IsSorted (B.blocks store.now) (items self.now) }
        ensures found { IfSome result (λ at. Located (B.blocks store.now) (score, member.now) self.now at.0 at.1) }
        ensures path { IfSome result (λ at. IsPath self.now at.0 path.new) }
        ensures long { length path.new ≡ 16 }
        ensures none { IfNone result (Misses (B.blocks store.now) (score, member.now) (items self.now)) }
    {
        let probe = Pair {
            store,
            score,
            member,
        };
        let (rank, found) = self.find(&probe, path);
        match found {
            None => None,
            Some(key) => {
                if probe.is_at(self.element(key)) {
                    Some((rank, key))
                } else {
                    None
                }
            }
        }
    }
}
