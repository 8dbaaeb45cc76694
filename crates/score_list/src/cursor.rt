//! Walks over a list from one element to the next.

ghost use Rattle.std.specs.Prelude.{◌≡◌, ◌+◌, length, Some, MatchOption, slice_get};
ghost use Rattle.score_list.specs.Cursor.{IsCursor};

use crate::towers::Towers;
use blocks::BlockRef;
use std::marker::Model;

/// The place of an element in a list, found once. Contracts see the list and the rank.
#[derive(Drop)]
pub struct Cursor<'a> {
    pub(crate) towers: &'a Towers,
    pub(crate) rank: usize,
    pub(crate) key: usize,
}

impl<'a> Model for Cursor<'a> {
    ghost use Rattle.std.specs.Prelude.{List, ℤ, ℕ, Some, ◌+◌, ◌<◌, ◌^◌};
    ghost use Rattle.blocks.specs.declared.BlockRef.{BlockRef};

    ghost Value = { List (ℤ × BlockRef) × ℕ };

    ghost use Rattle.score_list.specs.Linked.{items, IsLinked, IsAt};

    ghost view = { λ c. (items c.towers.now, c.rank) };

    ghost invariant = { λ c. IsLinked c.towers.now × IsAt c.towers.now c.rank (Some c.key) × (c.key + 1 < 2 ^ 64) };
}

impl<'a> Cursor<'a> {
    /// The rank of the element.
    pub fn rank(&self) -> usize
        ensures { result ≡ self.now.1 }
    {
        self.rank
    }

    /// The element.
    pub fn get(&self) -> (i64, BlockRef)
        ensures { slice_get self.now.0 self.now.1 ≡ Some result }
    {
        self.towers.element(self.key)
    }

    /// The cursor at the next rank, by one link. `None` comes exactly at the last element.
    pub fn next(&self) -> Option<Cursor<'a>>
        ensures { MatchOption result (self.now.1 + 1 ≡ length self.now.0) (λ to. IsCursor to self.now.0 (self.now.1 + 1)) }
    {
        let rank = self.rank + 1;
        if rank == self.towers.len {
            return None;
        }
        let link = self.towers.link(0, self.key + 1);
        Some(Cursor {
            towers: self.towers,
            rank,
            key: link.next - 1,
        })
    }
}
