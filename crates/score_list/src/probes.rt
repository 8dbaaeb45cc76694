//! What stands above elements of the list: a pair, or a score.

ghost use Rattle.std.specs.Prelude.{◌≡◌, ◌↔◌, ℤ, int_lt, IsSome, IsTrue};
ghost use Rattle.score_list.specs.Sorted.{key_of};

use crate::search::Probe;
use blocks::{BlockRef, BlockStore};
use std::cmp::Ordering;

/// A score, and the bytes of a member beside the store in which the members' blocks are.
#[derive(Drop)]
pub(crate) struct Pair<'a, B: BlockStore> {
    pub(crate) store: &'a B,
    pub(crate) score: i64,
    pub(crate) member: &'a [u8],
}

/// A score, which stands above those below it alone.
#[derive(Drop)]
pub(crate) struct Least(pub(crate) i64);

impl<'a, B: BlockStore> Pair<'a, B> {
    /// Whether an element is this pair.
    pub(crate) fn is_at(&self, element: (i64, BlockRef)) -> bool
        requires { IsSome (B.blocks self.now.store.now element.1) }
        ensures { IsTrue result ↔ (key_of (B.blocks self.now.store.now) element ≡ (self.now.score, self.now.member.now)) }
    {
        if element.0 != self.score {
            return false;
        }
        self.store.bytes(element.1) == self.member
    }
}

impl<'a, B: BlockStore> Probe for Pair<'a, B> {
    ghost use Rattle.std.specs.Prelude.{IsSome};
    ghost use Rattle.score_list.specs.Sorted.{is_below};

    ghost above = { λ p e. is_below (B.blocks p.store.now) (p.score, p.member.now) e };

    ghost compares = { λ p e. IsSome (B.blocks p.store.now e.1) };

    fn is_above(&self, element: (i64, BlockRef)) -> bool {
        let (score, member) = element;
        match score.cmp(&self.score) {
            Ordering::Less => true,
            Ordering::Greater => false,
            Ordering::Equal => match self.store.bytes(member).cmp(self.member) {
                Ordering::Less => true,
                _ => false,
            },
        }
    }

    fn by_score(&self, score: i64) -> Option<bool> {
        match score.cmp(&self.score) {
            Ordering::Less => Some(true),
            Ordering::Greater => Some(false),
            Ordering::Equal => None,
        }
    }
}

impl Probe for Least {
    ghost use Rattle.std.specs.Prelude.{int_lt};

    ghost above = { λ p e. int_lt e.0 p.0 };

    ghost compares = { λ p e. Unit {0} };

    fn is_above(&self, element: (i64, BlockRef)) -> bool {
        element.0 < self.0
    }

    fn by_score(&self, score: i64) -> Option<bool> {
        Some(score < self.0)
    }
}
