//! Sorted sets, member by member.

ghost use Rattle.std.specs.Prelude.{◌≡◌, ◌↔◌, IfOk, IsTrue};
ghost use Rattle.zset_object.specs.Scored.{IsScored, scores};
ghost use Rattle.told_values.specs.Told.{scores_told};

use crate::texts::owned;
use blocks::{BlockStore, Memory};
use std::alloc::Global;
use std::collections::BTreeMap;
use zset_object::Scored;

/// Members with their scores.
pub(crate) type Scores = BTreeMap<Vec<u8>, i64>;

/// The members of a sorted set with their scores.
pub(crate) fn read_scores<B: BlockStore>(
    alloc: Global,
    store: &B,
    scored: &Scored,
) -> Result<Scores, Memory>
    requires sound { IsScored (B.blocks store.now) scored.now }
    ensures { IfOk result (λ read. scores_told read.entries ≡ scores (B.blocks store.now) scored.now) }
{
    let mut read = BTreeMap::new(alloc);
    let count = scored.len();
    let mut place = scored.cursor(store, 0);
    for index in 0..count {
        match place {
            None => unreachable!(),
            Some(cursor) => {
                let (member, score) = scored.pair(store, &cursor);
                let name = owned(alloc, member)?;
                read.insert(name, score)?;
                place = scored.next(store, &cursor);
            }
        }
    }
    Ok(read)
}

/// Whether both have the same members with the same scores.
pub(crate) fn same_scores(scores: &Scores, other: &Scores) -> bool
    ensures { IsTrue result ↔ (scores_told scores.now.entries ≡ scores_told other.now.entries) }
{
    if scores.len() != other.len() {
        return false;
    }
    scores == other
}
