// Bounded moves of blocks by their marks.

ghost use Rattle.std.specs.Prelude.{◌≡◌, ◌+◌, ◌-◌, ◌^◌, ◌<◌, ◌≤◌, [], ◌∷◌, min, nat_lt, IsSome, Some, None, true, false, if◌then◌else◌};
ghost use Rattle.blocks.specs.Blocks.{Changes};
ghost use Rattle.blocks.specs.Slabs.{wants, Calmer};
ghost use Rattle.collection_walk.specs.Marks.{is_within};

use blocks::{BlockRef, BlockStore, Moved, settle};

/// The marks from `start` to below `end`.
#[derive(Clone, Copy, Debug)]
pub struct Part {
    pub start: usize,
    pub end: usize,
}

/// The part that a call goes through from a mark on, of marks below a number.
pub fn part_from(count: usize, from: u128, room: u32) -> Part
    ensures start { result.start ≡ min from count }
    ensures end { result.end ≡ min count (result.start + room) }
{
    if from >= count as u128 {
        return Part {
            start: count,
            end: count,
        };
    }
    let start = from as usize;
    let end = count.min(start.saturating_add(room as usize));
    Part { start, end }
}

/// What a call answers that went through the marks to below one, of marks below a number.
pub fn answer_at(end: u128, count: u128, used: u32) -> Moved
    ensures next { result.next ≡ (if nat_lt end count then Some end else None) }
    ensures used { result.used ≡ used }
{
    if end < count {
        Moved {
            next: Some(end),
            used,
        }
    } else {
        Moved { next: None, used }
    }
}

/// What a call answers that went through a part, of marks below a number.
pub fn answer_for(part: Part, count: usize) -> Moved
    requires order { part.start ≤ part.end }
    requires room { part.end < part.start + 2 ^ 32 }
    ensures next { result.next ≡ (if nat_lt part.end count then Some part.end else None) }
    ensures used { result.used ≡ part.end - part.start }
{
    let used = (part.end - part.start) as u32;
    answer_at(part.end as u128, count as u128, used)
}

/// Moves the block of a packed form, whose mark is 0, where it wants that and the mark is from `start` to below `end`. It answers where
/// the block is.
pub fn settle_first<B: BlockStore>(store: &mut B, at: BlockRef, start: u128, end: u128) -> BlockRef
    requires { IsSome (B.blocks store.old at) }
    ensures bytes { B.blocks store.new result ≡ B.blocks store.old at }
    ensures changes { Changes (B.blocks store.old) (B.blocks store.new) (at ∷ []) (result ∷ []) }
    ensures calm { is_within start end 0 ≡ true → wants (B.heap store.new) result ≡ false }
    ensures stays { is_within start end 0 ≡ false → result ≡ at }
    ensures calmer { Calmer (B.heap store.old) (B.heap store.new) }
{
    if start == 0 && end > 0 {
        return settle(store, at);
    }
    at
}
