//! Moves of a scan over the tables.
//!
//! # How a scan survives a rehash
//!
//! A client keeps nothing of a scan but a cursor, and between two calls the tables may grow, shrink, or be anywhere in a rehash. An
//! element that stays throughout must be given all the same, so the cursor can't be a bucket's number: in a table of twice as many
//! buckets the elements of a bucket `b` of `2^k` stand in `b` and in `b + 2^k`.
//!
//! An element's bucket is the low bits of its hash. Read those bits backwards, lowest first, and call the 64 bits of the hash read so
//! the element's place. The bucket of a table of `2^k` buckets is then the run of all places that begin with the same `k` bits, and
//! doubling the table cuts each run in two halves that lie side by side, in that order. So all tables, of whatever size, cut one
//! and the same line of places:
//!
//! ```text
//! 4 buckets   |      00       |      10       |      01       |      11       |
//! 8 buckets   |  000  |  100  |  010  |  110  |  001  |  101  |  011  |  111  |
//! ```
//!
//! A cursor is a point of this line (its 64 bits backwards): all places before it are done. A move gives the run that begins there, and
//! answers the point where it ends: with the bits reversed that is adding one at the table's last bit, which is how the SCAN commands
//! count. The next move may meet another table; the point is an edge of one of its runs, or lies within one, whose elements
//! are then given again from its beginning. None is left out.
//!
//! In a rehash an element is in the one table or in the other. A move gives the run of the smaller table, and of the larger one
//! all the runs that lie within it from the cursor on, so that whatever has been moved was met.

ghost use Rattle.std.specs.Prelude.{◌≡◌, ℕ, ◌+◌, ◌-◌, ◌*◌, ◌/◌, ◌%◌, ◌^◌, ◌<◌, ◌≤◌, ◌++◌, ◌∷◌, List, length, Option, Some, None, OnOk, OnErr, IfOk, IsTrue, ◌↔◌};
ghost use Rattle.std.specs.Option.{option_copied};
ghost use Rattle.rev_cursor.specs.Place.{next_of};
ghost use Rattle.rev_cursor.specs.Span.{times};
ghost use Rattle.rehash_dict.specs.declared.chains.Side.{Side};
ghost use Rattle.rehash_dict.specs.Table.{Element, Table, item, at_item};
ghost use Rattle.rehash_dict.specs.Tables.{bucket};
ghost use Rattle.rehash_dict.specs.Placed.{Stand, IsSize};
ghost use Rattle.rehash_dict.specs.Sides.{side_rows};
ghost use Rattle.rehash_dict.specs.Chains.{chain_left};
ghost use Rattle.rehash_dict.specs.Scan.{bits_of, smaller_of, larger_of, first_block, last_block, turn, walked_over, scanned, turns_of, turn_at, turns_from, first_of, after_in, Extends};

use crate::Memory;
use crate::chains::{Chain, Chains, Side, bucket_of};
use crate::dict::Dict;
use rev_cursor::{BucketScan, place};

/// The table with fewer buckets.
fn smaller<V>(chains: &Chains<V>) -> Side
    ensures { side_rows result chains.now ≡ smaller_of chains.now.older chains.now.newer }
{
    let newer = chains.buckets(Side::Newer);
    if newer > 0 && newer < chains.buckets(Side::Older) {
        Side::Newer
    } else {
        Side::Older
    }
}

/// The other table.
fn larger<V>(chains: &Chains<V>) -> Side
    ensures { side_rows result chains.now ≡ larger_of chains.now.older chains.now.newer }
{
    let newer = chains.buckets(Side::Newer);
    if newer > 0 && newer < chains.buckets(Side::Older) {
        Side::Older
    } else {
        Side::Newer
    }
}

/// How many bits of a hash tell the buckets of a table apart.
fn bits<V>(chains: &Chains<V>, side: Side) -> u32
    requires size { IsSize (length (side_rows side chains.now)) }
    requires table { 0 < length (side_rows side chains.now) }
    ensures bits { result ≡ bits_of (length (side_rows side chains.now)) }
    ensures power { 2 ^ result ≡ length (side_rows side chains.now) }
    ensures many { 2 ≤ result }
    ensures few { result < 64 }
{
    chains.buckets(side).ilog2()
}

/// How many buckets a move gives: one of the smaller table, and those of the larger one that its elements would be in.
fn turns<V>(chains: &Chains<V>, cursor: u64) -> u64
    requires { Stand chains.now.items chains.now.older chains.now.newer }
    ensures { result ≡ turns_of chains.now.older chains.now.newer cursor }
{
    if chains.buckets(Side::Older) == 0 {
        return 0;
    }
    if chains.buckets(Side::Newer) == 0 {
        return 1;
    }
    let small = bits(chains, smaller(chains));
    let large = bits(chains, larger(chains));
    let start = place(cursor);
    let last = ((start >> (64 - small)) + 1) << (large - small);
    1 + (last - (start >> (64 - large)))
}

/// The bucket of a turn of a move.
fn turn<V>(chains: &Chains<V>, cursor: u64, number: u64) -> Chain<'_, V>
    requires stand { Stand chains.now.items chains.now.older chains.now.newer }
    requires turn { number < turns_of chains.now.older chains.now.newer cursor }
    ensures { chain_left result ≡ turn_at chains.now.older chains.now.newer cursor number }
{
    if number == 0 {
        let side = smaller(chains);
        let bucket = bucket_of(cursor, chains.buckets(side));
        return chains.chain(side, bucket);
    }
    let side = larger(chains);
    let large = bits(chains, side);
    let block = (place(cursor) >> (64 - large)) + (number - 1);
    let bucket = bucket_of(place(block << (64 - large)), chains.buckets(side));
    chains.chain(side, bucket)
}

/// Whether a chain has an item.
fn contains<V>(chain: Chain<'_, V>, at: usize) -> bool
    ensures { IsTrue result ↔ (0 < times at (chain_left chain.entry)) }
{
    for other in chain {
        if other == at {
            return true;
        }
    }
    false
}

/// The item behind another one of a chain.
fn next_in<V>(chain: Chain<'_, V>, at: usize) -> Option<usize>
    ensures { result ≡ first_of (after_in at (chain_left chain.entry)) }
{
    let mut met = false;
    for other in chain {
        if met {
            return Some(other);
        }
        met = other == at;
    }
    None
}

/// Appends the items of a chain.
fn push_all<V>(chain: Chain<'_, V>, found: &mut Vec<usize>) -> Result<(), Memory>
    ensures found { OnOk result (found.new.items ≡ found.old.items ++ chain_left chain.entry) }
    ensures kept { Extends found.old.items found.new.items }
{
    for at in chain {
        found.push(at)?;
    }
    Ok(())
}

/// The cursor behind the bucket of a cursor in a table of so many buckets: of the bits that tell the buckets apart the highest
/// one that is 0 becomes 1, and those above it become 0. With bits reversed that is one more.
fn behind(cursor: u64, buckets: usize) -> u64
    requires size { IsSize buckets }
    requires table { 0 < buckets }
    ensures { result ≡ next_of cursor (bits_of buckets) }
{
    let zeros = buckets - 1 - bucket_of(cursor, buckets);
    if zeros == 0 {
        return 0;
    }
    let highest = 1usize << zeros.ilog2();
    (2 * highest - 1 - (zeros - highest)) as u64
}

/// Appends the bucket of a cursor, and answers the cursor behind it.
fn push_bucket<V>(
    chains: &Chains<V>,
    side: Side,
    cursor: u64,
    found: &mut Vec<usize>,
) -> Result<u64, Memory>
    requires stand { Stand chains.now.items chains.now.older chains.now.newer }
    requires table { 0 < length (side_rows side chains.now) }
    ensures found { OnOk result (found.new.items ≡ found.old.items ++ turn (side_rows side chains.now) (bits_of (length (side_rows side chains.now))) cursor) }
    ensures next { IfOk result (λ next. next ≡ next_of cursor (bits_of (length (side_rows side chains.now)))) }
    ensures kept { Extends found.old.items found.new.items }
{
    let buckets = chains.buckets(side);
    push_all(chains.chain(side, bucket_of(cursor, buckets)), found)?;
    Ok(behind(cursor, buckets))
}

/// Appends the buckets of the larger table that the elements of a cursor's bucket of the smaller one would be in, and answers
/// the cursor behind them.
fn push_larger<V>(chains: &Chains<V>, cursor: u64, found: &mut Vec<usize>) -> Result<u64, Memory>
    requires stand { Stand chains.now.items chains.now.older chains.now.newer }
    requires older { 0 < length chains.now.older }
    requires newer { 0 < length chains.now.newer }
    ensures found { OnOk result (found.new.items ≡ found.old.items ++ (walked_over chains.now.older chains.now.newer cursor).0) }
    ensures next { IfOk result (λ next. next ≡ (walked_over chains.now.older chains.now.newer cursor).1) }
    ensures kept { Extends found.old.items found.new.items }
{
    let side = larger(chains);
    let buckets = chains.buckets(side);
    let between = ((chains.buckets(smaller(chains)) - 1) ^ (buckets - 1)) as u64;
    let mut next = cursor;
    for _ in 0..buckets {
        next = push_bucket(chains, side, next, found)?;
        if next & between == 0 {
            return Ok(next);
        }
    }
    Ok(next)
}

/// Appends the items of a move, and answers the cursor behind it.
fn push_move<V>(chains: &Chains<V>, cursor: u64, found: &mut Vec<usize>) -> Result<u64, Memory>
    requires { Stand chains.now.items chains.now.older chains.now.newer }
    ensures found { OnOk result (found.new.items ≡ found.old.items ++ (scanned chains.now.older chains.now.newer cursor).0) }
    ensures next { IfOk result (λ next. next ≡ (scanned chains.now.older chains.now.newer cursor).1) }
    ensures kept { Extends found.old.items found.new.items }
{
    if chains.buckets(Side::Older) == 0 {
        return Ok(0);
    }
    if chains.buckets(Side::Newer) == 0 {
        return push_bucket(chains, Side::Older, cursor, found);
    }
    push_bucket(chains, smaller(chains), cursor, found)?;
    push_larger(chains, cursor, found)
}

/// The first item of a move, from a turn on.
fn first_from<V>(chains: &Chains<V>, cursor: u64, from: u64) -> Option<usize>
    requires stand { Stand chains.now.items chains.now.older chains.now.newer }
    requires turn { from ≤ turns_of chains.now.older chains.now.newer cursor }
    ensures { result ≡ first_of (turns_from chains.now.older chains.now.newer cursor (turns_of chains.now.older chains.now.newer cursor - from) from) }
{
    for number in from..turns(chains, cursor) {
        if let Some(at) = turn(chains, cursor, number).next() {
            return Some(at);
        }
    }
    None
}

/// The turn that gives an item of a move.
fn turn_of<V>(chains: &Chains<V>, cursor: u64, at: usize) -> u64
    requires stand { Stand chains.now.items chains.now.older chains.now.newer }
    requires there { 0 < times at (turns_from chains.now.older chains.now.newer cursor (turns_of chains.now.older chains.now.newer cursor) 0) }
    ensures turn { result < turns_of chains.now.older chains.now.newer cursor }
    ensures gives { 0 < times at (turn_at chains.now.older chains.now.newer cursor result) }
    ensures fits { result ≤ 2 ^ 63 }
{
    if contains(turn(chains, cursor, 0), at) {
        return 0;
    }
    let Some(entry) = chains.entry(at) else {
        unreachable!()
    };
    let large = bits(chains, larger(chains));
    1 + ((place(entry.hash) >> (64 - large)) - (place(cursor) >> (64 - large)))
}

impl<V> Dict<V> {
    /// The first item of a move at a cursor, or `None` where the move has none.
    pub fn scan_first(&self, cursor: u64) -> Option<usize>
        ensures { result ≡ first_of (scanned self.now.older self.now.newer cursor).0 }
    {
        first_from(self.chains(), cursor, 0)
    }

    /// The item behind another one of a move at a cursor.
    pub fn scan_after(&self, cursor: u64, at: usize) -> Option<usize>
        requires { 0 < times at (scanned self.now.older self.now.newer cursor).0 }
        ensures { result ≡ first_of (after_in at (scanned self.now.older self.now.newer cursor).0) }
    {
        let chains = self.chains();
        let number = turn_of(chains, cursor, at);
        match next_in(turn(chains, cursor, number), at) {
            Some(next) => Some(next),
            None => first_from(chains, cursor, number + 1),
        }
    }

    /// The cursor behind a move.
    pub fn scan_end(&self, cursor: u64) -> u64
        ensures { result ≡ (scanned self.now.older self.now.newer cursor).1 }
    {
        let chains = self.chains();
        if chains.buckets(Side::Older) == 0 {
            return 0;
        }
        behind(cursor, chains.buckets(smaller(chains)))
    }
}

impl<V> BucketScan for Dict<V> {
    ghost use Rattle.rehash_dict.specs.Scan.{scanned};
    ghost use Rattle.rehash_dict.specs.ScanPlaces.{CanStand};

    ghost can_stand = { CanStand };

    ghost move_at = { λ t cursor. (scanned t.older t.newer cursor).0 };

    ghost after = { λ t cursor. (scanned t.older t.newer cursor).1 };

    fn scan_at(&self, cursor: u64, found: &mut Vec<usize>) -> Result<u64, Memory> {
        let before = found.len();
        match push_move(self.chains(), cursor, found) {
            Ok(next) => Ok(next),
            Err(error) => {
                found.truncate(before);
                Err(error)
            }
        }
    }
}
