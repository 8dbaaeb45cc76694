//! How tables grow, move and end: steps over the chains, with the position of the rehash beside them.

ghost use Rattle.std.specs.Prelude.{◌≡◌, ℕ, ◌+◌, ◌<◌, ◌≤◌, [], length, Some, None, IfOk, OnOk, OnErr, IsTrue, true, false, replicate, if◌then◌else◌, vec_len};
ghost use Rattle.rehash_dict.specs.declared.chains.Side.{Side};
ghost use Rattle.rehash_dict.specs.Tables.{Tables, bucket, count, full_within, is_rehashing, ended, begun, with_room, rehashed, stepped};
ghost use Rattle.rehash_dict.specs.Table.{Chaining, Agrees};
ghost use Rattle.rehash_dict.specs.Placed.{Stand, IsKept, IsSize};
ghost use Rattle.rehash_dict.specs.Sides.{side_rows, held_tables, HasRoom, Rebuilds};

use crate::chains::{Chains, Side};
use std::alloc::{AllocError, Global};

/// How many buckets the first table has, and the least that a table shrinks to.
pub(crate) const FIRST_SIZE: usize = 4;

/// How many empty buckets a rehash step passes at most.
const EMPTY_VISITS: usize = 10;

/// So many heads of empty chains.
pub(crate) fn empty_heads(alloc: Global, size: usize) -> Result<Vec<u32>, AllocError>
    ensures len { IfOk result (λ heads. vec_len heads ≡ size) }
    ensures empty { IfOk result (λ heads. heads.items ≡ replicate (vec_len heads) 0) }
{
    vec![in alloc; 0u32; size]
}

/// The table that a new element goes into.
pub(crate) fn side_for_new<V>(chains: &Chains<V>) -> Side
    ensures { result ≡ (if is_rehashing (held_tables chains.now 0) then Side.Newer else Side.Older) }
{
    if chains.buckets(Side::Newer) > 0 {
        Side::Newer
    } else {
        Side::Older
    }
}

/// Puts the newer table in the place of the older one where that has no element left, and answers the position of the
/// rehash.
pub(crate) fn end_if_moved<V>(chains: &mut Chains<V>, position: usize) -> usize
    requires stand { Stand chains.old.items chains.old.older chains.old.newer }
    requires passed { (k : ℕ) → k < position → bucket chains.old.older k ≡ [] }
    requires begins { length chains.old.newer ≡ 0 → position ≡ 0 }
    ensures tables { held_tables chains.new result ≡ ended (held_tables chains.old position) }
    ensures rebuilds { Rebuilds chains.old chains.new result }
{
    if chains.waiting() == 0 && chains.buckets(Side::Newer) > 0 {
        chains.end();
        0
    } else {
        position
    }
}

/// Begins a rehash into a table of these heads.
pub(crate) fn begin<V>(chains: &mut Chains<V>, heads: Vec<u32>)
    requires kept { IsKept chains.old.items chains.old.older chains.old.newer 0 }
    requires one { chains.old.newer ≡ [] }
    requires size { IsSize (vec_len heads) }
    requires empty { heads.items ≡ replicate (vec_len heads) 0 }
    ensures tables { held_tables chains.new 0 ≡ begun (held_tables chains.old 0) (vec_len heads) }
    ensures rebuilds { Rebuilds chains.old chains.new 0 }
{
    chains.open(Side::Newer, heads);
    let _position = end_if_moved(chains, 0);
}

/// The next bucket of the older table that has an element, where it comes before ten empty ones.
fn first_full<V>(chains: &Chains<V>, position: usize) -> Option<usize>
    ensures { result ≡ full_within chains.now.older 10 position }
{
    let buckets = chains.buckets(Side::Older);
    for at in position..buckets.min(position.saturating_add(EMPTY_VISITS)) {
        if !chains.is_empty(Side::Older, at) {
            return Some(at);
        }
    }
    None
}

/// One step of the rehash that is going on. The answer is its new position.
pub(crate) fn step<V>(chains: &mut Chains<V>, position: usize) -> usize
    requires kept { IsKept chains.old.items chains.old.older chains.old.newer position }
    requires going { 0 < length chains.old.newer }
    ensures tables { (names : ℕ → ℕ) → Agrees names chains.old.items → held_tables chains.new result ≡ stepped names (held_tables chains.old position) }
    ensures rebuilds { Rebuilds chains.old chains.new result }
    ensures table { 0 < length chains.new.older }
{
    match first_full(chains, position) {
        None => position + EMPTY_VISITS,
        Some(at) => {
            chains.move_bucket(at);
            end_if_moved(chains, at + 1)
        }
    }
}

/// One step where a rehash is going on. The answer is its new position.
pub(crate) fn step_if_rehashing<V>(chains: &mut Chains<V>, position: usize) -> usize
    requires kept { IsKept chains.old.items chains.old.older chains.old.newer position }
    requires table { 0 < length chains.old.older }
    ensures tables { (names : ℕ → ℕ) → Agrees names chains.old.items → held_tables chains.new result ≡ rehashed names (held_tables chains.old position) 1 }
    ensures rebuilds { Rebuilds chains.old chains.new result }
    ensures table { 0 < length chains.new.older }
{
    if chains.buckets(Side::Newer) > 0 {
        step(chains, position)
    } else {
        position
    }
}

/// Makes room for one more element: in the entries, and where the table is full by a rehash into a greater one.
pub(crate) fn make_room<V>(
    chains: &mut Chains<V>,
    alloc: Global,
    position: usize,
) -> Result<(), AllocError>
    requires { IsKept chains.old.items chains.old.older chains.old.newer position }
    ensures tables { OnOk result (held_tables chains.new position ≡ with_room (held_tables chains.old position)) }
    ensures items { chains.new.items ≡ chains.old.items }
    ensures kept { OnOk result (IsKept chains.new.items chains.new.older chains.new.newer position) }
    ensures table { OnOk result (0 < length chains.new.older) }
    ensures room { OnOk result (HasRoom chains.new) }
    ensures err { OnErr result (held_tables chains.new position ≡ held_tables chains.old position) }
{
    chains.reserve()?;
    if chains.buckets(Side::Newer) > 0 {
        return Ok(());
    }
    let buckets = chains.buckets(Side::Older);
    let len = chains.len();
    if buckets == 0 {
        let heads = empty_heads(alloc, FIRST_SIZE)?;
        chains.open(Side::Older, heads);
        return Ok(());
    }
    if len >= buckets {
        if len >= 1 << 62 {
            return Err(AllocError);
        }
        let heads = empty_heads(alloc, (len + 1).next_power_of_two())?;
        begin(chains, heads);
    }
    Ok(())
}
