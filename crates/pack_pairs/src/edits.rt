// Pairs that are put in, changed and taken out.

ghost use Rattle.std.specs.Prelude.{◌≡◌, ◌++◌, ◌∷◌, [], ◌<◌, ◌≤◌, IfOk, length};
ghost use Rattle.std.specs.List.{insert as inserted, remove as removed};
ghost use Rattle.listpack.specs.Writing.{Fits};
ghost use Rattle.pack_pairs.specs.Pairs.{IsPairPack, FitsPair, pairs, seconded};

use listpack::Memory;
use std::alloc::Global;

/// A listpack without a pair.
pub fn empty(alloc: Global) -> Result<Vec<u8>, Memory>
    ensures pack { IfOk result (λ new. IsPairPack new.items) }
    ensures list { IfOk result (λ new. pairs new.items ≡ []) }
{
    listpack::empty(alloc)
}

/// The listpack with one pair more before the one at an index, or behind all where that is their number.
pub fn put_pair(
    mut pack: Vec<u8>,
    index: usize,
    first: &[u8],
    second: &[u8],
) -> Result<Vec<u8>, Memory>
    requires pack { IsPairPack pack.items }
    requires index { index ≤ length (pairs pack.items) }
    requires fits { FitsPair pack.items first.now second.now }
    ensures pack { IfOk result (λ new. IsPairPack new.items) }
    ensures list { IfOk result (λ new. pairs new.items ≡ inserted (pairs pack.items) index (first.now, second.now)) }
{
    listpack::insert(&mut pack, 2 * index, second)?;
    listpack::insert(&mut pack, 2 * index, first)?;
    Ok(pack)
}

/// A copy of the listpack with one pair more before the one at an index, or behind all where that is their number.
pub fn with_pair(
    alloc: Global,
    bytes: &[u8],
    index: usize,
    first: &[u8],
    second: &[u8],
) -> Result<Vec<u8>, Memory>
    requires pack { IsPairPack bytes.now }
    requires index { index ≤ length (pairs bytes.now) }
    requires fits { FitsPair bytes.now first.now second.now }
    ensures pack { IfOk result (λ new. IsPairPack new.items) }
    ensures list { IfOk result (λ new. pairs new.items ≡ inserted (pairs bytes.now) index (first.now, second.now)) }
{
    let pack = Vec::from_slice(alloc, bytes)?;
    put_pair(pack, index, first, second)
}

/// A copy of the listpack with one pair more behind all others.
pub fn with_last(
    alloc: Global,
    bytes: &[u8],
    first: &[u8],
    second: &[u8],
) -> Result<Vec<u8>, Memory>
    requires pack { IsPairPack bytes.now }
    requires fits { FitsPair bytes.now first.now second.now }
    ensures pack { IfOk result (λ new. IsPairPack new.items) }
    ensures list { IfOk result (λ new. pairs new.items ≡ pairs bytes.now ++ (first.now, second.now) ∷ []) }
{
    let count = listpack::known(bytes).len() / 2;
    with_pair(alloc, bytes, count, first, second)
}

/// A copy of the listpack with another second element in the pair at an index.
pub fn with_second(
    alloc: Global,
    bytes: &[u8],
    index: usize,
    second: &[u8],
) -> Result<Vec<u8>, Memory>
    requires pack { IsPairPack bytes.now }
    requires index { index < length (pairs bytes.now) }
    requires fits { Fits bytes.now second.now }
    ensures pack { IfOk result (λ new. IsPairPack new.items) }
    ensures list { IfOk result (λ new. pairs new.items ≡ seconded (pairs bytes.now) index second.now) }
{
    let mut pack = Vec::from_slice(alloc, bytes)?;
    listpack::replace(&mut pack, 2 * index + 1, second)?;
    Ok(pack)
}

/// A copy of the listpack without the pair at an index.
pub fn without(alloc: Global, bytes: &[u8], index: usize) -> Result<Vec<u8>, Memory>
    requires pack { IsPairPack bytes.now }
    requires index { index < length (pairs bytes.now) }
    ensures pack { IfOk result (λ new. IsPairPack new.items) }
    ensures list { IfOk result (λ new. pairs new.items ≡ removed (pairs bytes.now) index) }
{
    let mut pack = Vec::from_slice(alloc, bytes)?;
    listpack::remove_range(&mut pack, 2 * index, 2 * index + 2);
    Ok(pack)
}
