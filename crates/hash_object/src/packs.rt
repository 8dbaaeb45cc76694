// Fields and values that are packed in the bytes of one block.

ghost use Rattle.std.specs.Prelude.{◌≡◌, ℕ, ◌<◌, [], IfSome, IfNone, IfOk, None, length, slice_index_or};
ghost use Rattle.listpack.specs.Element.{element_text};
ghost use Rattle.pack_pairs.specs.Pairs.{IsPairPack, IsPairAt, FitsPair, pairs};
ghost use Rattle.hash_object.specs.Fields.{IsIndex, put_in};

use blocks::Memory;
use listpack::Element;
use pack_pairs::{find, first, second, with_last, with_second};
use std::alloc::Global;

/// The index of a field's pair.
pub(crate) fn find_index(bytes: &[u8], field: &[u8]) -> Option<usize>
    requires { IsPairPack bytes.now }
    ensures { IsIndex (pairs bytes.now) field.now result }
{
    match find(bytes, field) {
        Some(place) => Some(place.index),
        None => None,
    }
}

/// A copy of the listpack with this value in the pair at an index, or with a pair more.
pub(crate) fn pack_with(
    alloc: Global,
    bytes: &[u8],
    index: Option<usize>,
    field: &[u8],
    value: &[u8],
) -> Result<Vec<u8>, Memory>
    requires pack { IsPairPack bytes.now }
    requires inside { IfSome index (λ i. i < length (pairs bytes.now)) }
    requires fits { FitsPair bytes.now field.now value.now }
    ensures pack { IfOk result (λ new. IsPairPack new.items) }
    ensures list { IfOk result (λ new. pairs new.items ≡ put_in (pairs bytes.now) index field.now value.now) }
{
    match index {
        Some(index) => with_second(alloc, bytes, index, value),
        None => with_last(alloc, bytes, field, value),
    }
}

/// The elements of the pair at an offset.
pub(crate) fn pair_from(bytes: &[u8], at: usize) -> (Element<'_>, Element<'_>)
    requires pack { IsPairPack bytes.now }
    requires place { (i : ℕ) × IsPairAt bytes.now i at }
    ensures { (i : ℕ) → IsPairAt bytes.now i at → (element_text result.0, element_text result.1) ≡ slice_index_or (pairs bytes.now) i ([], []) }
{
    (first(bytes, at), second(bytes, at))
}
