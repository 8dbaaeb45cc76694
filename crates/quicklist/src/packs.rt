// The bytes of nodes, made of those of others.

ghost use Rattle.std.specs.Prelude.{◌≡◌, ◌∷◌, ◌<◌, ◌≤◌, ◌+◌, [], length, slice_set, slice_index_or, IfOk, IfSome, IfNone};
ghost use Rattle.std.specs.List.{remove_range as range_removed};
ghost use Rattle.listpack.specs.Pack.{texts};
ghost use Rattle.listpack.specs.Element.{element_text};
ghost use Rattle.quicklist.specs.Nodes.{IsHeld, IsPacked, IsPart, IsPiece, IsAlone, pack_len, held, piece_list};

use crate::node::Container;
use crate::piece::{PACKED_BYTES, Piece, is_long};
use blocks::Memory;
use listpack::{Element, entry_size, known};
use std::alloc::Global;

/// The element at an index of a node of these bytes.
pub(crate) fn element_at(container: Container, bytes: &[u8], index: usize) -> Element<'_>
    requires held { IsHeld container bytes.now }
    requires inside { index < length (held container bytes.now) }
    ensures { element_text result ≡ slice_index_or (held container bytes.now) index [] }
{
    match container {
        Container::Plain => Element::Text(bytes),
        Container::Packed => {
            let pack = known(bytes);
            match pack.seek(index) {
                Some(at) => pack.get(at),
                None => unreachable!(),
            }
        }
    }
}

// A copy of bytes, with room for more behind them.
fn copy_with_room(alloc: Global, bytes: &[u8], room: usize) -> Result<Vec<u8>, Memory>
    requires { room ≤ 16384 }
    ensures { IfOk result (λ v. v.items ≡ bytes.now) }
{
    let mut copy = Vec::with_capacity(alloc, bytes.len() + room)?;
    copy.extend_from_slice(bytes)?;
    Ok(copy)
}

/// The listpack of one element, or none where it is too long for a packed node.
pub(crate) fn pack_of(alloc: Global, element: &[u8]) -> Result<Option<Vec<u8>>, Memory>
    ensures { IfOk result (λ pack. IsAlone pack element.now) }
{
    if is_long(element) {
        return Ok(None);
    }
    let mut pack = listpack::empty(alloc)?;
    listpack::append(&mut pack, element)?;
    Ok(Some(pack))
}

/// A packed node of these bytes.
pub(crate) fn packed_piece(bytes: &[u8], count: u32) -> Piece<'_>
    requires packed { IsPacked bytes.now }
    requires counted { count ≡ length (texts bytes.now) }
    ensures part { IsPart result }
    ensures piece { 0 < count → IsPiece result }
    ensures list { piece_list result ≡ texts bytes.now }
    ensures container { result.container ≡ Container.Packed }
{
    Piece {
        container: Container::Packed,
        count,
        bytes,
    }
}

/// A node of one element.
pub(crate) fn piece_of<'a>(pack: &'a Option<Vec<u8>>, element: &'a [u8]) -> Piece<'a>
    requires { IsAlone pack.now element.now }
    ensures piece { IsPiece result }
    ensures list { piece_list result ≡ element.now ∷ [] }
{
    match pack {
        Some(bytes) => Piece {
            container: Container::Packed,
            count: 1,
            bytes,
        },
        None => Piece {
            container: Container::Plain,
            count: 1,
            bytes: element,
        },
    }
}

// The bytes of a packed node with an element in the place of the one at an index, or none where they are too many.
fn replaced_pack(
    alloc: Global,
    bytes: &[u8],
    index: usize,
    element: &[u8],
) -> Result<Option<Vec<u8>>, Memory>
    requires packed { IsPacked bytes.now }
    requires inside { index < length (texts bytes.now) }
    ensures some { IfOk result (λ pack. IfSome pack (λ v. IsPacked v.items × (texts v.items ≡ slice_set (texts bytes.now) index element.now))) }
    ensures none { IfOk result (λ pack. IfNone pack (8192 < pack_len (slice_set (texts bytes.now) index element.now))) }
{
    if is_long(element) {
        return Ok(None);
    }
    let mut pack = copy_with_room(alloc, bytes, entry_size(element))?;
    listpack::replace(&mut pack, index, element)?;
    if pack.len() > PACKED_BYTES {
        return Ok(None);
    }
    Ok(Some(pack))
}

/// The bytes of a node with an element in the place of the one at an index, or none where that is too long for a packed node.
pub(crate) fn replaced(
    alloc: Global,
    container: Container,
    bytes: &[u8],
    index: usize,
    element: &[u8],
) -> Result<Option<Vec<u8>>, Memory>
    requires held { IsHeld container bytes.now }
    requires inside { index < length (held container bytes.now) }
    ensures some { IfOk result (λ pack. IfSome pack (λ v. IsPacked v.items × (texts v.items ≡ slice_set (held container bytes.now) index element.now))) }
    ensures none { IfOk result (λ pack. IfNone pack (8192 < pack_len (slice_set (held container bytes.now) index element.now))) }
{
    match container {
        Container::Plain => pack_of(alloc, element),
        Container::Packed => replaced_pack(alloc, bytes, index, element),
    }
}

/// The bytes of a packed node without the elements from the index `from` to below `to`.
pub(crate) fn without(
    alloc: Global,
    bytes: &[u8],
    from: usize,
    to: usize,
) -> Result<Vec<u8>, Memory>
    requires packed { IsPacked bytes.now }
    requires order { from ≤ to }
    requires inside { to ≤ length (texts bytes.now) }
    ensures packed { IfOk result (λ v. IsPacked v.items) }
    ensures list { IfOk result (λ v. texts v.items ≡ range_removed (texts bytes.now) from to) }
{
    let mut pack = Vec::from_slice(alloc, bytes)?;
    listpack::remove_range(&mut pack, from, to);
    Ok(pack)
}
