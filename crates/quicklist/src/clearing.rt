// Elements that go, in one node.

ghost use Rattle.std.specs.Prelude.{◌≡◌, ◌∷◌, ◌++◌, ◌<◌, ◌≤◌, ◌+◌, ◌^◌, [], length, IfOk, OnOk};
ghost use Rattle.listpack.specs.Pack.{texts, IsPack};
ghost use Rattle.listpack.specs.Element.{element_text};
ghost use Rattle.quicklist.specs.Nodes.{IsHeld, IsPacked, held, pack_len};
ghost use Rattle.quicklist.specs.Equal.{cleared, IsLeft};

use crate::locate::there;
use crate::node::Container;
use crate::reach::Reach;
use blocks::Memory;
use itoa::Buffer;
use listpack::{Element, known};
use std::alloc::Global;

/// What is left of a node.
#[derive(Drop)]
pub(crate) enum Left {
    /// All its elements.
    Whole,
    /// None of them.
    Nothing,
    /// A listpack of so many of them.
    Part(Vec<u8>, u32),
}

// How many elements of a packed node go, of which the first one has the index `start` in the list.
fn count_going(bytes: &[u8], count: usize, reach: Reach<'_>, start: usize) -> usize
    requires pack { IsPack bytes.now }
    requires counted { count ≡ length (texts bytes.now) }
    requires small { start + count < 2 ^ 64 }
    ensures { result + length (cleared reach.entry start (texts bytes.now)) ≡ count }
{
    let pack = known(bytes);
    let mut going = 0;
    let mut place = pack.first();
    for j in 0..count {
        let at = there(place);
        if reach.takes(start + j, pack.get(at)) {
            going += 1;
        }
        place = pack.next(at);
    }
    going
}

// Puts an element behind those of a packed node.
fn append_element(pack: &mut Vec<u8>, element: Element<'_>) -> Result<(), Memory>
    requires packed { IsPacked pack.old.items }
    requires room { length pack.old.items + pack_len (element_text element ∷ []) ≤ 8199 }
    ensures packed { OnOk result (IsPacked pack.new.items) }
    ensures list { OnOk result (texts pack.new.items ≡ texts pack.old.items ++ element_text element.entry ∷ []) }
{
    match element {
        Element::Text(part) => append_text(pack, part),
        Element::Number(n) => append_text(pack, Buffer::new().format(n).as_bytes()),
    }
}

/// Puts an element of this text behind those of a packed node.
pub(crate) fn append_text(pack: &mut Vec<u8>, text: &[u8]) -> Result<(), Memory>
    requires packed { IsPacked pack.old.items }
    requires room { length pack.old.items + pack_len (text.now ∷ []) ≤ 8199 }
    ensures packed { OnOk result (IsPacked pack.new.items) }
    ensures list { OnOk result (texts pack.new.items ≡ texts pack.old.items ++ text.now ∷ []) }
{
    listpack::append(pack, text)
}

// The bytes of a packed node without the elements that go.
fn cleared_pack(
    alloc: Global,
    bytes: &[u8],
    count: usize,
    reach: Reach<'_>,
    start: usize,
) -> Result<Vec<u8>, Memory>
    requires packed { IsPacked bytes.now }
    requires counted { count ≡ length (texts bytes.now) }
    requires small { start + count < 2 ^ 64 }
    ensures packed { IfOk result (λ v. IsPacked v.items) }
    ensures list { IfOk result (λ v. texts v.items ≡ cleared reach.entry start (texts bytes.now)) }
{
    let pack = known(bytes);
    let mut left = listpack::empty(alloc)?;
    let mut place = pack.first();
    for j in 0..count {
        let at = there(place);
        let element = pack.get(at);
        if !reach.takes(start + j, element) {
            append_element(&mut left, element)?;
        }
        place = pack.next(at);
    }
    Ok(left)
}

// What is left of a packed node where the elements of a reach go.
fn left_of_pack(
    alloc: Global,
    bytes: &[u8],
    count: u32,
    reach: Reach<'_>,
    start: usize,
) -> Result<Left, Memory>
    requires packed { IsPacked bytes.now }
    requires counted { count ≡ length (texts bytes.now) }
    requires small { start + count < 2 ^ 64 }
    ensures { IfOk result (λ left. IsLeft (texts bytes.now) (cleared reach.entry start (texts bytes.now)) left) }
{
    let going = count_going(bytes, count as usize, reach, start) as u32;
    if going == 0 {
        return Ok(Left::Whole);
    }
    if going == count {
        return Ok(Left::Nothing);
    }
    let pack = cleared_pack(alloc, bytes, count as usize, reach, start)?;
    Ok(Left::Part(pack, count - going))
}

/// What is left of a node where the elements of a reach go. Its first element has the index `start` in the list.
pub(crate) fn left_of(
    alloc: Global,
    container: Container,
    bytes: &[u8],
    count: u32,
    reach: Reach<'_>,
    start: usize,
) -> Result<Left, Memory>
    requires held { IsHeld container bytes.now }
    requires counted { count ≡ length (held container bytes.now) }
    requires small { start + count < 2 ^ 64 }
    ensures { IfOk result (λ left. IsLeft (held container bytes.now) (cleared reach.entry start (held container bytes.now)) left) }
{
    if start + count as usize <= reach.from || reach.to <= start {
        return Ok(Left::Whole);
    }
    match container {
        Container::Plain if reach.takes(start, Element::Text(bytes)) => Ok(Left::Nothing),
        Container::Plain => Ok(Left::Whole),
        Container::Packed => left_of_pack(alloc, bytes, count, reach, start),
    }
}
