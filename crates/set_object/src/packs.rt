// Members that are packed in the bytes of one block.

ghost use Rattle.std.specs.Prelude.{◌≡◌, ◌++◌, ◌∷◌, [], ◌<◌, ◌^◌, ◌↔◌, IsTrue, IfSome, IfNone, IfOk, ◌≤◌, OnOk, length, MatchOption, slice_get, slice_index_or, Some, false, true, is_some};
ghost use Rattle.std.specs.FinMap.{remove};
ghost use Rattle.std.specs.List.{All, Contains};
ghost use lib.Signed.{mag};
ghost use Rattle.intset.specs.Intset.{IsIntset, numbers_of};
ghost use Rattle.int_text.specs.Decimal.{canonical, number_of};
ghost use Rattle.listpack.specs.Pack.{IsPack, texts, spellings_of, told};
ghost use Rattle.listpack.specs.Writing.{spelling, Fits};
ghost use Rattle.listpack.specs.Edits.{IsEdited, one_more};
ghost use Rattle.listpack.specs.Element.{element_text};
ghost use Rattle.set_object.specs.Strings.{set_of, has, longest, IsOnce};
ghost use Rattle.set_object.specs.Members.{number_texts, IsPackOf, AreNumbersOf, ArePackedOf};

use blocks::Memory;
use int_text::read_i64;
use itoa::Buffer;
use listpack::{Element, Sought};
use std::alloc::Global;

/// Whether a text is the canonical one of a signed number of 64 bits.
pub(crate) fn is_number(text: &[u8]) -> bool
    ensures { result ≡ is_some (number_of text.now) }
{
    match read_i64(text) {
        Some(_) => true,
        None => false,
    }
}

// Whether a number is among those of an intset.
fn has_number(bytes: &[u8], n: i64) -> bool
    requires { IsIntset bytes.now (numbers_of bytes.now) }
    ensures { IsTrue result ↔ Contains (numbers_of bytes.now) n }
{
    intset::known(bytes).contains(n)
}

/// The number whose text a member is, where it is among those of an intset.
pub(crate) fn number_among(bytes: &[u8], member: &[u8]) -> Option<i64>
    requires intset { IsIntset bytes.now (numbers_of bytes.now) }
    requires fit { All (λ n. mag n < 2 ^ 63) (numbers_of bytes.now) }
    ensures text { IfSome result (λ n. canonical n ≡ member.now) }
    ensures there { is_some result ≡ has (set_of (number_texts bytes.now)) member.now }
{
    match read_i64(member) {
        Some(n) => { if has_number(bytes, n) { Some(n) } else { None } }
        None => None,
    }
}

/// The number at an index of an intset, as an element.
pub(crate) fn number_element(bytes: &[u8], index: usize) -> Element<'_>
    requires intset { IsIntset bytes.now (numbers_of bytes.now) }
    requires fit { All (λ n. mag n < 2 ^ 63) (numbers_of bytes.now) }
    requires inside { index < length (numbers_of bytes.now) }
    ensures { element_text result ≡ slice_index_or (number_texts bytes.now) index [] }
{
    match intset::known(bytes).at(index) {
        Some(n) => Element::Number(n),
        None => unreachable!(),
    }
}

/// The index of an element of a listpack, by one pass over it.
pub(crate) fn find_text(bytes: &[u8], text: &[u8]) -> Option<usize>
    requires { IsPack bytes.now }
    ensures found { IfSome result (λ i. slice_get (texts bytes.now) i ≡ Some text.now) }
    ensures none { IfNone result (has (set_of (texts bytes.now)) text.now ≡ false) }
{
    let pack = listpack::known(bytes);
    let sought = Sought::of(text);
    let mut next = pack.first();
    for index in 0..pack.len() {
        match next {
            Some(at) => {
                let (element, behind) = pack.step(at);
                if sought.is_text_of(element) {
                    return Some(index);
                }
                next = behind;
            }
            None => unreachable!(),
        }
    }
    None
}

// The number of bytes of a number's text.
fn text_len(n: i64) -> usize
    ensures { result ≡ length (canonical n) }
{
    Buffer::new().format(n).len()
}

/// The length of the longest text of the numbers of an intset.
pub(crate) fn longest_number(bytes: &[u8]) -> usize
    requires intset { IsIntset bytes.now (numbers_of bytes.now) }
    requires fit { All (λ n. mag n < 2 ^ 63) (numbers_of bytes.now) }
    ensures { result ≡ longest (number_texts bytes.now) }
{
    let numbers = intset::known(bytes);
    let mut most = 0;
    for index in (0..numbers.len()).rev() {
        if let Some(n) = numbers.at(index) {
            most = text_len(n).max(most);
        }
    }
    most
}

// Puts the text of a number behind the elements of a listpack.
fn push_number(pack: &mut Vec<u8>, n: i64) -> Result<(), Memory>
    requires packed { IsPack pack.old.items }
    requires fits { Fits pack.old.items (canonical n) }
    ensures entries { OnOk result (IsEdited pack.new.items (spellings_of pack.old.items ++ spelling (canonical n) ∷ []) (one_more (told pack.old.items))) }
    ensures list { OnOk result (texts pack.new.items ≡ texts pack.old.items ++ canonical n ∷ []) }
{
    listpack::append(pack, Buffer::new().format(n).as_bytes())
}

/// A listpack of the texts of an intset's numbers.
pub(crate) fn pack_numbers(alloc: Global, bytes: &[u8]) -> Result<Vec<u8>, Memory>
    requires intset { IsIntset bytes.now (numbers_of bytes.now) }
    requires few { length (numbers_of bytes.now) ≤ 65536 }
    requires fit { All (λ n. mag n < 2 ^ 63) (numbers_of bytes.now) }
    ensures { IfOk result (λ pack. IsPackOf (number_texts bytes.now) pack.items) }
{
    let numbers = intset::known(bytes);
    let mut pack = listpack::empty(alloc)?;
    for index in 0..numbers.len() {
        if let Some(n) = numbers.at(index) {
            push_number(&mut pack, n)?;
        }
    }
    Ok(pack)
}

/// An intset of the numbers of one without a member. `None` comes exactly where it isn't among them.
pub(crate) fn numbers_without(
    alloc: Global,
    bytes: &[u8],
    member: &[u8],
) -> Result<Option<Vec<u8>>, Memory>
    requires intset { IsIntset bytes.now (numbers_of bytes.now) }
    requires few { length (numbers_of bytes.now) ≤ 65536 }
    requires fit { All (λ n. mag n < 2 ^ 63) (numbers_of bytes.now) }
    ensures there { IfOk result (λ left. is_some left ≡ has (set_of (number_texts bytes.now)) member.now) }
    ensures left { IfOk result (λ left. IfSome left (λ set. AreNumbersOf (remove (set_of (number_texts bytes.now)) member.now) set.items)) }
{
    match number_among(bytes, member) {
        Some(n) => {
            let mut set = Vec::from_slice(alloc, bytes)?;
            intset::remove(&mut set, n);
            Ok(Some(set))
        }
        None => Ok(None),
    }
}

/// A listpack of the elements of one without a member. `None` comes exactly where it isn't among them.
pub(crate) fn pack_without(
    alloc: Global,
    bytes: &[u8],
    member: &[u8],
) -> Result<Option<Vec<u8>>, Memory>
    requires pack { IsPackOf (texts bytes.now) bytes.now }
    requires once { IsOnce (texts bytes.now) }
    ensures there { IfOk result (λ left. is_some left ≡ has (set_of (texts bytes.now)) member.now) }
    ensures left { IfOk result (λ left. IfSome left (λ pack. ArePackedOf (remove (set_of (texts bytes.now)) member.now) pack.items)) }
{
    match find_text(bytes, member) {
        Some(index) => {
            let mut pack = Vec::from_slice(alloc, bytes)?;
            listpack::remove(&mut pack, index);
            Ok(Some(pack))
        }
        None => Ok(None),
    }
}
