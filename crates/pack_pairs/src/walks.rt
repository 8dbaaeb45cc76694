// Walks over pairs, and the search for a first text.

ghost use Rattle.std.specs.Prelude.{◌≡◌, ℕ, ◌+◌, ◌<◌, ◌≤◌, [], None, Some, IfSome, IfNone, MatchOption, length, slice_index_or};
ghost use Rattle.listpack.specs.Element.{element_text};
ghost use Rattle.pack_pairs.specs.Pairs.{IsPairPack, IsPairAt, IsSecondAt, IsFirst, pairs, second_of, longest};

use itoa::Buffer;
use listpack::{Element, Sought};

/// A pair of a listpack.
#[derive(Clone, Copy, Debug)]
pub struct Place {
    /// How many pairs stand before it.
    pub index: usize,
    /// The offset of its first element.
    pub at: usize,
}

/// Both elements of a pair of a listpack, and the offset of the pair behind it.
#[derive(Clone, Copy, Debug)]
pub struct Both<'a> {
    pub first: Element<'a>,
    pub second: Element<'a>,
    pub next: Option<usize>,
}

/// The text of an element. That of a number is printed into the buffer.
pub fn text<'a>(element: Element<'a>, room: &'a mut Buffer) -> &'a [u8]
    ensures { result.now ≡ element_text element.entry }
{
    match element {
        Element::Text(part) => part,
        Element::Number(n) => room.format(n).as_bytes(),
    }
}

// The length of an element's text.
fn text_len(element: Element<'_>) -> usize
    ensures { result ≡ length (element_text element.entry) }
{
    let mut room = Buffer::new();
    text(element, &mut room).len()
}

// The offset of the second element of the pair at an offset.
fn offset_of_second(bytes: &[u8], at: usize) -> usize
    requires pack { IsPairPack bytes.now }
    requires place { (i : ℕ) × IsPairAt bytes.now i at }
    ensures { (i : ℕ) → IsPairAt bytes.now i at → IsSecondAt bytes.now i result }
{
    match listpack::known(bytes).next(at) {
        Some(second) => second,
        None => unreachable!(),
    }
}

/// The offset of the first pair. `None` comes exactly where there is no pair.
pub fn first_place(bytes: &[u8]) -> Option<usize>
    requires { IsPairPack bytes.now }
    ensures { MatchOption result (length (pairs bytes.now) ≡ 0) (λ at. IsPairAt bytes.now 0 at) }
{
    listpack::known(bytes).first()
}

/// The offset of the pair behind the one at an offset. `None` comes exactly where that is the last one.
pub fn next_place(bytes: &[u8], at: usize) -> Option<usize>
    requires pack { IsPairPack bytes.now }
    requires place { (i : ℕ) × IsPairAt bytes.now i at }
    ensures { (i : ℕ) → IsPairAt bytes.now i at → MatchOption result (i + 1 ≡ length (pairs bytes.now)) (λ to. IsPairAt bytes.now (i + 1) to) }
{
    listpack::known(bytes).next(offset_of_second(bytes, at))
}

/// The first element of the pair at an offset.
pub fn first(bytes: &[u8], at: usize) -> Element<'_>
    requires pack { IsPairPack bytes.now }
    requires place { (i : ℕ) × IsPairAt bytes.now i at }
    ensures { (i : ℕ) → IsPairAt bytes.now i at → element_text result ≡ (slice_index_or (pairs bytes.now) i ([], [])).0 }
{
    listpack::known(bytes).get(at)
}

/// The second element of the pair at an offset.
pub fn second(bytes: &[u8], at: usize) -> Element<'_>
    requires pack { IsPairPack bytes.now }
    requires place { (i : ℕ) × IsPairAt bytes.now i at }
    ensures { (i : ℕ) → IsPairAt bytes.now i at → element_text result ≡ (slice_index_or (pairs bytes.now) i ([], [])).1 }
{
    listpack::known(bytes).get(offset_of_second(bytes, at))
}

/// The offset of the pair at an index. Where the header tells the number of elements, it takes a step for each between the pair and
/// the nearer end.
pub fn seek(bytes: &[u8], index: usize) -> usize
    requires pack { IsPairPack bytes.now }
    requires inside { index < length (pairs bytes.now) }
    ensures { IsPairAt bytes.now index result }
{
    match listpack::known(bytes).seek(2 * index) {
        Some(at) => at,
        None => unreachable!(),
    }
}

// The first element of the pair at an offset, and the offset of the pair behind it. `None` comes exactly where that is the last one.
fn first_step(bytes: &[u8], at: usize) -> (Element<'_>, Option<usize>)
    requires pack { IsPairPack bytes.now }
    requires place { (i : ℕ) × IsPairAt bytes.now i at }
    ensures first { (i : ℕ) → IsPairAt bytes.now i at → element_text result.0 ≡ (slice_index_or (pairs bytes.now) i ([], [])).0 }
    ensures next { (i : ℕ) → IsPairAt bytes.now i at → MatchOption result.1 (i + 1 ≡ length (pairs bytes.now)) (λ to. IsPairAt bytes.now (i + 1) to) }
{
    let pack = listpack::known(bytes);
    let (first, behind) = pack.step(at);
    match behind {
        Some(behind) => (first, pack.next(behind)),
        None => unreachable!(),
    }
}

/// The pair at an offset. Its `next` is `None` exactly where it is the last one.
pub fn step(bytes: &[u8], at: usize) -> Both<'_>
    requires pack { IsPairPack bytes.now }
    requires place { (i : ℕ) × IsPairAt bytes.now i at }
    ensures first { (i : ℕ) → IsPairAt bytes.now i at → element_text result.first ≡ (slice_index_or (pairs bytes.now) i ([], [])).0 }
    ensures second { (i : ℕ) → IsPairAt bytes.now i at → element_text result.second ≡ (slice_index_or (pairs bytes.now) i ([], [])).1 }
    ensures next { (i : ℕ) → IsPairAt bytes.now i at → MatchOption result.next (i + 1 ≡ length (pairs bytes.now)) (λ to. IsPairAt bytes.now (i + 1) to) }
{
    let pack = listpack::known(bytes);
    let (first, behind) = pack.step(at);
    match behind {
        Some(behind) => {
            let (second, next) = pack.step(behind);
            Both {
                first,
                second,
                next,
            }
        }
        None => unreachable!(),
    }
}

/// The first pair whose first element has this text, by one pass over the pairs. `None` comes exactly where there is none.
pub fn find(bytes: &[u8], first: &[u8]) -> Option<Place>
    requires { IsPairPack bytes.now }
    ensures found { IfSome result (λ place. IsFirst first.now (pairs bytes.now) place.index) }
    ensures place { IfSome result (λ place. IsPairAt bytes.now place.index place.at) }
    ensures none { IfNone result (second_of first.now (pairs bytes.now) ≡ None) }
{
    let count = listpack::known(bytes).len() / 2;
    let sought = Sought::of(first);
    let mut next = first_place(bytes);
    for index in 0..count {
        match next {
            Some(at) => {
                let (element, behind) = first_step(bytes, at);
                if sought.is_text_of(element) {
                    return Some(Place { index, at });
                }
                next = behind;
            }
            None => unreachable!(),
        }
    }
    None
}

/// The second element of the first pair whose first element has this text, by one pass over the pairs.
pub fn find_second<'a>(bytes: &'a [u8], first: &[u8]) -> Option<Element<'a>>
    requires { IsPairPack bytes.now }
    ensures { MatchOption result (second_of first.now (pairs bytes.now) ≡ None) (λ found. second_of first.now (pairs bytes.now) ≡ Some (element_text found)) }
{
    match find(bytes, first) {
        Some(place) => Some(second(bytes, place.at)),
        None => None,
    }
}

/// The length of the longest text of the pairs, by one pass over them.
pub fn longest_len(bytes: &[u8]) -> usize
    requires { IsPairPack bytes.now }
    ensures { result ≡ longest (pairs bytes.now) }
{
    let count = listpack::known(bytes).len() / 2;
    let mut next = first_place(bytes);
    let mut most = 0;
    for _ in 0..count {
        match next {
            Some(at) => {
                let pair = step(bytes, at);
                let first = text_len(pair.first);
                let second = text_len(pair.second);
                let len = first.max(second);
                most = len.max(most);
                next = pair.next;
            }
            None => unreachable!(),
        }
    }
    most
}
