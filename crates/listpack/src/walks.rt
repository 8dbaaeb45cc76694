// A checked listpack, and the walks over its entries.

ghost use Rattle.std.specs.Prelude.{◌≡◌, ◌+◌, ◌-◌, ◌<◌, ◌≤◌, ◌^◌, ◌↔◌, ℕ, List, [], length, map, get_or, slice_index, IsTrue, MatchOption, IfSome};
ghost use Rattle.listpack.specs.Entry.{IsSpelling};
ghost use Rattle.listpack.specs.Element.{element_text, is_number, IsNumberByte};
ghost use Rattle.listpack.specs.Pack.{IsPack, IsOffset, IsAt, texts, spellings_of, offset_of};
ghost use Rattle.listpack.specs.Writing.{spelling};

use crate::back::{back_len, entry_len_before};
use crate::encoding::{Element, element_of, split_spelling};
use crate::entry::count_entries;
use crate::header::{NOT_TOLD, told_count};
use crate::spelling::is_as_written;

/// Bytes that are a listpack.
#[derive(Clone, Copy, Debug)]
pub struct Pack<'a> {
    pub(crate) bytes: &'a [u8],
    ghost packed: { IsPack bytes.now },
    ghost small: { length bytes.now < 2 ^ 32 },
}

impl<'a> Pack<'a> {
    ghost use Rattle.listpack.specs.View.{bytes_of, list_of};

    /// The bytes of the whole listpack.
    pub fn bytes(&self) -> &'a [u8]
        ensures value { result.now ≡ bytes_of self.now }
        ensures pack { IsPack result.now }
    {
        self.bytes
    }

    /// The number of elements. It takes a pass over the bytes where the header does not tell it.
    pub fn len(&self) -> usize
        ensures { result ≡ length (list_of self.now) }
    {
        let told = told_count(self.bytes);
        if told != NOT_TOLD {
            return usize::from(told);
        }
        match count_entries(&self.bytes[6..self.bytes.len() - 1]) {
            Ok(count) => count,
            Err(_) => unreachable!(),
        }
    }

    pub fn is_empty(&self) -> bool
        ensures { IsTrue result ↔ (length (list_of self.now) ≡ 0) }
    {
        self.bytes.len() == 7
    }

    /// Encoding and content of the entry at an offset.
    pub fn spelling_at(&self, at: usize) -> &'a [u8]
        requires { IsOffset (bytes_of self.now) at }
        ensures own { IsSpelling result.now }
        ensures value { (i : ℕ) → IsAt (bytes_of self.now) i at → result.now ≡ get_or (spellings_of (bytes_of self.now)) i [] }
    {
        match split_spelling(&self.bytes[at..self.bytes.len() - 1]) {
            Some((spelling, _)) => spelling,
            None => unreachable!(),
        }
    }

    // The offset of the entry that ends at `end`.
    fn before(&self, end: usize) -> usize
        requires { (i : ℕ) × (0 < i) × (i ≤ length (list_of self.now)) × (end ≡ offset_of (bytes_of self.now) i) }
        ensures { (i : ℕ) → 0 < i → i ≤ length (list_of self.now) → end ≡ offset_of (bytes_of self.now) i
            → result ≡ offset_of (bytes_of self.now) (i - 1) }
    {
        end - entry_len_before(&self.bytes[..end])
    }

    /// The offset of the first entry.
    pub fn first(&self) -> Option<usize>
        ensures place { MatchOption result (length (list_of self.now) ≡ 0) (λ at. IsAt (bytes_of self.now) 0 at) }
        ensures offset { IfSome result (λ to. IsOffset (bytes_of self.now) to) }
    {
        if self.is_empty() { None } else { Some(6) }
    }

    /// The offset of the last entry.
    pub fn last(&self) -> Option<usize>
        ensures place { MatchOption result (length (list_of self.now) ≡ 0) (λ at. IsAt (bytes_of self.now) (length (list_of self.now) - 1) at) }
        ensures offset { IfSome result (λ to. IsOffset (bytes_of self.now) to) }
    {
        if self.is_empty() {
            None
        } else {
            Some(self.before(self.bytes.len() - 1))
        }
    }

    // How many bytes the entry at an offset takes that is spelled so.
    fn len_spelled(&self, at: usize, spelling: &[u8]) -> usize
        requires offset { IsOffset (bytes_of self.now) at }
        requires spelling { (i : ℕ) → IsAt (bytes_of self.now) i at → spelling.now ≡ get_or (spellings_of (bytes_of self.now)) i [] }
        ensures next { (i : ℕ) → IsAt (bytes_of self.now) i at → offset_of (bytes_of self.now) (i + 1) ≡ at + result }
        ensures inside { at + result < length (bytes_of self.now) }
    {
        let size = spelling.len();
        size + back_len(size)
    }

    // How many bytes the entry at an offset takes.
    pub(crate) fn entry_len(&self, at: usize) -> usize
        requires { IsOffset (bytes_of self.now) at }
        ensures next { (i : ℕ) → IsAt (bytes_of self.now) i at → offset_of (bytes_of self.now) (i + 1) ≡ at + result }
        ensures inside { at + result < length (bytes_of self.now) }
    {
        let spelling = self.spelling_at(at);
        self.len_spelled(at, spelling)
    }

    /// Whether each entry is spelled as the writer spells its element.
    pub fn is_written(&self) -> bool
        ensures { IsTrue result ↔ (spellings_of (bytes_of self.now) ≡ map spelling (list_of self.now)) }
    {
        let mut at = 6;
        for _ in 0..self.len() {
            let spelled = self.spelling_at(at);
            if !is_as_written(spelled) {
                return false;
            }
            at += self.len_spelled(at, spelled);
        }
        true
    }

    // The offset of the entry at an index, or behind all entries that of the last byte, by a step for each entry before it.
    fn offset_from_front(&self, index: usize) -> usize
        requires { index ≤ length (list_of self.now) }
        ensures { result ≡ offset_of (bytes_of self.now) index }
    {
        let mut at = 6;
        for _ in 0..index {
            at += self.entry_len(at);
        }
        at
    }

    // The offset of the entry that has so many behind it, itself counted, by a step for each of them.
    fn offset_from_back(&self, behind: usize) -> usize
        requires { behind ≤ length (list_of self.now) }
        ensures { result ≡ offset_of (bytes_of self.now) (length (list_of self.now) - behind) }
    {
        let mut at = self.bytes.len() - 1;
        for _ in 0..behind {
            at = self.before(at);
        }
        at
    }

    // The offset of the entry at an index, or behind all entries that of the last byte. Where the header tells the number of
    // elements, the walk begins at the nearer end.
    pub(crate) fn offset(&self, index: usize) -> usize
        requires { index ≤ length (list_of self.now) }
        ensures place { result ≡ offset_of (bytes_of self.now) index }
        ensures inside { result < length (bytes_of self.now) }
    {
        let told = told_count(self.bytes);
        if told == NOT_TOLD || index <= usize::from(told) / 2 {
            self.offset_from_front(index)
        } else {
            self.offset_from_back(usize::from(told) - index)
        }
    }

    // The offset of the entry at an index of a listpack that does not tell its number of elements.
    fn seek_from_front(&self, index: usize) -> Option<usize>
        ensures { MatchOption result (length (list_of self.now) ≤ index) (λ at. IsAt (bytes_of self.now) index at) }
    {
        let mut at = self.first()?;
        for _ in 0..index {
            at = self.next(at)?;
        }
        Some(at)
    }

    /// The offset of the entry at an index. Where the header tells the number of elements, it takes a step for each entry
    /// between the index and the nearer end, else one for each entry before the index.
    pub fn seek(&self, index: usize) -> Option<usize>
        ensures place { MatchOption result (length (list_of self.now) ≤ index) (λ at. IsAt (bytes_of self.now) index at) }
        ensures offset { IfSome result (λ to. IsOffset (bytes_of self.now) to) }
    {
        let told = told_count(self.bytes);
        if told == NOT_TOLD {
            self.seek_from_front(index)
        } else if index < usize::from(told) {
            Some(self.offset(index))
        } else {
            None
        }
    }

    /// The offset of the entry behind the one at `at`.
    pub fn next(&self, at: usize) -> Option<usize>
        requires { IsOffset (bytes_of self.now) at }
        ensures place { (i : ℕ) → IsAt (bytes_of self.now) i at
            → MatchOption result (i + 1 ≡ length (list_of self.now)) (λ to. IsAt (bytes_of self.now) (i + 1) to) }
        ensures offset { IfSome result (λ to. IsOffset (bytes_of self.now) to) }
    {
        let to = at + self.entry_len(at);
        if to + 1 == self.bytes.len() {
            None
        } else {
            Some(to)
        }
    }

    /// The element at an offset, and the offset of the entry behind it.
    #[inline(always)]
    pub fn step(&self, at: usize) -> (Element<'a>, Option<usize>)
        requires { IsOffset (bytes_of self.now) at }
        ensures text { (i : ℕ) → IsAt (bytes_of self.now) i at → element_text result.0 ≡ get_or (list_of self.now) i [] }
        ensures place { (i : ℕ) → IsAt (bytes_of self.now) i at
            → MatchOption result.1 (i + 1 ≡ length (list_of self.now)) (λ to. IsAt (bytes_of self.now) (i + 1) to) }
        ensures offset { IfSome result.1 (λ to. IsOffset (bytes_of self.now) to) }
    {
        let spelling = self.spelling_at(at);
        let element = element_of(spelling);
        let to = at + self.len_spelled(at, spelling);
        if to + 1 == self.bytes.len() {
            (element, None)
        } else {
            (element, Some(to))
        }
    }

    /// The offset of the entry before the one at `at`.
    pub fn prev(&self, at: usize) -> Option<usize>
        requires { IsOffset (bytes_of self.now) at }
        ensures place { (i : ℕ) → IsAt (bytes_of self.now) i at
            → MatchOption result (i ≡ 0) (λ to. (0 < i) × IsAt (bytes_of self.now) (i - 1) to) }
        ensures offset { IfSome result (λ to. IsOffset (bytes_of self.now) to) }
    {
        if at == 6 { None } else { Some(self.before(at)) }
    }

    /// The element at an offset: a part of the bytes, or the number that stands there.
    pub fn get(&self, at: usize) -> Element<'a>
        requires { IsOffset (bytes_of self.now) at }
        ensures text { (i : ℕ) → IsAt (bytes_of self.now) i at → element_text result ≡ get_or (list_of self.now) i [] }
        ensures number { IsTrue (is_number result) ↔ IsNumberByte (slice_index (bytes_of self.now) at) }
    {
        element_of(self.spelling_at(at))
    }
}
