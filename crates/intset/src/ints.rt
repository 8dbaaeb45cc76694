//! Reading an intset.

ghost use Rattle.std.specs.Prelude.{◌≡◌, ℕ, ◌+◌, ◌*◌, ◌<◌, ◌≤◌, ◌^◌, ◌↔◌, ℤ, ◌<ℤ◌, List, length, drop, IsTrue, IfOk, IfErr, IfSome, IsSome, IsNone, MatchResult, slice_index_or, slice_get};
ghost use Rattle.std.specs.List.{Contains};
ghost use Rattle.intset.specs.Intset.{HasFault, IsIntset, IsWidth, IsRising, HasWidth, HasLength, numbers_of, width_of, count_of, packed_numbers, first_number};
ghost use Rattle.intset.specs.Places.{IsPlace};

use byteorder::{ByteOrder, LittleEndian};
use std::marker::Model;

/// What is wrong with bytes that are no intset. Where several things are, the first of them counts.
#[derive(Clone, Copy, PartialEq, Eq, Debug)]
pub enum IntsetFault {
    /// The bytes do not begin with a width of 2, 4 or 8 in four bytes.
    Width = 1,
    /// There are not 8 bytes and then exactly as many as the told numbers take.
    Length = 2,
    /// A number is not greater than the one before it.
    Order = 3,
}

impl IntsetFault {
    ghost use Rattle.intset.specs.Intset.{fault_number};

    /// The number of the fault, from 1 on in the order in which faults are looked for.
    pub fn number(self) -> u8
        ensures { result ≡ fault_number self }
    {
        self as u8
    }
}

/// The numbers of an intset, read where they stand.
#[derive(Drop)]
pub struct Ints<'a> {
    packed: &'a [u8],
    width: usize,
    count: usize,
}

impl<'a> Model for Ints<'a> {
    ghost use Rattle.std.specs.Prelude.{List, ℤ};

    ghost Value = { List ℤ };

    ghost use Rattle.intset.specs.Places.{IsPacked};
    ghost use Rattle.intset.specs.Intset.{packed_numbers};

    ghost view = { λ s. packed_numbers s.width s.count s.packed.now };

    ghost invariant = { λ s. IsPacked s.width s.count s.packed.now };
}

impl<'a> Ints<'a> {
    /// How many numbers there are. They rise.
    pub fn len(&self) -> usize
        ensures value { result ≡ length self.now }
        ensures rising { IsRising self.now }
    {
        self.count
    }

    /// Whether there is no number.
    pub fn is_empty(&self) -> bool
        ensures { IsTrue result ↔ (length self.now ≡ 0) }
    {
        self.count == 0
    }

    /// The number at a place, counted from 0 in rising order, or `None` from the end on.
    pub fn at(&self, index: usize) -> Option<i64>
        ensures { result ≡ slice_get self.now index }
    {
        if index < self.len() {
            Some(self.number(index))
        } else {
            None
        }
    }

    /// Whether a number is among them, by a search that halves what is left at each step.
    pub fn contains(&self, n: i64) -> bool
        ensures { IsTrue result ↔ Contains self.now n }
    {
        self.search(n).is_ok()
    }

    // The number at a place that there is.
    pub(crate) fn number(&self, index: usize) -> i64
        requires { index < length self.now }
        ensures { slice_get self.now index ≡ Some result }
    {
        number_at(self.packed, self.width, index)
    }

    // Where a number stands, or else how many are less.
    pub(crate) fn search(&self, n: i64) -> Result<usize, usize>
        ensures found { IfOk result (λ place. slice_get self.now place ≡ Some n) }
        ensures absent { IfErr result (IsPlace self.now n) }
    {
        let mut low = 0;
        let mut high = self.len();
        'halves: while low < high {
            let middle = low + (high - low) / 2;
            let number = self.number(middle);
            if number == n {
                return Ok(middle);
            }
            if number < n {
                low = middle + 1;
            } else {
                high = middle;
            }
        }
        Err(low)
    }
}

// The number at a place of packed numbers of that width.
fn number_at(packed: &[u8], width: usize, index: usize) -> i64
    requires sized { IsWidth width }
    requires room { width * index + width ≤ length packed.now }
    ensures { result ≡ first_number width (drop (width * index) packed.now) }
{
    LittleEndian::read_int(&packed[width * index..], width)
}

// Whether each of so many packed numbers is greater than the one before it.
fn is_rising(packed: &[u8], width: usize, count: usize) -> bool
    requires sized { IsWidth width }
    requires length { length packed.now ≡ width * count }
    ensures { IsTrue result ↔ IsRising (packed_numbers width count packed.now) }
{
    for index in 1..count {
        if number_at(packed, width, index) <= number_at(packed, width, index - 1) {
            return false;
        }
    }
    true
}

// Whether a number may have that width.
fn is_width(width: usize) -> bool
    ensures { IsTrue result ↔ IsWidth width }
{
    width == 2 || width == 4 || width == 8
}

// The width of a number, as the bytes tell it.
pub(crate) fn told_width(bytes: &[u8]) -> usize
    requires { 4 ≤ length bytes.now }
    ensures { result ≡ width_of bytes.now }
{
    LittleEndian::read_u32(bytes) as usize
}

// How many numbers there are, as the bytes tell it.
pub(crate) fn told_count(bytes: &[u8]) -> usize
    requires { 8 ≤ length bytes.now }
    ensures value { result ≡ count_of bytes.now }
    ensures fits { result < 2 ^ 32 }
{
    LittleEndian::read_u32(&bytes[4..]) as usize
}

// The bytes behind the width and the count.
fn packed_part(bytes: &[u8]) -> &[u8]
    requires { 8 ≤ length bytes.now }
    ensures { result.now ≡ drop 8 bytes.now }
{
    &bytes[8..]
}

/// Reads bytes of unknown origin, and refuses them where they are no intset, by the first fault.
pub fn check(bytes: &[u8]) -> Result<Ints<'_>, IntsetFault>
    ensures { MatchResult result (IsIntset bytes.now) (HasFault bytes.now) }
{
    if bytes.len() < 4 || !is_width(told_width(bytes)) {
        return Err(IntsetFault::Width);
    }
    let width = told_width(bytes);
    if bytes.len() < 8 || bytes.len() - 8 != width * told_count(bytes) {
        return Err(IntsetFault::Length);
    }
    let packed = packed_part(bytes);
    let count = told_count(bytes);
    if !is_rising(packed, width, count) {
        return Err(IntsetFault::Order);
    }
    Ok(Ints {
        packed,
        width,
        count,
    })
}

/// Reads bytes that are known to be an intset.
pub fn known(bytes: &[u8]) -> Ints<'_>
    requires { IsIntset bytes.now (numbers_of bytes.now) }
    ensures { result ≡ numbers_of bytes.now }
{
    Ints {
        packed: packed_part(bytes),
        width: told_width(bytes),
        count: told_count(bytes),
    }
}
