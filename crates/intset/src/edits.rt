//! Editing an intset in place.

ghost use Rattle.std.specs.Prelude.{◌≡◌, ◌≢◌, true, false, ℕ, suc, ◌+◌, ◌-◌, ◌*◌, ◌^◌, ◌<◌, ◌≤◌, ◌↔◌, ℤ, List, [], ◌∷◌, ◌++◌, length, take, drop, IsTrue, IsFalse, IfOk, IfErr, OnOk};
ghost use Rattle.std.specs.Prelude.{OnErr, max, slice_get};
ghost use Rattle.std.specs.List.{Contains, insert, remove as without_place};
ghost use Rattle.byteorder.specs.Endian.{little_bytes};
ghost use Rattle.intset.specs.Intset.{IsIntset, IsWidth, HasWidth, HasLength, numbers_of, width_of, count_of, width_for as width_needed, with_number, without_number};
ghost use Rattle.intset.specs.Places.{IsEdited, IsPlace};

use crate::Memory;
use crate::ints::{known, told_count, told_width};
use byteorder::{ByteOrder, LittleEndian};
use std::alloc::Global;

/// The intset of no number, with a width of 2.
pub fn empty(alloc: Global) -> Result<Vec<u8>, Memory>
    ensures intset { IfOk result (λ set. IsIntset set.items []) }
    ensures width { IfOk result (λ set. width_of set.items ≡ 2) }
{
    with_width(alloc, 2, 0)
}

/// Puts a number in, and answers whether it was missing: `Ok(false)` says that it was there.
///
/// The bytes widen where the number needs it, and never narrow. Where memory is refused they are
/// left as they were.
pub fn add(set: &mut Vec<u8>, n: i64) -> Result<bool, Memory>
    requires intset { IsIntset set.old.items (numbers_of set.old.items) }
    requires room { length (numbers_of set.old.items) < 2 ^ 28 }
    ensures intset { IsIntset set.new.items (numbers_of set.new.items) }

    ensures there { (result ≡ Ok false) ↔ Contains (numbers_of set.old.items) n }
    ensures added { result ≡ Ok true
        → numbers_of set.new.items ≡ with_number (numbers_of set.old.items) n }
    ensures width { result ≡ Ok true
        → width_of set.new.items ≡ max (width_of set.old.items) (width_needed n) }
    ensures unchanged { result ≢ Ok true → set.new.items ≡ set.old.items }
{
    let place = match find(set.as_slice(), n) {
        Ok(_) => return Ok(false),
        Err(place) => place,
    };
    let width = told_width(set.as_slice());
    let needed = width_for(n);
    if needed <= width {
        put(set, width, place, n)?;
    } else {
        let mut wide = widened(*set.allocator(), set.as_slice(), needed)?;
        put(&mut wide, needed, place, n)?;
        *set = wide;
    }
    Ok(true)
}

/// Takes a number out, and answers whether it was there. The width stays.
pub fn remove(set: &mut Vec<u8>, n: i64) -> bool
    requires intset { IsIntset set.old.items (numbers_of set.old.items) }
    requires room { length (numbers_of set.old.items) < 2 ^ 28 }
    ensures intset { IsIntset set.new.items (numbers_of set.new.items) }

    ensures there { IsTrue result ↔ Contains (numbers_of set.old.items) n }
    ensures removed { numbers_of set.new.items ≡ without_number (numbers_of set.old.items) n }
    ensures width { width_of set.new.items ≡ width_of set.old.items }
    ensures unchanged { IsFalse result → set.new.items ≡ set.old.items }
{
    let Ok(place) = find(set.as_slice(), n) else {
        return false;
    };
    let width = told_width(set.as_slice());
    let count = told_count(set.as_slice());
    cut(set, 8 + width * place, width);
    write_count(set, count - 1);
    true
}

// Where a number stands, or else where its place is.
fn find(set: &[u8], n: i64) -> Result<usize, usize>
    requires { IsIntset set.now (numbers_of set.now) }
    ensures found { IfOk result (λ place. slice_get (numbers_of set.now) place ≡ Some n) }
    ensures absent { IfErr result (IsPlace (numbers_of set.now) n) }
{
    known(set).search(n)
}

// The least width that holds a number.
fn width_for(n: i64) -> usize
    ensures { result ≡ width_needed n }
{
    if i16::try_from(n).is_ok() {
        2
    } else if i32::try_from(n).is_ok() {
        4
    } else {
        8
    }
}

// The intset of no number with that width, and with memory for so many numbers.
fn with_width(alloc: Global, width: usize, capacity: usize) -> Result<Vec<u8>, Memory>
    requires sized { IsWidth width }
    requires few { capacity < 2 ^ 29 }
    ensures width { IfOk result (λ set. width_of set.items ≡ width) }
    ensures intset { IfOk result (λ set. IsIntset set.items []) }
{
    let mut head = [0u8; 8];
    LittleEndian::write_u32(&mut head, width as u32);
    let mut set = Vec::with_capacity(alloc, 8 + width * capacity)?;
    set.extend_from_slice(&head)?;
    Ok(set)
}

// The same numbers at a greater width, with memory for one more.
fn widened(alloc: Global, set: &[u8], width: usize) -> Result<Vec<u8>, Memory>
    requires intset { IsIntset set.now (numbers_of set.now) }
    requires room { length (numbers_of set.now) < 2 ^ 28 }
    requires sized { IsWidth width }
    requires wider { width_of set.now ≤ width }
    ensures width { IfOk result (λ wide. width_of wide.items ≡ width) }
    ensures intset { IfOk result (λ wide. IsIntset wide.items (numbers_of set.now)) }
{
    let ints = known(set);
    let count = ints.len();
    let mut wide = with_width(alloc, width, count + 1)?;
    for index in 0..count {
        put(&mut wide, width, index, ints.number(index))?;
    }
    Ok(wide)
}

// Puts a number in at a place, in bytes that have its width.
fn put(set: &mut Vec<u8>, width: usize, place: usize, n: i64) -> Result<(), Memory>
    requires width { HasWidth set.old.items }
    requires length { HasLength set.old.items }
    requires told { width ≡ width_of set.old.items }
    requires place { place ≤ count_of set.old.items }
    requires room { count_of set.old.items < 2 ^ 29 }
    requires fits { width_needed n ≤ width }
    ensures ok { OnOk result (IsEdited set.old.items set.new.items
        (insert (numbers_of set.old.items) place n)) }
    ensures err { OnErr result (set.new.items ≡ set.old.items) }
{
    let count = told_count(set.as_slice());
    let mut packed = [0u8; 8];
    LittleEndian::write_int(&mut packed, n, width);
    paste(set, 8 + width * place, &packed[..width])?;
    write_count(set, count + 1);
    Ok(())
}

// Puts bytes in at a place.
fn paste(set: &mut Vec<u8>, at: usize, piece: &[u8]) -> Result<(), Memory>
    requires within { at ≤ length set.old.items }
    ensures ok { OnOk result (set.new.items
        ≡ take at set.old.items ++ (piece.now ++ drop at set.old.items)) }
    ensures err { OnErr result (set.new.items ≡ set.old.items) }
{
    let end = set.len();
    set.extend_from_slice(piece)?;
    set.copy_within(at..end, at + piece.len());
    set[at..at + piece.len()].copy_from_slice(piece);
    Ok(())
}

// Takes bytes out from a place on.
fn cut(set: &mut Vec<u8>, at: usize, count: usize)
    requires { at + count ≤ length set.old.items }
    ensures { set.new.items ≡ take at set.old.items ++ drop (at + count) set.old.items }
{
    let rest = set.len() - count;
    set.copy_within(at + count.., at);
    set.truncate(rest);
}

// Writes how many numbers there are.
fn write_count(set: &mut Vec<u8>, count: usize)
    requires head { 8 ≤ length set.old.items }
    requires fits { count < 2 ^ 32 }
    ensures { set.new.items
        ≡ take 4 set.old.items ++ (little_bytes 4 count ++ drop 8 set.old.items) }
{
    let bytes = set.as_mut_slice();
    LittleEndian::write_u32(&mut bytes[4..], count as u32);
}
