// The edits.

ghost use Rattle.std.specs.Prelude.{◌≡◌, ◌≢◌, ◌∷◌, ◌++◌, ◌+◌, ◌-◌, ◌<◌, ◌≤◌, ◌^◌, ℕ, [], IfOk, OnOk, OnErr, is_ok, length, take, drop, slice_set, vec_len};
ghost use Rattle.std.specs.List.{insert as inserted, remove as removed, remove_range as range_removed};
ghost use Rattle.byteorder.specs.Endian.{little_bytes};
ghost use Rattle.listpack.specs.Pack.{IsPack, texts, spellings_of, told, offset_of};
ghost use Rattle.listpack.specs.Writing.{entry, spelling, Fits};
ghost use Rattle.listpack.specs.Edits.{IsEdited, one_more, fewer};

use crate::back::back_length_of;
use crate::checking::known;
use crate::header::{END, NOT_TOLD, told_count};
use crate::spelling::spell;
use byteorder::{ByteOrder, LittleEndian};
use std::alloc::{AllocError, Global};

/// Memory was refused.
pub type Memory = AllocError;

fn put_header(bytes: &mut [u8], total: u32, count: u16)
    requires { 6 ≤ length bytes.old }
    ensures { bytes.new ≡ little_bytes 4 total ++ (little_bytes 2 count ++ drop 6 bytes.old) }
{
    LittleEndian::write_u32(bytes, total);
    LittleEndian::write_u16(&mut bytes[4..], count);
}

// Writes the header anew, with the number of bytes that there are.
fn write_header(pack: &mut Vec<u8>, count: u16)
    requires long { 6 ≤ length pack.old.items }
    requires small { length pack.old.items < 2 ^ 32 }
    ensures { pack.new.items ≡ little_bytes 4 (length pack.old.items) ++ (little_bytes 2 count ++ drop 6 pack.old.items) }
{
    let total = pack.len() as u32;
    put_header(pack.as_mut_slice(), total, count);
}

// Moves what stands behind `size` bytes at an offset, so that `room` bytes stand there in their place.
fn make_room(pack: &mut Vec<u8>, at: usize, size: usize, room: usize) -> Result<(), Memory>
    requires inside { at + size ≤ length pack.old.items }
    requires small { room < 2 ^ 33 }
    ensures len { OnOk result (length pack.new.items + size ≡ length pack.old.items + room) }
    ensures before { OnOk result (take at pack.new.items ≡ take at pack.old.items) }
    ensures behind { OnOk result (drop (at + room) pack.new.items ≡ drop (at + size) pack.old.items) }
    ensures err { OnErr result (pack.new.items ≡ pack.old.items) }
{
    let len = pack.len();
    pack.resize(len + room.saturating_sub(size), 0)?;
    pack.as_mut_slice().copy_within(at + size..len, at + room);
    pack.truncate(len - size + room);
    Ok(())
}

// Writes three pieces over bytes that have room for just them.
fn write_pieces(to: &mut [u8], a: &[u8], b: &[u8], c: &[u8])
    requires { length to.old ≡ length a.now + length b.now + length c.now }
    ensures { to.new ≡ a.now ++ (b.now ++ c.now) }
{
    let (first, rest) = to.split_at_mut(a.len());
    let (second, third) = rest.split_at_mut(b.len());
    first.copy_from_slice(a);
    second.copy_from_slice(b);
    third.copy_from_slice(c);
}

// Puts the entry of an element in the place of `size` bytes at an offset. What stands behind them moves once.
fn put(pack: &mut Vec<u8>, at: usize, size: usize, element: &[u8]) -> Result<(), Memory>
    requires inside { at + size ≤ length pack.old.items }
    requires small { length (entry element.now) < 2 ^ 32 }
    ensures ok { OnOk result (pack.new.items ≡ take at pack.old.items ++ (entry element.now ++ drop (at + size) pack.old.items)) }
    ensures err { OnErr result (pack.new.items ≡ pack.old.items) }
{
    let (head, content) = spell(element);
    let back_length = back_length_of(head.len() + content.len());
    let room = head.len() + content.len() + back_length.len();
    make_room(pack, at, size, room)?;
    write_pieces(
        &mut pack[at..at + room],
        head.as_slice(),
        content,
        back_length.as_slice(),
    );
    Ok(())
}

// Takes `size` bytes out at an offset.
fn cut(pack: &mut Vec<u8>, at: usize, size: usize)
    requires { at + size ≤ length pack.old.items }
    ensures { pack.new.items ≡ take at pack.old.items ++ drop (at + size) pack.old.items }
{
    let len = pack.len();
    pack.as_mut_slice().copy_within(at + size..len, at);
    pack.truncate(len - size);
}

// Where the entry at an index stands, and how many bytes it takes.
fn place_of(pack: &[u8], index: usize) -> (usize, usize)
    requires packed { IsPack pack.now }
    requires index { index < length (texts pack.now) }
    ensures at { result.0 ≡ offset_of pack.now index }
    ensures next { offset_of pack.now (index + 1) ≡ result.0 + result.1 }
    ensures inside { result.0 + result.1 < length pack.now }
    ensures small { length pack.now < 2 ^ 32 }
{
    let walk = known(pack);
    let at = walk.offset(index);
    (at, walk.entry_len(at))
}

// The header's count after so many elements less.
fn fewer_told(count: u16, removed: usize) -> u16
    requires { count ≢ 65535 → removed ≤ count }
    ensures { result ≡ fewer count removed }
{
    if count == NOT_TOLD {
        count
    } else {
        count - removed as u16
    }
}

/// An empty listpack.
pub fn empty(alloc: Global) -> Result<Vec<u8>, Memory>
    ensures { IfOk result (λ v. IsEdited v.items [] 0) }
{
    Vec::from_slice(alloc, &[7, 0, 0, 0, 0, 0, END])
}

/// Puts an element behind all others.
pub fn append(pack: &mut Vec<u8>, element: &[u8]) -> Result<(), Memory>
    requires packed { IsPack pack.old.items }
    requires fits { Fits pack.old.items element.now }
    ensures entries { OnOk result (IsEdited pack.new.items (spellings_of pack.old.items ++ spelling element.now ∷ []) (one_more (told pack.old.items))) }
    ensures list { OnOk result (texts pack.new.items ≡ texts pack.old.items ++ element.now ∷ []) }
    ensures memory { OnErr result (pack.new.items ≡ pack.old.items) }
{
    let count = told_count(pack);
    let end = pack.len() - 1;
    put(pack, end, 0, element)?;
    write_header(pack, count.saturating_add(1));
    Ok(())
}

/// Puts an element before the one at `index`, or behind all others where `index` is their number.
pub fn insert(pack: &mut Vec<u8>, index: usize, element: &[u8]) -> Result<(), Memory>
    requires packed { IsPack pack.old.items }
    requires index { index ≤ length (texts pack.old.items) }
    requires fits { Fits pack.old.items element.now }
    ensures entries { OnOk result (IsEdited pack.new.items (inserted (spellings_of pack.old.items) index (spelling element.now)) (one_more (told pack.old.items))) }
    ensures list { OnOk result (texts pack.new.items ≡ inserted (texts pack.old.items) index element.now) }
    ensures memory { OnErr result (pack.new.items ≡ pack.old.items) }
{
    let told = told_count(pack);
    let at = known(pack).offset(index);
    put(pack, at, 0, element)?;
    write_header(pack, told.saturating_add(1));
    Ok(())
}

/// Puts an element in the place of the one at `index`.
pub fn replace(pack: &mut Vec<u8>, index: usize, element: &[u8]) -> Result<(), Memory>
    requires packed { IsPack pack.old.items }
    requires index { index < length (texts pack.old.items) }
    requires fits { Fits pack.old.items element.now }
    ensures entries { OnOk result (IsEdited pack.new.items (slice_set (spellings_of pack.old.items) index (spelling element.now)) (told pack.old.items)) }
    ensures list { OnOk result (texts pack.new.items ≡ slice_set (texts pack.old.items) index element.now) }
    ensures memory { OnErr result (pack.new.items ≡ pack.old.items) }
{
    let count = told_count(pack);
    let (at, size) = place_of(pack, index);
    put(pack, at, size, element)?;
    write_header(pack, count);
    Ok(())
}

/// Takes out the element at `index`.
pub fn remove(pack: &mut Vec<u8>, index: usize)
    requires packed { IsPack pack.old.items }
    requires index { index < length (texts pack.old.items) }
    ensures entries { IsEdited pack.new.items (removed (spellings_of pack.old.items) index) (fewer (told pack.old.items) 1) }
    ensures list { texts pack.new.items ≡ removed (texts pack.old.items) index }
{
    let count = told_count(pack);
    let (at, size) = place_of(pack, index);
    cut(pack, at, size);
    write_header(pack, fewer_told(count, 1));
}

/// Takes out the elements from the index `from` to below `to`.
pub fn remove_range(pack: &mut Vec<u8>, from: usize, to: usize)
    requires packed { IsPack pack.old.items }
    requires order { from ≤ to }
    requires inside { to ≤ length (texts pack.old.items) }
    ensures entries { IsEdited pack.new.items (range_removed (spellings_of pack.old.items) from to) (fewer (told pack.old.items) (to - from)) }
    ensures list { texts pack.new.items ≡ range_removed (texts pack.old.items) from to }
{
    let count = told_count(pack);
    let walk = known(pack);
    let (at, end) = (walk.offset(from), walk.offset(to));
    cut(pack, at, end - at);
    write_header(pack, fewer_told(count, to - from));
}
