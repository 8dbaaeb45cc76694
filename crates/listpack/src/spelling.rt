// How an element is spelled.

ghost use Rattle.std.specs.Prelude.{◌≡◌, ◌∷◌, [], ◌++◌, ◌+◌, ◌<◌, ◌≤◌, ◌^◌, ◌↔◌, IsTrue, ℕ, List, length};
ghost use Rattle.std.specs.Int.{w64};
ghost use Rattle.byteorder.specs.Endian.{little_bytes, low_bytes};
ghost use Rattle.listpack.specs.Entry.{IsSpelling, text_of};
ghost use Rattle.listpack.specs.Writing.{magnitude, thirteen_low, number_spelling, text_head, spelling, entry, Fits};

use crate::back::{back_len, back_length_of};
use crate::encoding::{Element, element_of};
use crate::few::FewBytes;
use byteorder::{ByteOrder, LittleEndian};
use int_text::read_i64;

// A number of `width` bytes behind its encoding.
fn signed(encoding: u8, n: i64, width: usize) -> FewBytes
    requires low { 1 ≤ width }
    requires high { width ≤ 8 }
    ensures { result ≡ encoding ∷ little_bytes width (low_bytes w64 width n) }
{
    let mut bytes = [0; 9];
    bytes[0] = encoding;
    LittleEndian::write_int(&mut bytes[1..], n, width);
    FewBytes::of(&bytes[..1 + width])
}

// The number, or of a negative one how far it is below -1.
fn magnitude_of(n: i64) -> u64
    ensures { result ≡ magnitude n }
{
    if n < 0 { (-(n + 1)) as u64 } else { n as u64 }
}

// The number as two's complement of 13 bits.
fn thirteen_bits_of(n: i64) -> u64
    requires { magnitude n < 4096 }
    ensures value { result ≡ thirteen_low n }
    ensures bits { result < 8192 }
{
    let magnitude = magnitude_of(n);
    if n < 0 { 0x1fff - magnitude } else { magnitude }
}

// The shortest spelling of a number.
#[tactic(auto, using(crate::proofs::Writings::numbers))]
fn number_head(n: i64) -> FewBytes
    ensures { result ≡ number_spelling n }
{
    let magnitude = magnitude_of(n);
    if n >= 0 && magnitude < 128 {
        return FewBytes::of(&[magnitude as u8]);
    }
    match magnitude {
        0..=0xfff => {
            let bits = thirteen_bits_of(n);
            FewBytes::of(&[0xc0 + (bits / 256) as u8, (bits % 256) as u8])
        }
        0x1000..=0x7fff => signed(0xf1, n, 2),
        0x8000..=0x7f_ffff => signed(0xf2, n, 3),
        0x80_0000..=0x7fff_ffff => signed(0xf3, n, 4),
        _ => signed(0xf4, n, 8),
    }
}

fn long_head(len: u32) -> FewBytes
    ensures { result ≡ 0xF0 ∷ little_bytes 4 len }
{
    let mut bytes = [0xf0, 0, 0, 0, 0];
    LittleEndian::write_u32(&mut bytes[1..], len);
    FewBytes::of(&bytes)
}

// The shortest encoding of a string of `len` bytes.
#[tactic(auto, using(crate::proofs::Writings::heads))]
fn text_head_of(len: usize) -> FewBytes
    requires { len < 2 ^ 32 }
    ensures { result ≡ text_head len }
{
    match len {
        0..=63 => FewBytes::of(&[0x80 + len as u8]),
        64..=4095 => FewBytes::of(&[0xe0 + (len / 256) as u8, (len % 256) as u8]),
        _ => long_head(len as u32),
    }
}

/// The spelling of an element: an encoding, and the bytes that follow it.
pub(crate) fn spell(element: &[u8]) -> (FewBytes, &[u8])
    requires { length element.now < 2 ^ 32 }
    ensures bytes { result.0 ++ result.1.now ≡ spelling element.now }
    ensures content { length result.1.now ≤ length element.now }
{
    match read_i64(element) {
        Some(n) => (number_head(n), &element[..0]),
        None => (text_head_of(element.len()), element),
    }
}

// Whether bytes are the spelling of a number.
fn is_spelling_of_number(bytes: &[u8], n: i64) -> bool
    ensures { IsTrue result ↔ (bytes.now ≡ number_spelling n) }
{
    let head = number_head(n);
    bytes == head.as_slice()
}

// Whether bytes are the spelling of an element.
fn is_spelling_of(bytes: &[u8], element: &[u8]) -> bool
    requires { length element.now < 2 ^ 32 }
    ensures { IsTrue result ↔ (bytes.now ≡ spelling element.now) }
{
    let (head, content) = spell(element);
    match bytes.strip_prefix(head.as_slice()) {
        Some(rest) => rest == content,
        None => false,
    }
}

/// Whether encoding and content of an entry are those that the writer gives its element.
pub(crate) fn is_as_written(spelled: &[u8]) -> bool
    requires own { IsSpelling spelled.now }
    requires small { length spelled.now < 2 ^ 32 }
    ensures { IsTrue result ↔ (spelled.now ≡ spelling (text_of spelled.now)) }
{
    match element_of(spelled) {
        Element::Number(n) => is_spelling_of_number(spelled, n),
        Element::Text(part) => is_spelling_of(spelled, part),
    }
}

/// The parts of an element's entry, of which nothing stands in the heap: an encoding, the bytes that follow it, and the back length.
pub fn entry_parts(element: &[u8]) -> (FewBytes, &[u8], FewBytes)
    requires { length element.now < 2 ^ 32 }
    ensures parts { result.0 ++ (result.1.now ++ result.2) ≡ entry element.now }
    ensures size { length result.0 + length result.1.now + length result.2 ≡ length (entry element.now) }
{
    let (head, content) = spell(element);
    let back = back_length_of(head.len() + content.len());
    (head, content, back)
}

/// How many bytes the entry of an element takes.
pub fn entry_size(element: &[u8]) -> usize
    requires { length element.now < 2 ^ 32 }
    ensures size { result ≡ length (entry element.now) }
    ensures small { result < 2 ^ 33 }
{
    let (head, content) = spell(element);
    let size = head.len() + content.len();
    size + back_len(size)
}

/// Whether a listpack stays below 2^32 bytes when the element is put into it.
pub fn fits(pack: &[u8], element: &[u8]) -> bool
    ensures { IsTrue result ↔ Fits pack.now element.now }
{
    if element.len() > u32::MAX as usize {
        return false;
    }
    pack.len() + entry_size(element) <= u32::MAX as usize
}

/// The writer's spelling of an element is one encoding with its content, and is read as that element.
pub fn spelling_is_read_back()
    ensures { (text : List ℕ) → length text < 2 ^ 32 → IsSpelling (spelling text) × (text_of (spelling text) ≡ text) }
{}
