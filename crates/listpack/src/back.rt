// Back lengths.

ghost use Rattle.std.specs.Prelude.{◌≡◌, ◌<◌, ◌≤◌, ◌^◌, ◌+◌, ◌-◌, ◌*◌, ◌%◌, ◌++◌, ℕ, List, length, slice_index};
ghost use Rattle.listpack.specs.Entry.{back_length, seven_bits, BackLengthLimits};

use crate::few::FewBytes;

// The lowest seven bits, marked as not the first ones.
fn low_seven(size: usize) -> u8
    ensures { result ≡ seven_bits size }
{
    0x80 + (size % 128) as u8
}

/// The back length of an entry whose encoding and content take `size` bytes.
#[tactic(auto, using(crate::proofs::Backs::by_size))]
pub(crate) fn back_length_of(size: usize) -> FewBytes
    requires { size < 2 ^ 35 }
    ensures { result ≡ back_length size }
{
    let (a, b, c, d) = (size >> 28, size >> 21, size >> 14, size >> 7);
    let last = low_seven(size);
    match size {
        0..=127 => FewBytes::of(&[size as u8]),
        128..=16_382 => FewBytes::of(&[d as u8, last]),
        16_383..=2_097_150 => FewBytes::of(&[c as u8, low_seven(d), last]),
        2_097_151..=268_435_454 => FewBytes::of(&[b as u8, low_seven(c), low_seven(d), last]),
        _ => FewBytes::of(&[a as u8, low_seven(b), low_seven(c), low_seven(d), last]),
    }
}

/// How many bytes the back length of an entry takes whose encoding and content take `size` bytes.
#[tactic(auto, using(crate::proofs::Backs::by_size))]
pub(crate) fn back_len(size: usize) -> usize
    ensures count { result ≡ length (back_length size) }
    ensures few { result ≤ 5 }
{
    match size {
        0..=127 => 1,
        128..=16_382 => 2,
        16_383..=2_097_150 => 3,
        2_097_151..=268_435_454 => 4,
        _ => 5,
    }
}

// The k-th byte from the end.
fn from_end(bytes: &[u8], k: usize) -> usize
    requires some { 0 < k }
    requires inside { k ≤ length bytes.now }
    ensures place { result ≡ slice_index bytes.now (length bytes.now - k) }
    ensures byte { result < 256 }
{
    usize::from(bytes[bytes.len() - k])
}

// The number whose lowest seven bits are in `byte`.
fn joined(high: usize, byte: usize) -> usize
    requires { high < 2 ^ 31 }
    ensures { result ≡ high * 128 + byte % 128 }
{
    high * 128 + byte % 128
}

/// How many bytes the entry takes whose back length `bytes` end with: encoding, content and back length.
pub(crate) fn entry_len_before(bytes: &[u8]) -> usize
    requires { (front : List ℕ) × (size : ℕ) × (bytes.now ≡ front ++ back_length size) }
    ensures { (front : List ℕ) (size : ℕ) → bytes.now ≡ front ++ back_length size → result ≡ size + length (back_length size) }
{
    let a = from_end(bytes, 1);
    if a < 0x80 {
        return a + 1;
    }
    let b = from_end(bytes, 2);
    if b < 0x80 {
        return joined(b, a) + 2;
    }
    let c = from_end(bytes, 3);
    if c < 0x80 {
        return joined(joined(c, b), a) + 3;
    }
    let d = from_end(bytes, 4);
    if d < 0x80 {
        return joined(joined(joined(d, c), b), a) + 4;
    }
    let e = from_end(bytes, 5);
    joined(joined(joined(joined(e, d), c), b), a) + 5
}

/// The back lengths at the limits of each width, byte by byte.
pub fn back_lengths_at_limits()
    ensures { BackLengthLimits }
{}
