// Encoding and content of an entry.

ghost use Rattle.std.specs.Prelude.{◌≡◌, ◌∷◌, ◌++◌, ℕ, ◌+◌, ◌*◌, ◌<◌, ◌≤◌, ◌↔◌, IfSome, IfNone, IsTrue, length, slice_index};
ghost use Rattle.listpack.specs.Entry.{IsSpelling, needed, text_of, thirteen_bits};
ghost use Rattle.listpack.specs.Element.{element_text, is_number, IsNumberByte};

use byteorder::{ByteOrder, LittleEndian};

/// An element of a listpack.
#[derive(Clone, Copy, Debug)]
pub enum Element<'a> {
    /// A string: a part of the listpack's bytes.
    Text(&'a [u8]),
    /// A number, which stands for its decimal text.
    Number(i64),
}

// How many bytes encoding and content take, by the first byte and those behind it, or none where they are not all there.
#[tactic(auto, using(crate::proofs::Encodings::sizes))]
fn needed_behind(first: u8, more: &[u8]) -> Option<usize>
    ensures some { IfSome result (λ n. n ≡ needed (first ∷ more.now)) }
    ensures none { IfNone result (length more.now + 1 < needed (first ∷ more.now)) }
{
    match (first, more) {
        (0x00..=0x7f, _) => Some(1),
        (0x80..=0xbf, _) => Some(1 + usize::from(first - 0x80)),
        (0xc0..=0xdf, _) => Some(2),
        (0xe0..=0xef, [low, ..]) => Some(2 + usize::from(first - 0xe0) * 256 + usize::from(*low)),
        (0xf0, [_, _, _, _, ..]) => Some(5 + LittleEndian::read_u32(more) as usize),
        (0xf1, _) => Some(3),
        (0xf2, _) => Some(4),
        (0xf3, _) => Some(5),
        (0xf4, _) => Some(9),
        _ => None,
    }
}

/// Splits off encoding and content of the entry that `rest` begins with. None where the first byte is no encoding or the
/// content is not all there.
pub(crate) fn split_spelling(rest: &[u8]) -> Option<(&[u8], &[u8])>
    ensures some { IfSome result (λ x. (rest.now ≡ x.0.now ++ x.1.now) × IsSpelling x.0.now) }
    ensures none { IfNone result (length rest.now < needed rest.now) }
{
    let [first, more @ ..] = rest else {
        return None;
    };
    let needed = needed_behind(*first, more)?;
    if needed <= rest.len() {
        Some(rest.split_at(needed))
    } else {
        None
    }
}

// The signed number of 13 bits.
fn number_of_thirteen_bits(high: u8, low: u8) -> i64
    requires { high < 32 }
    ensures { result ≡ thirteen_bits (high * 256 + low) }
{
    let bits = i64::from(high) * 256 + i64::from(low);
    if bits < 4096 { bits } else { bits - 8192 }
}

#[tactic(auto, using(crate::proofs::Encodings::contents))]
fn element_behind(first: u8, more: &[u8]) -> Element<'_>
    requires { IsSpelling (first ∷ more.now) }
    ensures text { element_text result ≡ text_of (first ∷ more.now) }
    ensures number { IsTrue (is_number result) ↔ IsNumberByte first }
{
    match first {
        0x00..=0x7f => Element::Number(i64::from(first)),
        0x80..=0xbf => Element::Text(more),
        0xc0..=0xdf => Element::Number(number_of_thirteen_bits(first - 0xc0, more[0])),
        0xe0..=0xef => Element::Text(&more[1..]),
        0xf0 => Element::Text(&more[4..]),
        _ => Element::Number(LittleEndian::read_int(more, more.len())),
    }
}

/// What encoding and content mean.
pub(crate) fn element_of(spelling: &[u8]) -> Element<'_>
    requires { IsSpelling spelling.now }
    ensures text { element_text result ≡ text_of spelling.now }
    ensures number { IsTrue (is_number result) ↔ IsNumberByte (slice_index spelling.now 0) }
{
    match spelling {
        [first, more @ ..] => element_behind(*first, more),
        [] => unreachable!(),
    }
}
