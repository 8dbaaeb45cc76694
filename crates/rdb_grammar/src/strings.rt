//! Strings.

ghost use Rattle.std.specs.Int.{w8, w16, w32};
ghost use Rattle.rdb_grammar.specs.Format.{branch_read};
ghost use Rattle.rdb_grammar.specs.Strings.{Len, Num, head_behind as head_behind_of, head, short_head, body, string};
ghost use Rattle.rdb_grammar.specs.Views.{text_of, head_of as head_seen};
ghost use Rattle.rdb_grammar.specs.Returns.{Returns};

use crate::codes;
use crate::fault::{LoadKind, Refused};
use crate::lengths::{length_behind, part_of};
use plain_world::LONGEST;

/// A string of a file: a part of its bytes, or a number that means its decimal text.
#[derive(Clone, Copy, Debug)]
pub enum Chunk<'a> {
    /// The text itself.
    Part(&'a [u8]),
    /// The number whose decimal text is meant.
    Number(i64),
}

/// How a string begins.
#[derive(Clone, Copy)]
pub(crate) enum Head {
    Len(u64),
    Int8,
    Int16,
    Int32,
}

fn head_behind(first: u8, rest: &[u8]) -> Result<(Head, &[u8]), Refused>
    ensures { Returns (λ x. (head_seen x.0, x.1.now)) result (branch_read (head_behind_of first) rest.now) }
{
    if first == codes::INT8 {
        return Ok((Head::Int8, rest));
    }
    if first == codes::INT16 {
        return Ok((Head::Int16, rest));
    }
    if first == codes::INT32 {
        return Ok((Head::Int32, rest));
    }
    if first == codes::LZF {
        return Err(Refused {
            kind: LoadKind::Compressed,
            left: rest.len() + 1,
        });
    }
    let (n, rest) = length_behind(LoadKind::SpecialString, first, rest)?;
    Ok((Head::Len(n), rest))
}

pub(crate) fn head_of(bytes: &[u8]) -> Result<(Head, &[u8]), Refused>
    ensures { Returns (λ x. (head_seen x.0, x.1.now)) result (head.read bytes.now) }
{
    match bytes {
        [] => Err(Refused {
            kind: LoadKind::Ended,
            left: 0,
        }),
        [first, rest @ ..] => head_behind(*first, rest),
    }
}

fn short_head_of(bytes: &[u8]) -> Result<(Head, &[u8]), Refused>
    ensures { Returns (λ x. (head_seen x.0, x.1.now)) result (short_head.read bytes.now) }
{
    let (head, rest) = head_of(bytes)?;
    if let Head::Len(n) = head {
        if n > LONGEST as u64 {
            return Err(Refused {
                kind: LoadKind::TooLong,
                left: bytes.len(),
            });
        }
    }
    Ok((head, rest))
}

// The text of so many bytes.
fn text_part(n: u64, bytes: &[u8]) -> Result<(Chunk<'_>, &[u8]), Refused>
    ensures { Returns (λ x. (text_of x.0, x.1.now)) result ((body (Len n)).read bytes.now) }
{
    if (bytes.len() as u64) < n {
        return Err(Refused {
            kind: LoadKind::Ended,
            left: 0,
        });
    }
    let (text, rest) = bytes.split_at(n as usize);
    Ok((Chunk::Part(text), rest))
}

// A number of 8, of 16 and of 32 bits.
fn text_8(bytes: &[u8]) -> Result<(Chunk<'_>, &[u8]), Refused>
    ensures { Returns (λ x. (text_of x.0, x.1.now)) result ((body (Num w8)).read bytes.now) }
{
    let (front, rest) = part_of(bytes, 1)?;
    Ok((Chunk::Number(i8::from_le_bytes([front[0]]) as i64), rest))
}

fn text_16(bytes: &[u8]) -> Result<(Chunk<'_>, &[u8]), Refused>
    ensures { Returns (λ x. (text_of x.0, x.1.now)) result ((body (Num w16)).read bytes.now) }
{
    let (front, rest) = part_of(bytes, 2)?;
    Ok((
        Chunk::Number(i16::from_le_bytes([front[0], front[1]]) as i64),
        rest,
    ))
}

fn text_32(bytes: &[u8]) -> Result<(Chunk<'_>, &[u8]), Refused>
    ensures { Returns (λ x. (text_of x.0, x.1.now)) result ((body (Num w32)).read bytes.now) }
{
    let (front, rest) = part_of(bytes, 4)?;
    let number = i32::from_le_bytes([front[0], front[1], front[2], front[3]]);
    Ok((Chunk::Number(number as i64), rest))
}

pub(crate) fn body_of(head: Head, bytes: &[u8]) -> Result<(Chunk<'_>, &[u8]), Refused>
    ensures { Returns (λ x. (text_of x.0, x.1.now)) result ((body (head_seen head)).read bytes.now) }
{
    match head {
        Head::Len(n) => text_part(n, bytes),
        Head::Int8 => text_8(bytes),
        Head::Int16 => text_16(bytes),
        Head::Int32 => text_32(bytes),
    }
}

/// A string, in any of its forms.
pub(crate) fn string_of(bytes: &[u8]) -> Result<(Chunk<'_>, &[u8]), Refused>
    ensures { Returns (λ x. (text_of x.0, x.1.now)) result (string.read bytes.now) }
{
    let (head, rest) = short_head_of(bytes)?;
    body_of(head, rest)
}
