//! Lengths and numbers.

ghost use Rattle.std.specs.Prelude.{◌≡◌, ◌≤◌, ◌+◌, ◌-◌, ◌*◌, ℕ, List, length, IfOk};
ghost use Rattle.std.specs.Int.{w8, w32, w64};
ghost use Rattle.rdb_grammar.specs.Format.{give, followed, some_bytes, branch_read};
ghost use Rattle.rdb_grammar.specs.Lengths.{number, number_le, length_behind as length_behind_of, a_length};
ghost use Rattle.rdb_grammar.specs.Returns.{Returns};

use crate::fault::{LoadKind, Refused};

/// The first `count` bytes, and the rest.
pub(crate) fn part_of(bytes: &[u8], count: usize) -> Result<(&[u8], &[u8]), Refused>
    ensures part { Returns (λ x. (x.0.now, x.1.now)) result ((some_bytes count).read bytes.now) }
    ensures long { IfOk result (λ x. length x.0.now ≡ count) }
{
    if bytes.len() < count {
        return Err(Refused {
            kind: LoadKind::Ended,
            left: 0,
        });
    }
    Ok(bytes.split_at(count))
}

fn u8_at(bytes: &[u8]) -> Result<(u8, &[u8]), Refused>
    ensures { Returns (λ x. (x.0, x.1.now)) result ((number w8).read bytes.now) }
{
    match bytes {
        [] => Err(Refused {
            kind: LoadKind::Ended,
            left: 0,
        }),
        [first, rest @ ..] => Ok((*first, rest)),
    }
}

fn u32_at(bytes: &[u8]) -> Result<(u32, &[u8]), Refused>
    ensures { Returns (λ x. (x.0, x.1.now)) result ((number w32).read bytes.now) }
{
    let (front, rest) = part_of(bytes, 4)?;
    let mut number = [0; 4];
    number.copy_from_slice(front);
    Ok((u32::from_be_bytes(number), rest))
}

pub(crate) fn u64_at(bytes: &[u8]) -> Result<(u64, &[u8]), Refused>
    ensures { Returns (λ x. (x.0, x.1.now)) result ((number w64).read bytes.now) }
{
    let (front, rest) = part_of(bytes, 8)?;
    let mut number = [0; 8];
    number.copy_from_slice(front);
    Ok((u64::from_be_bytes(number), rest))
}

pub(crate) fn u32_le_at(bytes: &[u8]) -> Result<(u32, &[u8]), Refused>
    ensures { Returns (λ x. (x.0, x.1.now)) result ((number_le w32).read bytes.now) }
{
    let (front, rest) = part_of(bytes, 4)?;
    let mut number = [0; 4];
    number.copy_from_slice(front);
    Ok((u32::from_le_bytes(number), rest))
}

pub(crate) fn u64_le_at(bytes: &[u8]) -> Result<(u64, &[u8]), Refused>
    ensures { Returns (λ x. (x.0, x.1.now)) result ((number_le w64).read bytes.now) }
{
    let (front, rest) = part_of(bytes, 8)?;
    let mut number = [0; 8];
    number.copy_from_slice(front);
    Ok((u64::from_le_bytes(number), rest))
}

// A length of 14 bits, whose first byte is `first`.
fn short_length(first: u8, rest: &[u8]) -> Result<(u64, &[u8]), Refused>
    requires { 64 ≤ first }
    ensures { Returns (λ x. (x.0, x.1.now)) result ((followed (number w8) λ low. give ((first - 64) * 256 + low)).read rest.now) }
{
    let (low, rest) = u8_at(rest)?;
    Ok(((first as u64 - 64) * 256 + low as u64, rest))
}

// A length of 32 bits.
fn wide_length(rest: &[u8]) -> Result<(u64, &[u8]), Refused>
    ensures { Returns (λ x. (x.0, x.1.now)) result ((number w32).read rest.now) }
{
    let (number, rest) = u32_at(rest)?;
    Ok((number as u64, rest))
}

/// A length whose first byte is `first`; a byte that begins none is a fault of the kind `refused`.
pub(crate) fn length_behind(
    refused: LoadKind,
    first: u8,
    rest: &[u8],
) -> Result<(u64, &[u8]), Refused>
    ensures { Returns (λ x. (x.0, x.1.now)) result (branch_read (length_behind_of refused first) rest.now) }
{
    if first < 64 {
        return Ok((first as u64, rest));
    }
    if first < 128 {
        return short_length(first, rest);
    }
    if first == 128 {
        return wide_length(rest);
    }
    if first == 129 {
        return u64_at(rest);
    }
    Err(Refused {
        kind: refused,
        left: rest.len() + 1,
    })
}

/// A length.
pub(crate) fn length_of(bytes: &[u8]) -> Result<(u64, &[u8]), Refused>
    ensures { Returns (λ x. (x.0, x.1.now)) result (a_length.read bytes.now) }
{
    match bytes {
        [] => Err(Refused {
            kind: LoadKind::Ended,
            left: 0,
        }),
        [first, rest @ ..] => length_behind(LoadKind::Length, *first, rest),
    }
}
