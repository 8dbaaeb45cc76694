//! Scores of sorted sets, as binary numbers of 64 bits.

ghost use Rattle.std.specs.Prelude.{◌<◌, ◌^◌, IfOk, FitsSigned};
ghost use Rattle.std.specs.Int.{w64};
ghost use Rattle.rdb_grammar.specs.Scores.{IsMagnitude, IsScore, score};
ghost use Rattle.rdb_grammar.specs.Returns.{Returns};

use crate::fault::{LoadKind, Refused};
use crate::lengths::u64_le_at;

/// The bits of the fraction.
const FRACTION_BITS: u64 = 52;

/// The exponent of a number from 2^52 on, whose last bit is one.
const ONES: u64 = 1075;

/// The greatest magnitude of a score.
const GREATEST: u64 = 1 << 53;

// The magnitude of a number with this exponent and fraction, if it is that of a score. No whole number but 0 has an exponent
// below 1023, and none with one above 1076 is small enough.
fn magnitude_of(exponent: u64, fraction: u64) -> Option<u64>
    requires exponent { exponent < 2 ^ 11 }
    requires fraction { fraction < 2 ^ 52 }
    ensures { IsMagnitude exponent fraction result }
{
    if exponent == 0 && fraction == 0 {
        return Some(0);
    }
    if exponent < ONES - FRACTION_BITS || exponent > ONES + 1 {
        return None;
    }
    if exponent > ONES {
        return if fraction == 0 { Some(GREATEST) } else { None };
    }
    let unit = 1u64 << (ONES - exponent);
    let units = (1 << FRACTION_BITS) + fraction;
    if units % unit == 0 {
        Some(units / unit)
    } else {
        None
    }
}

// The score that a word spells, if it is one.
fn score_in(word: u64) -> Option<i64>
    ensures { IsScore word result }
{
    let fraction = word % (1 << FRACTION_BITS);
    let exponent = (word >> FRACTION_BITS) % (1 << 11);
    let magnitude = magnitude_of(exponent, fraction)? as i64;
    if word < 1 << 63 {
        Some(magnitude)
    } else {
        Some(-magnitude)
    }
}

/// A score.
pub(crate) fn score_of(bytes: &[u8]) -> Result<(i64, &[u8]), Refused>
    ensures score { Returns (λ x. (x.0, x.1.now)) result (score.read bytes.now) }
    ensures fits { IfOk result (λ x. FitsSigned w64 x.0) }
{
    let (word, rest) = u64_le_at(bytes)?;
    match score_in(word) {
        Some(score) => Ok((score, rest)),
        None => Err(Refused {
            kind: LoadKind::ScoreRange,
            left: bytes.len(),
        }),
    }
}
