//! Scores as binary numbers of 64 bits.

ghost use Rattle.std.specs.Prelude.{◌≡◌, ◌<◌, ◌≤◌, ◌^◌, unsigned_abs};
ghost use Rattle.rdb_parts.specs.Pens.{Writes};
ghost use Rattle.rdb_parts.specs.ScoreWords.{bits_of, significand, magnitude_word, word_of, score_word};

use crate::pen::Pen;
use outside::{HostFault, Shelf};

// The bits of the fraction.
const FRACTION_BITS: u32 = 52;

// The number moved so that its first bit stands behind those of the fraction.
fn significand_of(n: u64, bits: u32) -> u64
    requires some { 0 < n }
    requires few { n ≤ 2 ^ 53 }
    requires bits { bits ≡ bits_of n }
    ensures { result ≡ significand n }
{
    if bits <= FRACTION_BITS {
        n << (FRACTION_BITS + 1 - bits)
    } else {
        n >> (bits - FRACTION_BITS - 1)
    }
}

// A whole number as a binary number of 64 bits.
fn word_of_magnitude(n: u64) -> u64
    requires { n ≤ 2 ^ 53 }
    ensures value { result ≡ magnitude_word n }
    ensures fits { result < 2 ^ 63 }
{
    if n == 0 {
        return 0;
    }
    let bits = 64 - n.leading_zeros();
    let fraction = significand_of(n, bits) - (1 << FRACTION_BITS);
    (1022 + u64::from(bits)) * (1 << FRACTION_BITS) + fraction
}

// A score as a binary number of 64 bits.
fn word_of_score(score: i64) -> u64
    requires { unsigned_abs score ≤ 2 ^ 53 }
    ensures { result ≡ word_of score }
{
    let word = word_of_magnitude(score.unsigned_abs());
    if score < 0 { (1 << 63) + word } else { word }
}

/// Writes the score of a member: a whole number of magnitude at most 2^53, as a binary number of 64 bits, lowest byte first.
pub fn write_score<F: Shelf>(shelf: &mut F, pen: &mut Pen, score: i64) -> Result<(), HostFault>
    requires { unsigned_abs score ≤ 2 ^ 53 }
    ensures { Writes (F.seen shelf.old) (F.seen shelf.new) pen.old pen.new (score_word score) result }
{
    pen.write(shelf, &word_of_score(score).to_le_bytes())
}
