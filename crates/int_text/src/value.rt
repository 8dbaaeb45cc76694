// The values of score texts.

ghost use Rattle.std.specs.Prelude.{◌≡◌, ◌-◌, ◌+◌, ◌<◌, ◌^◌, length, min, if◌then◌else◌};
ghost use Rattle.std.specs.Str.Parse.{AllDigits};
ghost use Rattle.int_text.specs.Places.{IsValueAt};
ghost use Rattle.int_text.specs.Parts.{IsValueRead};

use crate::digits::{are_zeros, with_digits, with_zeros};
use crate::score::ScoreFault;

// The greatest score.
const MOST: u64 = 9_007_199_254_740_992;

// The exponent of a score text.
#[derive(Clone, Copy)]
pub struct Exponent {
    // Whether it divides.
    pub divides: bool,
    // The power of ten, or the greatest number where it is above that.
    pub power: usize,
}

// The value of digits of which so many stand before the point.
fn value_at(whole: &[u8], fraction: &[u8], before: usize) -> Result<u64, ScoreFault>
    requires whole { AllDigits 10 whole.now }
    requires fraction { AllDigits 10 fraction.now }
    ensures { IsValueAt whole.now fraction.now before result }
{
    let whole_kept = before.min(whole.len());
    let fraction_kept = (before - whole_kept).min(fraction.len());
    if !are_zeros(&whole[whole_kept..]) {
        return Err(ScoreFault::NotWhole);
    }
    if !are_zeros(&fraction[fraction_kept..]) {
        return Err(ScoreFault::NotWhole);
    }
    let start = with_digits(0, &whole[..whole_kept]);
    let digits = with_digits(start, &fraction[..fraction_kept]);
    let number = with_zeros(digits, (before - whole_kept - fraction_kept) as u64);
    if number > MOST {
        return Err(ScoreFault::TooLarge);
    }
    Ok(number)
}

// How many digits stand before the point once the exponent has moved it.
fn places_before(digits: usize, exponent: Exponent) -> usize
    ensures { result ≡ (if exponent.divides then digits - exponent.power else min (digits + exponent.power) (2 ^ 64 - 1)) }
{
    if exponent.divides {
        digits.saturating_sub(exponent.power)
    } else {
        digits.saturating_add(exponent.power)
    }
}

// The value of the digits of a number under its exponent.
pub fn value_of(whole: &[u8], fraction: &[u8], exponent: Exponent) -> Result<u64, ScoreFault>
    requires whole { AllDigits 10 whole.now }
    requires fraction { AllDigits 10 fraction.now }
    requires room { length whole.now + length fraction.now + 17 < 2 ^ 64 }
    ensures { IsValueRead whole.now fraction.now exponent.divides exponent.power result }
{
    value_at(whole, fraction, places_before(whole.len(), exponent))
}
