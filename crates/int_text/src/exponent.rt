// Exponents of score texts.

ghost use Rattle.int_text.specs.Parts.{IsPowerRead, IsSignedPowerRead, IsExponentRead};

use crate::decimal::read_u64;
use crate::digits::digit_count;
use crate::value::Exponent;

// Reads the digits of an exponent. A power of a million digits is read as the greatest one.
fn read_power(divides: bool, digits: &[u8]) -> Option<Exponent>
    ensures { IsPowerRead divides digits.now result }
{
    if digits.is_empty() {
        return None;
    }
    if digit_count(digits) < digits.len() {
        return None;
    }
    match read_u64(digits) {
        Some(power) => Some(Exponent {
            divides,
            power: power as usize,
        }),
        None => Some(Exponent {
            divides,
            power: usize::MAX,
        }),
    }
}

fn read_signed_power(text: &[u8]) -> Option<Exponent>
    ensures { IsSignedPowerRead text.now result }
{
    match text {
        [b'-', digits @ ..] => read_power(true, digits),
        [b'+', digits @ ..] => read_power(false, digits),
        _ => read_power(false, text),
    }
}

// Reads the exponent that a number ends with, if it has one.
pub fn read_exponent(text: &[u8]) -> Option<Exponent>
    ensures { IsExponentRead text.now result }
{
    match text {
        [] => Some(Exponent {
            divides: false,
            power: 0,
        }),
        [b'e', signed @ ..] => read_signed_power(signed),
        [b'E', signed @ ..] => read_signed_power(signed),
        _ => None,
    }
}
