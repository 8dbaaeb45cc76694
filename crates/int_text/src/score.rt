// Score texts.

ghost use Rattle.std.specs.Prelude.{◌≡◌, ◌+◌, ◌<◌, ◌^◌, ◌++◌, ◌↔◌, length, IsTrue};
ghost use Rattle.std.specs.Str.Parse.{AllDigits};
ghost use Rattle.int_text.specs.Digits.{StopsDigits};
ghost use Rattle.int_text.specs.Parts.{IsTailRead, IsNumberRead, IsSignedRead};
ghost use Rattle.int_text.specs.Score.{IsInfinityWord, IsScoreOf, fault_number};

use crate::digits::digit_count;
use crate::exponent::read_exponent;
use crate::value::value_of;

/// Why a text is no score.
#[derive(Clone, Copy, Debug, PartialEq, Eq)]
pub enum ScoreFault {
    /// It is neither a score text nor an infinity.
    Malformed = 1,
    /// Its value is no whole number.
    NotWhole = 2,
    /// Its value is whole and above 2^53 in magnitude, or it is an infinity.
    TooLarge = 3,
}

impl ScoreFault {
    /// The number of the fault, 1 to 3.
    pub fn number(self) -> u8
        ensures { result ≡ fault_number self }
    {
        self as u8
    }
}

// Reads what stands behind the digits of a number.
fn read_tail(whole: &[u8], fraction: &[u8], tail: &[u8]) -> Result<u64, ScoreFault>
    requires whole { AllDigits 10 whole.now }
    requires fraction { AllDigits 10 fraction.now }
    requires room { length whole.now + length fraction.now + 17 < 2 ^ 64 }
    ensures { IsTailRead whole.now fraction.now tail.now result }
{
    if whole.is_empty() && fraction.is_empty() {
        return Err(ScoreFault::Malformed);
    }
    match read_exponent(tail) {
        Some(exponent) => value_of(whole, fraction, exponent),
        None => Err(ScoreFault::Malformed),
    }
}

// Reads what stands behind the first digits of a number.
fn read_rest(whole: &[u8], rest: &[u8]) -> Result<u64, ScoreFault>
    requires whole { AllDigits 10 whole.now }
    requires stops { StopsDigits rest.now }
    requires room { length whole.now + length rest.now + 17 < 2 ^ 64 }
    ensures { IsNumberRead (whole.now ++ rest.now) result }
{
    match rest {
        [b'.', behind @ ..] => {
            let count = digit_count(behind);
            read_tail(whole, &behind[..count], &behind[count..])
        }
        _ => read_tail(whole, &[], rest),
    }
}

// Reads a number without a sign.
fn read_number(body: &[u8]) -> Result<u64, ScoreFault>
    ensures { IsNumberRead body.now result }
{
    let count = digit_count(body);
    read_rest(&body[..count], &body[count..])
}

fn is_infinity_word(word: &[u8]) -> bool
    ensures { IsTrue result ↔ IsInfinityWord word.now }
{
    word.eq_ignore_ascii_case(b"inf") || word.eq_ignore_ascii_case(b"infinity")
}

fn read_signed(negative: bool, body: &[u8]) -> Result<i64, ScoreFault>
    ensures { IsSignedRead negative body.now result }
{
    if is_infinity_word(body) {
        return Err(ScoreFault::TooLarge);
    }
    match read_number(body) {
        Ok(magnitude) if negative => Ok(-(magnitude as i64)),
        Ok(magnitude) => Ok(magnitude as i64),
        Err(fault) => Err(fault),
    }
}

/// Reads a score text: a sign that may stand, digits with an optional `.` and digits, at least one digit in all, and then
/// maybe `e` or `E`, a sign that may stand and digits. The answer is the whole number that it means.
///
/// The faults are those of [`ScoreFault`]. Any number of digits and any exponent is read exactly, in time in proportion to the
/// text: a large exponent does not become zeros, and no floating point number is used.
pub fn read_score(text: &[u8]) -> Result<i64, ScoreFault>
    ensures { IsScoreOf text.now result }
{
    match text {
        [b'-', body @ ..] => read_signed(true, body),
        [b'+', body @ ..] => read_signed(false, body),
        _ => read_signed(false, text),
    }
}
