// Runs of digits.

ghost use Rattle.std.specs.Prelude.{◌≡◌, ◌≤◌, ◌<◌, ◌*◌, ◌^◌, ◌↔◌, length, take, drop, min, IsTrue, SomeIff};
ghost use Rattle.std.specs.Char.{digit_value};
ghost use Rattle.std.specs.Str.Parse.{AllDigits, digits_value, digits_value_after};
ghost use Rattle.int_text.specs.Digits.{StopsDigits};

// Numbers from here on are told apart no more: each is above every score.
pub const LARGE: u64 = 100_000_000_000_000_000;

// The value of an ASCII digit.
pub fn digit_of(byte: u8) -> Option<u64>
    ensures { SomeIff result (digit_value byte < 10) (digit_value byte) }
{
    match byte {
        b'0'..=b'9' => Some(u64::from(byte - b'0')),
        _ => None,
    }
}

// How many digits a text begins with.
pub fn digit_count(text: &[u8]) -> usize
    ensures digits { AllDigits 10 (take result text.now) }
    ensures stops { StopsDigits (drop result text.now) }
    ensures room { result ≤ length text.now }
{
    let mut count = 0;
    while count < text.len() {
        if digit_of(text[count]).is_none() {
            return count;
        }
        count += 1;
    }
    count
}

// The number whose digits are those of `number` and then these.
pub fn with_digits(number: u64, digits: &[u8]) -> u64
    requires small { number ≤ LARGE }
    requires digits { AllDigits 10 digits.now }
    ensures { result ≡ min (digits_value_after 10 number digits.now) LARGE }
{
    let mut value = number;
    for digit in digits {
        value = (value * 10 + u64::from(*digit - b'0')).min(LARGE);
    }
    value
}

// The number with so many zeros behind its digits.
pub fn with_zeros(number: u64, count: u64) -> u64
    requires { number ≤ LARGE }
    ensures { result ≡ min (number * 10 ^ count) LARGE }
{
    let mut value = number;
    for _place in 0..count.min(17) {
        value = (value * 10).min(LARGE);
    }
    value
}

// Whether all digits are 0.
pub fn are_zeros(digits: &[u8]) -> bool
    requires { AllDigits 10 digits.now }
    ensures { IsTrue result ↔ (digits_value 10 digits.now ≡ 0) }
{
    digits.iter().all(|digit| *digit == b'0')
}
