// Decimal text.

ghost use Rattle.std.specs.Prelude.{◌≡◌, ◌≢◌, ◌^◌, ◌<◌, ◌++◌, ℕ, SomeIff, IfSome, IfNone, OnOk, OnErr, decimal};
ghost use Rattle.std.specs.Str.Parse.{digits_value};
ghost use Rattle.int_text.specs.Decimal.{canonical, IsI64Text, IsU64Text};

use crate::digits::digit_of;
use itoa::Buffer;

/// Memory was refused.
pub type Memory = std::alloc::AllocError;

/// Reads one or more decimal digits as a number below 2^64. Leading zeros are taken; a sign, a space or any other byte is
/// not.
pub fn read_u64(text: &[u8]) -> Option<u64>
    ensures { SomeIff result (IsU64Text text.now) (digits_value 10 text.now) }
{
    if text.is_empty() {
        return None;
    }
    let mut number: u64 = 0;
    for byte in text {
        let digit = digit_of(*byte)?;
        number = number.checked_mul(10)?.checked_add(digit)?;
    }
    Some(number)
}

// Reads a number without a sign in the form in which it is printed.
fn read_unsigned(text: &[u8]) -> Option<u64>
    ensures number { IfSome result (λ n. text.now ≡ decimal n) }
    ensures none { IfNone result ((n : ℕ) → n < 2 ^ 64 → text.now ≢ decimal n) }
{
    match text {
        [b'0', _, ..] => None,
        _ => read_u64(text),
    }
}

/// Reads the canonical decimal text of a number of 64 bits: the one in which it is printed. `-0`, `+1`, `01`, the empty
/// text and texts of numbers that do not fit are none.
pub fn read_i64(text: &[u8]) -> Option<i64>
    ensures number { IfSome result (λ n. text.now ≡ canonical n) }
    ensures none { IfNone result (¬ (IsI64Text text.now)) }
{
    match text {
        [b'-', digits @ ..] => match read_unsigned(digits)? {
            0 => None,
            magnitude => 0i64.checked_sub_unsigned(magnitude),
        },
        _ => 0i64.checked_add_unsigned(read_unsigned(text)?),
    }
}

/// Appends the canonical decimal text of a number. Where memory is refused, nothing is appended.
pub fn print(n: i64, into: &mut Vec<u8>) -> Result<(), Memory>
    ensures ok { OnOk result (into.new.items ≡ into.old.items ++ canonical n) }
    ensures err { OnErr result (into.new.items ≡ into.old.items) }
{
    let mut buffer = Buffer::new();
    into.extend_from_slice(buffer.format(n).as_bytes())?;
    Ok(())
}
