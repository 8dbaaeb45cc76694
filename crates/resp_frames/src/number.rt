//! Numbers in headers.

ghost use Rattle.std.specs.Prelude.{◌≡◌, ◌+◌, ◌^◌, ◌<◌, ◌≤◌, ℕ, IfSome, IfNone, decimal};
ghost use Rattle.std.specs.List.{list_all};
ghost use Rattle.resp_frames.specs.Frames as frames;
ghost use Rattle.resp_frames.specs.NumberRead.{ReadsCount};

/// At most so many words has a request.
pub const MOST_WORDS: usize = 1_048_576;

/// What the number of a request's header says.
#[derive(Clone, Copy)]
pub enum Count {
    /// It is 0 or less.
    Passed,
    /// So many words follow.
    Words(usize),
    /// It is no such number.
    Wrong,
}

/// Reads a number of at most so much, in the form in which it is printed.
pub fn small_number(text: &[u8], most: u64) -> Option<u64>
    requires { most < 2 ^ 32 }
    ensures some { IfSome result (λ n. (n ≤ most) × (text.now ≡ decimal n)) }
    ensures none { IfNone result ((n : ℕ) → n ≤ most → text.now ≡ decimal n → ⊥) }
{
    if text.is_empty() {
        return None;
    }
    if text[0] == b'0' {
        if text.len() == 1 {
            return Some(0);
        }
        return None;
    }
    let mut n: u64 = 0;
    for b in text {
        if *b < b'0' {
            return None;
        }
        if *b > b'9' {
            return None;
        }
        n = n * 10 + u64::from(*b - b'0');
        if n > most {
            return None;
        }
    }
    Some(n)
}

// Whether the byte is a digit.
fn is_digit(b: u8) -> bool
    ensures { result ≡ frames.is_digit b }
{
    b'0' <= b && b <= b'9'
}

// Whether the bytes are all digits.
fn are_digits(text: &[u8]) -> bool
    ensures { result ≡ list_all frames.is_digit text.now }
{
    text.iter().all(|b| is_digit(*b))
}

// Whether the text is digits without a leading zero.
fn is_positive(text: &[u8]) -> bool
    ensures { result ≡ frames.is_positive text.now }
{
    match text {
        [] => false,
        [first, rest @ ..] => b'1' <= *first && *first <= b'9' && are_digits(rest),
    }
}

// Whether the text is such a number below 0.
fn is_negative(text: &[u8]) -> bool
    ensures { result ≡ frames.is_negative text.now }
{
    match text {
        [] => false,
        [first, rest @ ..] => *first == b'-' && is_positive(rest),
    }
}

/// Reads the number of words.
pub fn read_count(text: &[u8]) -> Count
    ensures { ReadsCount text.now result }
{
    match small_number(text, MOST_WORDS as u64) {
        Some(0) => Count::Passed,
        Some(n) => Count::Words(n as usize),
        None => {
            if is_negative(text) {
                Count::Passed
            } else {
                Count::Wrong
            }
        }
    }
}
