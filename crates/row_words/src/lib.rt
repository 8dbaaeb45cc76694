//! The words of a row, and answers as text: what programs of rows have in common.
#![tactic(auto)]

ghost use Rattle.std.specs.Prelude.{◌≡◌, ◌∷◌, ◌<◌, ◌≤◌, ◌^◌, if◌then◌else◌, codes, ◌≢◌, [], ℕ, slice_index, IfOk, Option, Some, None, replicate};
ghost use Rattle.std.specs.Fmt.{decimal};
ghost use Rattle.std.specs.String.{string_bytes};

use std::alloc::{AllocError, Global};

/// The most bytes that one word stands for.
const MOST_BYTES: u64 = 65536;

/// The number that a word is, and 0 where it is none.
pub fn number(word: &str) -> u64
    ensures { (n : ℕ) → n < 2 ^ 64 → word.now ≡ decimal n → result ≡ n }
{
    word.parse::<u64>().unwrap_or(0)
}

/// The bytes that a word stands for: none for `''`, so many equal ones for `x*9000`, and else those of the word itself.
///
/// No word stands for more than 65,536 equal ones.
pub fn bytes_of(alloc: Global, word: &str) -> Result<Vec<u8>, AllocError>
    ensures empty { word.now ≡ codes "''" → IfOk result (λ bytes. bytes.items ≡ []) }
    ensures itself { word.now ≢ codes "''" → slice_index word.now 1 ≢ 42 → IfOk result (λ bytes. bytes.items ≡ word.now) }
    ensures equal { (byte n : ℕ) → n ≤ 65536 → word.now ≡ byte ∷ 42 ∷ decimal n → IfOk result (λ bytes. bytes.items ≡ replicate n byte) }
{
    let bytes = word.as_bytes();
    if word == "''" {
        return Ok(Vec::new(alloc));
    }
    if bytes.len() < 2 || bytes[1] != b'*' {
        return bytes.to_vec(alloc);
    }
    let count = number(&word[2..]).min(MOST_BYTES);
    vec![in alloc; bytes[0]; count as usize]
}

/// A number as text, and `-` for none.
pub fn shown(alloc: Global, value: Option<u64>) -> Result<String, AllocError>
    ensures none { value ≡ None → IfOk result (λ text. string_bytes text ≡ codes "-") }
    ensures some { (n : ℕ) → value ≡ Some n → IfOk result (λ text. string_bytes text ≡ decimal n) }
{
    match value {
        Some(value) => format!(in alloc; "{value}"),
        None => String::from_str(alloc, "-"),
    }
}

/// `true` or `false`.
pub fn told(alloc: Global, holds: bool) -> Result<String, AllocError>
    ensures { IfOk result (λ text. string_bytes text ≡ (if holds then codes "true" else codes "false")) }
{
    if holds {
        String::from_str(alloc, "true")
    } else {
        String::from_str(alloc, "false")
    }
}

/// The answer to a row that only does something: `done`.
pub fn done(alloc: Global) -> Result<String, AllocError>
    ensures { IfOk result (λ text. string_bytes text ≡ codes "done") }
{
    String::from_str(alloc, "done")
}

/// The answer to a row that asks for nothing that there is: `?`.
pub fn unknown(alloc: Global) -> Result<String, AllocError>
    ensures { IfOk result (λ text. string_bytes text ≡ codes "?") }
{
    String::from_str(alloc, "?")
}
