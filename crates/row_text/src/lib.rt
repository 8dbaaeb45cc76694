//! Bytes and numbers as text on one line: what programs of rows read and print.
#![tactic(auto)]

ghost use Rattle.std.specs.Prelude.{◌≡◌, ◌<◌, ◌^◌, ℕ, IfOk, chars, codes, []};
ghost use Rattle.std.specs.Fmt.{decimal};
ghost use Rattle.bstr.specs.Escape.{unescaped};

use bstr::ByteVec;
use std::alloc::{AllocError, Global};

/// The bytes that a text spells: `\r`, `\n`, `\t`, `\0`, `\\` and `\xNN` stand for one byte, and all else for itself.
pub fn spelled(alloc: Global, text: &str) -> Result<Vec<u8>, AllocError>
    ensures { IfOk result (λ bytes. bytes.items ≡ unescaped (chars text.now)) }
{
    Vec::unescape_bytes(alloc, text)
}

/// The bytes that a word spells. The empty one is spelled `\e`.
pub fn spelled_word(alloc: Global, word: &str) -> Result<Vec<u8>, AllocError>
    ensures { word.now ≡ codes "\\e" → IfOk result (λ bytes. bytes.items ≡ []) }
{
    if word == "\\e" {
        return Ok(Vec::new(alloc));
    }
    spelled(alloc, word)
}

/// The bytes as text to be printed, on one line. Quotes stand behind a backslash too.
pub fn shown(alloc: Global, bytes: &[u8]) -> Result<String, AllocError> {
    bytes.escape_ascii().to_string(alloc)
}

/// The number that a word is, and 0 where it is none.
pub fn number(word: &str) -> u64
    ensures { (n : ℕ) → n < 2 ^ 64 → word.now ≡ decimal n → result ≡ n }
{
    word.parse::<u64>().unwrap_or(0)
}

/// The numbers of a line with a space between each two. Words that are none are left out.
pub fn numbers(alloc: Global, line: &str) -> Result<Vec<u64>, AllocError> {
    let mut all = Vec::new(alloc);
    for word in line.split(' ') {
        if let Ok(number) = word.parse::<u64>() {
            all.push(number)?;
        }
    }
    Ok(all)
}
