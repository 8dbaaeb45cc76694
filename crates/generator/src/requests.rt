//! The bytes of a request.

ghost use Rattle.std.specs.Prelude.{◌≡◌, ◌+◌, ◌++◌, map, length, OnOk, decimal};
ghost use Rattle.resp_frames.specs.Frames.{header, bulk, request_bytes};
ghost use Rattle.generator.specs.Requests.{word_bytes};

use itoa::Buffer;
use std::alloc::AllocError;

/// A word of a request.
#[derive(Clone, Copy)]
pub enum Word<'a> {
    /// A text.
    Text(&'a [u8]),
    /// A text, and a number behind it.
    Named(&'a [u8], u64),
    /// A number.
    Number(u64),
}

// Puts a header behind the others: a mark, a number.
fn put_header(bytes: &mut Vec<u8>, mark: u8, number: usize) -> Result<(), AllocError>
    ensures { OnOk result (bytes.new.items ≡ bytes.old.items ++ header mark (decimal number)) }
{
    let mut buffer = Buffer::new();
    bytes.extend_from_slice(&[mark])?;
    bytes.extend_from_slice(buffer.format(number).as_bytes())?;
    bytes.extend_from_slice(b"\r\n")
}

// Puts a word behind the others: a text, and the digits behind it.
fn put_parts(bytes: &mut Vec<u8>, text: &[u8], digits: &[u8]) -> Result<(), AllocError>
    ensures { OnOk result (bytes.new.items ≡ bytes.old.items ++ bulk (text.now ++ digits.now)) }
{
    put_header(bytes, b'$', text.len() + digits.len())?;
    bytes.extend_from_slice(text)?;
    bytes.extend_from_slice(digits)?;
    bytes.extend_from_slice(b"\r\n")
}

// Puts a word behind the others.
fn put_word(bytes: &mut Vec<u8>, word: Word<'_>) -> Result<(), AllocError>
    ensures { OnOk result (bytes.new.items ≡ bytes.old.items ++ bulk (word_bytes word.entry)) }
{
    let mut buffer = Buffer::new();
    match word {
        Word::Text(text) => put_parts(bytes, text, b""),
        Word::Named(text, number) => put_parts(bytes, text, buffer.format(number).as_bytes()),
        Word::Number(number) => put_parts(bytes, b"", buffer.format(number).as_bytes()),
    }
}

/// The bytes of the request of these words. What stood in the bytes is cleared.
pub fn put_request(bytes: &mut Vec<u8>, words: &[Word<'_>]) -> Result<(), AllocError>
    ensures { OnOk result (bytes.new.items ≡ request_bytes (map word_bytes words.now)) }
{
    bytes.clear();
    put_header(bytes, b'*', words.len())?;
    for word in words {
        put_word(bytes, *word)?;
    }
    Ok(())
}
