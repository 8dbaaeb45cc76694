//! The bytes of a request.

ghost use Rattle.std.specs.Prelude.{◌≡◌, ◌++◌, IfOk, OnOk, decimal};
ghost use Rattle.resp_frames.specs.Frames.{header, bulk, request_bytes};

use itoa::Buffer;
use resp_frames::Request;
use std::alloc::{AllocError, Global};

// Puts a header behind the others: a mark, a number.
fn put_header(bytes: &mut Vec<u8>, mark: u8, number: usize) -> Result<(), AllocError>
    ensures { OnOk result (bytes.new.items ≡ bytes.old.items ++ header mark (decimal number)) }
{
    let mut buffer = Buffer::new();
    bytes.extend_from_slice(&[mark])?;
    bytes.extend_from_slice(buffer.format(number).as_bytes())?;
    bytes.extend_from_slice(b"\r\n")
}

// Puts a word behind the others.
fn put_word(bytes: &mut Vec<u8>, word: &[u8]) -> Result<(), AllocError>
    ensures { OnOk result (bytes.new.items ≡ bytes.old.items ++ bulk word.now) }
{
    put_header(bytes, b'$', word.len())?;
    bytes.extend_from_slice(word)?;
    bytes.extend_from_slice(b"\r\n")
}

/// The bytes of a request, as an array of bulk strings.
pub fn spell_request(alloc: Global, request: &Request<'_>) -> Result<Vec<u8>, AllocError>
    ensures { IfOk result (λ bytes. bytes.items ≡ request_bytes request.now) }
{
    let mut bytes = Vec::new(alloc);
    put_header(&mut bytes, b'*', request.len())?;
    for index in 0..request.len() {
        put_word(&mut bytes, request.word(index))?;
    }
    Ok(bytes)
}
