//! The lines of a run of commands.

ghost use Rattle.std.specs.Prelude.{◌≡◌, IfOk};
ghost use Rattle.generator.specs.Lines.{three_lines};

use itoa::Buffer;
use std::alloc::{AllocError, Global};

/// The three lines: how many commands were run, how many keys there are then, and the CRC of all replies, as 16 hexadecimal
/// digits.
pub fn lines(alloc: Global, commands: u64, keys: u64, crc: u64) -> Result<Vec<u8>, AllocError>
    ensures { IfOk result (λ text. text.items ≡ three_lines commands keys crc) }
{
    let mut buffer = Buffer::new();
    let mut text = Vec::from_slice(alloc, b"commands ")?;
    text.extend_from_slice(buffer.format(commands).as_bytes())?;
    text.extend_from_slice(b"\nkeys ")?;
    text.extend_from_slice(buffer.format(keys).as_bytes())?;
    text.extend_from_slice(b"\ncrc ")?;
    text.extend_from_slice(hex::encode(alloc, crc.to_be_bytes())?.as_bytes())?;
    text.extend_from_slice(b"\n")?;
    Ok(text)
}
