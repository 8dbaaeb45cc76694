//! Strings of a file as texts.

ghost use Rattle.std.specs.Prelude.{◌≡◌};
ghost use Rattle.rdb_grammar.specs.Views.{text_of};

use crate::strings::Chunk;
use itoa::Buffer;

/// The text of a string of the file. A number is printed into the buffer that is given.
pub fn text<'a>(chunk: &'a Chunk<'a>, buffer: &'a mut Buffer) -> &'a [u8]
    ensures { result.now ≡ text_of chunk.now }
{
    match chunk {
        Chunk::Part(bytes) => bytes,
        Chunk::Number(number) => buffer.format(*number).as_bytes(),
    }
}
