// The bytes of a number.

ghost use Rattle.std.specs.Prelude.{◌≡◌};
ghost use Rattle.int_text.specs.Decimal.{canonical};

use itoa::Buffer;

// Prints a number into the room given.
pub fn print_into(n: i64, room: &mut [u8; 20]) -> &[u8]
    ensures { result.now ≡ canonical n }
{
    let mut buffer = Buffer::new();
    let text = buffer.format(n).as_bytes();
    let len = text.len();
    room[..len].copy_from_slice(text);
    &room[..len]
}
