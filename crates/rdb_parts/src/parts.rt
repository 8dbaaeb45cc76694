//! Lengths, strings, names and deadlines.

ghost use Rattle.std.specs.Prelude.{◌≡◌, ◌<◌, ◌^◌, ◌∷◌, IfSome};
ghost use Rattle.rdb_parts.specs.Pens.{Writes};
ghost use Rattle.rdb_parts.specs.Words.{length_word, string_word, deadline_word};

use crate::pen::Pen;
use outside::{HostFault, Shelf};

// A length of 32 bits or of 64.
fn write_wide<F: Shelf>(shelf: &mut F, pen: &mut Pen, n: u64) -> Result<(), HostFault>
    requires { 16383 < n }
    ensures { Writes (F.seen shelf.old) (F.seen shelf.new) pen.old pen.new (length_word n) result }
{
    let bytes = n.to_be_bytes();
    if n < 4_294_967_296 {
        return pen.write(shelf, &[128, bytes[4], bytes[5], bytes[6], bytes[7]]);
    }
    pen.write(
        shelf,
        &[
            129, bytes[0], bytes[1], bytes[2], bytes[3], bytes[4], bytes[5], bytes[6], bytes[7],
        ],
    )
}

/// Writes a length in its shortest form.
pub fn write_length<F: Shelf>(shelf: &mut F, pen: &mut Pen, n: u64) -> Result<(), HostFault>
    ensures { Writes (F.seen shelf.old) (F.seen shelf.new) pen.old pen.new (length_word n) result }
{
    if n < 64 {
        return pen.write(shelf, &[n as u8]);
    }
    if n < 16384 {
        return pen.write(shelf, &[64 + (n / 256) as u8, (n % 256) as u8]);
    }
    write_wide(shelf, pen, n)
}

/// Writes a string: its length and its bytes.
pub fn write_string<F: Shelf>(shelf: &mut F, pen: &mut Pen, text: &[u8]) -> Result<(), HostFault>
    ensures { Writes (F.seen shelf.old) (F.seen shelf.new) pen.old pen.new (string_word text.now) result }
{
    match write_length(shelf, pen, text.len() as u64) {
        Ok(()) => pen.write(shelf, text),
        Err(fault) => Err(fault),
    }
}

/// Writes the type of a key's value, and the key.
pub fn write_name<F: Shelf>(
    shelf: &mut F,
    pen: &mut Pen,
    type_number: u8,
    name: &[u8],
) -> Result<(), HostFault>
    ensures { Writes (F.seen shelf.old) (F.seen shelf.new) pen.old pen.new (type_number ∷ string_word name.now) result }
{
    match pen.write(shelf, &[type_number]) {
        Ok(()) => write_string(shelf, pen, name),
        Err(fault) => Err(fault),
    }
}

/// Writes the deadline of the next key, where there is one.
pub fn write_deadline<F: Shelf>(
    shelf: &mut F,
    pen: &mut Pen,
    deadline: Option<u64>,
) -> Result<(), HostFault>
    ensures { Writes (F.seen shelf.old) (F.seen shelf.new) pen.old pen.new (deadline_word deadline) result }
{
    match deadline {
        None => Ok(()),
        Some(moment) => {
            let bytes = moment.to_le_bytes();
            match pen.write(shelf, &[252]) {
                Ok(()) => pen.write(shelf, &bytes),
                Err(fault) => Err(fault),
            }
        }
    }
}
