//! Strings (RDB file format, "String Encoding").

ghost use Rattle.blocks.specs.Blocks.{Owned};
ghost use Rattle.string_object.specs.Text.{text_bytes, text_refs};
ghost use Rattle.plain_world.specs.Worlds.{Str};
ghost use Rattle.fit_worlds.specs.Fit.{IsShort, IsFitValue};
ghost use Rattle.rdb_writer.specs.Keys.{WritesKey};

use blocks::BlockStore;
use outside::{HostFault, Shelf};
use rdb_parts::{Pen, write_name, write_string};
use string_object::Text;

// The type of a string.
const STRING: u8 = 0;

/// Writes a key with a string.
pub(crate) fn write_text<F: Shelf, B: BlockStore>(
    shelf: &mut F,
    pen: &mut Pen,
    store: &B,
    name: &[u8],
    text: &Text,
) -> Result<(), HostFault>
    requires owned { Owned (text_refs text.now) (B.blocks store.now) }
    requires short { IsShort name.now }
    requires fit { IsFitValue (Str (text_bytes (B.blocks store.now) text.now)) }
    ensures { WritesKey (F.seen shelf.old) (F.seen shelf.new) pen.old pen.new name.now (Str (text_bytes (B.blocks store.now) text.now)) result }
{
    write_name(shelf, pen, STRING, name)?;
    let mut room = [0; 20];
    write_string(shelf, pen, text.bytes(store, &mut room))
}
