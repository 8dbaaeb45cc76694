//! Lists, element by element (RDB file format, "List Encoding").

ghost use Rattle.quicklist.specs.Chain.{elements, IsQuick};
ghost use Rattle.plain_world.specs.Worlds.{ListOf};
ghost use Rattle.fit_worlds.specs.Fit.{IsShort, IsFitValue};
ghost use Rattle.rdb_parts.specs.Pens.{Writes};
ghost use Rattle.rdb_parts.specs.Words.{strings_word};
ghost use Rattle.rdb_writer.specs.Keys.{WritesKey};

use crate::elements::write_element;
use blocks::BlockStore;
use outside::{HostFault, Shelf};
use quicklist::Quick;
use rdb_parts::{Pen, write_length, write_name};

// The type of a list.
const LIST: u8 = 1;

// Writes the elements of a list, one behind the other.
fn write_elements<F: Shelf, B: BlockStore>(
    shelf: &mut F,
    pen: &mut Pen,
    store: &B,
    list: &Quick,
) -> Result<(), HostFault>
    requires sound { IsQuick (B.blocks store.now) list.now }
    ensures { Writes (F.seen shelf.old) (F.seen shelf.new) pen.old pen.new (strings_word (elements (B.blocks store.now) list.now)) result }
{
    let count = list.len();
    let mut place = list.seek(store, 0);
    for index in 0..count {
        match place {
            None => unreachable!(),
            Some(cursor) => {
                write_element(shelf, pen, list.element(store, cursor))?;
                place = list.next(store, cursor);
            }
        }
    }
    Ok(())
}

/// Writes a key with a list.
pub(crate) fn write_list<F: Shelf, B: BlockStore>(
    shelf: &mut F,
    pen: &mut Pen,
    store: &B,
    name: &[u8],
    list: &Quick,
) -> Result<(), HostFault>
    requires sound { IsQuick (B.blocks store.now) list.now }
    requires short { IsShort name.now }
    requires fit { IsFitValue (ListOf (elements (B.blocks store.now) list.now)) }
    ensures { WritesKey (F.seen shelf.old) (F.seen shelf.new) pen.old pen.new name.now (ListOf (elements (B.blocks store.now) list.now)) result }
{
    write_name(shelf, pen, LIST, name)?;
    write_length(shelf, pen, list.len() as u64)?;
    write_elements(shelf, pen, store, list)
}
