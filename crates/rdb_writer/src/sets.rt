//! Sets, member by member (RDB file format, "Set Encoding").

ghost use Rattle.set_object.specs.Members.{IsMembers, listed, members};
ghost use Rattle.plain_world.specs.Worlds.{SetOf};
ghost use Rattle.fit_worlds.specs.Fit.{IsShort, IsFitValue};
ghost use Rattle.rdb_parts.specs.Pens.{Writes};
ghost use Rattle.rdb_parts.specs.Words.{strings_word};
ghost use Rattle.rdb_writer.specs.Keys.{WritesKey};

use crate::elements::write_element;
use blocks::BlockStore;
use outside::{HostFault, Shelf};
use rdb_parts::{Pen, write_length, write_name};
use set_object::Members;

// The type of a set.
const SET: u8 = 2;

// Writes the members of a set, one behind the other.
fn write_members<F: Shelf, B: BlockStore>(
    shelf: &mut F,
    pen: &mut Pen,
    store: &B,
    set: &Members,
) -> Result<(), HostFault>
    requires sound { IsMembers (B.blocks store.now) set.now }
    ensures { Writes (F.seen shelf.old) (F.seen shelf.new) pen.old pen.new (strings_word (listed (B.blocks store.now) set.now)) result }
{
    let count = set.len();
    let mut place = set.first(store);
    for index in 0..count {
        match place {
            None => unreachable!(),
            Some(cursor) => {
                write_element(shelf, pen, set.element(store, cursor))?;
                place = set.next(store, cursor);
            }
        }
    }
    Ok(())
}

/// Writes a key with a set.
pub(crate) fn write_set<F: Shelf, B: BlockStore>(
    shelf: &mut F,
    pen: &mut Pen,
    store: &B,
    name: &[u8],
    set: &Members,
) -> Result<(), HostFault>
    requires sound { IsMembers (B.blocks store.now) set.now }
    requires short { IsShort name.now }
    requires fit { IsFitValue (SetOf (members (B.blocks store.now) set.now)) }
    ensures { WritesKey (F.seen shelf.old) (F.seen shelf.new) pen.old pen.new name.now (SetOf (members (B.blocks store.now) set.now)) result }
{
    write_name(shelf, pen, SET, name)?;
    write_length(shelf, pen, set.len() as u64)?;
    write_members(shelf, pen, store, set)
}
