//! Hashes, field by field (RDB file format, "Hash Encoding").

ghost use Rattle.listpack.specs.Element.{element_text};
ghost use Rattle.hash_object.specs.Fields.{IsFields, listed, fields};
ghost use Rattle.plain_world.specs.Worlds.{HashOf};
ghost use Rattle.fit_worlds.specs.Fit.{IsShort, IsFitValue};
ghost use Rattle.rdb_parts.specs.Pens.{Writes};
ghost use Rattle.rdb_writer.specs.Collections.{pair_word, pairs_word};
ghost use Rattle.rdb_writer.specs.Keys.{WritesKey};

use crate::elements::write_element;
use blocks::BlockStore;
use hash_object::Fields;
use listpack::Element;
use outside::{HostFault, Shelf};
use rdb_parts::{Pen, write_length, write_name};

// The type of a hash.
const HASH: u8 = 4;

// Writes a field and its value.
fn write_pair<F: Shelf>(
    shelf: &mut F,
    pen: &mut Pen,
    field: Element<'_>,
    value: Element<'_>,
) -> Result<(), HostFault>
    ensures { Writes (F.seen shelf.old) (F.seen shelf.new) pen.old pen.new (pair_word (element_text field.entry, element_text value.entry)) result }
{
    write_element(shelf, pen, field)?;
    write_element(shelf, pen, value)
}

// Writes the fields of a hash with their values, one behind the other.
fn write_pairs<F: Shelf, B: BlockStore>(
    shelf: &mut F,
    pen: &mut Pen,
    store: &B,
    hash: &Fields,
) -> Result<(), HostFault>
    requires sound { IsFields (B.blocks store.now) hash.now }
    ensures { Writes (F.seen shelf.old) (F.seen shelf.new) pen.old pen.new (pairs_word (listed (B.blocks store.now) hash.now)) result }
{
    let count = hash.len();
    let mut place = hash.first(store);
    for index in 0..count {
        match place {
            None => unreachable!(),
            Some(cursor) => {
                let (field, value) = hash.pair(store, cursor);
                write_pair(shelf, pen, field, value)?;
                place = hash.next(store, cursor);
            }
        }
    }
    Ok(())
}

/// Writes a key with a hash.
pub(crate) fn write_hash<F: Shelf, B: BlockStore>(
    shelf: &mut F,
    pen: &mut Pen,
    store: &B,
    name: &[u8],
    hash: &Fields,
) -> Result<(), HostFault>
    requires sound { IsFields (B.blocks store.now) hash.now }
    requires short { IsShort name.now }
    requires fit { IsFitValue (HashOf (fields (B.blocks store.now) hash.now)) }
    ensures { WritesKey (F.seen shelf.old) (F.seen shelf.new) pen.old pen.new name.now (HashOf (fields (B.blocks store.now) hash.now)) result }
{
    write_name(shelf, pen, HASH, name)?;
    write_length(shelf, pen, hash.len() as u64)?;
    write_pairs(shelf, pen, store, hash)
}
