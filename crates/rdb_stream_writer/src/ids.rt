//! Ids of entries.

ghost use Rattle.rdb_parts.specs.Pens.{Writes};
ghost use Rattle.rdb_stream_writer.specs.Ids.{id_word, lengths_word, IsStoredId};

use outside::{HostFault, Shelf};
use rdb_parts::{Pen, write_length};
use stream_groups::Id;

/// Writes an id as sixteen bytes: milliseconds and sequence number, each with its highest byte first.
pub(crate) fn write_id<F: Shelf>(shelf: &mut F, pen: &mut Pen, id: Id) -> Result<(), HostFault>
    ensures writes { Writes (F.seen shelf.old) (F.seen shelf.new) pen.old pen.new (id_word id) result }
    ensures fits { IsStoredId id }
{
    pen.write(shelf, &id.0.to_be_bytes())?;
    pen.write(shelf, &id.1.to_be_bytes())
}

/// Writes an id as two lengths.
pub(crate) fn write_lengths<F: Shelf>(shelf: &mut F, pen: &mut Pen, id: Id) -> Result<(), HostFault>
    ensures writes { Writes (F.seen shelf.old) (F.seen shelf.new) pen.old pen.new (lengths_word id) result }
    ensures fits { IsStoredId id }
{
    write_length(shelf, pen, id.0)?;
    write_length(shelf, pen, id.1)
}
