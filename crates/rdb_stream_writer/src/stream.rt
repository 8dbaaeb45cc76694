//! A whole stream.

ghost use Rattle.std.specs.Prelude.{OnOk};
ghost use Rattle.fit_worlds.specs.Fit.{IsFitStream};
ghost use Rattle.stream_object.specs.Streams.{IsStream, nodes, stream_of};
ghost use Rattle.rdb_parts.specs.Pens.{Writes};
ghost use Rattle.rdb_stream_writer.specs.Streams.{stream_word, SpellsStream};

use crate::groups::write_groups;
use crate::marks::write_marks;
use crate::nodes::write_nodes;
use blocks::BlockStore;
use outside::{HostFault, Shelf};
use rdb_parts::Pen;
use stream_object::Stream;

/// Writes a stream as a value of type 21 (RDB file format of Redis 7.2), behind its key: nodes as they stand, marks, and groups.
/// A group has read 0 entries, and its consumers were seen and active at the moment, in milliseconds. It takes no memory.
///
/// A fault comes only where the shelf's count rose.
pub fn write_stream<F: Shelf, B: BlockStore>(
    shelf: &mut F,
    pen: &mut Pen,
    stream: &Stream,
    store: &B,
    moment: u64,
) -> Result<(), HostFault>
    requires sound { IsStream (B.blocks store.now) stream.now }
    requires fit { IsFitStream (stream_of (B.blocks store.now) stream.now) }
    ensures writes { Writes (F.seen shelf.old) (F.seen shelf.new) pen.old pen.new (stream_word moment (nodes (B.blocks store.now) stream.now) (stream_of (B.blocks store.now) stream.now)) result }
    ensures spells { OnOk result (SpellsStream (stream_of (B.blocks store.now) stream.now) (stream_word moment (nodes (B.blocks store.now) stream.now) (stream_of (B.blocks store.now) stream.now))) }
{
    write_nodes(shelf, pen, stream, store)?;
    write_marks(shelf, pen, stream, store)?;
    write_groups(shelf, pen, stream, moment)
}
