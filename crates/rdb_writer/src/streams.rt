//! Streams (RDB file format of Redis 7.2, `rdb.c`: type 21).

ghost use Rattle.stream_object.specs.Streams.{IsStream, stream_of};
ghost use Rattle.plain_world.specs.Worlds.{StreamOf};
ghost use Rattle.fit_worlds.specs.Fit.{IsShort, IsFitValue};
ghost use Rattle.rdb_writer.specs.Keys.{WritesKey};

use blocks::BlockStore;
use outside::{HostFault, Shelf};
use rdb_parts::{Pen, write_name};
use rdb_stream_writer::write_stream;
use stream_object::Stream;

// The type of a stream.
const STREAM: u8 = 21;

/// Writes a key with a stream, and the moment, in milliseconds, as that at which its consumers were seen and active last.
pub(crate) fn write_log<F: Shelf, B: BlockStore>(
    shelf: &mut F,
    pen: &mut Pen,
    store: &B,
    name: &[u8],
    stream: &Stream,
    moment: u64,
) -> Result<(), HostFault>
    requires sound { IsStream (B.blocks store.now) stream.now }
    requires short { IsShort name.now }
    requires fit { IsFitValue (StreamOf (stream_of (B.blocks store.now) stream.now)) }
    ensures { WritesKey (F.seen shelf.old) (F.seen shelf.new) pen.old pen.new name.now (StreamOf (stream_of (B.blocks store.now) stream.now)) result }
{
    write_name(shelf, pen, STREAM, name)?;
    write_stream(shelf, pen, stream, store, moment)
}
