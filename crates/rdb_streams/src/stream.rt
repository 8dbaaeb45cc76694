//! A stream of a file.

ghost use Rattle.std.specs.Prelude.{◌≡◌, ◌≤◌, [], length, IfSome};
ghost use Rattle.std.specs.FinMap.{empty};
ghost use Rattle.blocks.specs.Blocks.{Changes, Served};
ghost use Rattle.plain_world.specs.Worlds.{StreamOf};
ghost use Rattle.stream_node.specs.Ids.{IsId};
ghost use Rattle.stream_object.specs.Streams.{IsStream, refs, stream_of};
ghost use Rattle.rdb_grammar.specs.StreamParts.{stream as stream_format};
ghost use Rattle.rdb_streams.specs.Reading.{Reads};

use crate::fault::refused;
use crate::groups::read_groups;
use crate::nodes::read_nodes;
use blocks::BlockStore;
use rdb_grammar::{ItemFault, StreamType, next_marks};
use std::alloc::Global;
use stream_node::Id;
use stream_object::Stream;

// The same id, where there is one. Contracts then know that its numbers have 64 bits.
fn bounded(id: Option<Id>) -> Option<Id>
    ensures same { result ≡ id }
    ensures fits { IfSome result IsId }
{
    match id {
        None => None,
        Some(id) => Some(id),
    }
}

/// Reads a stream of a type at an offset, its nodes, marks and groups, into a stream without an entry and a group. The offset
/// behind it is answered.
///
/// `Refused` comes exactly by the stream's first fault, and `Memory` for want of memory. The stream is sound over the store then
/// too, to be released.
pub fn read_stream<B: BlockStore>(
    alloc: Global,
    stream: &mut Stream,
    store: &mut B,
    bytes: &[u8],
    at: usize,
    stream_type: StreamType,
) -> Result<usize, ItemFault>
    requires is_stream { IsStream (B.blocks store.old) stream.old }
    requires none { (stream_of (B.blocks store.old) stream.old).entries ≡ [] }
    requires no_group { (stream_of (B.blocks store.old) stream.old).groups ≡ empty }
    requires at { at ≤ length bytes.now }
    ensures reads { Reads (stream_format stream_type) bytes.now at (StreamOf (stream_of (B.blocks store.new) stream.new)) result }
    ensures sound { IsStream (B.blocks store.new) stream.new }
    ensures changes { Changes (B.blocks store.old) (B.blocks store.new) (refs (B.blocks store.old) stream.old) (refs (B.blocks store.new) stream.new) }
    ensures served { Served B.step store.old store.new }
{
    let (next, greatest) = match read_nodes(stream, store, bytes, at) {
        Ok(read) => read,
        Err(fault) => return Err(fault),
    };
    let greatest = bounded(greatest);
    let (marks, next) = match next_marks(bytes, next, stream_type, stream.len(), greatest) {
        Ok(read) => read,
        Err(fault) => return Err(refused(fault)),
    };
    stream.set_marks(marks.last, marks.deleted, marks.added);
    read_groups(alloc, stream, bytes, next, stream_type)
}
