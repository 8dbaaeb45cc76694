//! The nodes of a stream, as they stand in their blocks.

ghost use Rattle.std.specs.Prelude.{◌≡◌, ◌++◌, ℕ, List, length, slice_get};
ghost use Rattle.std.specs.Option.{option_map};
ghost use Rattle.stream_node.specs.declared.id.Id.{Id as AnId};
ghost use Rattle.stream_node.specs.Ids.{id_key};
ghost use Rattle.stream_object.specs.Streams.{IsStream, nodes};
ghost use Rattle.rdb_parts.specs.Pens.{Writes};
ghost use Rattle.rdb_parts.specs.Words.{string_word};
ghost use Rattle.rdb_stream_writer.specs.Ids.{counted_by};
ghost use Rattle.rdb_stream_writer.specs.Nodes.{node_word, told, behind};

use blocks::BlockStore;
use outside::{HostFault, Shelf};
use rdb_parts::{Pen, write_length, write_string};
use stream_object::{Id, Stream};

/// The least id.
pub(crate) const LEAST: Id = Id { ms: 0, seq: 0 };

// The key and the bytes of the first node behind the one of a key, or of all.
fn node_behind<'a, B: BlockStore>(
    stream: &Stream,
    store: &'a B,
    key: Option<Id>,
) -> Option<(Id, &'a [u8])>
    requires { IsStream (B.blocks store.now) stream.now }
    ensures { option_map {U = AnId × List ℕ} (λ found. (found.0, found.1.now)) result ≡ option_map told (slice_get (behind key (nodes (B.blocks store.now) stream.now)) 0) }
{
    match key {
        None => stream.node_at_or_after(store, LEAST),
        Some(key) => match key.next() {
            None => None,
            Some(next) => stream.node_at_or_after(store, next),
        },
    }
}

// How many nodes there are.
fn count_nodes<B: BlockStore>(stream: &Stream, store: &B) -> u64
    requires { IsStream (B.blocks store.now) stream.now }
    ensures { result ≡ length (nodes (B.blocks store.now) stream.now) }
{
    let most = stream.len();
    let mut count = 0;
    let mut last = None;
    'nodes: while count < most {
        match node_behind(stream, store, last) {
            None => return count,
            Some((key, _)) => last = Some(key),
        }
        count += 1;
    }
    count
}

// Writes a node: its key, and its bytes.
fn write_node<F: Shelf>(
    shelf: &mut F,
    pen: &mut Pen,
    key: Id,
    bytes: &[u8],
) -> Result<(), HostFault>
    ensures { Writes (F.seen shelf.old) (F.seen shelf.new) pen.old pen.new (string_word (id_key key) ++ string_word bytes.now) result }
{
    write_string(shelf, pen, &key.key())?;
    write_string(shelf, pen, bytes)
}

/// Writes how many nodes a stream has, and these by rising ids.
pub(crate) fn write_nodes<F: Shelf, B: BlockStore>(
    shelf: &mut F,
    pen: &mut Pen,
    stream: &Stream,
    store: &B,
) -> Result<(), HostFault>
    requires { IsStream (B.blocks store.now) stream.now }
    ensures { Writes (F.seen shelf.old) (F.seen shelf.new) pen.old pen.new (counted_by node_word (nodes (B.blocks store.now) stream.now)) result }
{
    write_length(shelf, pen, count_nodes(stream, store))?;
    let mut last = None;
    'nodes: while let Some((key, bytes)) = node_behind(stream, store, last) {
        write_node(shelf, pen, key, bytes)?;
        last = Some(key);
    }
    Ok(())
}
