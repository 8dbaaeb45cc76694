//! The marks of a stream: how many entries it has, its ids, and how many entries were added.

ghost use Rattle.std.specs.Prelude.{◌≡◌};
ghost use Rattle.listpack.specs.Pack.{texts};
ghost use Rattle.stream_node.specs.Entries.{entries_of};
ghost use Rattle.stream_node.specs.Views.{left_of};
ghost use Rattle.stream_object.specs.Parts.{IsNodeOf, live_of};
ghost use Rattle.stream_object.specs.Streams.{IsStream, entries as entries_in, pair_of, stream_of};
ghost use Rattle.rdb_parts.specs.Pens.{Writes};
ghost use Rattle.rdb_stream_writer.specs.Streams.{first_of, numbers_word, marks_word, AreStoredNumbers, AreStoredMarks};

use crate::ids::write_lengths;
use crate::nodes::LEAST;
use blocks::BlockStore;
use listpack::known;
use outside::{HostFault, Shelf};
use rdb_parts::{Pen, write_length};
use stream_node::{Entries, opened};
use stream_object::{Id, Stream};

// The entries of a node, those that are marked deleted among them.
fn entries<'a>(key: Id, bytes: &'a [u8]) -> Entries<'a>
    requires { IsNodeOf key bytes.now }
    ensures { left_of result ≡ entries_of key (texts bytes.now) }
{
    opened(key, &known(bytes)).entries()
}

// The id of the first entry of a node that isn't marked deleted.
fn first_live(key: Id, bytes: &[u8]) -> Id
    requires { IsNodeOf key bytes.now }
    ensures { pair_of result ≡ first_of (live_of (entries_of key (texts bytes.now))) }
{
    for entry in entries(key, bytes) {
        if !entry.deleted() {
            return entry.id();
        }
    }
    unreachable!()
}

// The id of a stream's first entry, or 0-0.
fn first_id<B: BlockStore>(stream: &Stream, store: &B) -> Id
    requires { IsStream (B.blocks store.now) stream.now }
    ensures { pair_of result ≡ first_of (entries_in (B.blocks store.now) stream.now) }
{
    match stream.node_at_or_after(store, LEAST) {
        None => LEAST,
        Some((key, bytes)) => first_live(key, bytes),
    }
}

// Writes the number of entries, the last id, the first one, the greatest deleted one, and how many entries were added.
fn write_numbers<F: Shelf>(
    shelf: &mut F,
    pen: &mut Pen,
    count: u64,
    last: Id,
    first: Id,
    deleted: Id,
    added: u64,
) -> Result<(), HostFault>
    ensures writes { Writes (F.seen shelf.old) (F.seen shelf.new) pen.old pen.new (numbers_word count (pair_of last) (pair_of first) (pair_of deleted) added) result }
    ensures fits { AreStoredNumbers count (pair_of last) (pair_of first) (pair_of deleted) added }
{
    write_length(shelf, pen, count)?;
    write_lengths(shelf, pen, (last.ms, last.seq))?;
    write_lengths(shelf, pen, (first.ms, first.seq))?;
    write_lengths(shelf, pen, (deleted.ms, deleted.seq))?;
    write_length(shelf, pen, added)
}

/// Writes the marks of a stream.
pub(crate) fn write_marks<F: Shelf, B: BlockStore>(
    shelf: &mut F,
    pen: &mut Pen,
    stream: &Stream,
    store: &B,
) -> Result<(), HostFault>
    requires { IsStream (B.blocks store.now) stream.now }
    ensures writes { Writes (F.seen shelf.old) (F.seen shelf.new) pen.old pen.new (marks_word (stream_of (B.blocks store.now) stream.now)) result }
    ensures fits { AreStoredMarks (stream_of (B.blocks store.now) stream.now) }
{
    let first = first_id(stream, store);
    write_numbers(
        shelf,
        pen,
        stream.len(),
        stream.last_id(),
        first,
        stream.greatest_deleted(),
        stream.added(),
    )
}
