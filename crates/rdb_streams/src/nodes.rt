//! The nodes of a stream, each a key and a listpack of entries.

ghost use Rattle.std.specs.Prelude.{◌≡◌, ◌≤◌, [], length, IfOk, IfErr};
ghost use Rattle.blocks.specs.Blocks.{Changes, Served};
ghost use Rattle.listpack.specs.Pack.{IsPack, texts};
ghost use Rattle.stream_node.specs.Entries.{IsNode, entries_of};
ghost use Rattle.stream_node.specs.View.{stored};
ghost use Rattle.stream_node.specs.Views.{entries};
ghost use Rattle.stream_object.specs.Streams.{IsStream, nodes, refs, stream_of};
ghost use Rattle.rdb_grammar.specs.Format.{in_turn};
ghost use Rattle.rdb_grammar.specs.Places.{Stands, Fails};
ghost use Rattle.rdb_grammar.specs.StreamParts.{node_key as key_format, longest_node, node_on, with_node, no_nodes};
ghost use Rattle.rdb_streams.specs.Reading.{ReadsNodes, so_far};
ghost use Rattle.rdb_streams.specs.Seeing.{seen_more, seen_behind, Sees, PutsNode, ReadsOn};

use crate::fault::refused;
use blocks::BlockStore;
use itoa::Buffer;
use rdb_grammar::{
    FileFault, ItemFault, LoadKind, check_node, next_length, next_node, next_string, node_key, text,
};
use stream_node::{Entry, Id, Node, last_id, live_len};
use stream_object::Stream;

// What is seen of a stream's nodes.
#[derive(Clone, Copy, Debug)]
struct Seen {
    // The id of the last entry, marked deleted or not.
    before: Option<Id>,
    // The greatest id of an entry that isn't marked deleted.
    greatest: Option<Id>,
}

// What is seen behind one entry more.
fn with_entry(seen: Seen, entry: &Entry<'_>) -> Seen
    ensures { result ≡ seen_more seen (stored entry.now) }
{
    let before = Some(entry.id());
    let greatest = if entry.deleted() {
        seen.greatest
    } else {
        before
    };
    Seen { before, greatest }
}

// What is seen behind a node.
fn behind_node(seen: Seen, node: &Node<'_>) -> Seen
    ensures { result ≡ seen_behind seen (entries node.now) }
{
    let mut more = seen;
    for entry in node.entries() {
        more = with_entry(more, &entry);
    }
    more
}

// What is seen behind a payload, the node of a key. Where no entry is marked deleted, the last one tells all.
fn behind_payload(seen: Seen, key: Id, payload: &[u8], node: &Node<'_>) -> Seen
    requires pack { IsPack payload.now }
    requires is_node { IsNode key (texts payload.now) }
    requires entries { entries node.now ≡ entries_of key (texts payload.now) }
    ensures { result ≡ seen_behind seen (entries node.now) }
{
    let pack = listpack::known(payload);
    let live = live_len(&pack);
    let all = node.entries().len();
    if live < all {
        return behind_node(seen, node);
    }
    match last_id(key, &pack) {
        Some(last) => Seen {
            before: Some(last),
            greatest: Some(last),
        },
        None => seen,
    }
}

// The id of the key at an offset, and the offset behind it. Refused exactly by the key's first fault.
fn next_key(bytes: &[u8], at: usize) -> Result<(Id, usize), FileFault>
    requires { at ≤ length bytes.now }
    ensures key { IfOk result (λ x. Stands key_format x.0 bytes.now at x.1) }
    ensures fault { IfErr result (λ e. Fails key_format bytes.now at e.kind e.at) }
{
    let (chunk, next) = match next_string(bytes, at) {
        Ok(read) => read,
        Err(fault) => return Err(fault),
    };
    let mut buffer = Buffer::new();
    match node_key(text(&chunk, &mut buffer)) {
        Some(key) => Ok((key, next)),
        None => Err(FileFault {
            kind: LoadKind::StreamShape,
            at: at as u64,
        }),
    }
}

// Puts a payload, which stands at an offset, behind a stream's nodes as the node of a key.
fn put_node<B: BlockStore>(
    stream: &mut Stream,
    store: &mut B,
    payload: &[u8],
    at: usize,
    key: Id,
    seen: Seen,
) -> Result<Seen, ItemFault>
    requires sees { Sees (B.blocks store.old) stream.old seen }
    requires short { length payload.now ≤ longest_node }
    ensures puts { PutsNode ((node_on key (so_far (B.blocks store.old) stream.old seen.before)).found payload.now) at (B.blocks store.new) stream.new result }
    ensures sound { IsStream (B.blocks store.new) stream.new }
    ensures groups { (stream_of (B.blocks store.new) stream.new).groups ≡ (stream_of (B.blocks store.old) stream.old).groups }
    ensures changes { Changes (B.blocks store.old) (B.blocks store.new) (refs (B.blocks store.old) stream.old) (refs (B.blocks store.new) stream.new) }
    ensures served { Served B.step store.old store.new }
{
    let more = match check_node(payload, key, seen.before) {
        Ok(node) => behind_payload(seen, key, payload, &node),
        Err(kind) => {
            return Err(ItemFault::Refused {
                kind,
                at: at as u64,
            });
        }
    };
    match stream.load_node(store, key, payload) {
        Ok(()) => Ok(more),
        Err(_) => Err(ItemFault::Memory),
    }
}

// Reads the node at an offset behind those of a stream: its key, and its string. The offset behind it is answered.
fn read_node<B: BlockStore>(
    stream: &mut Stream,
    store: &mut B,
    bytes: &[u8],
    at: usize,
    seen: Seen,
) -> Result<(usize, Seen), ItemFault>
    requires sees { Sees (B.blocks store.old) stream.old seen }
    requires at { at ≤ length bytes.now }
    ensures reads { ReadsOn (with_node (so_far (B.blocks store.old) stream.old seen.before)) bytes.now at (B.blocks store.new) stream.new result }
    ensures sound { IsStream (B.blocks store.new) stream.new }
    ensures groups { (stream_of (B.blocks store.new) stream.new).groups ≡ (stream_of (B.blocks store.old) stream.old).groups }
    ensures changes { Changes (B.blocks store.old) (B.blocks store.new) (refs (B.blocks store.old) stream.old) (refs (B.blocks store.new) stream.new) }
    ensures served { Served B.step store.old store.new }
{
    let (key, place) = match next_key(bytes, at) {
        Ok(read) => read,
        Err(fault) => return Err(refused(fault)),
    };
    let (chunk, next) = match next_node(bytes, place) {
        Ok(read) => read,
        Err(fault) => return Err(refused(fault)),
    };
    let mut buffer = Buffer::new();
    match put_node(stream, store, text(&chunk, &mut buffer), place, key, seen) {
        Ok(more) => Ok((next, more)),
        Err(fault) => Err(fault),
    }
}

// Reads the nodes at an offset, so many of them, into a stream without an entry. The offset behind them is answered.
fn read_some<B: BlockStore>(
    stream: &mut Stream,
    store: &mut B,
    bytes: &[u8],
    at: usize,
    count: u64,
) -> Result<(usize, Seen), ItemFault>
    requires is_stream { IsStream (B.blocks store.old) stream.old }
    requires none { nodes (B.blocks store.old) stream.old ≡ [] }
    requires at { at ≤ length bytes.now }
    ensures reads { ReadsOn (in_turn with_node count no_nodes) bytes.now at (B.blocks store.new) stream.new result }
    ensures sound { IsStream (B.blocks store.new) stream.new }
    ensures groups { (stream_of (B.blocks store.new) stream.new).groups ≡ (stream_of (B.blocks store.old) stream.old).groups }
    ensures changes { Changes (B.blocks store.old) (B.blocks store.new) (refs (B.blocks store.old) stream.old) (refs (B.blocks store.new) stream.new) }
    ensures served { Served B.step store.old store.new }
{
    let mut next = at;
    let mut seen = Seen {
        before: None,
        greatest: None,
    };
    'nodes: for _ in 0..count {
        match read_node(stream, store, bytes, next, seen) {
            Ok((behind, more)) => {
                next = behind;
                seen = more;
            }
            Err(fault) => return Err(fault),
        }
    }
    Ok((next, seen))
}

/// Reads the number of a stream's nodes at an offset and the nodes behind it, into a stream without an entry. The offset behind
/// them is answered, with the greatest id of an entry that isn't marked deleted.
///
/// `Refused` comes exactly by the first fault, and `Memory` for want of memory.
pub(crate) fn read_nodes<B: BlockStore>(
    stream: &mut Stream,
    store: &mut B,
    bytes: &[u8],
    at: usize,
) -> Result<(usize, Option<Id>), ItemFault>
    requires is_stream { IsStream (B.blocks store.old) stream.old }
    requires none { nodes (B.blocks store.old) stream.old ≡ [] }
    requires at { at ≤ length bytes.now }
    ensures reads { ReadsNodes bytes.now at (B.blocks store.new) stream.new result }
    ensures sound { IsStream (B.blocks store.new) stream.new }
    ensures groups { (stream_of (B.blocks store.new) stream.new).groups ≡ (stream_of (B.blocks store.old) stream.old).groups }
    ensures changes { Changes (B.blocks store.old) (B.blocks store.new) (refs (B.blocks store.old) stream.old) (refs (B.blocks store.new) stream.new) }
    ensures served { Served B.step store.old store.new }
{
    let (count, next) = match next_length(bytes, at) {
        Ok(read) => read,
        Err(fault) => return Err(refused(fault)),
    };
    match read_some(stream, store, bytes, next, count) {
        Ok((behind, seen)) => Ok((behind, seen.greatest)),
        Err(fault) => Err(fault),
    }
}
