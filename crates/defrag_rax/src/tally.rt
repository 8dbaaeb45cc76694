//! Blocks counted by the classes of their slabs.

ghost use Rattle.std.specs.Prelude.{◌≡◌, ℕ, Some, [], ◌∷◌};
ghost use Rattle.class_heap.specs.Heap.{heap_blocks, heap_slabs};
ghost use Rattle.held.specs.Table.{Element, item};
ghost use Rattle.keyspace.specs.Sound.{Sound};
ghost use Rattle.keyspace.specs.Values.{IsSound};
ghost use Rattle.keyspace.specs.declared.value.Value.{Value as Stored};
ghost use Rattle.object_codec.specs.declared.limits.Limits.{Limits};
ghost use Rattle.rax_packed.specs.Maps.{refs_of};
ghost use Rattle.stream_object.specs.Streams.{IsStream};
ghost use Rattle.defrag_rax.specs.Owned.{tree_refs, tree_nodes, table_nodes};
ghost use Rattle.defrag_rax.specs.Tally.{Counts};

use blocks::BlockRef;
use class_heap::ClassHeap;
use keyspace::{Keyspace, Value};
use rax_packed::PathNodes;
use rehash_dict::Dict;
use stream_object::{Id, Stream};

/// How many classes of lengths a store has.
pub(crate) const CLASSES: usize = 36;

/// A count for each class. It stays at the greatest number, which no memory has blocks for.
pub(crate) type Tally = [u64; CLASSES];

// How many databases there are.
const DATABASES: usize = 16;

// Counts a block in the class of its slab. One that stands alone is in none.
fn count_block(heap: &ClassHeap, at: BlockRef, tally: &mut Tally)
    ensures { Counts (heap_slabs heap.now) (at ∷ []) tally.old tally.new }
{
    if let Some(class) = heap.class_at(at.slab) {
        tally[class] = tally[class].saturating_add(1);
    }
}

// Counts the nodes of a way.
fn count_path(heap: &ClassHeap, path: &PathNodes, tally: &mut Tally)
    ensures { Counts (heap_slabs heap.now) path.now tally.old tally.new }
{
    for index in 0..path.len() {
        count_block(heap, path.at(index), tally);
    }
}

// Counts the nodes of a stream's tree, key by key: each has one least key.
fn count_stream(heap: &ClassHeap, stream: &Stream, tally: &mut Tally)
    requires { IsStream (heap_blocks heap.now) stream.now }
    ensures { Counts (heap_slabs heap.now) (refs_of (heap_blocks heap.now) stream.now.tree) tally.old tally.new }
{
    let mut from = Id { ms: 0, seq: 0 };
    'keys: while let Some((key, _bytes)) = stream.node_at_or_after(heap, from) {
        count_path(heap, &stream.nodes_of(heap, key), tally);
        match key.next() {
            Some(next) => from = next,
            None => return,
        }
    }
}

// Counts the nodes of a value's tree, where it is a stream.
fn count_value(heap: &ClassHeap, value: &Value, tally: &mut Tally)
    requires { (limits : Limits) × (seed : ℕ) × IsSound limits seed (heap_blocks heap.now) value.now }
    ensures { Counts (heap_slabs heap.now) (tree_refs (heap_blocks heap.now) value.now) tally.old tally.new }
{
    if let Value::Stream(stream) = value {
        count_stream(heap, stream, tally);
    }
}

// Counts the nodes of the trees of all values of a table.
fn count_table(heap: &ClassHeap, table: &Dict<Value>, tally: &mut Tally)
    requires { (limits : Limits) × (seed : ℕ) × ((at : ℕ) (e : Element Stored) → item table.now at ≡ Some e → IsSound limits seed (heap_blocks heap.now) e.value) }
    ensures { Counts (heap_slabs heap.now) (table_nodes (heap_blocks heap.now) table.now) tally.old tally.new }
{
    for at in 0..table.top() {
        if table.is_entry(at) {
            count_value(heap, table.entry(at).1, tally);
        }
    }
}

/// Counts the nodes of the trees of all values of a keyspace.
pub(crate) fn count_keyspace(keyspace: &Keyspace<ClassHeap>, tally: &mut Tally)
    requires { Sound keyspace.now.bases (heap_blocks keyspace.now.store) }
    ensures { Counts (heap_slabs keyspace.now.store) (tree_nodes keyspace.now.bases (heap_blocks keyspace.now.store)) tally.old tally.new }
{
    for db in 0..DATABASES {
        count_table(&keyspace.store, keyspace.table(db), tally);
    }
}
