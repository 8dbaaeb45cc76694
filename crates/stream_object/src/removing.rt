// Entries taken out.

ghost use Rattle.std.specs.Prelude.{◌≡◌, ◌<◌, IfOk, OnOk, OnErr, Ok, false, length};
ghost use Rattle.std.specs.List.{list_any};
ghost use Rattle.blocks.specs.Blocks.{Served};
ghost use Rattle.listpack.specs.Pack.{texts};
ghost use Rattle.stream_node.specs.Entry.{Stored};
ghost use Rattle.stream_node.specs.Entries.{entries_of};
ghost use Rattle.stream_object.specs.Found.{Stands};
ghost use Rattle.stream_object.specs.Node.{IsAt};
ghost use Rattle.stream_object.specs.Parts.{HasParts, live_of, parts_of};
ghost use Rattle.stream_object.specs.Streams.{IsChanged, IsStream, Loses, entries, greater, has_id, stream_of, without};

use crate::Memory;
use crate::block::write_mark;
use crate::node::{find, live_count, marked};
use crate::nodes::{drop_node, near, replace};
use crate::spot::Spot;
use crate::stream::Stream;
use crate::tail::beside;
use blocks::{BlockRef, BlockStore};
use rax_packed::PackedTree;
use std::alloc::Global;
use stream_node::{Id, mark_over};

/// Marks an entry of a node deleted that has others. `Memory` leaves all as before.
pub(crate) fn mark_out<B: BlockStore>(
    alloc: Global,
    store: &mut B,
    tree: &mut PackedTree,
    key: Id,
    at: BlockRef,
    index: usize,
) -> Result<(), Memory>
    requires parts { HasParts (B.blocks store.old) tree.old (parts_of (B.blocks store.old) tree.old) }
    requires stands { (s : Stands (parts_of (B.blocks store.old) tree.old) key at) × ((e : Stored) × IsAt (entries_of key (texts s.bytes)) index e) }
    requires others { (s : Stands (parts_of (B.blocks store.old) tree.old) key at) → 1 < length (live_of (entries_of key (texts s.bytes))) }
    ensures loses { OnOk result (Loses (B.blocks store.old) (B.blocks store.new) tree.old tree.new key at index) }
    ensures served { Served B.step store.old store.new }
    ensures err_tree { OnErr result (tree.new ≡ tree.old) }
    ensures err_blocks { OnErr result (B.blocks store.new ≡ B.blocks store.old) }
{
    let bytes = store.bytes(at);
    if let Some(mark) = mark_over(bytes, index) {
        write_mark(store, at, mark);
        return Ok(());
    }
    let pack = marked(alloc, bytes, index)?;
    replace(store, tree, key, at, &pack)?;
    Ok(())
}

// Marks an entry of a node deleted, or where it is the last one takes the node out. `Memory` leaves all as before.
fn take_out<B: BlockStore>(
    alloc: Global,
    store: &mut B,
    tree: &mut PackedTree,
    key: Id,
    at: BlockRef,
    index: usize,
) -> Result<(), Memory>
    requires parts { HasParts (B.blocks store.old) tree.old (parts_of (B.blocks store.old) tree.old) }
    requires stands { (s : Stands (parts_of (B.blocks store.old) tree.old) key at) × ((e : Stored) × IsAt (entries_of key (texts s.bytes)) index e) }
    ensures loses { OnOk result (Loses (B.blocks store.old) (B.blocks store.new) tree.old tree.new key at index) }
    ensures served { Served B.step store.old store.new }
    ensures err_tree { OnErr result (tree.new ≡ tree.old) }
    ensures err_blocks { OnErr result (B.blocks store.new ≡ B.blocks store.old) }
{
    let bytes = store.bytes(at);
    if live_count(bytes) == 1 {
        drop_node(store, tree, key, at);
        return Ok(());
    }
    mark_out(alloc, store, tree, key, at, index)
}

// The greater of two ids.
fn greater_of(a: Id, b: Id) -> Id
    ensures { (result.ms, result.seq) ≡ greater (a.ms, a.seq) (b.ms, b.seq) }
{
    if a.is_below(b) { b } else { a }
}

impl Stream {
    /// Deletes the entry of an id. `false` comes exactly where there is none, and then nothing changes. `Memory` leaves all as
    /// before.
    pub fn delete<B: BlockStore>(&mut self, store: &mut B, id: Id) -> Result<bool, Memory>
        requires { IsStream (B.blocks store.old) self.old }
        ensures found { IfOk result (λ found. found ≡ list_any (has_id (id.ms, id.seq)) (entries (B.blocks store.old) self.old)) }
        ensures deleted { OnOk result (IsChanged (B.blocks store.old) (B.blocks store.new) self.old self.new (without (stream_of (B.blocks store.old) self.old) id)) }
        ensures missing { result ≡ Ok false → self.new ≡ self.old }
        ensures missing_blocks { result ≡ Ok false → B.blocks store.new ≡ B.blocks store.old }
        ensures served { Served B.step store.old store.new }
        ensures err_stream { OnErr result (self.new ≡ self.old) }
        ensures err_blocks { OnErr result (B.blocks store.new ≡ B.blocks store.old) }
    {
        let Some(spot) = near(store, &self.tree, id, false) else {
            return Ok(false);
        };
        let Spot { key, at, bytes } = spot;
        let Some(index) = find(key, bytes, id) else {
            return Ok(false);
        };
        take_out(self.alloc, store, &mut self.tree, key, at, index)?;
        self.tail = beside(self.tail, key);
        self.len -= 1;
        self.deleted = greater_of(self.deleted, id);
        Ok(true)
    }
}
