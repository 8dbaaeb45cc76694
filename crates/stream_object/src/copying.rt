// Streams copied.

ghost use Rattle.std.specs.Prelude.{◌≡◌, [], IfOk, OnOk, OnErr};
ghost use Rattle.blocks.specs.Blocks.{Changes, Served};
ghost use Rattle.stream_object.specs.Copied.{AreSame};
ghost use Rattle.stream_object.specs.Found.{Exchanges};
ghost use Rattle.stream_object.specs.Parts.{HasParts, all_refs, parts_of};
ghost use Rattle.stream_object.specs.Streams.{IsStream, nodes, refs, stream_of};

use crate::Memory;
use crate::clearing::clear;
use crate::nodes::{LEAST, near, put_last};
use crate::spot::Spot;
use crate::stream::Stream;
use blocks::BlockStore;
use rax_packed::PackedTree;

impl Stream {
    // Places copies of all nodes under another tree, which has none. After `Memory` some of them are there.
    fn copy_nodes<B: BlockStore>(&self, store: &mut B, tree: &mut PackedTree) -> Result<(), Memory>
        requires is_stream { IsStream (B.blocks store.old) self.now }
        requires blank { HasParts (B.blocks store.old) tree.old [] }
        requires none { all_refs (B.blocks store.old) tree.old ≡ [] }
        ensures made { Exchanges (B.blocks store.old) (B.blocks store.new) tree.old tree.new (parts_of (B.blocks store.new) tree.new) }
        ensures copied { OnOk result (AreSame (nodes (B.blocks store.old) self.now) (parts_of (B.blocks store.new) tree.new)) }
        ensures served { Served B.step store.old store.new }
    {
        let mut at = LEAST;
        'nodes: while let Some(spot) = near(store, &self.tree, at, true) {
            let Spot { key, bytes, .. } = spot;
            let bytes = Vec::from_slice(self.alloc, bytes)?;
            put_last(store, tree, key, &bytes)?;
            match key.next() {
                Some(next) => at = next,
                None => return Ok(()),
            }
        }
        Ok(())
    }

    /// A stream of the same value, over blocks that weren't live. `Memory` leaves all blocks.
    pub fn copy<B: BlockStore>(&self, store: &mut B) -> Result<Stream, Memory>
        requires { IsStream (B.blocks store.old) self.now }
        ensures is_stream { IfOk result (IsStream (B.blocks store.new)) }
        ensures value { IfOk result (λ copy. stream_of (B.blocks store.new) copy ≡ stream_of (B.blocks store.old) self.now) }
        ensures changes { IfOk result (λ copy. Changes (B.blocks store.old) (B.blocks store.new) [] (refs (B.blocks store.new) copy)) }
        ensures served { Served B.step store.old store.new }
        ensures err_blocks { OnErr result (B.blocks store.new ≡ B.blocks store.old) }
    {
        let groups = self.groups.copy()?;
        let mut tree = PackedTree::new();
        if let Err(refused) = self.copy_nodes(store, &mut tree) {
            clear(store, &mut tree);
            tree.release(store);
            return Err(refused);
        }
        Ok(Stream {
            alloc: self.alloc,
            tree,
            len: self.len,
            last: self.last,
            deleted: self.deleted,
            added: self.added,
            groups,
            tail: None,
        })
    }
}
