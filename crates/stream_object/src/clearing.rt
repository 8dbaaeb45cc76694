// Streams given back.

ghost use Rattle.std.specs.Prelude.{[]};
ghost use Rattle.blocks.specs.Blocks.{Changes, Served};
ghost use Rattle.stream_object.specs.Found.{Exchanges};
ghost use Rattle.stream_object.specs.Parts.{HasParts, parts_of};
ghost use Rattle.stream_object.specs.Streams.{IsStream, refs};

use crate::nodes::{LEAST, drop_node, near};
use crate::spot::Spot;
use crate::stream::Stream;
use blocks::BlockStore;
use rax_packed::PackedTree;

/// Takes all nodes out.
pub(crate) fn clear<B: BlockStore>(store: &mut B, tree: &mut PackedTree)
    requires { HasParts (B.blocks store.old) tree.old (parts_of (B.blocks store.old) tree.old) }
    ensures cleared { Exchanges (B.blocks store.old) (B.blocks store.new) tree.old tree.new [] }
    ensures served { Served B.step store.old store.new }
{
    while let Some(spot) = near(store, tree, LEAST, true) {
        let Spot { key, at, .. } = spot;
        drop_node(store, tree, key, at);
    }
}

impl Stream {
    /// Gives all its blocks back. It takes no memory.
    pub fn release<B: BlockStore>(self, store: &mut B)
        requires { IsStream (B.blocks store.old) self }
        ensures changes { Changes (B.blocks store.old) (B.blocks store.new) (refs (B.blocks store.old) self) [] }
        ensures served { Served B.step store.old store.new }
    {
        let mut tree = self.tree;
        clear(store, &mut tree);
        tree.release(store);
    }
}
