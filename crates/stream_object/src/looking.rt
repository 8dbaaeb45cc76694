// What a stream is seen to be, and its nodes as they stand.

ghost use Rattle.std.specs.Prelude.{◌≡◌, true, IfSome, IfNone};
ghost use Rattle.std.specs.List.{AllByRecursion};
ghost use Rattle.rax_packed.specs.Maps.{marks_of};
ghost use Rattle.rax_packed.specs.Paths.{nodes_with};
ghost use Rattle.stream_node.specs.Ids.{id_key};
ghost use Rattle.stream_object.specs.Found.{IsNear, Misses, Stands};
ghost use Rattle.blocks.specs.declared.BlockRef.{BlockRef};
ghost use Rattle.stream_object.specs.Parts.{Part};
ghost use Rattle.stream_object.specs.Streams.{IsStream, nodes};

use crate::nodes::near;
use crate::stream::Stream;
use blocks::BlockStore;
use object_codec::Form;
use rax_packed::PathNodes;
use stream_node::Id;

impl Stream {
    /// How the stream is kept: there is one form of streams.
    pub fn form(&self) -> Form
        ensures { result ≡ Form.Stream }
    {
        Form::Stream
    }

    /// The key and the bytes of the first node whose key isn't below this one. `None` comes exactly where no such node is.
    pub fn node_at_or_after<'a, B: BlockStore>(
        &self,
        store: &'a B,
        key: Id,
    ) -> Option<(Id, &'a [u8])>
        requires { IsStream (B.blocks store.now) self.now }
        ensures some { IfSome result (λ found. (p : Part) × IsNear true (nodes (B.blocks store.now) self.now) key p × (found.0 ≡ p.key) × (found.1.now ≡ p.bytes)) }
        ensures none { IfNone result (AllByRecursion (Misses true key) (nodes (B.blocks store.now) self.now)) }
    {
        match near(store, &self.tree, key, true) {
            Some(spot) => Some((spot.key, spot.bytes)),
            None => None,
        }
    }

    /// The nodes of the tree whose least key is that of this node of the stream, from the top. It takes no memory.
    pub fn nodes_of<B: BlockStore>(&self, store: &B, key: Id) -> PathNodes
        requires is_stream { IsStream (B.blocks store.now) self.now }
        requires stands { (at : BlockRef) × Stands (nodes (B.blocks store.now) self.now) key at }
        ensures { result ≡ nodes_with (marks_of (B.blocks store.now) self.now.tree) (id_key key) }
    {
        self.tree.nodes_of(store, &key.key())
    }
}
