// The nodes of a list.

ghost use Rattle.std.specs.Prelude.{◌≡◌};
ghost use Rattle.quicklist.specs.Nodes.{IsReadable, bytes_of};

use blocks::{BlockRef, BlockStore};

/// How a node keeps its elements.
#[derive(Clone, Copy, Debug, PartialEq, Eq)]
pub enum Container {
    /// One element alone, too long for a packed node.
    Plain,
    /// A listpack.
    Packed,
}

/// A node of a list: its block, how many elements it has, and how it keeps them. The block has exactly the node's bytes.
#[derive(Clone, Copy, Debug, PartialEq, Eq)]
pub struct Node {
    pub(crate) at: BlockRef,
    pub(crate) count: u32,
    pub(crate) container: Container,
}

impl Node {
    /// The bytes of a node.
    pub(crate) fn bytes<B: BlockStore>(self, store: &B) -> &[u8]
        requires { IsReadable (B.blocks store.now) self }
        ensures { bytes_of (B.blocks store.now) self ≡ result.now }
    {
        store.bytes(self.at)
    }
}
