// What nodes are placed of.

ghost use Rattle.std.specs.Prelude.{◌≡◌, ◌∷◌, ◌<◌, ◌↔◌, [], IfOk, OnErr, IsTrue};
ghost use Rattle.blocks.specs.Blocks.{Served};
ghost use Rattle.quicklist.specs.Nodes.{IsPlacedOf, pack_len};

use crate::node::{Container, Node};
use blocks::{BlockStore, Memory, put_block};
use listpack::entry_size;

/// The greatest length of a packed node in bytes.
pub(crate) const PACKED_BYTES: usize = 8192;

/// The bytes of a node, how many elements they hold, and how.
#[derive(Clone, Copy)]
pub(crate) struct Piece<'a> {
    pub(crate) container: Container,
    pub(crate) count: u32,
    pub(crate) bytes: &'a [u8],
}

/// Places a node.
pub(crate) fn place_piece<B: BlockStore>(store: &mut B, piece: Piece<'_>) -> Result<Node, Memory>
    ensures placed { IfOk result (IsPlacedOf (B.blocks store.old) (B.blocks store.new) piece.entry.bytes.now) }
    ensures count { IfOk result (λ n. n.count ≡ piece.entry.count) }
    ensures container { IfOk result (λ n. n.container ≡ piece.entry.container) }
    ensures served { Served B.step store.old store.new }
    ensures err_blocks { OnErr result (B.blocks store.new ≡ B.blocks store.old) }
    ensures err_slabs { OnErr result (B.heap store.new ≡ B.heap store.old) }
{
    Ok(Node {
        at: put_block(store, piece.bytes)?,
        count: piece.count,
        container: piece.container,
    })
}

/// Whether a listpack of the element alone is too long for a packed node.
pub(crate) fn is_long(element: &[u8]) -> bool
    ensures { IsTrue result ↔ (8192 < pack_len (element.now ∷ [])) }
{
    if element.len() > u32::MAX as usize {
        return true;
    }
    7 + entry_size(element) > PACKED_BYTES
}
