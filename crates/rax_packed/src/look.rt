// Looking a key up.

ghost use Rattle.std.specs.Prelude.{◌≡◌, length};
ghost use Rattle.rax_packed.specs.Packed.{value_at};
ghost use Rattle.rax_packed.specs.Trees.{entries_at, IsTreeAt};

use crate::node::{Way, way_of};
use blocks::{BlockRef, BlockStore};

/// The value at a key, of which the bytes from a node on are left.
pub(crate) fn find_below<B: BlockStore>(store: &B, at: BlockRef, rest: &[u8]) -> Option<BlockRef>
    requires { IsTreeAt (length rest.now) (B.blocks store.now) at }
    ensures { result ≡ value_at (entries_at (length rest.now) (B.blocks store.now) at) rest.now }
{
    match way_of(store.bytes(at), rest) {
        Way::Leaf(value) => Some(value),
        Way::Parts(_) => None,
        Way::Missing(_, _) => None,
        Way::Link(_, from, to) => find_below(store, to, &rest[from..]),
    }
}
