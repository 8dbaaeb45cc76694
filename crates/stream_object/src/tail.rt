// The last node of a stream, kept so that it need not be found down the tree.

ghost use Rattle.std.specs.Prelude.{◌≡◌, ◌≢◌, Some, IfSome};
ghost use Rattle.stream_object.specs.Found.{part_at};
ghost use Rattle.stream_object.specs.Parts.{HasParts, parts_of};
ghost use Rattle.stream_object.specs.Tail.{IsEnd, IsKept};

use crate::nodes::{GREATEST, near};
use crate::spot::Spot;
use blocks::{BlockRef, BlockStore};
use rax_packed::PackedTree;
use stream_node::Id;

/// The last node: its key and its block.
#[derive(Clone, Copy)]
pub(crate) struct Tail {
    pub(crate) key: Id,
    pub(crate) at: BlockRef,
}

/// The last node: the one that is kept, or where none is the one of the greatest key.
pub(crate) fn last_node<'a, B: BlockStore>(
    store: &'a B,
    tree: &PackedTree,
    kept: Option<Tail>,
) -> Option<Spot<'a>>
    requires parts { HasParts (B.blocks store.now) tree.now (parts_of (B.blocks store.now) tree.now) }
    requires kept { IsKept (parts_of (B.blocks store.now) tree.now) kept }
    ensures { IfSome result (λ spot. IsEnd (parts_of (B.blocks store.now) tree.now) (part_at spot)) }
{
    match kept {
        Some(tail) => Some(Spot {
            key: tail.key,
            at: tail.at,
            bytes: store.bytes(tail.at),
        }),
        None => near(store, tree, GREATEST, false),
    }
}

/// What is still kept where the node of this key changes or goes: nothing where it is that one.
pub(crate) fn beside(kept: Option<Tail>, key: Id) -> Option<Tail>
    ensures { IfSome result (λ tail. (kept ≡ Some tail) × (tail.key ≢ key)) }
{
    match kept {
        Some(tail) => { if tail.key == key { None } else { Some(tail) } }
        None => None,
    }
}
