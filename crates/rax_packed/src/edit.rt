// Changing what stands at a key.

ghost use Rattle.std.specs.Prelude.{◌≡◌, map, Some, None, IfSome, IfNone, length};
ghost use Rattle.blocks.specs.declared.BlockRef.{BlockRef as Reference};
ghost use Rattle.blocks.specs.Blocks.{live, Owned, Served};
ghost use Rattle.rax_packed.specs.Nodes.{ref_bytes};
ghost use Rattle.rax_packed.specs.Packed.{value_at, with_entry};
ghost use Rattle.rax_packed.specs.Trees.{entries_at, marks_at, refs_at, IsTreeAt, Becomes};

use crate::node::{Way, pack, way_of};
use blocks::{BlockRef, BlockStore};

/// Puts a value at a key that stands in the tree, and answers what stood there.
pub(crate) fn set_below<B: BlockStore>(
    store: &mut B,
    at: BlockRef,
    rest: &[u8],
    value: BlockRef,
) -> Option<BlockRef>
    requires tree { IsTreeAt (length rest.now) (B.blocks store.old) at }
    requires owned { Owned (refs_at (length rest.now) (B.blocks store.old) at) (B.blocks store.old) }
    ensures old { result ≡ value_at (entries_at (length rest.now) (B.blocks store.old) at) rest.now }
    ensures set { IfSome result (λ old. Becomes (length rest.now) (B.blocks store.old) (B.blocks store.new) at at
        (with_entry (entries_at (length rest.now) (B.blocks store.old) at) rest.now value)) }
    ensures keys { IfSome result
        (λ old. map (λ e. e.key) (with_entry (entries_at (length rest.now) (B.blocks store.old) at) rest.now value) ≡ map (λ e. e.key)
        (entries_at (length rest.now) (B.blocks store.old) at)) }
    ensures marks { IfSome result (λ old. marks_at (length rest.now) (B.blocks store.new) at ≡ marks_at (length rest.now) (B.blocks store.old) at) }
    ensures slabs { B.heap store.new ≡ B.heap store.old }
    ensures stays { (r : Reference) → live (B.blocks store.new) r ≡ live (B.blocks store.old) r }
    ensures missing { IfNone result (store.new ≡ store.old) }
    ensures served { Served B.step store.old store.new }
{
    match way_of(store.bytes(at), rest) {
        Way::Leaf(old) => {
            store.write(at, 2 + rest.len(), &pack(value));
            Some(old)
        }
        Way::Parts(_) => None,
        Way::Missing(_, _) => None,
        Way::Link(_, from, to) => set_below(store, to, &rest[from..], value),
    }
}
