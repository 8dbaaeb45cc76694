// Copying a tree.

ghost use Rattle.std.specs.Prelude.{◌≡◌, ℕ, ◌≤◌, [], ◌∷◌, IfOk, OnErr, IsSome, Some, None, length, take};
ghost use Rattle.std.specs.List.{flat_map, AllByRecursion};
ghost use Rattle.blocks.specs.Blocks.{with_block, bytes_at, Changes, Owned, Served};
ghost use Rattle.rax_packed.specs.Copies.{IsCopy};
ghost use Rattle.rax_packed.specs.Nodes.{IsNode, node_of, spelled};
ghost use Rattle.rax_packed.specs.Trees.{node_at, refs_at, IsTreeAt};
ghost use Rattle.rax_packed.specs.Ways.{IsInnerBytes, links_in};

use crate::Memory;
use crate::build::shortened;
use crate::grow::relink;
use crate::release::{child_at, release_below, spread};
use blocks::{BlockRef, BlockStore, put_block};

/// Copies a node and all below it, where so many bytes of each key are left. `Memory` leaves all blocks.
pub(crate) fn copy_below<B: BlockStore>(
    store: &mut B,
    at: BlockRef,
    rest: usize,
) -> Result<BlockRef, Memory>
    requires tree { IsTreeAt rest (B.blocks store.old) at }
    requires owned { Owned (refs_at rest (B.blocks store.old) at) (B.blocks store.old) }
    requires short { rest ≤ 16 }
    ensures copied { IfOk result (λ new. IsCopy rest (B.blocks store.old) (B.blocks store.new) at new) }
    ensures served { Served B.step store.old store.new }
    ensures err { OnErr result (B.blocks store.new ≡ B.blocks store.old) }
{
    let (count, below) = spread(store.bytes(at), rest);
    let new = copy_node(store, at)?;
    for place in 0..count {
        let to = child_at(store.bytes(at), place);
        match copy_below(store, to, below) {
            Ok(copy) => relink(store, new, place, copy),
            Err(refused) => {
                release_links(store, new, below, place);
                return Err(refused);
            }
        }
    }
    Ok(new)
}

// Places a block of a node's bytes, without the zero bytes at its end.
fn copy_node<B: BlockStore>(store: &mut B, at: BlockRef) -> Result<BlockRef, Memory>
    requires live { IsSome (B.blocks store.old at) }
    requires node { (rest : ℕ) × IsNode rest (bytes_at (B.blocks store.old) at) × (rest ≤ 16) }
    ensures fresh { IfOk result (λ new. B.blocks store.old new ≡ None) }
    ensures placed { IfOk result (λ new. B.blocks store.new ≡ with_block (B.blocks store.old) new (Some (spelled (node_at (B.blocks store.old) at)))) }
    ensures changes { IfOk result (λ new. Changes (B.blocks store.old) (B.blocks store.new) [] (new ∷ [])) }
    ensures served { Served B.step store.old store.new }
    ensures err { OnErr result (B.blocks store.new ≡ B.blocks store.old) }
{
    let bytes = shortened(store.bytes(at), 0);
    put_block(store, bytes.as_slice())
}

// Gives back a node and the trees that its first links name, where so many bytes of each key are left below it.
fn release_links<B: BlockStore>(store: &mut B, at: BlockRef, below: usize, count: usize)
    requires live { IsSome (B.blocks store.old at) }
    requires inner { IsInnerBytes (bytes_at (B.blocks store.old) at) }
    requires count { count ≤ length (links_in (node_at (B.blocks store.old) at)) }
    requires trees { AllByRecursion (λ l. IsTreeAt below (B.blocks store.old) l.to) (take count (links_in (node_at (B.blocks store.old) at))) }
    requires owned { Owned (at ∷ flat_map (λ l. refs_at below (B.blocks store.old) l.to) (take count (links_in (node_at (B.blocks store.old) at)))) (B.blocks store.old) }
    requires short { below ≤ 16 }
    ensures changes { Changes (B.blocks store.old) (B.blocks store.new) (at ∷ flat_map (λ l. refs_at below (B.blocks store.old) l.to) (take count (links_in (node_at (B.blocks store.old) at)))) [] }
    ensures served { Served B.step store.old store.new }
{
    for place in 0..count {
        let to = child_at(store.bytes(at), place);
        release_below(store, to, below);
    }
    store.give_back(at);
}
