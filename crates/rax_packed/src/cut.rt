// Taking a key out.

ghost use Rattle.std.specs.Prelude.{◌≡◌, suc, ◌+◌, ◌<◌, ◌≤◌, ◌++◌, [], true, false, None, Some, IsSome, length, replicate};
ghost use Rattle.std.specs.List.{remove};
ghost use Rattle.blocks.specs.Blocks.{with_block, overwritten, bytes_at, Changes, Owned, Served};
ghost use Rattle.rax_packed.specs.Nodes.{node_of, spelled, Inner};
ghost use Rattle.rax_packed.specs.Exact.{PlacesNone};
ghost use Rattle.rax_packed.specs.Packed.{value_at, without};
ghost use Rattle.rax_packed.specs.Trees.{entries_at, refs_at, IsTreeAt, Becomes};
ghost use Rattle.rax_packed.specs.Ways.{IsInnerBytes, links_in, prefix_in};

use crate::build::narrowed;
use crate::node::{Way, read_sections, way_of};
use blocks::{BlockRef, BlockStore};

/// A tree that has lost a key.
#[derive(Clone, Copy)]
pub(crate) struct Cut {
    /// Whether its top node is gone too, since no key is left.
    pub(crate) gone: bool,
    /// How many nodes fewer it has.
    pub(crate) fewer: u64,
}

/// Takes a key out that stands in the tree, of which the bytes from a node on are left.
pub(crate) fn cut_below<B: BlockStore>(store: &mut B, at: BlockRef, rest: &[u8]) -> Cut
    requires tree { IsTreeAt (length rest.now) (B.blocks store.old) at }
    requires owned { Owned (refs_at (length rest.now) (B.blocks store.old) at) (B.blocks store.old) }
    requires short { length rest.now ≤ 16 }
    requires stands { IsSome (value_at (entries_at (length rest.now) (B.blocks store.old) at) rest.now) }
    ensures gone { result.gone ≡ true → without (entries_at (length rest.now) (B.blocks store.old) at) rest.now ≡ [] }
    ensures ended { result.gone ≡ true → Changes (B.blocks store.old) (B.blocks store.new) (refs_at (length rest.now) (B.blocks store.old) at) [] }
    ensures kept { result.gone ≡ false → Becomes (length rest.now) (B.blocks store.old) (B.blocks store.new) at at
        (without (entries_at (length rest.now) (B.blocks store.old) at) rest.now) }
    ensures ended_fewer { result.gone ≡ true → length (refs_at (length rest.now) (B.blocks store.old) at) ≡ result.fewer }
    ensures kept_fewer { result.gone ≡ false → length (refs_at (length rest.now) (B.blocks store.old) at) ≡ length (refs_at (length rest.now) (B.blocks store.new) at) + result.fewer }
    ensures few { result.fewer ≤ suc (length rest.now) }
    ensures none { PlacesNone (B.blocks store.old) (B.blocks store.new) }
    ensures once { suc (length (without (entries_at (length rest.now) (B.blocks store.old) at) rest.now)) ≡ length (entries_at (length rest.now) (B.blocks store.old) at) }
    ensures served { Served B.step store.old store.new }
{
    match way_of(store.bytes(at), rest) {
        Way::Leaf(_) => {
            store.give_back(at);
            Cut {
                gone: true,
                fewer: 1,
            }
        }
        Way::Parts(_) => unreachable!(),
        Way::Missing(_, _) => unreachable!(),
        Way::Link(place, from, to) => {
            let below = cut_below(store, to, &rest[from..]);
            if !below.gone {
                return below;
            }
            let gone = unlink(store, at, place);
            Cut {
                gone,
                fewer: with_one(below.fewer, gone),
            }
        }
    }
}

// How many nodes are gone, with the one above them where that is too.
fn with_one(fewer: u64, gone: bool) -> u64
    requires { fewer ≤ 17 }
    ensures gone { gone ≡ true → result ≡ fewer + 1 }
    ensures kept { gone ≡ false → result ≡ fewer }
    ensures few { result ≤ fewer + 1 }
{
    if gone { fewer + 1 } else { fewer }
}

// Takes a link of an inner node out, and answers whether the node is gone, since that was its only link.
fn unlink<B: BlockStore>(store: &mut B, at: BlockRef, place: usize) -> bool
    requires live { IsSome (B.blocks store.old at) }
    requires inner { IsInnerBytes (bytes_at (B.blocks store.old) at) }
    requires place { place < length (links_in (node_of (bytes_at (B.blocks store.old) at))) }
    ensures alone { result ≡ true → length (links_in (node_of (bytes_at (B.blocks store.old) at))) ≡ 1 }
    ensures ended { result ≡ true → B.blocks store.new ≡ with_block (B.blocks store.old) at None }
    ensures others { result ≡ false → 1 < length (links_in (node_of (bytes_at (B.blocks store.old) at))) }
    ensures written { result ≡ false → B.blocks store.new ≡ with_block (B.blocks store.old) at (Some (overwritten (bytes_at (B.blocks store.old) at) 0
        (spelled (Inner (prefix_in (node_of (bytes_at (B.blocks store.old) at))) (remove (links_in (node_of (bytes_at (B.blocks store.old) at))) place)) ++ replicate 13 0))) }
    ensures none { PlacesNone (B.blocks store.old) (B.blocks store.new) }
    ensures served { Served B.step store.old store.new }
{
    let node = read_sections(store.bytes(at));
    if node.edges.len() == 1 {
        store.give_back(at);
        return true;
    }
    let narrower = narrowed(store.bytes(at), place);
    store.write(at, 0, narrower.as_slice());
    false
}
