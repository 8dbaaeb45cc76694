// Giving all nodes back.

ghost use Rattle.std.specs.Prelude.{◌≡◌, ◌-◌, ◌<◌, ◌≤◌, [], suc, length};
ghost use Rattle.blocks.specs.Blocks.{Changes, Owned, Served};
ghost use Rattle.rax_packed.specs.Nodes.{IsNode, Link, node_of};
ghost use Rattle.rax_packed.specs.Trees.{refs_at, IsTreeAt};
ghost use Rattle.rax_packed.specs.Ways.{IsInnerBytes, links_in, prefix_in};
ghost use Rattle.std.specs.List.{slice_index_or};

use crate::node::{link, read_sections};
use blocks::{BlockRef, BlockStore};

/// Gives back a node and all below it, where so many bytes of each key are left.
pub(crate) fn release_below<B: BlockStore>(store: &mut B, at: BlockRef, rest: usize)
    requires tree { IsTreeAt rest (B.blocks store.old) at }
    requires owned { Owned (refs_at rest (B.blocks store.old) at) (B.blocks store.old) }
    requires short { rest ≤ 16 }
    ensures changes { Changes (B.blocks store.old) (B.blocks store.new) (refs_at rest (B.blocks store.old) at) [] }
    ensures served { Served B.step store.old store.new }
{
    let (count, below) = spread(store.bytes(at), rest);
    for place in 0..count {
        let to = child_at(store.bytes(at), place);
        release_below(store, to, below);
    }
    store.give_back(at);
}

// How many links a node has, and how many bytes of each key are left behind them.
pub(crate) fn spread(bytes: &[u8], rest: usize) -> (usize, usize)
    requires node { IsNode rest bytes.now }
    requires short { rest ≤ 16 }
    ensures count { result.0 ≡ length (links_in (node_of bytes.now)) }
    ensures below { result.1 ≡ rest - suc (length (prefix_in (node_of bytes.now))) }
{
    if bytes[0] == 0 {
        return (0, 0);
    }
    let node = read_sections(bytes);
    (node.edges.len(), rest - node.prefix.len() - 1)
}

// The node that a link of an inner node names.
pub(crate) fn child_at(bytes: &[u8], place: usize) -> BlockRef
    requires inner { IsInnerBytes bytes.now }
    requires place { place < length (links_in (node_of bytes.now)) }
    ensures { (d : Link) → result ≡ (slice_index_or (links_in (node_of bytes.now)) place d).to }
{
    link(read_sections(bytes).refs, place)
}
