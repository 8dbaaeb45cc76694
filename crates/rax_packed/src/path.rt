// The nodes whose least key is a given one.

ghost use Rattle.std.specs.Prelude.{◌≡◌, ◌≢◌, ◌+◌, ◌<◌, ◌≤◌, [], ◌∷◌, ◌++◌, if◌then◌else◌, IsSome, IsTrue, ◌↔◌, length, slice_index_or};
ghost use Rattle.rax_packed.specs.Packed.{value_at};
ghost use Rattle.rax_packed.specs.Paths.{is_first, nodes_with};
ghost use Rattle.rax_packed.specs.Trees.{entries_at, marks_at, IsTreeAt};

use crate::node::{Way, way_of};
use blocks::{BlockRef, BlockStore};
use std::marker::Model;

/// The most nodes of one way: one for each byte of a key, and a last leaf.
const MOST_NODES: usize = 17;

/// References of nodes on the way to a key, from the top: at most 17.
#[derive(Debug, Drop)]
pub struct PathNodes {
    refs: [BlockRef; MOST_NODES],
    len: usize,
}

impl Model for PathNodes {
    ghost use Rattle.std.specs.Prelude.{◌≤◌, List, take};
    ghost use Rattle.blocks.specs.declared.BlockRef.{BlockRef};

    ghost Value = { List BlockRef };

    ghost view = { λ p. take p.len p.refs };

    ghost invariant = { λ p. p.len ≤ 17 };
}

impl PathNodes {
    /// No node.
    pub(crate) fn new() -> PathNodes
        ensures { result ≡ [] }
    {
        PathNodes {
            refs: [BlockRef { slab: 0, slot: 0 }; MOST_NODES],
            len: 0,
        }
    }

    // The nodes.
    fn as_slice(&self) -> &[BlockRef]
        ensures nodes { result.now ≡ self.now }
        ensures few { length self.now ≤ 17 }
    {
        &self.refs[..self.len]
    }

    /// The number of nodes.
    pub fn len(&self) -> usize
        ensures len { result ≡ length self.now }
        ensures few { result ≤ 17 }
    {
        self.as_slice().len()
    }

    /// Whether there is no node.
    pub fn is_empty(&self) -> bool
        ensures { IsTrue result ↔ (self.now ≡ []) }
    {
        self.as_slice().is_empty()
    }

    /// The node at an index.
    pub fn at(&self, index: usize) -> BlockRef
        requires { index < length self.now }
        ensures { result ≡ slice_index_or self.now index result }
    {
        self.as_slice()[index]
    }

    // Appends a node.
    fn push(&mut self, at: BlockRef)
        requires { length self.old < 17 }
        ensures { self.new ≡ self.old ++ at ∷ [] }
    {
        self.refs[self.len] = at;
        self.len += 1;
    }

    // Goes on from a node by the link with this number: behind the first one lie greater keys than the node's least.
    fn pass(&mut self, at: BlockRef, place: usize)
        requires { length self.old < 17 }
        ensures first { place ≡ 0 → self.new ≡ self.old ++ at ∷ [] }
        ensures other { place ≢ 0 → self.new ≡ [] }
        ensures room { length self.new ≤ length self.old + 1 }
    {
        if place == 0 {
            self.push(at);
        } else {
            self.len = 0;
        }
    }
}

/// Appends the nodes of a tree whose least key is this one to those above it; where the tree has a lesser one, it is not
/// the least above either, and those go.
pub(crate) fn nodes_below<B: BlockStore>(
    store: &B,
    at: BlockRef,
    rest: &[u8],
    nodes: &mut PathNodes,
)
    requires tree { IsTreeAt (length rest.now) (B.blocks store.now) at }
    requires stands { IsSome (value_at (entries_at (length rest.now) (B.blocks store.now) at) rest.now) }
    requires room { length nodes.old + length rest.now ≤ 16 }
    ensures { nodes.new ≡ (if is_first (entries_at (length rest.now) (B.blocks store.now) at) rest.now then nodes.old else [])
        ++ nodes_with (marks_at (length rest.now) (B.blocks store.now) at) rest.now }
{
    match way_of(store.bytes(at), rest) {
        Way::Leaf(_) => nodes.push(at),
        Way::Parts(_) => unreachable!(),
        Way::Missing(_, _) => unreachable!(),
        Way::Link(place, from, to) => {
            nodes.pass(at, place);
            nodes_below(store, to, &rest[from..], nodes);
        }
    }
}
