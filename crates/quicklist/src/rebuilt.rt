// The nodes of a list made anew, some of them as they are.

ghost use Rattle.std.specs.Prelude.{◌≡◌, ◌<◌, ◌^◌, [], length, IfOk, OnOk, OnErr};
ghost use Rattle.blocks.specs.Blocks.{Served, Changes};
ghost use Rattle.quicklist.specs.Nodes.{IsChain, elements_of, refs_of};
ghost use Rattle.quicklist.specs.Equal.{IsAdded, IsKept, IsRebuilt, IsOpen, HasRoom, cleared};

use crate::clearing::{Left, left_of};
use crate::node::{Container, Node};
use crate::piece::{Piece, place_piece};
use crate::reach::Reach;
use blocks::{BlockStore, Memory};
use std::alloc::Global;
use std::collections::VecDeque;

/// The nodes of a list made anew: all of them, those that were placed for it, and those that are in it no more.
#[derive(Drop)]
pub(crate) struct Rebuilt {
    pub(crate) nodes: VecDeque<Node>,
    pub(crate) placed: VecDeque<Node>,
    pub(crate) replaced: VecDeque<Node>,
}

impl Rebuilt {
    /// No node, with room for so many.
    pub(crate) fn with_room(alloc: Global, count: usize) -> Result<Rebuilt, Memory>
        ensures nodes { IfOk result (λ r. r.nodes.items ≡ []) }
        ensures placed { IfOk result (λ r. r.placed.items ≡ []) }
        ensures replaced { IfOk result (λ r. r.replaced.items ≡ []) }
        ensures room { IfOk result (λ r. HasRoom r 0 count) }
    {
        let nodes = VecDeque::with_capacity(alloc, count)?;
        let placed = VecDeque::with_capacity(alloc, count)?;
        let replaced = VecDeque::with_capacity(alloc, count)?;
        Ok(Rebuilt {
            nodes,
            placed,
            replaced,
        })
    }

    // Takes up a node of which this is left.
    fn add<B: BlockStore>(&mut self, store: &mut B, node: Node, left: Left) -> Result<(), Memory>
        requires room { IsOpen self.old }
        requires left { IsKept left }
        ensures added { OnOk result (IsAdded (B.blocks store.old) (B.blocks store.new) node left self.old self.new) }
        ensures served { Served B.step store.old store.new }
        ensures err_nodes { OnErr result (self.new ≡ self.old) }
        ensures err_blocks { OnErr result (B.blocks store.new ≡ B.blocks store.old) }
    {
        match left {
            Left::Whole => {
                self.nodes.push_back_reserved(node);
                Ok(())
            }
            Left::Nothing => {
                self.replaced.push_back_reserved(node);
                Ok(())
            }
            Left::Part(bytes, count) => {
                let piece = Piece {
                    container: Container::Packed,
                    count,
                    bytes: &bytes,
                };
                let fresh = place_piece(store, piece)?;
                self.nodes.push_back_reserved(fresh);
                self.placed.push_back_reserved(fresh);
                self.replaced.push_back_reserved(node);
                Ok(())
            }
        }
    }

    /// Takes up all these nodes, without the elements of a reach. After `Memory` those that were placed are still there.
    pub(crate) fn add_all<B: BlockStore>(
        &mut self,
        alloc: Global,
        store: &mut B,
        nodes: &VecDeque<Node>,
        reach: Reach<'_>,
    ) -> Result<(), Memory>
        requires chain { IsChain (B.blocks store.old) nodes.now.items }
        requires small { length (elements_of (B.blocks store.old) nodes.now.items) < 2 ^ 64 }
        requires none { self.old.nodes.items ≡ [] }
        requires none_placed { self.old.placed.items ≡ [] }
        requires none_replaced { self.old.replaced.items ≡ [] }
        requires room { HasRoom self.old 0 (length nodes.now.items) }
        ensures rebuilt { OnOk result (IsRebuilt (B.blocks store.old) (B.blocks store.new) nodes.now.items (cleared reach.entry 0 (elements_of (B.blocks store.old) nodes.now.items)) self.new) }
        ensures served { Served B.step store.old store.new }
        ensures err_changes { OnErr result (Changes (B.blocks store.old) (B.blocks store.new) [] (refs_of self.new.placed.items)) }
    {
        let mut start = 0;
        for k in 0..nodes.len() {
            let node = nodes[k];
            let bytes = node.bytes(store);
            let left = left_of(alloc, node.container, bytes, node.count, reach, start)?;
            self.add(store, node, left)?;
            start += node.count as usize;
        }
        Ok(())
    }
}
