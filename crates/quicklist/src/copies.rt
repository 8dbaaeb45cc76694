// Lists copied, and lists whose blocks move.

ghost use Rattle.std.specs.Prelude.{◌≡◌, ◌≢◌, ℕ, ◌<◌, ◌≤◌, ◌+◌, [], Some, None, IfOk, OnErr, length, false};
ghost use Rattle.blocks.specs.Blocks.{Changes, Served};
ghost use Rattle.blocks.specs.Slabs.{wants, Calmer};
ghost use Rattle.quicklist.specs.Nodes.{IsChain, IsReadable, IsPlacedOf, bytes_of, node_at};
ghost use Rattle.quicklist.specs.Chain.{elements, refs, IsQuick, IsCopied, IsSettled, IsOutside, IsPassed};

use crate::exchange::end_nodes;
use crate::node::Node;
use crate::piece::{Piece, place_piece};
use crate::quick::Quick;
use blocks::{BlockStore, Memory, Moved, settle};
use std::alloc::Global;
use std::collections::VecDeque;

// Places a node of the same bytes.
fn copy_node<B: BlockStore>(alloc: Global, store: &mut B, node: Node) -> Result<Node, Memory>
    requires { IsReadable (B.blocks store.old) node }
    ensures placed { IfOk result (IsPlacedOf (B.blocks store.old) (B.blocks store.new) (bytes_of (B.blocks store.old) node)) }
    ensures count { IfOk result (λ n. n.count ≡ node.count) }
    ensures container { IfOk result (λ n. n.container ≡ node.container) }
    ensures served { Served B.step store.old store.new }
    ensures err_blocks { OnErr result (B.blocks store.new ≡ B.blocks store.old) }
{
    let bytes = Vec::from_slice(alloc, node.bytes(store))?;
    let piece = Piece {
        container: node.container,
        count: node.count,
        bytes: &bytes,
    };
    place_piece(store, piece)
}

// Places nodes of the same bytes as these. `Memory` leaves all as before.
fn copy_nodes<B: BlockStore>(
    alloc: Global,
    store: &mut B,
    nodes: &VecDeque<Node>,
) -> Result<VecDeque<Node>, Memory>
    requires { IsChain (B.blocks store.old) nodes.now.items }
    ensures copied { IfOk result (λ copy. IsCopied (B.blocks store.old) (B.blocks store.new) nodes.now.items copy.items) }
    ensures served { Served B.step store.old store.new }
    ensures err_blocks { OnErr result (B.blocks store.new ≡ B.blocks store.old) }
{
    let mut copy = VecDeque::with_capacity(alloc, nodes.len())?;
    for k in 0..nodes.len() {
        match copy_node(alloc, store, nodes[k]) {
            Ok(node) => copy.push_back_reserved(node),
            Err(refused) => {
                end_nodes(store, &mut copy, 0, k);
                return Err(refused);
            }
        }
    }
    Ok(copy)
}

// Moves the block of the node k where it wants that.
fn settle_node<B: BlockStore>(store: &mut B, nodes: &mut VecDeque<Node>, k: usize)
    requires inside { k < length nodes.old.items }
    requires chain { IsChain (B.blocks store.old) nodes.old.items }
    ensures settled { IsSettled (B.blocks store.old) (B.blocks store.new) nodes.old.items nodes.new.items (λ i. i ≢ k) }
    ensures calm { wants (B.heap store.new) (node_at nodes.new.items k).at ≡ false }
    ensures calmer { Calmer (B.heap store.old) (B.heap store.new) }
{
    let node = nodes[k];
    let at = settle(store, node.at);
    nodes[k] = Node {
        at,
        count: node.count,
        container: node.container,
    };
}

// Moves the blocks of the nodes from `start` to below `end` that want it.
fn settle_nodes<B: BlockStore>(store: &mut B, nodes: &mut VecDeque<Node>, start: usize, end: usize)
    requires order { start ≤ end }
    requires inside { end ≤ length nodes.old.items }
    requires chain { IsChain (B.blocks store.old) nodes.old.items }
    ensures settled { IsSettled (B.blocks store.old) (B.blocks store.new) nodes.old.items nodes.new.items (IsOutside start end) }
    ensures calm { (i : ℕ) → start ≤ i → i < end → wants (B.heap store.new) (node_at nodes.new.items i).at ≡ false }
    ensures calmer { Calmer (B.heap store.old) (B.heap store.new) }
{
    if store.is_calm() {
        return;
    }
    for k in start..end {
        settle_node(store, nodes, k);
    }
}

impl Quick {
    /// A list of the same elements and form over blocks that weren't live.
    ///
    /// `Memory` leaves all as before.
    pub fn copy<B: BlockStore>(&self, store: &mut B) -> Result<Quick, Memory>
        requires { IsQuick (B.blocks store.old) self.now }
        ensures quick { IfOk result (λ copy. IsQuick (B.blocks store.new) copy) }
        ensures list { IfOk result (λ copy. elements (B.blocks store.new) copy ≡ elements (B.blocks store.old) self.now) }
        ensures form { IfOk result (λ copy. copy.form ≡ self.now.form) }
        ensures nodes { IfOk result (λ copy. length (refs copy) ≡ length (refs self.now)) }
        ensures changes { IfOk result (λ copy. Changes (B.blocks store.old) (B.blocks store.new) [] (refs copy)) }
        ensures served { Served B.step store.old store.new }
        ensures err_blocks { OnErr result (B.blocks store.new ≡ B.blocks store.old) }
    {
        let nodes = copy_nodes(self.alloc, store, &self.nodes)?;
        Ok(Quick {
            alloc: self.alloc,
            nodes,
            len: self.len,
            form: self.form,
        })
    }

    /// Goes through the blocks from the mark `from` on, at most `room` of them, and moves each that wants it. The mark of a node's
    /// block is the node's index. It takes no memory.
    pub fn relocate_part<B: BlockStore>(&mut self, store: &mut B, from: u128, room: u32) -> Moved
        requires quick { IsQuick (B.blocks store.old) self.old }
        requires room { 32 ≤ room }
        ensures quick { IsQuick (B.blocks store.new) self.new }
        ensures list { elements (B.blocks store.new) self.new ≡ elements (B.blocks store.old) self.old }
        ensures form { self.new.form ≡ self.old.form }
        ensures changes { Changes (B.blocks store.old) (B.blocks store.new) (refs self.old) (refs self.new) }
        ensures calmer { Calmer (B.heap store.old) (B.heap store.new) }
        ensures passed { IsPassed (B.heap store.new) (refs self.old) (refs self.new) from room result }
    {
        let count = self.nodes.len();
        if from >= count as u128 {
            return Moved {
                next: None,
                used: 0,
            };
        }
        let start = from as usize;
        let end = count.min(start + room as usize);
        settle_nodes(store, &mut self.nodes, start, end);
        let used = (end - start) as u32;
        if end < count {
            Moved {
                next: Some(end as u128),
                used,
            }
        } else {
            Moved { next: None, used }
        }
    }
}
