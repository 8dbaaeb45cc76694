// Nodes that take the place of others.

ghost use Rattle.std.specs.Prelude.{◌≡◌, ◌+◌, ◌<◌, ◌≤◌, ◌++◌, ◌∷◌, [], length, take, drop, OnOk, OnErr};
ghost use Rattle.std.specs.List.{All, remove_range};
ghost use Rattle.blocks.specs.Blocks.{Served, Changes, Owned};
ghost use Rattle.std.specs.VecDeque.{deque_len, deque_capacity};
ghost use Rattle.quicklist.specs.Nodes.{IsChain, IsPiece, Exchanged, refs_of, Inserted};

use crate::node::Node;
use crate::piece::{Piece, place_piece};
use crate::quick::Quick;
use blocks::{BlockStore, Memory};
use object_codec::Form;
use std::collections::VecDeque;

// Puts a node where there is room for it.
fn insert_node(nodes: &mut VecDeque<Node>, k: usize, node: Node)
    requires index { k ≤ length nodes.old.items }
    requires room { deque_len nodes.old < deque_capacity nodes.old }
    ensures items { nodes.new.items ≡ take k nodes.old.items ++ (node ∷ drop k nodes.old.items) }
    ensures capacity { deque_capacity nodes.old ≤ deque_capacity nodes.new }
{
    match nodes.insert(k, node) {
        Ok(()) => {}
        Err(_) => unreachable!(),
    }
}

// Gives back the blocks of so many nodes from the node k on.
fn give_back_nodes<B: BlockStore>(store: &mut B, nodes: &VecDeque<Node>, k: usize, count: usize)
    requires inside { k + count ≤ length nodes.now.items }
    requires owned { Owned (refs_of nodes.now.items) (B.blocks store.old) }
    ensures changes { Changes (B.blocks store.old) (B.blocks store.new) (refs_of (take count (drop k nodes.now.items))) [] }
    ensures served { Served B.step store.old store.new }
{
    for i in 0..count {
        store.give_back(nodes[k + i].at);
    }
}

// Takes out so many nodes from the node k on, and gives their blocks back. They leave together, so that the others do not move anew for each.
pub(crate) fn end_nodes<B: BlockStore>(
    store: &mut B,
    nodes: &mut VecDeque<Node>,
    k: usize,
    count: usize,
)
    requires inside { k + count ≤ length nodes.old.items }
    requires owned { Owned (refs_of nodes.old.items) (B.blocks store.old) }
    ensures items { nodes.new.items ≡ remove_range nodes.old.items k (k + count) }
    ensures capacity { deque_capacity nodes.new ≡ deque_capacity nodes.old }
    ensures changes { Changes (B.blocks store.old) (B.blocks store.new) (refs_of (take count (drop k nodes.old.items))) [] }
    ensures served { Served B.step store.old store.new }
{
    give_back_nodes(store, nodes, k, count);
    drop(nodes.drain(k..k + count));
}

// Places nodes of these pieces before the node k. `Memory` leaves all as before.
fn place_all<B: BlockStore>(
    store: &mut B,
    nodes: &mut VecDeque<Node>,
    k: usize,
    pieces: &[Piece<'_>],
) -> Result<(), Memory>
    requires index { k ≤ length nodes.old.items }
    requires chain { IsChain (B.blocks store.old) nodes.old.items }
    requires pieces { All IsPiece pieces.now }
    requires room { deque_len nodes.old + length pieces.now ≤ deque_capacity nodes.old }
    ensures ok { OnOk result (Inserted (B.blocks store.old) (B.blocks store.new) nodes.old.items nodes.new.items k pieces.now) }
    ensures served { Served B.step store.old store.new }
    ensures err_nodes { OnErr result (nodes.new.items ≡ nodes.old.items) }
    ensures err_blocks { OnErr result (B.blocks store.new ≡ B.blocks store.old) }
{
    for i in 0..pieces.len() {
        match place_piece(store, pieces[i]) {
            Ok(node) => insert_node(nodes, k + i, node),
            Err(refused) => {
                end_nodes(store, nodes, k, i);
                return Err(refused);
            }
        }
    }
    Ok(())
}

impl Quick {
    // Nodes placed of these pieces take the place of `gone` nodes from the node k on, whose blocks are given back. The list then
    // has `len` elements and this form. `Memory` leaves all as before.
    pub(crate) fn exchange<B: BlockStore>(
        &mut self,
        store: &mut B,
        k: usize,
        gone: usize,
        pieces: &[Piece<'_>],
        len: usize,
        form: Form,
    ) -> Result<(), Memory>
        requires inside { k + gone ≤ length self.old.nodes }
        requires chain { IsChain (B.blocks store.old) self.old.nodes }
        requires pieces { All IsPiece pieces.now }
        ensures ok { OnOk result (Exchanged (B.blocks store.old) (B.blocks store.new) self.old.nodes self.new.nodes k (k + gone) pieces.now) }
        ensures len { OnOk result (self.new.len ≡ len) }
        ensures form { OnOk result (self.new.form ≡ form) }
        ensures served { Served B.step store.old store.new }
        ensures err_list { OnErr result (self.new ≡ self.old) }
        ensures err_blocks { OnErr result (B.blocks store.new ≡ B.blocks store.old) }
    {
        self.nodes.reserve(pieces.len())?;
        place_all(store, &mut self.nodes, k, pieces)?;
        end_nodes(store, &mut self.nodes, k + pieces.len(), gone);
        self.len = len;
        self.form = form;
        Ok(())
    }
}
