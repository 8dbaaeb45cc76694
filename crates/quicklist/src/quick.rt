// Lists.

ghost use Rattle.std.specs.Prelude.{◌≡◌, ◌≤◌, ◌↔◌, [], length, IsTrue, slice_index_or, MatchOption};
ghost use Rattle.blocks.specs.Blocks.{Blocks, Changes, Owned, Served};
ghost use Rattle.listpack.specs.Element.{element_text};
ghost use Rattle.object_codec.specs.Forms.{IsLeast, FitsList};
ghost use Rattle.quicklist.specs.Chain.{elements, refs, IsQuick};

use crate::exchange::end_nodes;
use crate::locate::find;
use crate::node::Node;
use crate::packs::element_at;
use blocks::BlockStore;
use listpack::Element;
use object_codec::Form;
use std::alloc::Global;
use std::collections::VecDeque;
use std::marker::Model;

/// A list of elements. It owns the blocks of its nodes in the store that each call is lent, and no other block.
///
/// A node is a listpack of at most 8,192 bytes. An element of which a listpack alone would be longer is a node by itself.
#[derive(Drop)]
pub struct Quick {
    pub(crate) alloc: Global,
    pub(crate) nodes: VecDeque<Node>,
    pub(crate) len: usize,
    pub(crate) form: Form,
}

impl Model for Quick {
    ghost use Rattle.quicklist.specs.Chain.{Chain};

    ghost Value = { Chain };

    ghost view = { λ q. record { nodes = q.nodes.items; len = q.len; form = q.form } };
}

impl Quick {
    /// An empty list. It takes no memory.
    pub fn new(alloc: Global) -> Quick
        ensures quick { (m : Blocks) → IsQuick m result }
        ensures empty { (m : Blocks) → elements m result ≡ [] }
        ensures form { IsLeast (FitsList 7) result.form }
    {
        Quick {
            alloc,
            nodes: VecDeque::new(alloc),
            len: 0,
            form: Form::Listpack,
        }
    }

    /// The number of elements.
    pub fn len(&self) -> usize
        ensures { result ≡ self.now.len }
    {
        self.len
    }

    /// Whether it has no element.
    pub fn is_empty(&self) -> bool
        ensures { IsTrue result ↔ (self.now.len ≡ 0) }
    {
        self.len == 0
    }

    /// The number of nodes.
    pub fn nodes(&self) -> usize
        ensures { result ≡ length (refs self.now) }
    {
        self.nodes.len()
    }

    /// How the list is kept: as one listpack, or as a list of nodes.
    pub fn form(&self) -> Form
        ensures { result ≡ self.now.form }
    {
        self.form
    }

    /// The element at an index.
    pub fn get<'a, B: BlockStore>(&self, store: &'a B, index: usize) -> Option<Element<'a>>
        requires { IsQuick (B.blocks store.now) self.now }
        ensures { MatchOption result (length (elements (B.blocks store.now) self.now) ≤ index) (λ element. element_text element ≡ slice_index_or (elements (B.blocks store.now) self.now) index []) }
    {
        if index >= self.len {
            return None;
        }
        let (k, j) = find(&self.nodes, index, self.len);
        let node = self.nodes[k];
        Some(element_at(node.container, node.bytes(store), j))
    }

    /// Gives back all blocks.
    pub fn release<B: BlockStore>(self, store: &mut B)
        requires { Owned (refs self) (B.blocks store.old) }
        ensures changes { Changes (B.blocks store.old) (B.blocks store.new) (refs self) [] }
        ensures served { Served B.step store.old store.new }
    {
        let mut nodes = self.nodes;
        let count = nodes.len();
        end_nodes(store, &mut nodes, 0, count);
    }
}
