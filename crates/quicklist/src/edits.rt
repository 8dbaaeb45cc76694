// Elements put in, replaced and taken out.

ghost use Rattle.std.specs.Prelude.{◌≡◌, ◌∷◌, ◌<◌, ◌≤◌, ◌+◌, [], length, slice_set, sum_by, OnOk, OnErr};
ghost use Rattle.std.specs.List.{insert as inserted, remove as removed};
ghost use Rattle.blocks.specs.Blocks.{Served};
ghost use Rattle.quicklist.specs.Nodes.{IsGap, IsPart, IsPiece, three, node_at, node_list, count_of};
ghost use Rattle.quicklist.specs.Chain.{elements, IsQuick, IsChanged, IsWritten, IsOverfull, respelled, around};

use crate::locate::find;
use crate::node::Container;
use crate::packs::{pack_of, packed_piece, piece_of, replaced, without};
use crate::piece::Piece;
use crate::quick::Quick;
use crate::within::has_space;
use blocks::{BlockStore, Memory};
use object_codec::Form;
use std::alloc::AllocError;

impl Quick {
    // The element alone in a node, in the place of `gone` nodes from the node k on.
    fn place_alone<B: BlockStore>(
        &mut self,
        store: &mut B,
        k: usize,
        gone: usize,
        element: &[u8],
        len: usize,
    ) -> Result<(), Memory>
        requires quick { IsQuick (B.blocks store.old) self.old }
        requires inside { k + gone ≤ length self.old.nodes }
        requires overfull { IsOverfull self.old (respelled (B.blocks store.old) self.old k (element.now ∷ []) (k + gone)) len }
        ensures written { OnOk result (IsWritten (B.blocks store.old) (B.blocks store.new) self.old self.new (respelled (B.blocks store.old) self.old k (element.now ∷ []) (k + gone))) }
        ensures served { Served B.step store.old store.new }
        ensures err_list { OnErr result (self.new ≡ self.old) }
        ensures err_blocks { OnErr result (B.blocks store.new ≡ B.blocks store.old) }
    {
        let pack = pack_of(self.alloc, element)?;
        self.exchange(
            store,
            k,
            gone,
            &[piece_of(&pack, element)],
            len,
            Form::Quicklist,
        )
    }

    // Three pieces in the place of the node k, those without elements left out.
    fn place_around<'a, B: BlockStore>(
        &mut self,
        store: &mut B,
        k: usize,
        before: Piece<'a>,
        middle: Piece<'a>,
        behind: Piece<'a>,
        len: usize,
    ) -> Result<(), Memory>
        requires quick { IsQuick (B.blocks store.old) self.old }
        requires inside { k < length self.old.nodes }
        requires before { IsPart before }
        requires middle { IsPiece middle }
        requires behind { IsPart behind }
        requires overfull { IsOverfull self.old (respelled (B.blocks store.old) self.old k (three before middle behind) (k + 1)) len }
        ensures written { OnOk result
            (IsWritten (B.blocks store.old) (B.blocks store.new) self.old self.new (respelled (B.blocks store.old) self.old k (three before.entry middle.entry behind.entry) (k + 1))) }
        ensures served { Served B.step store.old store.new }
        ensures err_list { OnErr result (self.new ≡ self.old) }
        ensures err_blocks { OnErr result (B.blocks store.new ≡ B.blocks store.old) }
    {
        match (before.count, behind.count) {
            (0, 0) => self.exchange(store, k, 1, &[middle], len, Form::Quicklist),
            (0, _) => self.exchange(store, k, 1, &[middle, behind], len, Form::Quicklist),
            (_, 0) => self.exchange(store, k, 1, &[before, middle], len, Form::Quicklist),
            _ => self.exchange(store, k, 1, &[before, middle, behind], len, Form::Quicklist),
        }
    }

    // The elements of the node k before its element `from`, another element, and those of the node from its element `to` on, each
    // in a node of its own.
    fn split<B: BlockStore>(
        &mut self,
        store: &mut B,
        k: usize,
        from: usize,
        to: usize,
        element: &[u8],
        len: usize,
    ) -> Result<(), Memory>
        requires quick { IsQuick (B.blocks store.old) self.old }
        requires inside { k < length self.old.nodes }
        requires packed { (node_at self.old.nodes k).container ≡ Container.Packed }
        requires order { from ≤ to }
        requires bound { to ≤ (node_at self.old.nodes k).count }
        requires overfull { IsOverfull self.old (respelled (B.blocks store.old) self.old k (around from to element.now (node_list (B.blocks store.old) (node_at self.old.nodes k))) (k + 1)) len }
        ensures written { OnOk result
            (IsWritten (B.blocks store.old) (B.blocks store.new) self.old self.new
            (respelled (B.blocks store.old) self.old k (around from to element.now (node_list (B.blocks store.old) (node_at self.old.nodes k))) (k + 1))) }
        ensures served { Served B.step store.old store.new }
        ensures err_list { OnErr result (self.new ≡ self.old) }
        ensures err_blocks { OnErr result (B.blocks store.new ≡ B.blocks store.old) }
    {
        let node = self.nodes[k];
        let count = node.count as usize;
        let alone = pack_of(self.alloc, element)?;
        let bytes = node.bytes(store);
        let left = without(self.alloc, bytes, from, count)?;
        let right = without(self.alloc, bytes, 0, to)?;
        let before = packed_piece(&left, from as u32);
        let behind = packed_piece(&right, (count - to) as u32);
        self.place_around(store, k, before, piece_of(&alone, element), behind, len)
    }

    // The first element of an empty list.
    fn begin<B: BlockStore>(&mut self, store: &mut B, element: &[u8]) -> Result<(), Memory>
        requires quick { IsQuick (B.blocks store.old) self.old }
        requires empty { self.old.nodes ≡ [] }
        ensures written { OnOk result (IsWritten (B.blocks store.old) (B.blocks store.new) self.old self.new (element.now ∷ [])) }
        ensures served { Served B.step store.old store.new }
        ensures err_list { OnErr result (self.new ≡ self.old) }
        ensures err_blocks { OnErr result (B.blocks store.new ≡ B.blocks store.old) }
    {
        let form = self.form;
        match pack_of(self.alloc, element)? {
            Some(bytes) => {
                let piece = Piece {
                    container: Container::Packed,
                    count: 1,
                    bytes: &bytes,
                };
                self.exchange(store, 0, 0, &[piece], 1, form)
            }
            None => {
                let piece = Piece {
                    container: Container::Plain,
                    count: 1,
                    bytes: element,
                };
                self.exchange(store, 0, 0, &[piece], 1, Form::Quicklist)
            }
        }
    }

    // The node and the index in it before which an element is put that is to stand at an index of the list.
    fn gap(&self, index: usize) -> (usize, usize)
        requires len { self.now.len ≡ sum_by count_of self.now.nodes }
        requires some { 0 < length self.now.nodes }
        requires index { index ≤ self.now.len }
        ensures { IsGap self.now.nodes index result.0 result.1 }
    {
        if index == 0 {
            return (0, 0);
        }
        let (k, j) = find(&self.nodes, index - 1, self.len);
        (k, j + 1)
    }

    /// Puts an element before the one at `index`, or behind all others where `index` is their number.
    ///
    /// `Memory` leaves all as before.
    pub fn insert<B: BlockStore>(
        &mut self,
        store: &mut B,
        index: usize,
        element: &[u8],
    ) -> Result<(), Memory>
        requires quick { IsQuick (B.blocks store.old) self.old }
        requires index { index ≤ length (elements (B.blocks store.old) self.old) }
        ensures written { OnOk result (IsWritten (B.blocks store.old) (B.blocks store.new) self.old self.new (inserted (elements (B.blocks store.old) self.old) index element.now)) }
        ensures served { Served B.step store.old store.new }
        ensures err_list { OnErr result (self.new ≡ self.old) }
        ensures err_blocks { OnErr result (B.blocks store.new ≡ B.blocks store.old) }
    {
        let Some(len) = self.len.checked_add(1) else {
            return Err(AllocError);
        };
        if self.nodes.is_empty() {
            return self.begin(store, element);
        }
        let (k, j) = self.gap(index);
        let node = self.nodes[k];
        if has_space(store, node, element) {
            return self.put_in(store, k, j, element, len);
        }
        if j == 0 {
            return self.place_alone(store, k, 0, element, len);
        }
        if j == node.count as usize {
            return self.place_alone(store, k + 1, 0, element, len);
        }
        self.split(store, k, j, j, element, len)
    }

    /// Puts an element in the place of the one at `index`.
    ///
    /// `Memory` leaves all as before.
    pub fn set<B: BlockStore>(
        &mut self,
        store: &mut B,
        index: usize,
        element: &[u8],
    ) -> Result<(), Memory>
        requires quick { IsQuick (B.blocks store.old) self.old }
        requires index { index < length (elements (B.blocks store.old) self.old) }
        ensures written { OnOk result (IsWritten (B.blocks store.old) (B.blocks store.new) self.old self.new (slice_set (elements (B.blocks store.old) self.old) index element.now)) }
        ensures served { Served B.step store.old store.new }
        ensures err_list { OnErr result (self.new ≡ self.old) }
        ensures err_blocks { OnErr result (B.blocks store.new ≡ B.blocks store.old) }
    {
        let len = self.len;
        let (k, j) = find(&self.nodes, index, len);
        let node = self.nodes[k];
        match replaced(self.alloc, node.container, node.bytes(store), j, element)? {
            Some(pack) => self.rewrite(store, k, &pack, node.count, len),
            None if node.count == 1 => self.place_alone(store, k, 1, element, len),
            None => self.split(store, k, j, j + 1, element, len),
        }
    }

    /// Takes out the element at `index`.
    ///
    /// `Memory` leaves all as before.
    pub fn remove<B: BlockStore>(&mut self, store: &mut B, index: usize) -> Result<(), Memory>
        requires quick { IsQuick (B.blocks store.old) self.old }
        requires index { index < length (elements (B.blocks store.old) self.old) }
        ensures changed { OnOk result (IsChanged (B.blocks store.old) (B.blocks store.new) self.old self.new (removed (elements (B.blocks store.old) self.old) index)) }
        ensures form { self.new.form ≡ self.old.form }
        ensures served { Served B.step store.old store.new }
        ensures err_list { OnErr result (self.new ≡ self.old) }
        ensures err_blocks { OnErr result (B.blocks store.new ≡ B.blocks store.old) }
    {
        let len = self.len;
        let (k, j) = find(&self.nodes, index, len);
        let node = self.nodes[k];
        if node.count == 1 {
            let form = self.form;
            return self.exchange(store, k, 1, &[], len - 1, form);
        }
        self.take_out(store, k, j, j + 1, len - 1)
    }
}
