// Ranges of elements taken out.

ghost use Rattle.std.specs.Prelude.{◌≡◌, ◌<◌, ◌≤◌, ◌^◌, ◌+◌, ◌-◌, ◌++◌, [], length, take, drop, IfOk, IfSome, IsSome, OnOk, OnErr};
ghost use Rattle.std.specs.List.{remove_range as range_removed};
ghost use Rattle.blocks.specs.Blocks.{Served};
ghost use Rattle.listpack.specs.Pack.{texts};
ghost use Rattle.quicklist.specs.Nodes.{IsHeld, IsPacked, IsPiece, IsReadable, held, piece_list, node_at, node_list, left_list, rest_list};
ghost use Rattle.quicklist.specs.Chain.{elements, IsQuick, IsChanged, respelled};

use crate::locate::find;
use crate::node::{Container, Node};
use crate::packs::{packed_piece, without};
use crate::piece::Piece;
use crate::quick::Quick;
use blocks::{BlockStore, Memory};
use std::alloc::Global;

// The bytes of a node of `count` elements without those from the index `from` to below `to`, or none where no element is left.
fn rest_of(
    alloc: Global,
    container: Container,
    bytes: &[u8],
    count: usize,
    from: usize,
    to: usize,
) -> Result<Option<Vec<u8>>, Memory>
    requires held { IsHeld container bytes.now }
    requires counted { count ≡ length (held container bytes.now) }
    requires order { from < to }
    requires inside { to ≤ count }
    ensures packed { IfOk result (λ pack. IfSome pack (λ v. IsPacked v.items × (length (texts v.items) + (to - from) ≡ count) × (0 < length (texts v.items)))) }
    ensures list { IfOk result (λ pack. left_list pack ≡ range_removed (held container bytes.now) from to) }
{
    if to - from == count {
        return Ok(None);
    }
    match container {
        Container::Plain => unreachable!(),
        Container::Packed => Ok(Some(without(alloc, bytes, from, to)?)),
    }
}

// The bytes of a node without its elements from the index `from` to below `to`, or none where no element is left.
fn node_rest<B: BlockStore>(
    alloc: Global,
    store: &B,
    node: Node,
    from: usize,
    to: usize,
) -> Result<Option<Vec<u8>>, Memory>
    requires readable { IsReadable (B.blocks store.now) node }
    requires order { from < to }
    requires inside { to ≤ node.count }
    ensures rest { IfOk result (λ pack. IfSome pack (λ v.
        IsPacked v.items × (node.count - (to - from) ≡ length (texts v.items)) × (0 < node.count - (to - from)) × (node.count - (to - from) < 2 ^ 32))) }
    ensures list { IfOk result (λ pack. left_list pack ≡ range_removed (node_list (B.blocks store.now) node) from to) }
{
    let count = node.count as usize;
    rest_of(alloc, node.container, node.bytes(store), count, from, to)
}

impl Quick {
    // Two pieces in the place of the nodes from k on, of which there are `gone`.
    fn place_two<'a, B: BlockStore>(
        &mut self,
        store: &mut B,
        k: usize,
        gone: usize,
        before: Piece<'a>,
        behind: Piece<'a>,
        len: usize,
    ) -> Result<(), Memory>
        requires quick { IsQuick (B.blocks store.old) self.old }
        requires inside { k + gone ≤ length self.old.nodes }
        requires many { 1 < length self.old.nodes }
        requires before { IsPiece before }
        requires behind { IsPiece behind }
        requires len { len ≡ length (respelled (B.blocks store.old) self.old k (piece_list before ++ piece_list behind) (k + gone)) }
        ensures changed { OnOk result
            (IsChanged (B.blocks store.old) (B.blocks store.new) self.old self.new
            (respelled (B.blocks store.old) self.old k (piece_list before.entry ++ piece_list behind.entry) (k + gone))) }
        ensures form { self.new.form ≡ self.old.form }
        ensures served { Served B.step store.old store.new }
        ensures err_list { OnErr result (self.new ≡ self.old) }
        ensures err_blocks { OnErr result (B.blocks store.new ≡ B.blocks store.old) }
    {
        let form = self.form;
        self.exchange(store, k, gone, &[before, behind], len, form)
    }

    // What is left in the place of the nodes from k on, of which there are `gone`: one node, or none.
    fn place_rest<B: BlockStore>(
        &mut self,
        store: &mut B,
        k: usize,
        gone: usize,
        rest: Option<&Vec<u8>>,
        count: usize,
        len: usize,
    ) -> Result<(), Memory>
        requires quick { IsQuick (B.blocks store.old) self.old }
        requires some { 0 < gone }
        requires many { IsSome rest → 1 < gone }
        requires inside { k + gone ≤ length self.old.nodes }
        requires rest { IfSome rest (λ v. IsPacked v.now.items × (count ≡ length (texts v.now.items)) × (0 < count) × (count < 2 ^ 32)) }
        requires len { len ≡ length (respelled (B.blocks store.old) self.old k (rest_list rest) (k + gone)) }
        ensures changed { OnOk result (IsChanged (B.blocks store.old) (B.blocks store.new) self.old self.new (respelled (B.blocks store.old) self.old k (rest_list rest.entry) (k + gone))) }
        ensures form { self.new.form ≡ self.old.form }
        ensures served { Served B.step store.old store.new }
        ensures err_list { OnErr result (self.new ≡ self.old) }
        ensures err_blocks { OnErr result (B.blocks store.new ≡ B.blocks store.old) }
    {
        let form = self.form;
        match rest {
            Some(bytes) => {
                let piece = Piece {
                    container: Container::Packed,
                    count: count as u32,
                    bytes,
                };
                self.exchange(store, k, gone, &[piece], len, form)
            }
            None => self.exchange(store, k, gone, &[], len, form),
        }
    }

    // What is left of two nodes in the place of the nodes from k on, of which there are `gone`: i elements of the one, and j of the other.
    fn place_rests<B: BlockStore>(
        &mut self,
        store: &mut B,
        k: usize,
        gone: usize,
        before: Option<&Vec<u8>>,
        i: usize,
        behind: Option<&Vec<u8>>,
        j: usize,
        len: usize,
    ) -> Result<(), Memory>
        requires quick { IsQuick (B.blocks store.old) self.old }
        requires many { 1 < gone }
        requires inside { k + gone ≤ length self.old.nodes }
        requires before { IfSome before (λ v. IsPacked v.now.items × (i ≡ length (texts v.now.items)) × (0 < i) × (i < 2 ^ 32)) }
        requires behind { IfSome behind (λ v. IsPacked v.now.items × (j ≡ length (texts v.now.items)) × (0 < j) × (j < 2 ^ 32)) }
        requires len { len ≡ length (respelled (B.blocks store.old) self.old k (rest_list before ++ rest_list behind) (k + gone)) }
        ensures changed { OnOk result
            (IsChanged (B.blocks store.old) (B.blocks store.new) self.old self.new
            (respelled (B.blocks store.old) self.old k (rest_list before.entry ++ rest_list behind.entry) (k + gone))) }
        ensures form { self.new.form ≡ self.old.form }
        ensures served { Served B.step store.old store.new }
        ensures err_list { OnErr result (self.new ≡ self.old) }
        ensures err_blocks { OnErr result (B.blocks store.new ≡ B.blocks store.old) }
    {
        match (before, behind) {
            (None, _) => self.place_rest(store, k, gone, behind, j, len),
            (Some(_), None) => self.place_rest(store, k, gone, before, i, len),
            (Some(a), Some(b)) => {
                let behind_piece = packed_piece(b, j as u32);
                self.place_two(store, k, gone, packed_piece(a, i as u32), behind_piece, len)
            }
        }
    }

    // Takes out the elements of the node `first` from its element i on, those of the node `last` before its element j, and the nodes
    // between them.
    fn remove_across<B: BlockStore>(
        &mut self,
        store: &mut B,
        first: usize,
        i: usize,
        last: usize,
        j: usize,
        len: usize,
    ) -> Result<(), Memory>
        requires quick { IsQuick (B.blocks store.old) self.old }
        requires order { first < last }
        requires inside { last < length self.old.nodes }
        requires from { i < length (node_list (B.blocks store.old) (node_at self.old.nodes first)) }
        requires some { 0 < j }
        requires to { j ≤ length (node_list (B.blocks store.old) (node_at self.old.nodes last)) }
        requires len { len ≡ length
            (respelled (B.blocks store.old) self.old first
            (take i (node_list (B.blocks store.old) (node_at self.old.nodes first)) ++ drop j (node_list (B.blocks store.old) (node_at self.old.nodes last))) (last + 1)) }
        ensures changed { OnOk result
            (IsChanged (B.blocks store.old) (B.blocks store.new) self.old self.new
            (respelled (B.blocks store.old) self.old first
            (take i (node_list (B.blocks store.old) (node_at self.old.nodes first)) ++ drop j (node_list (B.blocks store.old) (node_at self.old.nodes last))) (last + 1))) }
        ensures form { self.new.form ≡ self.old.form }
        ensures served { Served B.step store.old store.new }
        ensures err_list { OnErr result (self.new ≡ self.old) }
        ensures err_blocks { OnErr result (B.blocks store.new ≡ B.blocks store.old) }
    {
        let alloc = self.alloc;
        let (head, tail) = (self.nodes[first], self.nodes[last]);
        let before = node_rest(alloc, store, head, i, head.count as usize)?;
        let behind = node_rest(alloc, store, tail, 0, j)?;
        let left = tail.count as usize - j;
        self.place_rests(
            store,
            first,
            last + 1 - first,
            before.as_ref(),
            i,
            behind.as_ref(),
            left,
            len,
        )
    }

    // Takes out the elements of the node k from its element i on to before its element j.
    fn remove_within<B: BlockStore>(
        &mut self,
        store: &mut B,
        k: usize,
        i: usize,
        j: usize,
        len: usize,
    ) -> Result<(), Memory>
        requires quick { IsQuick (B.blocks store.old) self.old }
        requires inside { k < length self.old.nodes }
        requires order { i < j }
        requires to { j ≤ length (node_list (B.blocks store.old) (node_at self.old.nodes k)) }
        requires len { len ≡ length
            (respelled (B.blocks store.old) self.old k
            (take i (node_list (B.blocks store.old) (node_at self.old.nodes k)) ++ drop j (node_list (B.blocks store.old) (node_at self.old.nodes k))) (k + 1)) }
        ensures changed { OnOk result
            (IsChanged (B.blocks store.old) (B.blocks store.new) self.old self.new
            (respelled (B.blocks store.old) self.old k
            (take i (node_list (B.blocks store.old) (node_at self.old.nodes k)) ++ drop j (node_list (B.blocks store.old) (node_at self.old.nodes k))) (k + 1))) }
        ensures form { self.new.form ≡ self.old.form }
        ensures served { Served B.step store.old store.new }
        ensures err_list { OnErr result (self.new ≡ self.old) }
        ensures err_blocks { OnErr result (B.blocks store.new ≡ B.blocks store.old) }
    {
        if j - i < self.nodes[k].count as usize {
            return self.take_out(store, k, i, j, len);
        }
        self.place_rest(store, k, 1, None, 0, len)
    }

    /// Takes out the elements from the index `from` to below `to`. Nodes of which all elements go are given back whole.
    ///
    /// `Memory` leaves all as before.
    pub fn remove_range<B: BlockStore>(
        &mut self,
        store: &mut B,
        from: usize,
        to: usize,
    ) -> Result<(), Memory>
        requires quick { IsQuick (B.blocks store.old) self.old }
        requires order { from ≤ to }
        requires inside { to ≤ length (elements (B.blocks store.old) self.old) }
        ensures changed { OnOk result (IsChanged (B.blocks store.old) (B.blocks store.new) self.old self.new (range_removed (elements (B.blocks store.old) self.old) from to)) }
        ensures form { self.new.form ≡ self.old.form }
        ensures served { Served B.step store.old store.new }
        ensures err_list { OnErr result (self.new ≡ self.old) }
        ensures err_blocks { OnErr result (B.blocks store.new ≡ B.blocks store.old) }
    {
        if from == to {
            return Ok(());
        }
        let len = self.len;
        let (first, i) = find(&self.nodes, from, len);
        let (last, j) = find(&self.nodes, to - 1, len);
        let left = len - (to - from);
        if first < last {
            return self.remove_across(store, first, i, last, j + 1, left);
        }
        self.remove_within(store, first, i, j + 1, left)
    }
}
