// Packed nodes that are edited in their blocks. A block stays in its place where its class is the least that holds the node after the
// edit too; else the node is placed in a block of its own length, and then the old block is given back.

ghost use Rattle.std.specs.Prelude.{◌≡◌, ◌<◌, ◌≤◌, ◌+◌, ◌-◌, ℕ, Some, IsSome, IsTrue, IfOk, OnOk, OnErr, false, length, slice_set};
ghost use Rattle.std.specs.List.{insert as inserted, remove_range as range_removed};
ghost use Rattle.blocks.specs.Blocks.{Served, with_block};
ghost use Rattle.listpack.specs.Pack.{texts};
ghost use Rattle.quicklist.specs.Nodes.{IsPacked, IsReadable, IsRemade, HasSpace, pack_len, node_at, node_list};
ghost use Rattle.quicklist.specs.Chain.{IsQuick, IsWritten, respelled};

use crate::node::{Container, Node};
use crate::piece::{PACKED_BYTES, is_long};
use crate::quick::Quick;
use blocks::{BlockRef, BlockStore, Memory, put_block};
use listpack::entry_size;
use pack_block::{insert, remove_range};

/// Whether an element has room in a node beside its others.
pub(crate) fn has_space<B: BlockStore>(store: &B, node: Node, element: &[u8]) -> bool
    requires { IsReadable (B.blocks store.now) node }
    ensures space { IsTrue result → HasSpace (B.blocks store.now) node element.now }
    ensures none { result ≡ false → (index : ℕ) → 8192 < pack_len (inserted (node_list (B.blocks store.now) node) index element.now) }
{
    if is_long(element) {
        return false;
    }
    match node.container {
        Container::Plain => false,
        Container::Packed => node.bytes(store).len() + entry_size(element) <= PACKED_BYTES,
    }
}

// Puts an element before the one at an index of a packed node, or behind all others.
fn put_entry<B: BlockStore>(
    store: &mut B,
    node: Node,
    index: usize,
    element: &[u8],
) -> Result<BlockRef, Memory>
    requires readable { IsReadable (B.blocks store.old) node }
    requires index { index ≤ length (node_list (B.blocks store.old) node) }
    requires space { HasSpace (B.blocks store.old) node element.now }
    ensures remade { IfOk result (IsRemade (B.blocks store.old) (B.blocks store.new) node (inserted (node_list (B.blocks store.old) node) index element.now)) }
    ensures served { Served B.step store.old store.new }
    ensures err_blocks { OnErr result (B.blocks store.new ≡ B.blocks store.old) }
{
    insert(store, node.at, index, element)
}

// Takes the elements from an index to below another out of a packed node.
fn take_entries<B: BlockStore>(
    store: &mut B,
    node: Node,
    from: usize,
    to: usize,
) -> Result<BlockRef, Memory>
    requires readable { IsReadable (B.blocks store.old) node }
    requires packed { node.container ≡ Container.Packed }
    requires order { from ≤ to }
    requires inside { to ≤ length (node_list (B.blocks store.old) node) }
    ensures remade { IfOk result (IsRemade (B.blocks store.old) (B.blocks store.new) node (range_removed (node_list (B.blocks store.old) node) from to)) }
    ensures served { Served B.step store.old store.new }
    ensures err_blocks { OnErr result (B.blocks store.new ≡ B.blocks store.old) }
{
    remove_range(store, node.at, from, to)
}

// Puts bytes in the place of all those of a block, where it stays. False where another class is the least that holds them.
fn write_over<B: BlockStore>(store: &mut B, at: BlockRef, bytes: &[u8]) -> bool
    requires { IsSome (B.blocks store.old at) }
    ensures written { IsTrue result → B.blocks store.new ≡ with_block (B.blocks store.old) at (Some bytes.now) }
    ensures stays { result ≡ false → B.blocks store.new ≡ B.blocks store.old }
    ensures served { Served B.step store.old store.new }
{
    if !store.stretch(at, bytes.len()) {
        return false;
    }
    store.write(at, 0, bytes);
    true
}

// A listpack in the place of a node's bytes.
fn put_pack<B: BlockStore>(store: &mut B, node: Node, bytes: &[u8]) -> Result<BlockRef, Memory>
    requires live { IsSome (B.blocks store.old node.at) }
    requires packed { IsPacked bytes.now }
    ensures remade { IfOk result (IsRemade (B.blocks store.old) (B.blocks store.new) node (texts bytes.now)) }
    ensures served { Served B.step store.old store.new }
    ensures err_blocks { OnErr result (B.blocks store.new ≡ B.blocks store.old) }
{
    if write_over(store, node.at, bytes) {
        return Ok(node.at);
    }
    let new = put_block(store, bytes)?;
    store.give_back(node.at);
    Ok(new)
}

impl Quick {
    // The node k is packed, of so many elements in this block, and the list has so many.
    fn set_node(&mut self, k: usize, at: BlockRef, count: u32, len: usize)
        requires { k < length self.old.nodes }
        ensures nodes { self.new.nodes ≡ slice_set self.old.nodes k (record { at = at; count = count; container = Container.Packed }) }
        ensures len { self.new.len ≡ len }
        ensures form { self.new.form ≡ self.old.form }
    {
        self.nodes[k] = Node {
            at,
            count,
            container: Container::Packed,
        };
        self.len = len;
    }

    // Puts an element into the node k, before its element i, or behind all of them.
    pub(crate) fn put_in<B: BlockStore>(
        &mut self,
        store: &mut B,
        k: usize,
        i: usize,
        element: &[u8],
        len: usize,
    ) -> Result<(), Memory>
        requires quick { IsQuick (B.blocks store.old) self.old }
        requires inside { k < length self.old.nodes }
        requires index { i ≤ length (node_list (B.blocks store.old) (node_at self.old.nodes k)) }
        requires space { HasSpace (B.blocks store.old) (node_at self.old.nodes k) element.now }
        requires len { len ≡ length (respelled (B.blocks store.old) self.old k (inserted (node_list (B.blocks store.old) (node_at self.old.nodes k)) i element.now) (k + 1)) }
        ensures written { OnOk result
            (IsWritten (B.blocks store.old) (B.blocks store.new) self.old self.new
            (respelled (B.blocks store.old) self.old k (inserted (node_list (B.blocks store.old) (node_at self.old.nodes k)) i element.now) (k + 1))) }
        ensures served { Served B.step store.old store.new }
        ensures err_list { OnErr result (self.new ≡ self.old) }
        ensures err_blocks { OnErr result (B.blocks store.new ≡ B.blocks store.old) }
    {
        let node = self.nodes[k];
        let at = put_entry(store, node, i, element)?;
        self.set_node(k, at, node.count + 1, len);
        Ok(())
    }

    // Takes the elements of the packed node k from its element i to below its element j out of it, where others are left.
    pub(crate) fn take_out<B: BlockStore>(
        &mut self,
        store: &mut B,
        k: usize,
        i: usize,
        j: usize,
        len: usize,
    ) -> Result<(), Memory>
        requires quick { IsQuick (B.blocks store.old) self.old }
        requires inside { k < length self.old.nodes }
        requires packed { (node_at self.old.nodes k).container ≡ Container.Packed }
        requires order { i ≤ j }
        requires to { j ≤ length (node_list (B.blocks store.old) (node_at self.old.nodes k)) }
        requires left { j - i < length (node_list (B.blocks store.old) (node_at self.old.nodes k)) }
        requires len { len ≡ length (respelled (B.blocks store.old) self.old k (range_removed (node_list (B.blocks store.old) (node_at self.old.nodes k)) i j) (k + 1)) }
        ensures written { OnOk result
            (IsWritten (B.blocks store.old) (B.blocks store.new) self.old self.new
            (respelled (B.blocks store.old) self.old k (range_removed (node_list (B.blocks store.old) (node_at self.old.nodes k)) i j) (k + 1))) }
        ensures form { self.new.form ≡ self.old.form }
        ensures served { Served B.step store.old store.new }
        ensures err_list { OnErr result (self.new ≡ self.old) }
        ensures err_blocks { OnErr result (B.blocks store.new ≡ B.blocks store.old) }
    {
        let node = self.nodes[k];
        let at = take_entries(store, node, i, j)?;
        self.set_node(k, at, node.count - (j - i) as u32, len);
        Ok(())
    }

    // One packed node of these bytes in the place of the node k.
    pub(crate) fn rewrite<B: BlockStore>(
        &mut self,
        store: &mut B,
        k: usize,
        bytes: &[u8],
        count: u32,
        len: usize,
    ) -> Result<(), Memory>
        requires quick { IsQuick (B.blocks store.old) self.old }
        requires inside { k < length self.old.nodes }
        requires packed { IsPacked bytes.now }
        requires count { count ≡ length (texts bytes.now) }
        requires some { 0 < count }
        requires len { len ≡ length (respelled (B.blocks store.old) self.old k (texts bytes.now) (k + 1)) }
        ensures written { OnOk result (IsWritten (B.blocks store.old) (B.blocks store.new) self.old self.new (respelled (B.blocks store.old) self.old k (texts bytes.now) (k + 1))) }
        ensures form { self.new.form ≡ self.old.form }
        ensures served { Served B.step store.old store.new }
        ensures err_list { OnErr result (self.new ≡ self.old) }
        ensures err_blocks { OnErr result (B.blocks store.new ≡ B.blocks store.old) }
    {
        let at = put_pack(store, self.nodes[k], bytes)?;
        self.set_node(k, at, count, len);
        Ok(())
    }
}
