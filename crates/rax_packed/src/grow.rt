// Putting a key in.

ghost use Rattle.std.specs.Prelude.{◌≡◌, ℕ, ◌+◌, ◌*◌, ◌<◌, ◌≤◌, None, IfOk, OnOk, OnErr, IsSome, Some, length};
ghost use Rattle.blocks.specs.Blocks.{with_block, overwritten, bytes_at, Owned, Served};
ghost use Rattle.rax_packed.specs.Nodes.{node_of, ref_bytes, IsRef};
ghost use Rattle.rax_packed.specs.Exact.{PlacesExactly};
ghost use Rattle.rax_packed.specs.Packed.{value_at, with_entry};
ghost use Rattle.rax_packed.specs.Trees.{entries_at, refs_at, IsTreeAt, Becomes};
ghost use Rattle.rax_packed.specs.Ways.{IsInnerBytes, Lacks, PartsAt, links_in, prefix_in};

use crate::Memory;
use crate::build::{forked, leaf_bytes, shortened, widened};
use crate::node::{REF_LEN, Way, pack, read_sections, way_of};
use blocks::{BlockRef, BlockStore, put_block};

/// A tree that has got a key.
#[derive(Clone, Copy)]
pub(crate) struct Grown {
    /// The node that stands in its place.
    pub(crate) at: BlockRef,
    /// How many nodes more it has: a leaf, and where that hangs at a new inner node that one too.
    pub(crate) more: u64,
}

/// Puts in a key that is missing, of which the bytes from a node on are left, and answers the node that stands in its
/// place then. `Memory` leaves all blocks.
pub(crate) fn add_below<B: BlockStore>(
    store: &mut B,
    at: BlockRef,
    rest: &[u8],
    value: BlockRef,
) -> Result<Grown, Memory>
    requires tree { IsTreeAt (length rest.now) (B.blocks store.old) at }
    requires owned { Owned (refs_at (length rest.now) (B.blocks store.old) at) (B.blocks store.old) }
    requires short { length rest.now ≤ 16 }
    requires missing { value_at (entries_at (length rest.now) (B.blocks store.old) at) rest.now ≡ None }
    ensures added { IfOk result (λ new. Becomes (length rest.now) (B.blocks store.old) (B.blocks store.new) at new.at
        (with_entry (entries_at (length rest.now) (B.blocks store.old) at) rest.now value)) }
    ensures more { IfOk result (λ new. length (refs_at (length rest.now) (B.blocks store.new) new.at) ≡ length (refs_at (length rest.now) (B.blocks store.old) at) + new.more) }
    ensures few { IfOk result (λ new. new.more ≤ 2) }
    ensures exact { OnOk result (PlacesExactly (B.blocks store.old) (B.blocks store.new)) }
    ensures served { Served B.step store.old store.new }
    ensures err { OnErr result (B.blocks store.new ≡ B.blocks store.old) }
{
    match way_of(store.bytes(at), rest) {
        Way::Leaf(_) => unreachable!(),
        Way::Parts(shared) => split(store, at, rest, shared, value),
        Way::Missing(place, from) => attach(store, at, rest, place, from, value),
        Way::Link(place, from, to) => {
            let new = add_below(store, to, &rest[from..], value)?;
            relink(store, at, place, new.at);
            Ok(Grown { at, more: new.more })
        }
    }
}

/// Lets a link of an inner node name another node.
pub(crate) fn relink<B: BlockStore>(store: &mut B, at: BlockRef, place: usize, to: BlockRef)
    requires live { IsSome (B.blocks store.old at) }
    requires inner { IsInnerBytes (bytes_at (B.blocks store.old) at) }
    requires place { place < length (links_in (node_of (bytes_at (B.blocks store.old) at))) }
    ensures written { (offset : ℕ) → offset ≡ 4 + length (prefix_in (node_of (bytes_at (B.blocks store.old) at))) + length (links_in (node_of (bytes_at (B.blocks store.old) at))) + 12 * place
        → B.blocks store.new ≡ with_block (B.blocks store.old) at (Some (overwritten (bytes_at (B.blocks store.old) at) offset (ref_bytes to))) }
    ensures fits { IsRef to }
    ensures slabs { B.heap store.new ≡ B.heap store.old }
    ensures served { Served B.step store.old store.new }
{
    let offset = link_offset(store.bytes(at), place);
    store.write(at, offset, &pack(to));
}

// Where the reference of a link stands.
fn link_offset(bytes: &[u8], place: usize) -> usize
    requires inner { IsInnerBytes bytes.now }
    requires place { place < length (links_in (node_of bytes.now)) }
    ensures offset { result ≡ 4 + length (prefix_in (node_of bytes.now)) + length (links_in (node_of bytes.now)) + 12 * place }
    ensures within { result + 12 ≤ length bytes.now }
{
    let node = read_sections(bytes);
    4 + node.prefix.len() + node.edges.len() + REF_LEN * place
}

// Gives an inner node a link to a new leaf.
fn attach<B: BlockStore>(
    store: &mut B,
    at: BlockRef,
    rest: &[u8],
    place: usize,
    from: usize,
    value: BlockRef,
) -> Result<Grown, Memory>
    requires tree { IsTreeAt (length rest.now) (B.blocks store.old) at }
    requires owned { Owned (refs_at (length rest.now) (B.blocks store.old) at) (B.blocks store.old) }
    requires short { length rest.now ≤ 16 }
    requires lacks { Lacks (node_of (bytes_at (B.blocks store.old) at)) rest.now place from }
    ensures added { IfOk result (λ new. Becomes (length rest.now) (B.blocks store.old) (B.blocks store.new) at new.at
        (with_entry (entries_at (length rest.now) (B.blocks store.old) at) rest.now value)) }
    ensures more { IfOk result (λ new. length (refs_at (length rest.now) (B.blocks store.new) new.at) ≡ length (refs_at (length rest.now) (B.blocks store.old) at) + new.more) }
    ensures few { IfOk result (λ new. new.more ≤ 2) }
    ensures exact { OnOk result (PlacesExactly (B.blocks store.old) (B.blocks store.new)) }
    ensures served { Served B.step store.old store.new }
    ensures err { OnErr result (B.blocks store.new ≡ B.blocks store.old) }
{
    let leaf = put_block(store, leaf_bytes(&rest[from..], value).as_slice())?;
    let wider = widened(store.bytes(at), place, rest[from - 1], leaf);
    match put_block(store, wider.as_slice()) {
        Ok(new) => {
            store.give_back(at);
            Ok(Grown { at: new, more: 1 })
        }
        Err(error) => {
            store.give_back(leaf);
            Err(error)
        }
    }
}

// Puts a new inner node before one that the key leaves behind so many bytes of its prefix.
fn split<B: BlockStore>(
    store: &mut B,
    at: BlockRef,
    rest: &[u8],
    shared: usize,
    value: BlockRef,
) -> Result<Grown, Memory>
    requires tree { IsTreeAt (length rest.now) (B.blocks store.old) at }
    requires owned { Owned (refs_at (length rest.now) (B.blocks store.old) at) (B.blocks store.old) }
    requires short { length rest.now ≤ 16 }
    requires parts { PartsAt (node_of (bytes_at (B.blocks store.old) at)) rest.now shared }
    ensures added { IfOk result (λ new. Becomes (length rest.now) (B.blocks store.old) (B.blocks store.new) at new.at
        (with_entry (entries_at (length rest.now) (B.blocks store.old) at) rest.now value)) }
    ensures more { IfOk result (λ new. length (refs_at (length rest.now) (B.blocks store.new) new.at) ≡ length (refs_at (length rest.now) (B.blocks store.old) at) + new.more) }
    ensures few { IfOk result (λ new. new.more ≤ 2) }
    ensures exact { OnOk result (PlacesExactly (B.blocks store.old) (B.blocks store.new)) }
    ensures served { Served B.step store.old store.new }
    ensures err { OnErr result (B.blocks store.new ≡ B.blocks store.old) }
{
    let leaf = put_block(store, leaf_bytes(&rest[shared + 1..], value).as_slice())?;
    let node_byte = store.bytes(at)[2 + shared];
    let short = shortened(store.bytes(at), shared + 1);
    let moved = match put_block(store, short.as_slice()) {
        Ok(moved) => moved,
        Err(error) => {
            store.give_back(leaf);
            return Err(error);
        }
    };
    let fork = forked(&rest[..shared], node_byte, moved, rest[shared], leaf);
    match put_block(store, fork.as_slice()) {
        Ok(new) => {
            store.give_back(at);
            Ok(Grown { at: new, more: 2 })
        }
        Err(error) => {
            store.give_back(moved);
            store.give_back(leaf);
            Err(error)
        }
    }
}
